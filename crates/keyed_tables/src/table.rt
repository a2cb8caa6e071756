//! A table: its rows by key.
ghost use Rattle.eob_lists.specs.Join.{Rising};
ghost use Rattle.keyed_tables.specs.RisingRows.{Rising-prop};

/// Rows by key, whose keys strictly increase: each key stands once.
#[derive(Drop)]
pub struct Rows<K: Ord, V> {
    pub pairs: Vec<(K, V)>,
    ghost rises: { Rising K.cmp pairs.items } by { Rising-prop K.cmp pairs.items },
}
