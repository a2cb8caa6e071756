//! What holds of the parts that boundaries make, as contracts of functions that do nothing: a caller calls one to learn it.
ghost use Rattle.keyed_parts.specs.Parts.{PartitionedInTurnLaw, PartOrderLaw, PartsBelowLaw};

/// A key of a lesser part is less, whatever the boundaries are.
///
/// ```
/// law_part_order::<u32>();
/// let bounds = Boundaries::new(vec![in alloc; 10]?);
/// assert!(rt; bounds.part_of(&3) < bounds.part_of(&12));
/// ```
pub fn law_part_order<K: Ord>()
    ensures { PartOrderLaw K.cmp }
{}

/// Each key of a part of any rows is less than each key of a later part of any rows. So tables that are cut at the same boundaries can be
/// joined part by part.
///
/// ```
/// law_parts_below::<u32, char, char>();
/// let bounds = Boundaries::new(vec![in alloc; 10]?);
/// let (low, high) = ([(3, 'b')], [(12, 'x')]);
/// assert!(rt; bounds.part_of(&low[0].0) < bounds.part_of(&high[0].0) && low[0].0 < high[0].0);
/// ```
pub fn law_parts_below<K: Ord, V, W>()
    ensures { PartsBelowLaw K.cmp V W }
{}

/// Rows that are partitioned in turn, some first and then others, are partitioned: the rows of a part are those of the first and after
/// them those of the others. So a table can be partitioned while it is read.
///
/// ```
/// law_partitioned_in_turn::<u32, char>();
/// let bounds = Boundaries::new(vec![in alloc; 10]?);
/// let mut high = Vec::new(alloc);
/// for row in [(12, 'a'), (3, 'b'), (10, 'c')] {
///     if bounds.part_of(&row.0) == 1 {
///         high.push(row)?;
///     }
/// }
/// assert_eq!(rt; high, vec![in alloc; (12, 'a'), (10, 'c')]?);
/// ```
pub fn law_partitioned_in_turn<K: Ord, V>()
    ensures { PartitionedInTurnLaw K.cmp V }
{}
