//! What holds of every join and of every table, as contracts of functions that do nothing: a caller calls one to learn it.
//!
//! A law costs nothing when it runs. Call one before the call that a clause speaks of, or, where it takes rows, with the rows before
//! they are returned; the examples show both.
ghost use Rattle.eob_joins.specs.Laws.{CopyRowsLaw, CutJoinLaw, JoinSumByLaw, JoinSumLaw, KeptSumLaw};
ghost use Rattle.eob_joins.specs.Laws.{LeftNestedLaw, RightLaw, RightNestedLaw, RightRowsLaw};
ghost use Rattle.eob_joins.specs.Laws.{SelfJoinLaw, SelfRowsLaw};
ghost use Rattle.std.specs.Prelude.{List, Option};
ghost use Rattle.eob_both.specs.declared.either_or_both.EitherOrBoth.{EitherOrBoth};
ghost use Rattle.eob_lists.specs.Join.{Rising};
ghost use Rattle.eob_joins.specs.Tables.{AlikeRowsLaw, IsKeptOfJoin, KeptLaw, KeptRowsLaw, SameRowsLaw};
ghost use Rattle.eob_joins.specs.Tables.{SameTableLaw};

/// What a function keeps of the rows of a join has under each key what the function keeps of what the two lists have there, and its keys
/// strictly increase: so the rows are a table (`IsKeptByKey`), and may be joined again.
///
/// A join of a caller's own, `outer_join_lazily(left, right).filter_map(f).collect(alloc)`, stands in a function that says
/// `IsKeptOfJoin` of its rows. Who calls that function calls this law with the rows that it got, and knows them by look-ups.
///
/// # Examples
///
/// ```
/// let left = vec![in alloc; (1, 'a'), (3, 'b')]?;
/// let right = vec![in alloc; (3, 'y')]?;
/// assert!(rt; is_rising(&left) && is_rising(&right));
/// let rows = inner_join(alloc, left, right)?;
/// law_kept_join::<u32, char, char, (char, char)>(&rows);
/// assert!(rt; is_rising(&rows));
/// ```
pub fn law_kept_join<K: Ord, A, B, W>(rows: &[(K, W)])
    requires { (g : EitherOrBoth A B → Option W) × (p : List (K × A)) × (q : List (K × B))
        × IsKeptOfJoin K.cmp g p q rows.now }
    ensures values { KeptRowsLaw K.cmp A B rows.now }
    ensures rises { Rising K.cmp rows.now }
{}

/// What a function keeps of the rows of any table whose keys strictly increase has under each key what the function keeps of what the table
/// has there.
///
/// Call it before a table is filtered or mapped row by row, where the answer is to be known by look-ups.
///
/// # Examples
///
/// ```
/// law_kept::<u32, u32, u32>();
/// let stock = vec![in alloc; (1, 5), (2, 0)]?;
/// let some: Vec<(u32, u32)> = stock.into_iter().filter(|row| row.1 > 0).collect(alloc)?;
/// assert_eq!(rt; some, vec![in alloc; (1, 5)]?);
/// ```
pub fn law_kept<K: Ord, V, W>()
    ensures { KeptLaw K.cmp V W }
{}

/// Where keys that count as equal are equal, a function of keys has one table: two lists whose keys strictly increase and which have the
/// same under each key are equal. Of other keys, such as texts and vectors, [`law_same_rows`] says it.
///
/// Call it where two tables that were made in two ways are to be equal, as lists.
///
/// # Examples
///
/// ```
/// law_same_table::<u32, char>();
/// let table = vec![in alloc; (1, 'a'), (2, 'b')]?;
/// let copy = vec![in alloc; (1, 'a'), (2, 'b')]?;
/// assert!(rt; is_rising(&table) && is_rising(&copy));
/// let joined = semi_join(alloc, table, copy)?;
/// assert_eq!(rt; joined, vec![in alloc; (1, 'a'), (2, 'b')]?);
/// ```
pub fn law_same_table<K: Ord, V>()
    ensures { SameTableLaw K.cmp V }
{}

/// A function of keys has one table, as far as keys count as equal: two lists whose keys strictly increase and which have the same under
/// each key have, pair by pair, keys that count as equal and the same values.
///
/// Equal texts and equal vectors need not be one value to the checker, since each has room of its own: of such keys this law speaks, and
/// [`law_same_table`] doesn't. Call it where two tables are to be the same, as far as that can be seen.
///
/// # Examples
///
/// ```
/// law_same_rows::<&str, u32>();
/// let table = vec![in alloc; ("a", 1), ("b", 2)]?;
/// let keys = vec![in alloc; ("a", ()), ("b", ())]?;
/// assert!(rt; is_rising(&table) && is_rising(&keys));
/// assert_eq!(rt; semi_join(alloc, table, keys)?, vec![in alloc; ("a", 1), ("b", 2)]?);
/// ```
pub fn law_same_rows<K: Ord, V>()
    ensures { SameRowsLaw K.cmp V }
{}

/// Two lists whose keys strictly increase, and whose values under each key count as equal, count as equal pair by pair: their keys, and
/// their values.
///
/// Call it in place of [`law_same_rows`] where values are texts or vectors too, as in a table that was patched.
///
/// # Examples
///
/// ```
/// law_alike_rows::<u32, &str>();
/// let old = vec![in alloc; (1, "a")]?;
/// let copy = vec![in alloc; (1, "a")]?;
/// let new = vec![in alloc; (1, "b")]?;
/// assert!(rt; is_rising(&old) && is_rising(&copy) && is_rising(&new));
/// let changes = diff(alloc, old, new)?;
/// assert_eq!(rt; apply(alloc, copy, changes)?, vec![in alloc; (1, "b")]?);
/// ```
pub fn law_alike_rows<K: Ord, V: Eq>()
    ensures { AlikeRowsLaw K.cmp V.eq }
{}

/// What a join has on the right is the right list, pair by pair, where keys that count as equal are equal. Of other keys, such as texts,
/// [`law_join_right_rows`] says it.
///
/// Call it where nothing of a table may be lost by a join.
///
/// # Examples
///
/// ```
/// law_join_right::<u32, char, char>();
/// let left = vec![in alloc; (1, 'a'), (3, 'b')]?;
/// let right = vec![in alloc; (2, 'x'), (3, 'y')]?;
/// assert!(rt; is_rising(&left) && is_rising(&right));
/// let joined = outer_join(alloc, left, right)?;
/// assert!(rt; joined.iter().filter(|row| row.1.has_right()).count() == 2);
/// ```
pub fn law_join_right<K: Ord, A, B>()
    ensures { RightLaw K.cmp A B }
{}

/// What a join has on the right is the right list: pair by pair, keys that count as equal, and the same values. No premise on the keys is
/// asked, so that it holds of texts and vectors too.
///
/// Call it before a join of which nothing on the right may be lost.
///
/// # Examples
///
/// ```
/// law_join_right_rows::<&str, char, char>();
/// let left = vec![in alloc; ("a", 'l')]?;
/// let right = vec![in alloc; ("a", 'x'), ("b", 'y')]?;
/// assert!(rt; is_rising(&left) && is_rising(&right));
/// let joined = outer_join(alloc, left, right)?;
/// assert!(rt; joined.iter().all(|row| row.1.has_right()));
/// ```
pub fn law_join_right_rows<K: Ord, A, B>()
    ensures { RightRowsLaw K.cmp A B }
{}

/// The join of a list with itself has each key with its value on both sides, where keys that count as equal are equal. Of other keys,
/// such as texts, [`law_join_self_rows`] says it.
///
/// Call it before a table is joined with one that has the same list.
///
/// # Examples
///
/// ```
/// law_join_self::<u32, char>();
/// let table = vec![in alloc; (1, 'a')]?;
/// let same = vec![in alloc; (1, 'a')]?;
/// assert!(rt; is_rising(&table) && is_rising(&same));
/// assert_eq!(rt; outer_join(alloc, table, same)?, vec![in alloc; (1, Both('a', 'a'))]?);
/// ```
pub fn law_join_self<K: Ord, V>()
    ensures { SelfJoinLaw K.cmp V }
{}

/// The join of a list with itself has each value on both sides, under keys that count as equal to those of the list, in order. No
/// premise on the keys is asked, so that it holds of texts and vectors too.
///
/// Call it before a table is joined with one that has the same list.
///
/// # Examples
///
/// ```
/// law_join_self_rows::<&str, char>();
/// let table = vec![in alloc; ("a", 'x')]?;
/// let same = vec![in alloc; ("a", 'x')]?;
/// assert!(rt; is_rising(&table) && is_rising(&same));
/// assert_eq!(rt; outer_join(alloc, table, same)?, vec![in alloc; ("a", Both('x', 'x'))]?);
/// ```
pub fn law_join_self_rows<K: Ord, V>()
    ensures { SelfRowsLaw K.cmp V }
{}

/// The join of a list with one that counts as equal, such as a clone of it: pair by pair, each row has a key that counts as equal to that
/// of the list, and on both sides values that count as equal to the list's.
///
/// Call it before a table is joined with a clone of it.
///
/// # Examples
///
/// ```
/// law_join_copy::<u32, String>();
/// let table = vec![in alloc; (1, String::from_str(alloc, "a")?)]?;
/// let copy = table.clone()?;
/// assert!(rt; is_rising(&table) && is_rising(&copy));
/// let rows = outer_join(alloc, table, copy)?;
/// assert!(rt; rows.iter().all(|row| row.1.is_both()));
/// ```
pub fn law_join_copy<K: Ord, V: Eq>()
    ensures { CopyRowsLaw K.cmp V.eq }
{}

/// Three lists joined, the first with the join of the two others: each key has exactly what the three lists have there, and the keys
/// strictly increase.
///
/// Call it before the joins are made, where the whole table is wanted. A caller that wants the look-ups alone needs no law for them.
///
/// # Examples
///
/// ```
/// law_right_nested_join::<u32, char, &str, u32>();
/// let first = vec![in alloc; (1, 'a')]?;
/// let second = vec![in alloc; (1, "x"), (2, "y")]?;
/// let third = vec![in alloc; (2, 8)]?;
/// assert!(rt; is_rising(&first) && is_rising(&second) && is_rising(&third));
/// let others = outer_join(alloc, second, third)?;
/// let rows = vec![in alloc; (1, Both('a', Left("x"))), (2, Right(Both("y", 8)))]?;
/// assert_eq!(rt; outer_join(alloc, first, others)?, rows);
/// ```
pub fn law_right_nested_join<K: Ord, A, B, C>()
    ensures { RightNestedLaw K.cmp A B C }
{}

/// Three lists joined, the join of the first two with the third: each key has exactly what the three lists have there, and the keys
/// strictly increase.
///
/// Call it before the joins are made, where the whole table is wanted.
///
/// # Examples
///
/// ```
/// law_left_nested_join::<u32, char, &str, u32>();
/// let first = vec![in alloc; (1, 'a')]?;
/// let second = vec![in alloc; (1, "x"), (2, "y")]?;
/// let third = vec![in alloc; (2, 8)]?;
/// assert!(rt; is_rising(&first) && is_rising(&second) && is_rising(&third));
/// let pairs = outer_join(alloc, first, second)?;
/// let rows = vec![in alloc; (1, Left(Both('a', "x"))), (2, Both(Right("y"), 8))]?;
/// assert_eq!(rt; outer_join(alloc, pairs, third)?, rows);
/// ```
pub fn law_left_nested_join<K: Ord, A, B, C>()
    ensures { LeftNestedLaw K.cmp A B C }
{}

/// Numbers that two lists have by key add up: where each row of a join has the numbers of its two values added, the sum over the rows is
/// the sum over the left list and the sum over the right list. The same of the table that has under each key the numbers added.
///
/// Call it before the join, or before the table is made.
///
/// # Examples
///
/// ```
/// law_join_sum::<u32>();
/// let left = vec![in alloc; (1, 5), (2, 3)]?;
/// let right = vec![in alloc; (2, 4)]?;
/// assert!(rt; is_rising(&left) && is_rising(&right));
/// let mut sum = 0;
/// for row in outer_join(alloc, left, right)? {
///     let (left, right) = row.1.or(0, 0);
///     sum += left + right;
/// }
/// assert_eq!(rt; sum, 12);
/// ```
pub fn law_join_sum<K: Ord>()
    ensures rows { JoinSumLaw K.cmp }
    ensures kept { KeptSumLaw K.cmp }
{}

/// The same of any number that is made of each left value, and of each right value: the sum over the rows of a join, each with the
/// numbers of the values that it has, is the sum over the left list and the sum over the right list.
///
/// Call it before a join whose values are sized or counted, as the lengths of texts.
///
/// # Examples
///
/// ```
/// law_join_sum_by::<u32, &str, &str>();
/// let left = vec![in alloc; (1, "ab"), (2, "c")]?;
/// let right = vec![in alloc; (2, "def")]?;
/// assert!(rt; is_rising(&left) && is_rising(&right));
/// let mut sum = 0;
/// for row in outer_join(alloc, left, right)? {
///     let (left, right) = row.1.or("", "");
///     sum += left.len() + right.len();
/// }
/// assert_eq!(rt; sum, 6);
/// ```
pub fn law_join_sum_by<K: Ord, A, B>()
    ensures { JoinSumByLaw K.cmp A B }
{}

/// Two tables that are cut at a key: where each key of `p1` and `q1` is less than each of `p2` and `q2`, the join of `p1` and `q1`
/// followed by that of `p2` and `q2` is the join of `p1 ++ p2` and `q1 ++ q2`.
///
/// This is what lets a join run on many machines, each with a range of keys, under any engine that partitions by range: the parts are
/// joined apart, and one after the other they are the join of the whole. Call it before the parts are put together.
///
/// # Examples
///
/// ```
/// law_cut_join::<u32, char, char>();
/// let (low_left, low_right) = (vec![in alloc; (1, 'a')]?, vec![in alloc; (2, 'x')]?);
/// let (high_left, high_right) = (vec![in alloc; (3, 'b')]?, vec![in alloc; (3, 'y')]?);
/// assert!(rt; is_rising(&low_left) && is_rising(&low_right));
/// assert!(rt; is_rising(&high_left) && is_rising(&high_right));
/// let mut rows = outer_join(alloc, low_left, low_right)?;
/// rows.extend(outer_join(alloc, high_left, high_right)?)?;
/// let whole = vec![in alloc; (1, Left('a')), (2, Right('x')), (3, Both('b', 'y'))]?;
/// assert_eq!(rt; rows, whole);
/// ```
pub fn law_cut_join<K: Ord, A, B>()
    ensures { CutJoinLaw K.cmp A B }
{}
