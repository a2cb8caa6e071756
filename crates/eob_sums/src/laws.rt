//! What holds of the rows of joins and of tables, as contracts of functions that do nothing: a caller calls one to learn it.
ghost use Rattle.std.specs.Prelude.{◌≡◌, ◌+◌, ℕ, List, Option, Some, count_by, is_none, is_some, length};
ghost use Rattle.std.specs.Prelude.{nat_eq, true};
ghost use Rattle.std.specs.Option.{option_and_then, option_or, option_zip};
ghost use Rattle.std.specs.Ordering.{nat_cmp};
ghost use Rattle.std.specs.declared.cmp.Ordering.TheVariants.{Equal};
ghost use Rattle.eob_both.specs.declared.either_or_both.EitherOrBoth.{EitherOrBoth};
ghost use Rattle.eob_lists.specs.Join.{IsJoin, Rising, value_under};
ghost use Rattle.eob_lists.specs.JoinLaws.{overlaid, shared_keys};
ghost use Rattle.eob_lists.specs.Places.{left_place, right_place};
ghost use Rattle.eob_joins.specs.Tables.{IsKeptOfJoin, IsLeftJoin, SameRows, kept};
ghost use Rattle.eob_sums.specs.Sums.{AreExact, with_rights};

use eob_lists::EitherOrBoth;

/// Of any rows, those with a left value alone, those with a right value alone and those with both are together as many as the rows.
///
/// Call it with rows that are counted by variant.
///
/// # Examples
///
/// ```
/// let rows = vec![in alloc; (1, Left('a')), (2, Both('b', 'x')), (3, Right('y'))]?;
/// law_row_counts(&rows);
/// assert_eq!(rt; rows.iter().filter(|row| row.1.is_both()).count(), 1);
/// ```
pub fn law_row_counts<K, L, R>(rows: &[(K, EitherOrBoth<L, R>)])
    ensures { count_by (λ z. is_none (right_place z.1)) rows.now
        + count_by (λ z. is_none (left_place z.1)) rows.now
        + count_by (λ z. is_some (option_zip (left_place z.1) (right_place z.1))) rows.now
        ≡ length rows.now }
{}

/// The rows of a join counted by variant: those with a left value alone and the keys that both lists have are as many as the left list
/// has, and so on the right; those with both values are as many as the keys that both lists have.
///
/// Call it before the rows of the join are counted.
///
/// # Examples
///
/// ```
/// law_row_counts_of_join::<u32, char, char>();
/// let left = vec![in alloc; (1, 'a'), (3, 'b')]?;
/// let right = vec![in alloc; (3, 'y')]?;
/// assert!(rt; is_rising(&left) && is_rising(&right));
/// let rows = outer_join(alloc, left, right)?;
/// assert_eq!(rt; rows.iter().filter(|row| row.1.is_left()).count(), 1);
/// ```
pub fn law_row_counts_of_join<K: Ord, A, B>()
    ensures lefts { (p : List (K × A)) (q : List (K × B)) (zs : _) → Rising K.cmp p → Rising K.cmp q
        → IsJoin K.cmp p q zs
        → count_by (λ z. is_none (right_place z.1)) zs + shared_keys K.cmp p q ≡ length p }
    ensures rights { (p : List (K × A)) (q : List (K × B)) (zs : _) → Rising K.cmp p → Rising K.cmp q
        → IsJoin K.cmp p q zs
        → count_by (λ z. is_none (left_place z.1)) zs + shared_keys K.cmp p q ≡ length q }
    ensures both { (p : List (K × A)) (q : List (K × B)) (zs : _) → Rising K.cmp p → Rising K.cmp q
        → IsJoin K.cmp p q zs
        → count_by (λ z. is_some (option_zip (left_place z.1) (right_place z.1))) zs ≡ shared_keys K.cmp p q }
{}

/// The rows that a function keeps of a table whose keys strictly increase have under each key what the function keeps of what the table
/// has there, and their keys strictly increase.
///
/// Call it with rows of which a clause says `rows.items ≡ kept f table.items`.
///
/// # Examples
///
/// ```
/// let stock = vec![in alloc; (1, 5), (2, 0)]?;
/// assert!(rt; is_rising(&stock));
/// let some: Vec<(u32, u32)> = stock.into_iter().filter(|row| row.1 > 0).collect(alloc)?;
/// law_kept_rows::<u32, u32, u32>(&some);
/// assert_eq!(rt; some, vec![in alloc; (1, 5)]?);
/// ```
pub fn law_kept_rows<K: Ord, V, W>(rows: &[(K, W)])
    ensures values { (f : V → Option W) (table : _) → Rising K.cmp table → rows.now ≡ kept f table
        → (k : _) → value_under K.cmp rows.now k ≡ option_and_then f (value_under K.cmp table k) }
    ensures rises { (f : V → Option W) (table : _) → Rising K.cmp table → rows.now ≡ kept f table
        → Rising K.cmp rows.now }
{}

/// The rows of a join, each with its right value over its left one, have under each key what the right list has there, and else what the
/// left list has.
///
/// Call it with rows of which a function says `IsKeptOfJoin` with `overlaid`.
///
/// # Examples
///
/// ```
/// let rows = vec![in alloc; (1, 'a')]?;
/// law_kept_overlaid(&rows);
/// assert!(rt; is_rising(&rows));
/// ```
pub fn law_kept_overlaid<K: Ord, V>(rows: &[(K, V)])
    ensures { (p : _) (q : _) → IsKeptOfJoin K.cmp (λ v. Some (overlaid v)) p q rows.now → (k : _)
        → value_under K.cmp rows.now k ≡ option_or (value_under K.cmp q k) (value_under K.cmp p k) }
{}

/// A left join is a list equation: its rows are those of the left list, in order, each with what the right list has under its key. It
/// holds row by row, up to keys that compare as equal, and as lists where such keys are equal, as numbers are.
///
/// Call it before the join is made. Of keys that are numbers, [`law_numbers`] has the premise. Say it by the word `with_rights` in one
/// function, and spelled out as a `map` in the next.
///
/// # Examples
///
/// ```
/// law_left_join_rows::<u32, &str, u32>();
/// let orders = vec![in alloc; (1, "lamp"), (2, "desk")]?;
/// let paid = vec![in alloc; (2, 30)]?;
/// assert!(rt; is_rising(&orders) && is_rising(&paid));
/// let rows = left_join(alloc, orders, paid)?;
/// assert_eq!(rt; rows, vec![in alloc; (1, ("lamp", None)), (2, ("desk", Some(30)))]?);
/// ```
pub fn law_left_join_rows<K: Ord, A, B>()
    ensures alike { (p : List (K × A)) (q : List (K × B)) (rows : _) → Rising K.cmp p
        → IsLeftJoin K.cmp p q rows → SameRows K.cmp rows (with_rights K.cmp q p) }
    ensures same { AreExact K.cmp → (p : List (K × A)) (q : List (K × B)) (rows : _) → Rising K.cmp p
        → IsLeftJoin K.cmp p q rows → rows ≡ with_rights K.cmp q p }
{}

/// Unsigned numbers, and characters, that compare as equal are equal, and those that count as equal: the premises of laws such as
/// `law_same_table` and `law_changed_value` of `eob_joins`.
///
/// Call it beside such a law.
///
/// # Examples
///
/// ```
/// law_numbers();
/// law_same_table::<u32, char>();
/// assert!(rt; is_rising(&[(1, 'a'), (2, 'b')]));
/// ```
pub fn law_numbers()
    ensures exact { AreExact nat_cmp }
    ensures order { (j k : ℕ) → nat_cmp j k ≡ Equal → j ≡ k }
    ensures equality { (j k : ℕ) → nat_eq j k ≡ true → j ≡ k }
{}
