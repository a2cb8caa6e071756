//! Joins of tables that are cut into parts: the parts are joined apart, and one after the other they are the join of the whole.
//!
//! `law_cut_join` says it of two parts; here it is said of any number of them, of joins and of what is kept of joins. A merge of three
//! versions whose parts are whole is the merge of the wholes.
ghost use Rattle.eob_joins.specs.Parts.{CutJoinsLaw, CutKeptLaw, CutMadeLaw};

/// Two tables that are cut into as many parts: where each key of a part of either table is less than each key of a later part of either
/// (`AreCut`), and each list is the join of the parts at its place, these lists, one after the other, are the join of the two tables.
///
/// Parts of which this holds are made by boundaries: a row is in the part whose number is how many boundaries are not above its key. Call
/// the law before the parts are put together.
///
/// # Examples
///
/// ```
/// law_cut_joins::<u32, char, char>();
/// let (low_left, low_right) = (vec![in alloc; (1, 'a')]?, vec![in alloc; (2, 'x')]?);
/// let (high_left, high_right) = (vec![in alloc; (3, 'b')]?, vec![in alloc; (3, 'y')]?);
/// assert!(rt; is_rising(&low_left) && is_rising(&low_right));
/// assert!(rt; is_rising(&high_left) && is_rising(&high_right));
/// let mut rows = outer_join(alloc, low_left, low_right)?;
/// rows.extend(outer_join(alloc, high_left, high_right)?)?;
/// assert!(rt; rows.len() == 3);
/// ```
pub fn law_cut_joins<K: Ord, A, B>()
    ensures { CutJoinsLaw K.cmp A B }
{}

/// The same of what a function keeps of the rows of a join: an inner, left, right, semi or anti join, changes, and a table with changes
/// made to it are such (`IsKeptOfJoin`).
///
/// # Examples
///
/// ```
/// law_cut_kept::<u32, char, char, (char, char)>();
/// let (low_left, low_right) = (vec![in alloc; (1, 'a')]?, vec![in alloc; (2, 'x')]?);
/// let (high_left, high_right) = (vec![in alloc; (3, 'b')]?, vec![in alloc; (3, 'y')]?);
/// assert!(rt; is_rising(&low_left) && is_rising(&low_right));
/// assert!(rt; is_rising(&high_left) && is_rising(&high_right));
/// let mut rows = inner_join(alloc, low_left, low_right)?;
/// rows.extend(inner_join(alloc, high_left, high_right)?)?;
/// assert_eq!(rt; rows, vec![in alloc; (3, ('b', 'y'))]?);
/// ```
pub fn law_cut_kept<K: Ord, A, B, W>()
    ensures { CutKeptLaw K.cmp A B W }
{}

/// The same of three tables, and of what a function makes of what they have under each key: `merge_versions` is such, by `merged_place`. The
/// function makes nothing of nothing.
///
/// Where all parts of a merge are whole, they are, one after the other, the merge of the wholes. Call the law where they are put together.
///
/// # Examples
///
/// ```
/// law_cut_made::<u32, char, char, char, char>();
/// let (base, ours) = (vec![in alloc; (1, 'a')]?, vec![in alloc; (1, 'b')]?);
/// let theirs = vec![in alloc; (1, 'a')]?;
/// assert!(rt; is_rising(&base) && is_rising(&ours) && is_rising(&theirs));
/// let whole = Merged::Whole(vec![in alloc; (1, 'b')]?);
/// assert_eq!(rt; merge_versions(alloc, base, ours, theirs)?, whole);
/// ```
pub fn law_cut_made<K: Ord, A, B, C, W>()
    ensures { CutMadeLaw K.cmp A B C W }
{}
