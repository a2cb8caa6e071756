//! What an iterator over two sides needs of one: its next item from either end, the number of its items, and its size hint; and the
//! size hints of two sides taken together.
//!
//! A side is an optional iterator. One that has returned `None` is dropped and not polled again: nothing is known of an iterator
//! after its `None`.
ghost use Rattle.std.specs.Prelude.{◌≡◌, IfSome};
ghost use Rattle.std.specs.Iterator.{MakesProgress, IsFinite, UpTo};
ghost use Rattle.std.specs.Iterator.SizeHint.{IsWithinCount};
ghost use Rattle.eob_both.specs.Side.{side_steps, side_remaining, side_len};
ghost use Rattle.eob_both.specs.Hints.{hint_max, hint_sum};

// The next item of a side.
#[inline(always)]
pub(crate) fn next_of<I: Iterator>(side: &mut Option<I>) -> Option<I::Item>
    requires { IfSome side.old I.can_next }
    ensures steps { side_steps I.next_gives side.old result side.new }
    ensures goes { MakesProgress (λ o. IfSome o I.can_next) (side_remaining I.remaining) side.old result
        side.new }
{
    match side {
        Some(iter) => match iter.next() {
            Some(item) => Some(item),
            None => {
                *side = None;
                None
            }
        },
        None => None,
    }
}

// The last item of a side.
#[inline(always)]
pub(crate) fn next_back_of<I: DoubleEndedIterator>(side: &mut Option<I>) -> Option<I::Item>
    requires { IfSome side.old I.can_next_back }
    ensures steps { side_steps I.next_back_gives side.old result side.new }
    ensures goes { MakesProgress (λ o. IfSome o I.can_next_back) (side_remaining I.remaining) side.old result
        side.new }
{
    match side {
        Some(iter) => match iter.next_back() {
            Some(item) => Some(item),
            None => {
                *side = None;
                None
            }
        },
        None => None,
    }
}

// How many items a side has left.
#[inline(always)]
pub(crate) fn len_of<I: ExactSizeIterator>(side: &Option<I>) -> usize
    ensures finite { IsFinite (side_remaining I.remaining side.now) }
    ensures value { result ≡ side_len I.remaining side.now }
{
    match side {
        Some(iter) => iter.len(),
        None => 0,
    }
}

// The size hint of a side: exactly no items where it is absent.
pub(crate) fn hint_of<I: Iterator>(side: &Option<I>) -> (usize, Option<usize>)
    ensures lower { IsWithinCount result.0 (side_remaining I.remaining side.now) }
    ensures upper { IfSome result.1 (UpTo (side_remaining I.remaining side.now)) }
    ensures absent { side.now ≡ None → result ≡ (0, Some 0) }
{
    match side {
        Some(iter) => iter.size_hint(),
        None => (0, Some(0)),
    }
}

// The size hint of two sides that are iterated at once.
pub(crate) fn max_hint(
    left: (usize, Option<usize>),
    right: (usize, Option<usize>),
) -> (usize, Option<usize>)
    ensures { result ≡ hint_max left right }
{
    let upper = match (left.1, right.1) {
        (Some(left), Some(right)) => Some(left.max(right)),
        _ => None,
    };
    (left.0.max(right.0), upper)
}

// The size hint of two sides that are iterated one after the other.
pub(crate) fn sum_hint(
    left: (usize, Option<usize>),
    right: (usize, Option<usize>),
) -> (usize, Option<usize>)
    ensures { result ≡ hint_sum left right }
{
    let upper = match (left.1, right.1) {
        (Some(left), Some(right)) => left.checked_add(right),
        _ => None,
    };
    (left.0.saturating_add(right.0), upper)
}
