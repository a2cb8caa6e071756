//! Laws of the normal form: which lists regrouping changes, and which lists it makes equal.
ghost use Rattle.eob_lists.specs.Laws.{EqualPairsLaw, TwiceLaw, UnchangedLaw};

/// Two lists are collected into equal pairs, and regrouped into equal lists, exactly where their left values and their right values
/// agree in order.
pub fn law_equal_pairs<L, R>()
    ensures { EqualPairsLaw L R }
{}

/// Regrouping leaves exactly the normal lists as they are.
pub fn law_unchanged<L, R>()
    ensures { UnchangedLaw L R }
{}

/// Regrouping twice gives what regrouping once gives.
pub fn law_twice<L, R>()
    ensures { TwiceLaw L R }
{}
