//! What the answers of calls of both ends make together.
ghost use Rattle.eob_lists.specs.Answers.{WholeWalkLaw};

/// As many calls as there are items, or more, take the whole list: what came from the front, and then what came from the back in
/// reverse order.
pub fn law_whole_walk<T>()
    ensures { WholeWalkLaw T }
{}
