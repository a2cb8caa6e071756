//! What holds of each listing, as contracts of functions that do nothing: a caller calls one to learn it.
ghost use Rattle.keyed_cut.specs.Listing.{ListingReadsLaw};

/// The text of a listing reads as its rows, and as no others, whatever the names, the counts and the keys are. So where an earlier cut was
/// is read from what that cut wrote.
pub fn law_listing_reads()
    ensures { ListingReadsLaw }
{}
