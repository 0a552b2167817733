//! The consumer's end: over memory that holds a ring of the profile's.
ghost use Rattle.guest_profile.specs.Rings.{FrontIsFetched, TrbsAreRead, ItemIsPassed, LinkIsFollowed};
ghost use Rattle.guest_profile.specs.Contexts.{EndIsLooked};

/// A consumer at the ring's dequeue place finds the first pending item, and nothing where none is pending; both read the same TRB in
/// it; behind it the consumer is where the ring's own is, once it has followed the Link.
pub fn consumers_agree()
    ensures front { FrontIsFetched }
    ensures trb { TrbsAreRead }
    ensures passed { ItemIsPassed }
    ensures link { LinkIsFollowed }
{}

/// A look at a context that has that end finds the same.
pub fn ends_are_found()
    ensures { EndIsLooked }
{}
