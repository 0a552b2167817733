//! The laws of the address map and of the rings, the contracts of functions that do nothing.

ghost use Rattle.std.specs.Prelude.{◌≡◌, ℕ};
ghost use Rattle.stream_array.specs.Map.{Spot, IsSpot, IsByteOf, PlacesAreFound, FoundAreOfPlaces};
ghost use Rattle.stream_array.specs.Rings.{ChangedRingIsThere, OtherRingsAreKept, OtherContextsAreKept, RingsStayInPlace, EngineLeavesRings, EventsLeaveRings};

/// No byte belongs to two places: not of one ring, of two rings, or of a ring and the event ring.
pub fn spots_are_disjoint()
    ensures { (a b : Spot) (address : ℕ) → IsSpot a → IsSpot b → IsByteOf a address → IsByteOf b address → a ≡ b }
{}

/// Law: the map read backwards finds each place at its first byte, and nothing else.
#[tactic(auto, using(crate::proofs::Spots::spots))]
pub fn addresses_name_places()
    ensures found { PlacesAreFound }
    ensures only { FoundAreOfPlaces }
{}

/// Law: a change of one ring leaves all other rings and contexts as they are, and all rings where they lie. So does a change of
/// the controller's command ring or of the event ring.
#[tactic(auto, using(crate::proofs::Frames::one_ring))]
pub fn one_ring_is_changed()
    ensures changed { ChangedRingIsThere }
    ensures others { OtherRingsAreKept }
    ensures contexts { OtherContextsAreKept }
    ensures lines { RingsStayInPlace }
    ensures engine { EngineLeavesRings }
    ensures events { EventsLeaveRings }
{}
