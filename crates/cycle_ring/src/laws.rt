//! The laws of addresses, of items and of rings of TRBs, the contracts of functions that do nothing.

ghost use Rattle.cycle_ring.specs.Ring.{AddressesNameItems, AddressesNameItemsOf, NamedItemsHaveAddresses, NamedItemsHaveAddressesOf};
ghost use Rattle.cycle_ring.specs.Items.{Item, TextsAreTheirTrbs, AnyCycleBitIsRead, TrbRingsAgree, TrbsArePut, TrbsAreFreed};

/// Law: the address of an item names that item, and no other address does.
#[tactic(auto, using(crate::proofs::Names::addresses))]
pub fn addresses_name_items()
    ensures named { AddressesNameItems }
    ensures only { NamedItemsHaveAddresses }
    ensures items_named { AddressesNameItemsOf Item }
    ensures items_only { NamedItemsHaveAddressesOf Item }
{}

/// Law: a TRB's text is read as that TRB with either Cycle bit, and no bytes are another item for their Cycle bit.
pub fn items_are_read()
    ensures texts { TextsAreTheirTrbs }
    ensures cycle { AnyCycleBitIsRead }
{}

/// Law: of a ring on which nothing but TRBs stand, what is said by items is what is said by TRBs, and putting and freeing
/// TRBs leaves it such a ring.
pub fn trb_rings_agree()
    ensures agree { TrbRingsAgree }
    ensures put { TrbsArePut }
    ensures freed { TrbsAreFreed }
{}
