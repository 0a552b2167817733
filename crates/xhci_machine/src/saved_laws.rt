//! What holds of saved states, as functions with empty bodies.
ghost use Rattle.xhci_machine.specs.SavedLaws.{ActiveIsExact, KeptIsExact, SavedIsRead, TagsAreExact};

/// Law: what is kept of a controller, of its active tags and of its tags has one text, and each text that is read is the one of its value; and what was saved is read
/// back, the device's bytes that don't matter being 0.
pub fn saved_states_are_read()
    ensures kept { KeptIsExact }
    ensures active { ActiveIsExact }
    ensures tags { TagsAreExact }
    ensures saved { SavedIsRead }
{}
