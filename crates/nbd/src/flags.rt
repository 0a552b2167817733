//! The flags of the protocol, by their names.

ghost use Rattle.std.specs.Prelude.{⊤, [], ◌∷◌, codes};

use bitflags::{Flag, Flags, bitflag_items};

/// What a server offers in its greeting.
#[derive(Clone, Copy, Debug, PartialEq, Eq)]
pub struct ServerFlags(pub u16);

bitflag_items! {
    impl ServerFlags: u16 {
        const FIXED_NEWSTYLE = 1;
        const NO_ZEROES = 2;
    }
}

impl Flags for ServerFlags {
    type Bits = u16;

    ghost exact = { ⊤ };

    ghost table = { (codes "FIXED_NEWSTYLE", 1) ∷ (codes "NO_ZEROES", 2) ∷ [] };

    ghost set_of = { λ flags. flags.0 };

    fn flags<'a>() -> &'a [Flag<ServerFlags>] {
        ServerFlags::FLAGS
    }

    fn bits(&self) -> u16 {
        self.0
    }

    fn from_bits_retain(bits: u16) -> ServerFlags {
        ServerFlags(bits)
    }
}

/// What a client takes of it.
#[derive(Clone, Copy, Debug, PartialEq, Eq)]
pub struct ClientFlags(pub u32);

bitflag_items! {
    impl ClientFlags: u32 {
        const FIXED_NEWSTYLE = 1;
        const NO_ZEROES = 2;
    }
}

impl Flags for ClientFlags {
    type Bits = u32;

    ghost exact = { ⊤ };

    ghost table = { (codes "FIXED_NEWSTYLE", 1) ∷ (codes "NO_ZEROES", 2) ∷ [] };

    ghost set_of = { λ flags. flags.0 };

    fn flags<'a>() -> &'a [Flag<ClientFlags>] {
        ClientFlags::FLAGS
    }

    fn bits(&self) -> u32 {
        self.0
    }

    fn from_bits_retain(bits: u32) -> ClientFlags {
        ClientFlags(bits)
    }
}

/// What an export can do.
#[derive(Clone, Copy, Debug, PartialEq, Eq)]
pub struct ExportFlags(pub u16);

bitflag_items! {
    impl ExportFlags: u16 {
        const HAS_FLAGS = 1;
        const READ_ONLY = 2;
        const SEND_FLUSH = 4;
        const SEND_FUA = 8;
    }
}

impl Flags for ExportFlags {
    type Bits = u16;

    ghost exact = { ⊤ };

    ghost table = { (codes "HAS_FLAGS", 1) ∷ (codes "READ_ONLY", 2) ∷ (codes "SEND_FLUSH", 4) ∷ (codes "SEND_FUA", 8) ∷ [] };

    ghost set_of = { λ flags. flags.0 };

    fn flags<'a>() -> &'a [Flag<ExportFlags>] {
        ExportFlags::FLAGS
    }

    fn bits(&self) -> u16 {
        self.0
    }

    fn from_bits_retain(bits: u16) -> ExportFlags {
        ExportFlags(bits)
    }
}

/// How a request is to be done.
#[derive(Clone, Copy, Debug, PartialEq, Eq)]
pub struct RequestFlags(pub u16);

bitflag_items! {
    impl RequestFlags: u16 {
        const FUA = 1;
        const NO_HOLE = 2;
        const DF = 4;
        const REQ_ONE = 8;
        const FAST_ZERO = 16;
    }
}

impl Flags for RequestFlags {
    type Bits = u16;

    ghost exact = { ⊤ };

    ghost table = { (codes "FUA", 1) ∷ (codes "NO_HOLE", 2) ∷ (codes "DF", 4) ∷ (codes "REQ_ONE", 8) ∷ (codes "FAST_ZERO", 16) ∷ [] };

    ghost set_of = { λ flags. flags.0 };

    fn flags<'a>() -> &'a [Flag<RequestFlags>] {
        RequestFlags::FLAGS
    }

    fn bits(&self) -> u16 {
        self.0
    }

    fn from_bits_retain(bits: u16) -> RequestFlags {
        RequestFlags(bits)
    }
}
