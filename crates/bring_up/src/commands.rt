//! A command on the command ring (xHCI 1.2, 4.6.1 and 4.9.3): one at a time.
ghost use Rattle.std.specs.Prelude.{◌≡◌, ◌<◌, ◌^◌, not};
ghost use Rattle.byteorder.specs.Endian.{little_bytes};
ghost use Rattle.bring_up.specs.CommandRings.{begun_command, command_address, command_link, command_put, commands_begun, next_command, put_after};

use crate::access::{Access, Stored, later, store_in, write_at};
use crate::controller::Controller;
use crate::service::Service;
use crate::step::Step;
use crate::why::Why;
use byteorder::{ByteOrder, LittleEndian};
use host_layout::{Fixed, Layout};
use host_trbs::{LinkTrb, Words};

/// A command of the table.
#[derive(Clone, Copy)]
pub enum Asked {
    EnableSlot,
    AddressDevice,
    /// The slot is taken back, and then the port is reset, or looked at as one without a device, or its device refused.
    ResetPort,
    Forget,
    Refuse(Why),
}

/// How a command is put.
#[derive(Clone, Copy)]
pub enum Putting {
    /// The Link behind the last place gets its Cycle bit.
    Link,
    /// The TRB is stored, not yet the controller's; then its last word, with its Cycle bit.
    Body,
    Last,
    /// The doorbell of the command ring is rung.
    Bell,
}

/// How a command ended: its completion code, and a slot.
#[derive(Clone, Copy)]
pub struct Completed {
    pub code: u8,
    pub slot: u8,
}

/// Where the next command is put: its place on the command ring, and its Cycle bit.
#[derive(Clone, Copy)]
pub struct CommandRing {
    pub place: u8,
    pub cycle: bool,
}

/// The last place of a command: behind it is the Link.
const LAST_PLACE: u8 = 14;

/// ms that a command has.
pub const COMMAND_LIMIT: u64 = 5000;

impl CommandRing {
    pub(crate) fn begun() -> CommandRing
        ensures { result ≡ commands_begun }
    {
        CommandRing {
            place: 0,
            cycle: true,
        }
    }

    /// Behind one more command.
    pub fn next(self) -> CommandRing
        ensures { result ≡ next_command self }
    {
        if self.place >= LAST_PLACE {
            CommandRing {
                place: 0,
                cycle: !self.cycle,
            }
        } else {
            CommandRing {
                place: self.place + 1,
                cycle: self.cycle,
            }
        }
    }

    /// Where the next command is put.
    pub fn address(self, layout: &Layout) -> u64
        ensures { result ≡ command_address self layout.now }
    {
        later(layout.fixed(Fixed::CommandRing), 16 * u64::from(self.place))
    }

    /// How it begins to be put.
    pub fn begun_command(self) -> Putting
        ensures { result ≡ begun_command self }
    {
        if self.place >= LAST_PLACE {
            Putting::Link
        } else {
            Putting::Body
        }
    }

    /// An access of putting a command; `now` and `before` are its words with its Cycle bit, and with the other.
    pub fn put(
        self,
        c: &Controller,
        layout: &Layout,
        at: Putting,
        words: Words,
        before: Words,
    ) -> Access
        ensures { result ≡ command_put self c.now layout.now at words before }
    {
        let address = self.address(layout);
        match at {
            Putting::Link => store_in(
                Some(later(layout.fixed(Fixed::CommandRing), 240)),
                Stored::Sixteen(self.link(layout).bytes()),
            ),
            Putting::Body => store_in(Some(address), Stored::Sixteen(before.bytes())),
            Putting::Last => store_in(
                Some(later(address, 12)),
                Stored::Four(word_bytes(words.control)),
            ),
            Putting::Bell => write_at(c.doorbell(0), 0),
        }
    }

    /// The Link to the ring's first place.
    fn link(self, layout: &Layout) -> Words
        ensures { result ≡ command_link self layout.now }
    {
        let link = LinkTrb {
            to: layout.fixed(Fixed::CommandRing),
            toggles: true,
        };
        link.words(self.cycle)
    }
}

/// What comes after an access of putting a command: its event is awaited.
pub(crate) fn put_after(asked: Asked, at: Putting, now: u64) -> Step
    ensures { result ≡ put_after asked at now }
{
    match at {
        Putting::Link => Step::Command {
            asked,
            at: Putting::Body,
        },
        Putting::Body => Step::Command {
            asked,
            at: Putting::Last,
        },
        Putting::Last => Step::Command {
            asked,
            at: Putting::Bell,
        },
        Putting::Bell => Step::Serve {
            asked,
            came: None,
            service: Service::begun(now, COMMAND_LIMIT),
        },
    }
}

/// The four bytes of a word, low byte first.
fn word_bytes(word: u32) -> [u8; 4]
    ensures { result ≡ little_bytes 4 word }
{
    let mut bytes = [0; 4];
    LittleEndian::write_u32(&mut bytes, word);
    bytes
}
