//! The steps, one TRB each, and the events that they post.
ghost use Rattle.std.specs.Prelude.{◌≡◌};
ghost use Rattle.uas_controller.specs.Steps.{command_by, data_by, engine_by, event_by, status_by};

use crate::Machine;
use crate::memory::whole;
use event_ring::Event;
use uas_profile::MOST_EVENTS;
use xhci_ctl::Acted;

impl Machine {
    /// A step of the command pipe (4.11). It is due where the pipe's ring has a pending item and the event ring has room: the device
    /// receives the bytes that the TRB names, at most 32 of one buffer, and the event has code 1, Success. What is foreign is stepped
    /// over. Acted on the tag of the task that began, else on 0.
    pub fn command_step(&mut self) -> Acted
        ensures { command_by self.old ≡ (self.new, result) }
    {
        // The controller's own clauses leave open what it does of a foreign front while the event ring is full.
        if self.lines.len() >= MOST_EVENTS {
            return Acted::Idle;
        }
        whole(&self.frames);
        self.controller
            .command_step(&mut self.lines, &self.frames, &mut self.target)
    }

    /// A step of a tag's data streams (4.11, 4.12). It is due where the device gives or takes a chunk on the tag, the stream of that
    /// way is armed and the event ring has room: the chunk moves, and the event of a TD's last TRB has code 1, Success. A chunk that
    /// meets a bad block ends the command and leaves the TRB. What is foreign in front of an armed stream is stepped over whatever
    /// the device does: first on data-in, then on data-out.
    pub fn data_step(&mut self, tag: u16) -> Acted
        ensures { data_by self.old tag ≡ (self.new, result) }
    {
        whole(&self.frames);
        self.controller
            .data_step(&mut self.lines, &mut self.frames, &mut self.target, tag)
    }

    /// A step of a tag's status stream (4.11, 4.12). It is due where the device has ended the tag's task, the stream is armed and the
    /// event ring has room: the unit is written where the TRB points, and the event has code 13, Short Packet. What is foreign in front
    /// of the armed stream is stepped over whatever the device does.
    pub fn status_step(&mut self, tag: u16) -> Acted
        ensures { status_by self.old tag ≡ (self.new, result) }
    {
        whole(&self.frames);
        self.controller
            .status_step(&mut self.lines, &mut self.frames, &mut self.target, tag)
    }

    /// A step of the controller's own command ring (4.6): Stop Endpoint (4.6.9), Set TR Dequeue Pointer (4.6.10), and TRB Error for
    /// all else. It is due where the ring has a pending item and the event ring has room. Acted on 0.
    pub fn engine_step(&mut self) -> Acted
        ensures { engine_by self.old ≡ (self.new, result) }
    {
        self.controller.engine_step(&mut self.lines)
    }

    /// Takes the oldest event off the event ring (4.9.4), if there is one.
    pub fn take_event(&mut self) -> Option<Event>
        ensures { event_by self.old ≡ (self.new, result) }
    {
        self.lines.take()
    }
}
