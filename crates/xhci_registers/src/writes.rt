//! The page, written.
ghost use Rattle.std.specs.Prelude.{◌≡◌, Bool};
ghost use Rattle.xhci_registers.specs.Writes.{command_written, dequeue_low_written, doorbell_written, has_slots, management_written, operational_written};
ghost use Rattle.xhci_registers.specs.Writes.{port_change_written, ports_written, reset_registers, ring_high_written, ring_low_written, runtime_written};
ghost use Rattle.xhci_registers.specs.Writes.{status_written, word_written};

use crate::bits::{field, is_set, multiple, with_high, with_low};
use crate::{CommandRing, Effect, Interrupter, Port, Registers, Wake};

/// IMODI at a reset (5.5.2.2): 1 ms.
const MODERATION_AT_RESET: u16 = 4000;

const _: () = prove!(MODERATION_AT_RESET == 4000);

impl Registers {
    /// As a reset of the controller leaves them. The disk is plugged in, or isn't.
    pub fn new(attached: bool) -> Registers
        ensures { result ≡ reset_registers attached }
    {
        Registers {
            runs: false,
            interrupts: false,
            host_error_interrupts: false,
            wrap_events: false,
            host_error: false,
            event_interrupt: false,
            port_change: false,
            restore_error: false,
            notifications: 0,
            command_ring: CommandRing {
                pointer: 0,
                cycle: false,
                runs: false,
                low_refused: false,
            },
            contexts: 0,
            config: 0,
            empty_port_wake: Wake::none(),
            port: Port::idle(attached),
            frame_index: 0,
            interrupter: Interrupter {
                pending: false,
                enabled: false,
                moderation: MODERATION_AT_RESET,
                table_size: 0,
                table: 0,
                dequeue: 0,
                segment: 0,
                busy: false,
            },
        }
    }

    /// Whether CONFIG enables the slot (MaxSlotsEn, 5.4.7).
    pub fn has_slots(&self) -> bool
        ensures { result ≡ has_slots self.now }
    {
        field(u32::from(self.config), 0, 0x100) != 0
    }

    /// A write of the word at a multiple of 4, and what it asks for beyond the registers. What is reserved, read-only or isn't there stays
    /// as it is (5.4 to 5.6).
    pub fn write_word(&mut self, at: u64, value: u32) -> Effect
        ensures registers { self.new ≡ (word_written self.old at value).0 }
        ensures effect { result ≡ (word_written self.old at value).1 }
    {
        if at < 0x400 {
            self.write_operational(at, value)
        } else if at < 0x600 {
            self.write_ports(at, value)
        } else if at < 0x800 {
            self.write_runtime(at, value)
        } else {
            self.write_doorbell(at, value)
        }
    }

    fn write_operational(&mut self, at: u64, value: u32) -> Effect
        ensures registers { self.new ≡ (operational_written self.old at value).0 }
        ensures effect { result ≡ (operational_written self.old at value).1 }
    {
        match at {
            0x40 => return self.write_command(value),
            0x44 => self.write_status(value),
            0x54 => self.notifications = field(value, 0, 0x10000) as u16,
            0x58 => return self.write_ring_low(value),
            0x5c => self.write_ring_high(value),
            0x70 => self.contexts = with_low(self.contexts, multiple(value, 64)),
            0x74 => self.contexts = with_high(self.contexts, value),
            0x78 => self.config = field(value, 0, 0x100) as u16,
            _ => {}
        }
        Effect::Nothing
    }

    fn write_ports(&mut self, at: u64, value: u32) -> Effect
        ensures registers { self.new ≡ (ports_written self.old at value).0 }
        ensures effect { result ≡ (ports_written self.old at value).1 }
    {
        match at {
            0x440 => self.empty_port_wake = Wake::of(value),
            0x450 => return self.write_port(value),
            0x454 => self.port.power = field(value, 0, 0x20000),
            _ => {}
        }
        Effect::Nothing
    }

    fn write_runtime(&mut self, at: u64, value: u32) -> Effect
        ensures registers { self.new ≡ (runtime_written self.old at value).0 }
        ensures effect { result ≡ (runtime_written self.old at value).1 }
    {
        match at {
            0x620 => self.write_management(value),
            0x624 => self.interrupter.moderation = field(value, 0, 0x10000) as u16,
            0x628 => self.interrupter.table_size = field(value, 0, 0x10000) as u16,
            0x630 => {
                self.interrupter.table = with_low(self.interrupter.table, multiple(value, 64));
                return Effect::EventRing;
            }
            0x634 => {
                self.interrupter.table = with_high(self.interrupter.table, value);
                return Effect::EventRing;
            }
            0x638 => return self.write_dequeue_low(value),
            0x63c => {
                self.interrupter.dequeue = with_high(self.interrupter.dequeue, value);
                return Effect::Dequeued(false);
            }
            _ => {}
        }
        Effect::Nothing
    }

    fn write_doorbell(&mut self, at: u64, value: u32) -> Effect
        ensures registers { self.new ≡ (doorbell_written self.old at value).0 }
        ensures effect { result ≡ (doorbell_written self.old at value).1 }
    {
        let target = field(value, 0, 0x100) as u8;
        match at {
            0x800 if target == 0 && self.runs => {
                self.command_ring.runs = true;
                Effect::CommandDoorbell
            }
            0x804 if self.has_slots() => {
                Effect::Doorbell(target, field(value, 16, 0x10000) as u16)
            }
            _ => Effect::Nothing,
        }
    }

    /// USBCMD.
    fn write_command(&mut self, value: u32) -> Effect
        ensures registers { self.new ≡ (command_written self.old value).0 }
        ensures effect { result ≡ (command_written self.old value).1 }
    {
        if is_set(value, 1) {
            *self = Registers::new(self.port.attached);
            return Effect::Reset;
        }
        let halts = self.runs && !is_set(value, 0);
        self.runs = is_set(value, 0) && !self.host_error;
        self.interrupts = is_set(value, 2);
        self.host_error_interrupts = is_set(value, 3);
        self.wrap_events = is_set(value, 10);
        self.restore_error = self.restore_error || is_set(value, 9);
        self.command_ring.runs = self.command_ring.runs && is_set(value, 0);
        if halts {
            Effect::Halted
        } else {
            Effect::Nothing
        }
    }

    /// USBSTS.
    fn write_status(&mut self, value: u32)
        ensures { self.new ≡ status_written self.old value }
    {
        self.host_error = self.host_error && !is_set(value, 2);
        self.event_interrupt = self.event_interrupt && !is_set(value, 3);
        self.port_change = self.port_change && !is_set(value, 4);
        self.restore_error = self.restore_error && !is_set(value, 10);
    }

    /// CRCR's low half.
    fn write_ring_low(&mut self, value: u32) -> Effect
        ensures registers { self.new ≡ (ring_low_written self.old value).0 }
        ensures effect { result ≡ (ring_low_written self.old value).1 }
    {
        if !self.command_ring.runs {
            self.command_ring.pointer = with_low(self.command_ring.pointer, multiple(value, 64));
            self.command_ring.cycle = is_set(value, 0);
            self.command_ring.low_refused = false;
            return Effect::Nothing;
        }
        self.command_ring.low_refused = true;
        if is_set(value, 1) || is_set(value, 2) {
            self.command_ring.runs = false;
            Effect::CommandRingStopped
        } else {
            Effect::Nothing
        }
    }

    /// CRCR's high half.
    fn write_ring_high(&mut self, value: u32)
        ensures { self.new ≡ ring_high_written self.old value }
    {
        if !self.command_ring.runs && !self.command_ring.low_refused {
            self.command_ring.pointer = with_high(self.command_ring.pointer, value);
        }
    }

    /// PORTSC of the disk's port.
    fn write_port(&mut self, value: u32) -> Effect
        ensures registers { self.new ≡ (port_change_written self.old value).0 }
        ensures effect { result ≡ (port_change_written self.old value).1 }
    {
        let mut port = self.port;
        let resets = port.write(value);
        self.set_port(port);
        if resets {
            Effect::PortReset
        } else {
            Effect::Nothing
        }
    }

    /// IMAN.
    fn write_management(&mut self, value: u32)
        ensures { self.new ≡ management_written self.old value }
    {
        self.interrupter.pending = self.interrupter.pending && !is_set(value, 0);
        self.interrupter.enabled = is_set(value, 1);
    }

    /// ERDP's low half.
    fn write_dequeue_low(&mut self, value: u32) -> Effect
        ensures registers { self.new ≡ (dequeue_low_written self.old value).0 }
        ensures effect { result ≡ (dequeue_low_written self.old value).1 }
    {
        let clears = self.interrupter.busy && is_set(value, 3);
        self.interrupter.dequeue = with_low(self.interrupter.dequeue, multiple(value, 16));
        self.interrupter.segment = field(value, 0, 8) as u8;
        self.interrupter.busy = self.interrupter.busy && !is_set(value, 3);
        Effect::Dequeued(clears)
    }
}
