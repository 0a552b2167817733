//! The registers.
ghost use Rattle.std.specs.Prelude.{◌≡◌, ◌^◌, ◌<◌, not};
ghost use Rattle.machine_bytes.specs.Forms.{coded, number};
ghost use Rattle.xhci_registers.specs.Bits.{bit, field, is_set};
ghost use Rattle.xhci_registers.specs.Ports.{link_number, wake_in, wake_word};
ghost use Rattle.controller_bytes.specs.Registers.{addresses_form, changes_in, command_in, command_out, command_ring_in, disk_port_in};
ghost use Rattle.controller_bytes.specs.Registers.{empty_port_out, flags_form, half, interrupter_in, link_in, management_in, management_out};
ghost use Rattle.controller_bytes.specs.Registers.{operational_form, pointers_form, pointers_of, port_in, port_out, ports_form};
ghost use Rattle.controller_bytes.specs.Registers.{registers_form, registers_in, runtime_form, same_flag, status_in, status_out, words_form, words_of};

use machine_bytes::{Place, Reader};
use xhci_registers::{Changes, CommandRing, Interrupter, Link, Port, Registers, Wake};

/// USBCMD.
#[derive(Clone, Copy, Debug, PartialEq, Eq)]
struct CommandBits {
    runs: bool,
    interrupts: bool,
    host_error_interrupts: bool,
    wrap_events: bool,
}

/// USBSTS.
#[derive(Clone, Copy, Debug, PartialEq, Eq)]
struct StatusBits {
    halted: bool,
    host_error: bool,
    event_interrupt: bool,
    port_change: bool,
    restore_error: bool,
}

/// PORTSC of the disk's port.
#[derive(Clone, Copy, Debug, PartialEq, Eq)]
struct PortBits {
    connected: bool,
    enabled: bool,
    link: Link,
    changes: Changes,
    wake: Wake,
}

/// IMAN.
#[derive(Clone, Copy, Debug, PartialEq, Eq)]
struct ManagementBits {
    pending: bool,
    enabled: bool,
}

/// USBCMD, USBSTS, DNCTRL, CONFIG.
#[derive(Clone, Copy, Debug, PartialEq, Eq)]
struct OperationalWords {
    command: CommandBits,
    status: StatusBits,
    notifications: u16,
    config: u16,
}

/// PORTSC of both ports, and PORTPMSC of the disk's.
#[derive(Clone, Copy, Debug, PartialEq, Eq)]
struct PortWords {
    empty_port_wake: Wake,
    port: PortBits,
    power: u32,
}

/// MFINDEX, IMAN, IMOD, ERSTSZ.
#[derive(Clone, Copy, Debug, PartialEq, Eq)]
struct RuntimeWords {
    frame_index: u16,
    management: ManagementBits,
    moderation: u16,
    table_size: u16,
}

/// The registers of up to 32 bits.
#[derive(Clone, Copy, Debug, PartialEq, Eq)]
struct Words {
    operational: OperationalWords,
    ports: PortWords,
    runtime: RuntimeWords,
}

/// DCBAAP, ERSTBA, and the pointers of ERDP and CRCR.
#[derive(Clone, Copy, Debug, PartialEq, Eq)]
struct Addresses {
    contexts: u64,
    table: u64,
    dequeue: u64,
    pointer: u64,
}

/// What stands beside them in their registers, and what no register shows.
#[derive(Clone, Copy, Debug, PartialEq, Eq)]
struct Flags {
    cycle: bool,
    runs: bool,
    low_refused: bool,
    segment: u8,
    busy: bool,
    attached: bool,
    owes_event: bool,
}

/// The registers of 64 bits, and what no register shows.
#[derive(Clone, Copy, Debug, PartialEq, Eq)]
struct Pointers {
    addresses: Addresses,
    flags: Flags,
}

/// Whether a bit is set.
fn is_set(word: u32, place: u32) -> bool
    requires { place < 32 }
    ensures { result ≡ is_set word place }
{
    (word >> place) % 2 == 1
}

/// The value of a bit that stands there.
fn bit(set: bool, value: u32) -> u32
    ensures { result ≡ bit set value }
{
    if set { value } else { 0 }
}

/// Reads a register of 16 bits, in the word that has it.
fn read_half(reader: &mut Reader) -> Option<u16>
    ensures { (result, reader.new) ≡ half.read reader.old }
{
    let start = reader.left();
    let word = reader.u32()?;
    if word < 0x1_0000 {
        Some(word as u16)
    } else {
        reader.go_back(start);
        None
    }
}

/// Writes it.
fn write_half(place: Place, cells: &mut [u8], value: u16) -> Place
    ensures { (cells.new, result) ≡ half.write (cells.old, place) value }
{
    place.u32(cells, u32::from(value))
}

impl CommandBits {
    fn of(word: u32) -> CommandBits
        ensures { result ≡ command_in word }
    {
        CommandBits {
            runs: is_set(word, 0),
            interrupts: is_set(word, 2),
            host_error_interrupts: is_set(word, 3),
            wrap_events: is_set(word, 10),
        }
    }

    fn word(&self) -> u32
        ensures { result ≡ command_out self.now }
    {
        bit(self.runs, 1)
            + bit(self.interrupts, 4)
            + bit(self.host_error_interrupts, 8)
            + bit(self.wrap_events, 0x400)
    }
}

fn read_command(reader: &mut Reader) -> Option<CommandBits>
    ensures { (result, reader.new) ≡ (coded 4 command_in command_out).read reader.old }
{
    let start = reader.left();
    let word = reader.u32()?;
    let bits = CommandBits::of(word);
    if bits.word() == word {
        Some(bits)
    } else {
        reader.go_back(start);
        None
    }
}

impl StatusBits {
    fn of(word: u32) -> StatusBits
        ensures { result ≡ status_in word }
    {
        StatusBits {
            halted: is_set(word, 0),
            host_error: is_set(word, 2),
            event_interrupt: is_set(word, 3),
            port_change: is_set(word, 4),
            restore_error: is_set(word, 10),
        }
    }

    fn word(&self) -> u32
        ensures { result ≡ status_out self.now }
    {
        bit(self.halted, 1)
            + bit(self.host_error, 4)
            + bit(self.event_interrupt, 8)
            + bit(self.port_change, 16)
            + bit(self.restore_error, 0x400)
    }
}

fn read_status(reader: &mut Reader) -> Option<StatusBits>
    ensures { (result, reader.new) ≡ (coded 4 status_in status_out).read reader.old }
{
    let start = reader.left();
    let word = reader.u32()?;
    let bits = StatusBits::of(word);
    if bits.word() == word {
        Some(bits)
    } else {
        reader.go_back(start);
        None
    }
}

impl ManagementBits {
    fn of(word: u32) -> ManagementBits
        ensures { result ≡ management_in word }
    {
        ManagementBits {
            pending: is_set(word, 0),
            enabled: is_set(word, 1),
        }
    }

    fn word(&self) -> u32
        ensures { result ≡ management_out self.now }
    {
        bit(self.pending, 1) + bit(self.enabled, 2)
    }
}

fn read_management(reader: &mut Reader) -> Option<ManagementBits>
    ensures { (result, reader.new) ≡ (coded 4 management_in management_out).read reader.old }
{
    let start = reader.left();
    let word = reader.u32()?;
    let bits = ManagementBits::of(word);
    if bits.word() == word {
        Some(bits)
    } else {
        reader.go_back(start);
        None
    }
}

fn wake_of(word: u32) -> Wake
    ensures { result ≡ wake_in word }
{
    Wake {
        connect: is_set(word, 25),
        disconnect: is_set(word, 26),
        over_current: is_set(word, 27),
    }
}

fn wake_word(wake: Wake) -> u32
    ensures word { result ≡ wake_word wake }
    ensures few { result < 2 ^ 28 }
{
    bit(wake.connect, 0x200_0000)
        + bit(wake.disconnect, 0x400_0000)
        + bit(wake.over_current, 0x800_0000)
}

fn read_empty_port(reader: &mut Reader) -> Option<Wake>
    ensures { (result, reader.new) ≡ (coded 4 wake_in empty_port_out).read reader.old }
{
    let start = reader.left();
    let word = reader.u32()?;
    let wake = wake_of(word);
    if 0x2a0 + wake_word(wake) == word {
        Some(wake)
    } else {
        reader.go_back(start);
        None
    }
}

/// The state of a link by its number.
fn link_of(state: u32) -> Link
    ensures { result ≡ link_in state }
{
    match state {
        0 => Link::U0,
        3 => Link::U3,
        4 => Link::Disabled,
        _ => Link::RxDetect,
    }
}

/// The number of a link's state.
fn link_number(link: Link) -> u32
    ensures number { result ≡ link_number link }
    ensures few { result < 6 }
{
    match link {
        Link::U0 => 0,
        Link::U3 => 3,
        Link::Disabled => 4,
        Link::RxDetect => 5,
    }
}

fn changes_of(word: u32) -> Changes
    ensures { result ≡ changes_in word }
{
    Changes {
        connect: is_set(word, 17),
        warm_reset: is_set(word, 19),
        reset: is_set(word, 21),
        link: is_set(word, 22),
    }
}

impl PortBits {
    fn of(word: u32) -> PortBits
        ensures { result ≡ port_in word }
    {
        PortBits {
            connected: is_set(word, 0),
            enabled: is_set(word, 1),
            link: link_of((word >> 5) % 16),
            changes: changes_of(word),
            wake: wake_of(word),
        }
    }

    fn word(&self) -> u32
        ensures { result ≡ port_out self.now }
    {
        bit(self.connected, 1)
            + bit(self.enabled, 2)
            + 32 * link_number(self.link)
            + 512
            + bit(self.connected, 0x1000)
            + bit(self.changes.connect, 0x2_0000)
            + bit(self.changes.warm_reset, 0x8_0000)
            + bit(self.changes.reset, 0x20_0000)
            + bit(self.changes.link, 0x40_0000)
            + wake_word(self.wake)
    }
}

fn read_port(reader: &mut Reader) -> Option<PortBits>
    ensures { (result, reader.new) ≡ (coded 4 port_in port_out).read reader.old }
{
    let start = reader.left();
    let word = reader.u32()?;
    let bits = PortBits::of(word);
    if bits.word() == word {
        Some(bits)
    } else {
        reader.go_back(start);
        None
    }
}

fn read_operational(reader: &mut Reader) -> Option<OperationalWords>
    ensures { (result, reader.new) ≡ operational_form.read reader.old }
{
    let command = read_command(reader)?;
    let status = read_status(reader)?;
    let notifications = read_half(reader)?;
    let config = read_half(reader)?;
    Some(OperationalWords {
        command,
        status,
        notifications,
        config,
    })
}

fn read_ports(reader: &mut Reader) -> Option<PortWords>
    ensures { (result, reader.new) ≡ ports_form.read reader.old }
{
    let empty_port_wake = read_empty_port(reader)?;
    let port = read_port(reader)?;
    let power = reader.u32()?;
    Some(PortWords {
        empty_port_wake,
        port,
        power,
    })
}

fn read_runtime(reader: &mut Reader) -> Option<RuntimeWords>
    ensures { (result, reader.new) ≡ runtime_form.read reader.old }
{
    let frame_index = read_half(reader)?;
    let management = read_management(reader)?;
    let moderation = read_half(reader)?;
    let table_size = read_half(reader)?;
    Some(RuntimeWords {
        frame_index,
        management,
        moderation,
        table_size,
    })
}

/// Reads the registers of up to 32 bits.
fn read_words(reader: &mut Reader) -> Option<Words>
    ensures { (result, reader.new) ≡ words_form.read reader.old }
{
    let operational = read_operational(reader)?;
    let ports = read_ports(reader)?;
    let runtime = read_runtime(reader)?;
    Some(Words {
        operational,
        ports,
        runtime,
    })
}

fn read_addresses(reader: &mut Reader) -> Option<Addresses>
    ensures { (result, reader.new) ≡ addresses_form.read reader.old }
{
    let contexts = reader.u64()?;
    let table = reader.u64()?;
    let dequeue = reader.u64()?;
    let pointer = reader.u64()?;
    Some(Addresses {
        contexts,
        table,
        dequeue,
        pointer,
    })
}

fn read_flags(reader: &mut Reader) -> Option<Flags>
    ensures { (result, reader.new) ≡ flags_form.read reader.old }
{
    let cycle = reader.flag()?;
    let runs = reader.flag()?;
    let low_refused = reader.flag()?;
    let segment = reader.u8()?;
    let busy = reader.flag()?;
    let attached = reader.flag()?;
    let owes_event = reader.flag()?;
    Some(Flags {
        cycle,
        runs,
        low_refused,
        segment,
        busy,
        attached,
        owes_event,
    })
}

/// Reads the registers of 64 bits, and what no register shows.
fn read_pointers(reader: &mut Reader) -> Option<Pointers>
    ensures { (result, reader.new) ≡ pointers_form.read reader.old }
{
    let addresses = read_addresses(reader)?;
    let flags = read_flags(reader)?;
    Some(Pointers { addresses, flags })
}

fn interrupter_of(words: &Words, pointers: &Pointers) -> Interrupter
    ensures { result ≡ interrupter_in words.now pointers.now }
{
    Interrupter {
        pending: words.runtime.management.pending,
        enabled: words.runtime.management.enabled,
        moderation: words.runtime.moderation,
        table_size: words.runtime.table_size,
        table: pointers.addresses.table,
        dequeue: pointers.addresses.dequeue,
        segment: pointers.flags.segment,
        busy: pointers.flags.busy,
    }
}

fn port_of(words: &Words, pointers: &Pointers) -> Port
    ensures { result ≡ disk_port_in words.now pointers.now }
{
    Port {
        attached: pointers.flags.attached,
        connected: words.ports.port.connected,
        enabled: words.ports.port.enabled,
        link: words.ports.port.link,
        changes: words.ports.port.changes,
        owes_event: pointers.flags.owes_event,
        wake: words.ports.port.wake,
        power: words.ports.power,
    }
}

fn command_ring_of(pointers: &Pointers) -> CommandRing
    ensures { result ≡ command_ring_in pointers.now }
{
    CommandRing {
        pointer: pointers.addresses.pointer,
        cycle: pointers.flags.cycle,
        runs: pointers.flags.runs,
        low_refused: pointers.flags.low_refused,
    }
}

fn registers_of(words: &Words, pointers: &Pointers) -> Registers
    ensures { result ≡ registers_in (words.now, pointers.now) }
{
    let operational = &words.operational;
    Registers {
        runs: operational.command.runs,
        interrupts: operational.command.interrupts,
        host_error_interrupts: operational.command.host_error_interrupts,
        wrap_events: operational.command.wrap_events,
        host_error: operational.status.host_error,
        event_interrupt: operational.status.event_interrupt,
        port_change: operational.status.port_change,
        restore_error: operational.status.restore_error,
        notifications: operational.notifications,
        command_ring: command_ring_of(pointers),
        contexts: pointers.addresses.contexts,
        config: operational.config,
        empty_port_wake: words.ports.empty_port_wake,
        port: port_of(words, pointers),
        frame_index: words.runtime.frame_index,
        interrupter: interrupter_of(words, pointers),
    }
}

/// Reads the registers.
pub fn read_registers(reader: &mut Reader) -> Option<Registers>
    ensures { (result, reader.new) ≡ registers_form.read reader.old }
{
    let start = reader.left();
    let words = read_words(reader)?;
    let pointers = read_pointers(reader)?;
    if is_halted_right(&words) {
        Some(registers_of(&words, &pointers))
    } else {
        reader.go_back(start);
        None
    }
}

/// Whether HCH is R/S inverted.
fn is_halted_right(words: &Words) -> bool
    ensures { result ≡ same_flag words.now.operational.status.halted (not words.now.operational.command.runs) }
{
    if words.operational.status.halted {
        !words.operational.command.runs
    } else {
        words.operational.command.runs
    }
}

fn write_operational(place: Place, cells: &mut [u8], registers: &Registers) -> Place
    ensures { (cells.new, result) ≡ operational_form.write (cells.old, place) (words_of registers.now).operational }
{
    let place = place.u32(cells, registers.word(0x40));
    let place = place.u32(cells, registers.word(0x44));
    let place = write_half(place, cells, registers.notifications);
    write_half(place, cells, registers.config)
}

fn write_ports(place: Place, cells: &mut [u8], registers: &Registers) -> Place
    ensures { (cells.new, result) ≡ ports_form.write (cells.old, place) (words_of registers.now).ports }
{
    let place = place.u32(cells, registers.word(0x440));
    let place = place.u32(cells, registers.word(0x450));
    place.u32(cells, registers.port.power)
}

fn write_runtime(place: Place, cells: &mut [u8], registers: &Registers) -> Place
    ensures { (cells.new, result) ≡ runtime_form.write (cells.old, place) (words_of registers.now).runtime }
{
    let place = write_half(place, cells, registers.frame_index);
    let place = place.u32(cells, registers.word(0x620));
    let place = write_half(place, cells, registers.interrupter.moderation);
    write_half(place, cells, registers.interrupter.table_size)
}

fn write_addresses(place: Place, cells: &mut [u8], registers: &Registers) -> Place
    ensures { (cells.new, result) ≡ addresses_form.write (cells.old, place) (pointers_of registers.now).addresses }
{
    let place = place.u64(cells, registers.contexts);
    let place = place.u64(cells, registers.interrupter.table);
    let place = place.u64(cells, registers.interrupter.dequeue);
    place.u64(cells, registers.command_ring.pointer)
}

fn write_flags(place: Place, cells: &mut [u8], registers: &Registers) -> Place
    ensures { (cells.new, result) ≡ flags_form.write (cells.old, place) (pointers_of registers.now).flags }
{
    let place = place.flag(cells, registers.command_ring.cycle);
    let place = place.flag(cells, registers.command_ring.runs);
    let place = place.flag(cells, registers.command_ring.low_refused);
    let place = place.u8(cells, registers.interrupter.segment);
    let place = place.flag(cells, registers.interrupter.busy);
    let place = place.flag(cells, registers.port.attached);
    place.flag(cells, registers.port.owes_event)
}

/// Writes the registers.
pub fn write_registers(place: Place, cells: &mut [u8], registers: &Registers) -> Place
    ensures { (cells.new, result) ≡ registers_form.write (cells.old, place) registers.now }
{
    let place = write_operational(place, cells, registers);
    let place = write_ports(place, cells, registers);
    let place = write_runtime(place, cells, registers);
    let place = write_addresses(place, cells, registers);
    write_flags(place, cells, registers)
}
