//! The handshake: the greeting, the options of a client and the replies to them, as bytes.

ghost use Rattle.std.specs.Prelude.{◌≡◌, ◌<◌, ◌^◌, Ok};
ghost use Rattle.byteorder.specs.Endian.{big_number};
ghost use Rattle.nbd.specs.Handshake.{FitsExport, FitsOption, FitsOptionReply};
ghost use Rattle.nbd.specs.Handshake.{block_sizes_text, export_in, export_text, greeting_in, greeting_text, kind_of, number_of_kind};
ghost use Rattle.nbd.specs.Handshake.{number_of_option, option_in, option_of, option_reply_in, option_reply_text, option_text};

use crate::NotNbd;
use crate::flags::{ClientFlags, ExportFlags, ServerFlags};
use byteorder::{BigEndian, ByteOrder};

/// What a server begins with: `NBDMAGIC`.
pub const SERVER_MAGIC: u64 = 0x4e42_444d_4147_4943;

/// What each option begins with, and the greeting's second word: `IHAVEOPT`.
pub const OPTION_MAGIC: u64 = 0x4948_4156_454f_5054;

/// What each reply to an option begins with.
pub const OPTION_REPLY_MAGIC: u64 = 0x0003_e889_0455_65a9;

const _: () = prove!(SERVER_MAGIC == 0x4e42_444d_4147_4943);

const _: () = prove!(OPTION_MAGIC == 0x4948_4156_454f_5054);

const _: () = prove!(OPTION_REPLY_MAGIC == 0x0003_e889_0455_65a9);

/// The server's first 18 bytes.
#[tactic(auto, unfolding(crate::specs::Handshake::greeting_text))]
pub fn greeting(flags: ServerFlags) -> [u8; 18]
    ensures { result ≡ greeting_text flags }
{
    let mut bytes = [0; 18];
    BigEndian::write_u64(&mut bytes, SERVER_MAGIC);
    BigEndian::write_u64(&mut bytes[8..], OPTION_MAGIC);
    BigEndian::write_u16(&mut bytes[16..], flags.0);
    bytes
}

/// What a server offers in its first 18 bytes; `NotNbd` where they are no greeting.
#[tactic(auto, unfolding(crate::specs::Handshake::greeting_in))]
pub fn read_greeting(bytes: &[u8; 18]) -> Result<ServerFlags, NotNbd>
    ensures { result ≡ greeting_in bytes.now }
{
    if BigEndian::read_u64(bytes) != SERVER_MAGIC
        || BigEndian::read_u64(&bytes[8..]) != OPTION_MAGIC
    {
        return Err(NotNbd);
    }
    Ok(ServerFlags(BigEndian::read_u16(&bytes[16..])))
}

/// What a client takes of the offer, in its first 4 bytes.
pub fn client_flags(bytes: &[u8; 4]) -> ClientFlags
    ensures { result.0 ≡ big_number 4 bytes.now }
{
    ClientFlags(BigEndian::read_u32(bytes))
}

/// What a client asks in the handshake.
#[derive(Clone, Copy, Debug, PartialEq, Eq)]
pub enum OptionKind {
    /// The transmission, of the export of a name. It has no reply but the export's size and flags.
    ExportName,
    /// The end.
    Abort,
    /// The names of all exports.
    List,
    /// What an export is.
    Info,
    /// What an export is, and its transmission.
    Go,
    /// Any other number.
    Other(u32),
}

impl OptionKind {
    /// The option of a number.
    pub fn from_number(number: u32) -> OptionKind
        ensures { result ≡ option_of number }
    {
        match number {
            1 => OptionKind::ExportName,
            2 => OptionKind::Abort,
            3 => OptionKind::List,
            6 => OptionKind::Info,
            7 => OptionKind::Go,
            other => OptionKind::Other(other),
        }
    }

    /// Its number.
    pub fn number(self) -> u32
        ensures { result ≡ number_of_option self }
    {
        match self {
            OptionKind::ExportName => 1,
            OptionKind::Abort => 2,
            OptionKind::List => 3,
            OptionKind::Info => 6,
            OptionKind::Go => 7,
            OptionKind::Other(number) => number,
        }
    }
}

/// An option's head. Its data, `length` bytes, follow it.
#[derive(Clone, Copy, Debug, PartialEq, Eq)]
pub struct OptionHead {
    pub option: OptionKind,
    pub length: u32,
}

impl OptionHead {
    /// The head in 16 bytes; `NotNbd` where they don't begin as one.
    #[tactic(auto, unfolding(crate::specs::Handshake::option_in))]
    pub fn from_bytes(bytes: &[u8; 16]) -> Result<OptionHead, NotNbd>
        ensures { result ≡ option_in bytes.now }
    {
        if BigEndian::read_u64(bytes) != OPTION_MAGIC {
            return Err(NotNbd);
        }
        Ok(OptionHead {
            option: OptionKind::from_number(BigEndian::read_u32(&bytes[8..])),
            length: BigEndian::read_u32(&bytes[12..]),
        })
    }

    /// Its 16 bytes.
    #[tactic(auto, unfolding(crate::specs::Handshake::option_text))]
    pub fn to_bytes(&self) -> [u8; 16]
        ensures { result ≡ option_text self.now }
    {
        let mut bytes = [0; 16];
        BigEndian::write_u64(&mut bytes, OPTION_MAGIC);
        BigEndian::write_u32(&mut bytes[8..], self.option.number());
        BigEndian::write_u32(&mut bytes[12..], self.length);
        bytes
    }
}

/// What a server answers to an option.
#[derive(Clone, Copy, Debug, PartialEq, Eq)]
pub enum ReplyKind {
    /// It is done.
    Ack,
    /// An export's name.
    Server,
    /// What an export is.
    Info,
    /// The server hasn't this option.
    Unsupported,
    /// The option is malformed.
    Invalid,
    /// Any other number.
    Other(u32),
}

impl ReplyKind {
    /// The kind of a number.
    pub fn from_number(number: u32) -> ReplyKind
        ensures { result ≡ kind_of number }
    {
        match number {
            1 => ReplyKind::Ack,
            2 => ReplyKind::Server,
            3 => ReplyKind::Info,
            0x8000_0001 => ReplyKind::Unsupported,
            0x8000_0003 => ReplyKind::Invalid,
            other => ReplyKind::Other(other),
        }
    }

    /// Its number.
    pub fn number(self) -> u32
        ensures { result ≡ number_of_kind self }
    {
        match self {
            ReplyKind::Ack => 1,
            ReplyKind::Server => 2,
            ReplyKind::Info => 3,
            ReplyKind::Unsupported => 0x8000_0001,
            ReplyKind::Invalid => 0x8000_0003,
            ReplyKind::Other(number) => number,
        }
    }
}

/// The head of a reply to an option. Its data, `length` bytes, follow it.
#[derive(Clone, Copy, Debug, PartialEq, Eq)]
pub struct OptionReply {
    pub option: OptionKind,
    pub kind: ReplyKind,
    pub length: u32,
}

impl OptionReply {
    /// The head in 20 bytes; `NotNbd` where they don't begin as one.
    #[tactic(auto, unfolding(crate::specs::Handshake::option_reply_in))]
    pub fn from_bytes(bytes: &[u8; 20]) -> Result<OptionReply, NotNbd>
        ensures { result ≡ option_reply_in bytes.now }
    {
        if BigEndian::read_u64(bytes) != OPTION_REPLY_MAGIC {
            return Err(NotNbd);
        }
        Ok(OptionReply {
            option: OptionKind::from_number(BigEndian::read_u32(&bytes[8..])),
            kind: ReplyKind::from_number(BigEndian::read_u32(&bytes[12..])),
            length: BigEndian::read_u32(&bytes[16..]),
        })
    }

    /// Its 20 bytes.
    #[tactic(auto, unfolding(crate::specs::Handshake::option_reply_text))]
    pub fn to_bytes(&self) -> [u8; 20]
        ensures { result ≡ option_reply_text self.now }
    {
        let mut bytes = [0; 20];
        BigEndian::write_u64(&mut bytes, OPTION_REPLY_MAGIC);
        BigEndian::write_u32(&mut bytes[8..], self.option.number());
        BigEndian::write_u32(&mut bytes[12..], self.kind.number());
        BigEndian::write_u32(&mut bytes[16..], self.length);
        bytes
    }
}

/// An export: its size in bytes, and what it can do.
#[derive(Clone, Copy, Debug, PartialEq, Eq)]
pub struct Export {
    pub size: u64,
    pub flags: ExportFlags,
}

impl Export {
    /// The export in 10 bytes.
    #[tactic(auto, unfolding(crate::specs::Handshake::export_in))]
    pub fn from_bytes(bytes: &[u8; 10]) -> Export
        ensures { result ≡ export_in bytes.now }
    {
        Export {
            size: BigEndian::read_u64(bytes),
            flags: ExportFlags(BigEndian::read_u16(&bytes[8..])),
        }
    }

    /// Its 10 bytes.
    #[tactic(auto, unfolding(crate::specs::Handshake::export_text))]
    pub fn to_bytes(&self) -> [u8; 10]
        ensures { result ≡ export_text self.now }
    {
        let mut bytes = [0; 10];
        BigEndian::write_u64(&mut bytes, self.size);
        BigEndian::write_u16(&mut bytes[8..], self.flags.0);
        bytes
    }
}

/// The sizes of a request in bytes: the least, the preferred and the greatest.
#[derive(Clone, Copy, Debug, PartialEq, Eq)]
pub struct BlockSizes {
    pub least: u32,
    pub preferred: u32,
    pub most: u32,
}

impl BlockSizes {
    /// Its 12 bytes.
    #[tactic(auto, unfolding(crate::specs::Handshake::block_sizes_text))]
    pub fn to_bytes(&self) -> [u8; 12]
        ensures { result ≡ block_sizes_text self.now }
    {
        let mut bytes = [0; 12];
        BigEndian::write_u32(&mut bytes, self.least);
        BigEndian::write_u32(&mut bytes[4..], self.preferred);
        BigEndian::write_u32(&mut bytes[8..], self.most);
        bytes
    }
}

/// Law: what a greeting's bytes are read as is what was offered.
pub fn greeting_reads_back(flags: ServerFlags)
    ensures { greeting_in (greeting_text flags) ≡ Ok flags }
{
    let _flags = flags;
}

/// Law: what the bytes of an option's head are read as is that head.
pub fn option_reads_back(head: &OptionHead)
    requires { FitsOption head.now }
    ensures { option_in (option_text head.now) ≡ Ok head.now }
{
    let _head = *head;
}

/// Law: what the bytes of the head of a reply to an option are read as is that head.
pub fn option_reply_reads_back(head: &OptionReply)
    requires { FitsOptionReply head.now }
    ensures { option_reply_in (option_reply_text head.now) ≡ Ok head.now }
{
    let _head = *head;
}

/// Law: what an export's bytes are read as is that export.
pub fn export_reads_back(export: &Export)
    requires { FitsExport export.now }
    ensures { export_in (export_text export.now) ≡ export.now }
{
    let _export = *export;
}
