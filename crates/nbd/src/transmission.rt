//! The requests of a client and the replies of a server, as bytes.

ghost use Rattle.std.specs.Prelude.{◌≡◌, Ok, IfOk};
ghost use Rattle.nbd.specs.Transmission.{FitsReply, FitsRequest, IsCommand, command_of, error_of, number_of_command, number_of_error, reply_in, reply_text};
ghost use Rattle.nbd.specs.Transmission.{request_in, request_text};

use crate::NotNbd;
use crate::flags::RequestFlags;
use byteorder::{BigEndian, ByteOrder};

/// Bytes of a request, without the data of a WRITE.
pub const REQUEST_BYTES: usize = 28;

/// Bytes of a simple reply, without the data of a READ.
pub const REPLY_BYTES: usize = 16;

/// What a request begins with.
pub const REQUEST_MAGIC: u32 = 0x2560_9513;

/// What a simple reply begins with.
pub const REPLY_MAGIC: u32 = 0x6744_6698;

const _: () = prove!(REQUEST_MAGIC == 0x2560_9513 && REPLY_MAGIC == 0x6744_6698);

/// What a client asks for.
#[derive(Clone, Copy, Debug, PartialEq, Eq)]
pub enum Command {
    Read,
    Write,
    Disconnect,
    Flush,
    /// Any other number: 4 and above.
    Other(u16),
}

impl Command {
    /// The command of a number.
    pub fn from_number(number: u16) -> Command
        ensures { result ≡ command_of number }
    {
        match number {
            0 => Command::Read,
            1 => Command::Write,
            2 => Command::Disconnect,
            3 => Command::Flush,
            other => Command::Other(other),
        }
    }

    /// Its number.
    pub fn number(self) -> u16
        ensures { result ≡ number_of_command self }
    {
        match self {
            Command::Read => 0,
            Command::Write => 1,
            Command::Disconnect => 2,
            Command::Flush => 3,
            Command::Other(number) => number,
        }
    }
}

/// A request. The data of a WRITE, `length` bytes, follow it.
#[derive(Clone, Copy, Debug, PartialEq, Eq)]
pub struct Request {
    pub flags: RequestFlags,
    pub command: Command,
    /// The client's own number of it, which comes back in the reply.
    pub cookie: u64,
    /// The first byte of the export that it is about.
    pub offset: u64,
    /// How many bytes.
    pub length: u32,
}

impl Request {
    /// The request in 28 bytes; `NotNbd` where they don't begin as one.
    #[tactic(auto, unfolding(crate::specs::Transmission::request_in))]
    pub fn from_bytes(bytes: &[u8; 28]) -> Result<Request, NotNbd>
        ensures { result ≡ request_in bytes.now }
    {
        if BigEndian::read_u32(bytes) != REQUEST_MAGIC {
            return Err(NotNbd);
        }
        Ok(Request {
            flags: RequestFlags(BigEndian::read_u16(&bytes[4..])),
            command: Command::from_number(BigEndian::read_u16(&bytes[6..])),
            cookie: BigEndian::read_u64(&bytes[8..]),
            offset: BigEndian::read_u64(&bytes[16..]),
            length: BigEndian::read_u32(&bytes[24..]),
        })
    }

    /// Its 28 bytes.
    #[tactic(auto, unfolding(crate::specs::Transmission::request_text))]
    pub fn to_bytes(&self) -> [u8; 28]
        ensures { result ≡ request_text self.now }
    {
        let mut bytes = [0; 28];
        BigEndian::write_u32(&mut bytes, REQUEST_MAGIC);
        BigEndian::write_u16(&mut bytes[4..], self.flags.0);
        BigEndian::write_u16(&mut bytes[6..], self.command.number());
        BigEndian::write_u64(&mut bytes[8..], self.cookie);
        BigEndian::write_u64(&mut bytes[16..], self.offset);
        BigEndian::write_u32(&mut bytes[24..], self.length);
        bytes
    }
}

/// How a request ended.
#[derive(Clone, Copy, Debug, PartialEq, Eq)]
pub enum ErrorNumber {
    /// It was done.
    None,
    /// EIO.
    Io,
    /// ENOMEM.
    NoMemory,
    /// EINVAL.
    Invalid,
    /// ENOSPC.
    NoSpace,
    /// Any other number.
    Other(u32),
}

impl ErrorNumber {
    /// The error of a number.
    pub fn from_number(number: u32) -> ErrorNumber
        ensures { result ≡ error_of number }
    {
        match number {
            0 => ErrorNumber::None,
            5 => ErrorNumber::Io,
            12 => ErrorNumber::NoMemory,
            22 => ErrorNumber::Invalid,
            28 => ErrorNumber::NoSpace,
            other => ErrorNumber::Other(other),
        }
    }

    /// Its number.
    pub fn number(self) -> u32
        ensures { result ≡ number_of_error self }
    {
        match self {
            ErrorNumber::None => 0,
            ErrorNumber::Io => 5,
            ErrorNumber::NoMemory => 12,
            ErrorNumber::Invalid => 22,
            ErrorNumber::NoSpace => 28,
            ErrorNumber::Other(number) => number,
        }
    }
}

/// A simple reply. The data of a READ that was done follow it.
#[derive(Clone, Copy, Debug, PartialEq, Eq)]
pub struct Reply {
    pub error: ErrorNumber,
    /// The request's own.
    pub cookie: u64,
}

impl Reply {
    /// The reply in 16 bytes; `NotNbd` where they don't begin as one.
    #[tactic(auto, unfolding(crate::specs::Transmission::reply_in))]
    pub fn from_bytes(bytes: &[u8; 16]) -> Result<Reply, NotNbd>
        ensures { result ≡ reply_in bytes.now }
    {
        if BigEndian::read_u32(bytes) != REPLY_MAGIC {
            return Err(NotNbd);
        }
        Ok(Reply {
            error: ErrorNumber::from_number(BigEndian::read_u32(&bytes[4..])),
            cookie: BigEndian::read_u64(&bytes[8..]),
        })
    }

    /// Its 16 bytes.
    #[tactic(auto, unfolding(crate::specs::Transmission::reply_text))]
    pub fn to_bytes(&self) -> [u8; 16]
        ensures { result ≡ reply_text self.now }
    {
        let mut bytes = [0; 16];
        BigEndian::write_u32(&mut bytes, REPLY_MAGIC);
        BigEndian::write_u32(&mut bytes[4..], self.error.number());
        BigEndian::write_u64(&mut bytes[8..], self.cookie);
        bytes
    }
}

/// Law: what a request's bytes are read as is that request.
pub fn request_reads_back(request: &Request)
    requires { FitsRequest request.now }
    ensures { request_in (request_text request.now) ≡ Ok request.now }
{
    let _request = *request;
}

/// Law: what a reply's bytes are read as is that reply.
pub fn reply_reads_back(reply: &Reply)
    requires { FitsReply reply.now }
    ensures { reply_in (reply_text reply.now) ≡ Ok reply.now }
{
    let _reply = *reply;
}

/// Law: bytes that are read as a request are its bytes, and its command is named by its own name.
pub fn request_writes_back(bytes: &[u8; 28])
    ensures text { IfOk (request_in bytes.now) (λ request. request_text request ≡ bytes.now) }
    ensures named { IfOk (request_in bytes.now) (λ request. IsCommand request.command) }
{
    let _read = Request::from_bytes(bytes);
}

/// Law: bytes that are read as a reply are its bytes.
pub fn reply_writes_back(bytes: &[u8; 16])
    ensures { IfOk (reply_in bytes.now) (λ reply. reply_text reply ≡ bytes.now) }
{
    let _read = Reply::from_bytes(bytes);
}
