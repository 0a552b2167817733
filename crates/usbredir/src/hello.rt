//! What each side says of itself, first and once.

ghost use Rattle.std.specs.Prelude.{◌≡◌, ◌+◌, ◌-◌, ◌*◌, ◌/◌, ◌%◌, ◌≤◌, ◌<◌, ◌++◌, ◌∷◌, [], List, length, take, drop, replicate, Ok, Err, IfOk, if◌then◌else◌};
ghost use Rattle.arrayvec.specs.ArrayVec.{array_vec_len};
ghost use Rattle.usbredir.specs.Device.{numbers_in};
ghost use Rattle.usbredir.specs.Hello.{FitsHello, has_capability, hello_head, hello_in, hello_room, hello_text, is_enough, is_hello_length, our_hello};
ghost use Rattle.usbredir.specs.declared.PacketFault.TheVariants as fault;
ghost use Rattle.usbredir.specs.Kinds.{hello_head_text};

use crate::PacketFault;
use crate::guest::put;
use crate::kinds::Head;
use arrayvec::ArrayVec;
use byteorder::{ByteOrder, LittleEndian};

/// The most words of capabilities.
pub const MOST_WORDS: usize = 16;

/// The most bytes of a hello without its head.
pub const MOST_HELLO_BYTES: usize = 128;

/// Our capabilities: 0, 1, 2, 4, 5 and 6.
pub const OUR_CAPABILITIES: u32 = 0x77;

/// A hello: the program's version as text, and its capabilities by number, bit 0 of the first word on.
#[derive(Clone, Debug, Drop, PartialEq, Eq)]
pub struct Hello {
    pub version: [u8; 64],
    pub capabilities: ArrayVec<u32, 16>,
}

/// Whether a hello can have so many bytes behind its head.
fn is_hello_length(count: usize) -> bool
    ensures { result ≡ is_hello_length count }
{
    68 <= count && count <= 128 && count % 4 == 0
}

impl Hello {
    /// How many bytes to read behind a hello's head; `BadHello` where it is none.
    pub fn bytes(head: &Head) -> Result<u32, PacketFault>
        ensures result { result ≡ hello_room head.now }
        ensures few { IfOk result (λ count. count ≤ 128) }
    {
        if head.kind == 0 && is_hello_length(head.length as usize) {
            Ok(head.length)
        } else {
            Err(PacketFault::BadHello)
        }
    }

    /// The hello in the bytes behind its head; `BadHello` where they are not 68 to 128 by fours.
    #[tactic(auto, unfolding(crate::specs::Hello::hello_in))]
    pub fn from_bytes(bytes: &[u8]) -> Result<Hello, PacketFault>
        ensures { result ≡ hello_in bytes.now }
    {
        if !is_hello_length(bytes.len()) {
            return Err(PacketFault::BadHello);
        }
        Ok(Hello {
            version: version(bytes),
            capabilities: words(bytes),
        })
    }

    /// Its head and bytes.
    #[tactic(auto, unfolding(crate::specs::Hello::hello_text))]
    pub fn to_bytes(&self) -> ArrayVec<u8, 140>
        ensures { result.items ≡ hello_head_text (hello_head self.now) ++ hello_text self.now }
    {
        let words = self.capabilities.as_slice();
        let mut capabilities = [0; 64];
        let count = 4 * words.len();
        LittleEndian::write_u32_into(words, &mut capabilities[..count]);
        let head = Head {
            kind: 0,
            length: 64 + count as u32,
            id: 0,
        };
        let mut bytes = ArrayVec::new();
        put(&mut bytes, &head.to_hello_bytes());
        put(&mut bytes, &self.version);
        put(&mut bytes, &capabilities[..count]);
        bytes
    }

    /// Whether it has a capability of its first word.
    pub fn has(&self, capability: u32) -> bool
        requires { capability < 32 }
        ensures { result ≡ has_capability self.now capability }
    {
        match self.capabilities.as_slice().first() {
            None => false,
            Some(word) => word >> capability & 1 == 1,
        }
    }

    /// `MissingCapability` where one that we need is missing: 0, 1, 4, 5 or 6.
    pub fn check(&self) -> Result<(), PacketFault>
        ensures { result ≡ (if is_enough self.now then Ok tt else Err fault.MissingCapability) }
    {
        if self.has(0) && self.has(1) && self.has(4) && self.has(5) && self.has(6) {
            Ok(())
        } else {
            Err(PacketFault::MissingCapability)
        }
    }

    /// Ours.
    pub fn ours() -> Hello
        ensures { result ≡ our_hello }
    {
        let mut version = [0; 64];
        version[..11].copy_from_slice(b"uasdisk usb");
        let mut capabilities = ArrayVec::new();
        capabilities.push(OUR_CAPABILITIES);
        Hello {
            version,
            capabilities,
        }
    }
}

/// The first 64 bytes.
fn version(bytes: &[u8]) -> [u8; 64]
    requires { 64 ≤ length bytes.now }
    ensures { result ≡ take 64 bytes.now }
{
    let mut version = [0; 64];
    version.copy_from_slice(&bytes[..64]);
    version
}

/// The words behind the first 64 bytes.
fn words(bytes: &[u8]) -> ArrayVec<u32, 16>
    requires low { 64 ≤ length bytes.now }
    requires high { length bytes.now ≤ 128 }
    requires whole { length bytes.now % 4 ≡ 0 }
    ensures { result.items ≡ numbers_in 4 ((length bytes.now - 64) / 4) (drop 64 bytes.now) }
{
    let count = (bytes.len() - 64) / 4;
    let mut numbers = [0; 16];
    read_words(&bytes[64..], &mut numbers[..count]);
    let mut words = ArrayVec::new();
    put(&mut words, &numbers[..count]);
    words
}

/// Fills a slice with numbers of 4 bytes each.
fn read_words(bytes: &[u8], into: &mut [u32])
    requires { length bytes.now ≡ 4 * length into.old }
    ensures words { into.new ≡ numbers_in 4 (length into.old) bytes.now }
    ensures len { length into.new ≡ length into.old }
{
    LittleEndian::read_u32_into(bytes, into);
}

/// Law: what a hello's bytes are read as is that hello.
pub fn hello_reads_back(hello: &Hello)
    requires { FitsHello hello.now }
    ensures { hello_in (hello_text hello.now) ≡ Ok hello.now }
{
    let _hello = hello;
}

/// Law: bytes that are read as a hello are its bytes.
pub fn hello_writes_back(bytes: &[u8])
    ensures { IfOk (hello_in bytes.now) (λ hello. hello_text hello ≡ bytes.now) }
{
    let _read = Hello::from_bytes(bytes);
}
