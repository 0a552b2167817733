//! Tags and stream arrays (xHCI 4.12.2).
ghost use Rattle.std.specs.Prelude.{◌≡◌, ◌+◌, ◌*◌, ◌-◌, ◌^◌, ◌<◌, ◌≤◌, min, IfOk};
ghost use Rattle.usb_descriptors.specs.Streams.{field_of, numbers_of, streams_of, tags_of};

use crate::{DescriptorFault, MOST_ASKED, Pipes};

/// The tags that have streams, and the arrays of stream contexts for them.
#[derive(Clone, Copy, Debug, PartialEq, Eq)]
pub struct Streams {
    /// Tags are 1 to this number: 2 to 254.
    pub tags: u8,
    /// Stream contexts of each array: a power of two, 4 to 256.
    pub contexts: u16,
    /// MaxPStreams of an endpoint context: 1 to 7.
    pub max_primary_streams: u8,
}

/// How many of the tags asked for have a stream in each pipe with streams and in the controller, whose MaxPSASize is given; and the
/// smallest arrays for them. `NoStreams` for fewer than two tags.
pub fn streams_of(asked: u8, pipes: &Pipes, max_psa_size: u8) -> Result<Streams, DescriptorFault>
    ensures streams { result ≡ streams_of asked pipes.now max_psa_size }
    ensures above { IfOk result (λ streams. streams.tags < streams.contexts) }
    ensures least { IfOk result (λ streams. 4 < streams.contexts → streams.contexts ≤ 2 * streams.tags) }
{
    let tags = tags_of(asked, pipes, max_psa_size);
    if tags < 2 {
        return Err(DescriptorFault::NoStreams);
    }
    let max_primary_streams = field_of(tags);
    Ok(Streams {
        tags,
        contexts: 2 << max_primary_streams,
        max_primary_streams,
    })
}

fn tags_of(asked: u8, pipes: &Pipes, max_psa_size: u8) -> u8
    ensures value { result ≡ tags_of asked pipes.now max_psa_size }
    ensures most { result ≤ MOST_ASKED }
{
    let tags = asked.min(MOST_ASKED);
    let tags = with_numbers(tags, u16::from(max_psa_size) + 1);
    let tags = with_numbers(tags, u16::from(pipes.status.max_streams));
    let tags = with_numbers(tags, u16::from(pipes.data_in.max_streams));
    with_numbers(tags, u16::from(pipes.data_out.max_streams))
}

/// No more tags than 2 to a power contexts have stream numbers.
fn with_numbers(tags: u8, exponent: u16) -> u8
    requires { tags ≤ MOST_ASKED }
    ensures value { result ≡ min tags (numbers_of exponent) }
    ensures most { result ≤ MOST_ASKED }
{
    if exponent < 8 {
        tags.min((1 << exponent) - 1)
    } else {
        tags
    }
}

fn field_of(tags: u8) -> u8
    ensures value { result ≡ field_of tags }
    ensures most { result ≤ 7 }
{
    match tags {
        0..4 => 1,
        4..8 => 2,
        8..16 => 3,
        16..32 => 4,
        32..64 => 5,
        64..128 => 6,
        128.. => 7,
    }
}
