//! Steps of both controllers at a data TRB.
ghost use Rattle.guest_profile.specs.Data.{ChunksAreGiven, ChunksAreTaken, InLinksAreFollowed, OutLinksAreFollowed};

/// A step of a data-in stream whose device gives a chunk, and whose TRB has as many bytes: both put it into the same buffer, post the
/// same event where the TD ends, and meet the same bad block. At a Link the one over memory follows it.
pub fn chunks_in_agree()
    ensures given { ChunksAreGiven }
    ensures link { InLinksAreFollowed }
{}

/// The same of a data-out stream, where the device takes a chunk: both hand it the same bytes.
pub fn chunks_out_agree()
    ensures taken { ChunksAreTaken }
    ensures link { OutLinksAreFollowed }
{}
