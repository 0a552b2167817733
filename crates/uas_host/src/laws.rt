//! The laws of the addresses that rings and buffers have together, the contracts of a function that does
//! nothing.
ghost use Rattle.uas_host.specs.Laws.{RingsAreNoBuffers, TrbsNameBuffers};

/// Law: no place of a ring is a byte of a command buffer, a status buffer or a lent window, however long the
/// lent vectors are, and the addresses in the host's TRBs are those of the tag's buffers.
#[tactic(auto, using(crate::proofs::Apart::addresses_apart))]
pub fn rings_and_buffers_lie_apart()
    ensures apart { RingsAreNoBuffers }
    ensures buffers { TrbsNameBuffers }
{}
