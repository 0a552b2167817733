//! The bytes of TRBs and contexts, as a driver whose memory begins at 10000000h writes them for a disk on port 1, with 15 streams;
//! and the two round trips of words and bytes.
ghost use Rattle.std.specs.Prelude.{◌≡◌, [], ◌∷◌, ◌++◌, replicate, true, false};
ghost use Rattle.host_trbs.specs.Commands.{command_words};
ghost use Rattle.host_trbs.specs.Contexts.{endpoint_context, input_control, slot_context, stream_context};
ghost use Rattle.host_trbs.specs.Events.{event_in};
ghost use Rattle.host_trbs.specs.Transfers.{data_words, link_words, setup_words, status_stage_words};
ghost use Rattle.host_trbs.specs.Words.{bytes_of, cycle_in, words_in, words_of};

use crate::{Command, DataTrb, Dequeue, EndpointKind, Event, Words};

/// Words are read back from their bytes.
pub fn words_read_back(parameter: u64, status: u32, control: u32)
    ensures { let words = words_of parameter status control in words_in (bytes_of words) ≡ words }
{
    let _words = (parameter, status, control);
}

/// Bytes are those of the words that are read from them.
pub fn bytes_write_back(bytes: &[u8; 16])
    ensures { bytes_of (words_in bytes.now) ≡ bytes.now }
{
    let _words = Words::from_bytes(bytes);
}

/// Enable Slot, Address Device and Configure Endpoint of slot 1.
#[tactic(auto, unfolding(crate::specs::Words::bytes_of))]
pub fn command_bytes()
    // 00000000000000000000000001240000
    ensures enable_slot { bytes_of (command_words (Command.EnableSlot 0) true) ≡ 0 ∷ 0 ∷ 0 ∷ 0 ∷ 0 ∷ 0 ∷ 0 ∷ 0 ∷ 0 ∷ 0 ∷ 0 ∷ 0 ∷ 1 ∷ 36 ∷ 0 ∷ 0 ∷ [] }
    // 001000100000000000000000012c0001
    ensures address_device { bytes_of (command_words (Command.AddressDevice 268439552 1) true) ≡ 0 ∷ 16 ∷ 0 ∷ 16 ∷ 0 ∷ 0 ∷ 0 ∷ 0 ∷ 0 ∷ 0 ∷ 0 ∷ 0 ∷ 1 ∷ 44 ∷ 0 ∷ 1 ∷ [] }
    // 00100010000000000000000001300001
    ensures configure_endpoint { bytes_of (command_words (Command.ConfigureEndpoint 268439552 1) true) ≡ 0 ∷ 16 ∷ 0 ∷ 16 ∷ 0 ∷ 0 ∷ 0 ∷ 0 ∷ 0 ∷ 0 ∷ 0 ∷ 0 ∷ 1 ∷ 48 ∷ 0 ∷ 1 ∷ [] }
{}

/// SET_CONFIGURATION 1 and the Link behind it.
#[tactic(auto, unfolding(crate::specs::Words::bytes_of))]
pub fn control_transfer_bytes()
    // 00090100000000000800000041080000
    ensures setup { bytes_of (setup_words (record { request_type = 0; request = 9; value = 1; index = 0; length = 0 }) true) ≡ 0 ∷ 9 ∷ 1 ∷ 0 ∷ 0 ∷ 0 ∷ 0 ∷ 0 ∷ 8 ∷ 0 ∷ 0 ∷ 0 ∷ 65 ∷ 8 ∷ 0 ∷ 0 ∷ [] }
    // 00000000000000000000000021100100
    ensures status { bytes_of (status_stage_words (record { request_type = 0; request = 9; value = 1; index = 0; length = 0 }) true) ≡ 0 ∷ 0 ∷ 0 ∷ 0 ∷ 0 ∷ 0 ∷ 0 ∷ 0 ∷ 0 ∷ 0 ∷ 0 ∷ 0 ∷ 33 ∷ 16 ∷ 1 ∷ 0 ∷ [] }
    // c0090010000000000000000001180000
    ensures link { bytes_of (link_words (record { to = 268437952; toggles = false }) true) ≡ 192 ∷ 9 ∷ 0 ∷ 16 ∷ 0 ∷ 0 ∷ 0 ∷ 0 ∷ 0 ∷ 0 ∷ 0 ∷ 0 ∷ 1 ∷ 24 ∷ 0 ∷ 0 ∷ [] }
{}

/// The data-in TD of a READ of 4,096 bytes across a 64 KiB boundary, the status TRB and the command's TRB.
#[tactic(auto, unfolding(crate::specs::Words::bytes_of))]
pub fn data_bytes()
    // 00f80020000000000008040015040000
    ensures first_half { bytes_of (data_words (record { at = 536934400; length = 2048; packets_left = 2; is_last = false; is_in = true }) true) ≡ 0 ∷ 248 ∷ 0 ∷ 32 ∷ 0 ∷ 0 ∷ 0 ∷ 0 ∷ 0 ∷ 8 ∷ 4 ∷ 0 ∷ 21 ∷ 4 ∷ 0 ∷ 0 ∷ [] }
    // 00000120000000000008000025040000
    ensures second_half { bytes_of (data_words (record { at = 536936448; length = 2048; packets_left = 0; is_last = true; is_in = true }) true) ≡ 0 ∷ 0 ∷ 1 ∷ 32 ∷ 0 ∷ 0 ∷ 0 ∷ 0 ∷ 0 ∷ 8 ∷ 0 ∷ 0 ∷ 37 ∷ 4 ∷ 0 ∷ 0 ∷ [] }
    // 00010110000000007000000025040000
    ensures status { bytes_of (data_words (record { at = 268501248; length = 112; packets_left = 0; is_last = true; is_in = true }) true) ≡ 0 ∷ 1 ∷ 1 ∷ 16 ∷ 0 ∷ 0 ∷ 0 ∷ 0 ∷ 112 ∷ 0 ∷ 0 ∷ 0 ∷ 37 ∷ 4 ∷ 0 ∷ 0 ∷ [] }
    // 00000110000000002000000021040000
    ensures command { bytes_of (data_words (record { at = 268500992; length = 32; packets_left = 0; is_last = true; is_in = false }) true) ≡ 0 ∷ 0 ∷ 1 ∷ 16 ∷ 0 ∷ 0 ∷ 0 ∷ 0 ∷ 32 ∷ 0 ∷ 0 ∷ 0 ∷ 33 ∷ 4 ∷ 0 ∷ 0 ∷ [] }
{}

/// The contexts of Address Device and of Configure Endpoint, and a stream context.
#[tactic(auto, unfolding(crate::specs::Contexts::context_bytes, crate::specs::Words::bytes_of))]
pub fn context_bytes()
    // 0000000003000000
    ensures address_flags { input_control 0 3 ≡ (0 ∷ 0 ∷ 0 ∷ 0 ∷ 3 ∷ 0 ∷ 0 ∷ 0 ∷ []) ++ replicate 24 0 }
    // 00000000a5010000
    ensures configure_flags { input_control 0 421 ≡ (0 ∷ 0 ∷ 0 ∷ 0 ∷ 165 ∷ 1 ∷ 0 ∷ 0 ∷ []) ++ replicate 24 0 }
    // 0000400800000100
    ensures one_entry { slot_context (record { speed = 4; entries = 1; port = 1 }) ≡ (0 ∷ 0 ∷ 64 ∷ 8 ∷ 0 ∷ 0 ∷ 1 ∷ 0 ∷ []) ++ replicate 24 0 }
    // 0000404000000100
    ensures eight_entries { slot_context (record { speed = 4; entries = 8; port = 1 }) ≡ (0 ∷ 0 ∷ 64 ∷ 64 ∷ 0 ∷ 0 ∷ 1 ∷ 0 ∷ []) ++ replicate 24 0 }
    // 0000000026000002810900100000000008000000
    ensures endpoint_0 { endpoint_context (record { kind = EndpointKind.Control; max_packet = 512; burst = 0; dequeue = Dequeue.Ring 268437888; average = 8 }) ≡ (0 ∷ 0 ∷ 0 ∷ 0 ∷ 38 ∷ 0 ∷ 0 ∷ 2 ∷ 129 ∷ 9 ∷ 0 ∷ 16 ∷ 0 ∷ 0 ∷ 0 ∷ 0 ∷ 8 ∷ 0 ∷ 0 ∷ 0 ∷ []) ++ replicate 12 0 }
    // 00000000160f00040130001000000000000c0000
    ensures commands { endpoint_context (record { kind = EndpointKind.BulkOut; max_packet = 1024; burst = 15; dequeue = Dequeue.Ring 268447744; average = 3072 }) ≡ (0 ∷ 0 ∷ 0 ∷ 0 ∷ 22 ∷ 15 ∷ 0 ∷ 4 ∷ 1 ∷ 48 ∷ 0 ∷ 16 ∷ 0 ∷ 0 ∷ 0 ∷ 0 ∷ 0 ∷ 12 ∷ 0 ∷ 0 ∷ []) ++ replicate 12 0 }
    // 008c0000360f00040050001000000000000c0000
    ensures status { endpoint_context (record { kind = EndpointKind.BulkIn; max_packet = 1024; burst = 15; dequeue = (Dequeue.Streams 268455936 3); average = 3072 }) ≡ (0 ∷ 140 ∷ 0 ∷ 0 ∷ 54 ∷ 15 ∷ 0 ∷ 4 ∷ 0 ∷ 80 ∷ 0 ∷ 16 ∷ 0 ∷ 0 ∷ 0 ∷ 0 ∷ 0 ∷ 12 ∷ 0 ∷ 0 ∷ []) ++ replicate 12 0 }
    // 008c0000360f00040060001000000000000c0000
    ensures data_in { endpoint_context (record { kind = EndpointKind.BulkIn; max_packet = 1024; burst = 15; dequeue = (Dequeue.Streams 268460032 3); average = 3072 }) ≡ (0 ∷ 140 ∷ 0 ∷ 0 ∷ 54 ∷ 15 ∷ 0 ∷ 4 ∷ 0 ∷ 96 ∷ 0 ∷ 16 ∷ 0 ∷ 0 ∷ 0 ∷ 0 ∷ 0 ∷ 12 ∷ 0 ∷ 0 ∷ []) ++ replicate 12 0 }
    // 008c0000160f00040070001000000000000c0000
    ensures data_out { endpoint_context (record { kind = EndpointKind.BulkOut; max_packet = 1024; burst = 15; dequeue = (Dequeue.Streams 268464128 3); average = 3072 }) ≡ (0 ∷ 140 ∷ 0 ∷ 0 ∷ 22 ∷ 15 ∷ 0 ∷ 4 ∷ 0 ∷ 112 ∷ 0 ∷ 16 ∷ 0 ∷ 0 ∷ 0 ∷ 0 ∷ 0 ∷ 12 ∷ 0 ∷ 0 ∷ []) ++ replicate 12 0 }
    // 43000110000000000000000000000000
    ensures stream { stream_context 268501056 ≡ 67 ∷ 0 ∷ 1 ∷ 16 ∷ 0 ∷ 0 ∷ 0 ∷ 0 ∷ 0 ∷ 0 ∷ 0 ∷ 0 ∷ 0 ∷ 0 ∷ 0 ∷ 0 ∷ [] }
{}

/// The event of Enable Slot, which gave slot 1 out.
#[tactic(auto, unfolding(crate::specs::Words::words_in))]
pub fn event_bytes()
    // 40080010000000000000000101840001
    ensures event { event_in (words_in (64 ∷ 8 ∷ 0 ∷ 16 ∷ 0 ∷ 0 ∷ 0 ∷ 0 ∷ 0 ∷ 0 ∷ 0 ∷ 1 ∷ 1 ∷ 132 ∷ 0 ∷ 1 ∷ [])) ≡ Event.Command 268437568 1 1 }
    ensures cycle { cycle_in (words_in (64 ∷ 8 ∷ 0 ∷ 16 ∷ 0 ∷ 0 ∷ 0 ∷ 0 ∷ 0 ∷ 0 ∷ 0 ∷ 1 ∷ 1 ∷ 132 ∷ 0 ∷ 1 ∷ [])) ≡ true }
{}
