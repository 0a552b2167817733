//! What holds of the shared machine in every replay from new units.
//!
//! Matched (specs/Matched.antt): each message and each event is of one TD, and each TD of at most one of each kind, so that no queue
//! outgrows the places. Ordered (specs/Ordered.antt): the device receives a client's requests by rising ticket, and what a task
//! management noted is done with before its response is seen. How far a step reaches (specs/Reach.antt) stands on both.
#![tactic(auto)]

mod queue_laws;
mod reach_laws;

pub use queue_laws::{
    command_pipe_in_order, data_tds_fit, matches_at_start, no_queue_outgrows, none_is_stray,
    order_is_kept, replays_match, steps_keep_matches,
};
pub use reach_laws::{notes_reach_their_tickets, others_stay};
