//! The laws of members: agreement and the laws of votes, networks that exercise them, what each lifetime keeps in
//! order, and the laws of records. The functions here do nothing: their contracts are the laws.

mod continuations;
mod contradictions;
mod instances;
mod lives;
mod network;
mod own_record;
mod plain;
mod progress;
mod resumes;
mod rivals;
mod states;

pub use continuations::{conflicts_are_left, gaps_are_closed, nullified_handoffs_are_left};
pub use contradictions::{accountability, contradictions_need_faults};
pub use instances::{
    contradictions_are_answered_for, lifetimes_may_differ, refusals_accept_nothing,
    restarts_are_runs, skipped_views_are_agreed_on, terms_are_agreed_on, views_ahead_are_agreed_on,
};
pub use lives::{current_views_time_out, lifetimes_keep_order, runs_keep_order};
pub use network::{agreement, votes_are_lawful};
pub use own_record::{own_record_holds_each_entry_once, own_record_is_taken};
pub use plain::plain_members_agree;
pub use progress::views_are_left;
pub use resumes::resumes_are_restarts;
pub use rivals::{rivals_have_faulty_members, skipped_finalizations_have_faulty_members};
pub use states::{nullify_votes_are_decided, states_time_out};
