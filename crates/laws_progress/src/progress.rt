//! The laws of progress: what the honest members of a network can do alone. The functions do nothing: their contracts
//! are the laws.

mod continuations;
mod exchanges;
mod instances;
mod not_stuck;
mod starts;
mod view_causes;

pub use continuations::continuations_are_honest;
pub use exchanges::starts_are_finalized_soon;
pub use instances::{
    overrun_network_is_stuck, started_networks_continue, worked_networks_may_continue,
};
pub use not_stuck::no_network_is_stuck;
pub use starts::{
    current_views_may_be_given_up, fresh_starts_are_finalized, none_is_decided_ahead,
};
pub use view_causes::views_are_led_to;
