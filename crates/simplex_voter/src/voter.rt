//! A member's votes over all views: leaders, parents, view entry, the rules for signing, and the state that holds them.

mod broadcasts;
mod candidates;
mod certification;
mod chains;
mod changes;
mod conditions;
mod due;
mod finalizations;
mod floor;
mod getters;
mod leaders;
mod notarizations;
mod notarize;
mod nullifications;
mod parents;
mod proposals;
mod propose;
mod prune;
mod ranges;
mod replay;
mod rounds;
mod rules;
mod state;
mod timeouts;
mod verify;
mod view_entry;
mod votes;
mod withheld;
mod work;

pub use candidates::CertificateFetch;
pub use propose::ProposalRequest;
pub use simplex_view_maps::tracked::Tracked;
pub use state::{Config, State};
pub use verify::Verify;
pub use withheld::Withheld;
