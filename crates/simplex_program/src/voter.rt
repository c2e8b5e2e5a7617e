//! A voter that lines call: a member of a network of plain parts.

ghost use Rattle.std.specs.Prelude.{◌≡◌, false, true, IfOk, length};
ghost use Rattle.simplex_types.specs.Plain.{members_of, keys_of};
ghost use Rattle.simplex_program.specs.Voter.{VoterAnswers, IsRestarted, IsDone, is_no_call, shown_views};
ghost use Rattle.simplex_program.specs.Setup.{IsNetworkConfig, IsGenesisStart, StartsAtGenesis, plain_start};

use crate::network::Network;
use crate::rounds::EPOCH;
use crate::voter_call::call_of;
use crate::voter_line::VoterLine;
use simplex_member::member::{Member, RecoverError, Reply, Restart, Start};
use simplex_types::config::Floor;
use simplex_types::types::plain::{PlainDigest, PlainElector, PlainScheme};
use simplex_types::types::{Epoch, Fault, Participant, Terms, View, ViewDelta};
use simplex_voter::voter::Config;
use std::alloc::{AllocError, Global};

/// The payload of genesis.
const GENESIS: u64 = 0;

/// How many views below the last finalized one are retained.
const RETENTION: u64 = 10;

/// From the entry of a view to its deadline for a proposal, in milliseconds.
const LEADER_TIMEOUT: u64 = 1000;

/// From the entry of a view to its deadline for a certification, in milliseconds.
const CERTIFICATION_TIMEOUT: u64 = 2000;

/// From the first poll after a nullify vote until it is repeated, in milliseconds.
const TIMEOUT_RETRY: u64 = 500;

/// A member that lines call, and its network.
#[derive(Drop)]
pub(crate) struct Voter {
    network: Network,
    member: Member<PlainScheme, PlainElector, PlainDigest>,
}

/// A reply line.
#[derive(Drop)]
pub enum VoterAnswer {
    /// The reply to a line's call.
    Reply(Reply<PlainScheme, PlainDigest>),
    /// True if the member was restarted.
    Restarted(Result<(), RecoverError>),
    /// How many entries the record has.
    Entries(usize),
    /// The current view, the last finalized one and the lowest retained one.
    Views {
        current: View,
        finalized: View,
        min_active: View,
    },
    /// The member has failed.
    Failed,
}

impl Voter {
    /// Returns a member of the network that starts at genesis, at moment 0.
    pub(crate) fn start(alloc: Global, network: Network) -> Result<Voter, AllocError>
        ensures network { IfOk result (λ voter. voter.network ≡ network) }
        ensures member { IfOk result (λ voter. StartsAtGenesis network voter.member.facts) }
    {
        let start = start_at(alloc, &network, 0)?;
        match Member::start(alloc, start) {
            Ok(member) => Ok(Voter { network, member }),
            Err(_) => Err(AllocError),
        }
    }

    /// Does what the line asks. The only error is out of memory.
    pub(crate) fn answer(
        &mut self,
        alloc: Global,
        line: VoterLine,
    ) -> Result<VoterAnswer, AllocError>
        ensures network { self.new.network ≡ self.old.network }
        ensures answer { IfOk result
            (λ answer. VoterAnswers self.old.network self.old.member.facts line answer self.new.member.facts) }
    {
        let Some(call) = call_of(&line) else {
            return self.other(alloc, line);
        };
        let reply = self.member.call(call);
        if matches!(&reply, Reply::Fault(Fault::OutOfMemory)) {
            return Err(AllocError);
        }
        Ok(VoterAnswer::Reply(reply))
    }

    /// Does what a line asks that is no call of the member: a restart, or to show something.
    fn other(&mut self, alloc: Global, line: VoterLine) -> Result<VoterAnswer, AllocError>
        requires { is_no_call line ≡ true }
        ensures network { self.new.network ≡ self.old.network }
        ensures done { IfOk result
            (λ answer. IsDone self.old.network self.old.member.facts line answer self.new.member.facts) }
    {
        match line {
            VoterLine::Restart { drop, now } => self.restart(alloc, drop, false, now),
            VoterLine::RestartPruned { drop, now } => self.restart(alloc, drop, true, now),
            VoterLine::Record => Ok(VoterAnswer::Entries(self.member.record().len())),
            _ => Ok(self.views()),
        }
    }

    /// Begins another lifetime of the member, at genesis and with the same settings.
    fn restart(
        &mut self,
        alloc: Global,
        drop: u64,
        prune: bool,
        now: u64,
    ) -> Result<VoterAnswer, AllocError>
        ensures network { self.new.network ≡ self.old.network }
        ensures restarted { IfOk result
            (λ answer. IsRestarted self.old.network self.old.member.facts drop prune now answer self.new.member.facts) }
    {
        let start = start_at(alloc, &self.network, now)?;
        let result = self.member.restart(Restart { drop, prune, start });
        if result == Err(RecoverError::OutOfMemory) {
            return Err(AllocError);
        }
        Ok(VoterAnswer::Restarted(result))
    }

    fn views(&self) -> VoterAnswer
        ensures { result ≡ shown_views self.now.member.facts.life }
    {
        match self.member.state() {
            Some(state) => VoterAnswer::Views {
                current: state.current_view(),
                finalized: state.last_finalized(),
                min_active: state.min_active(),
            },
            None => VoterAnswer::Failed,
        }
    }
}

/// Returns how a member of the network starts at genesis.
fn start_at(
    alloc: Global,
    network: &Network,
    now: u64,
) -> Result<Start<PlainScheme, PlainElector, PlainDigest>, AllocError>
    ensures facts { IfOk result (λ start. IsGenesisStart network.now now (plain_start start)) }
    ensures members { IfOk result
        (λ start. members_of start.settings.elector ≡ length (keys_of start.settings.scheme)) }
{
    let settings = settings(alloc, network)?;
    Ok(Start {
        settings,
        floor: Floor::Genesis(PlainDigest::new(GENESIS)),
        now,
    })
}

/// Returns the settings of a member of the network.
fn settings(
    alloc: Global,
    network: &Network,
) -> Result<Config<PlainScheme, PlainElector>, AllocError>
    ensures { IfOk result (IsNetworkConfig network.now) }
{
    let signer = match network.me {
        Some(index) => Some(Participant::new(index)),
        None => None,
    };
    let scheme = PlainScheme::new(alloc, network.members, signer)?;
    let terms = Terms {
        term_length: network.term_length,
        optimistic_views: network.optimistic,
        stall_timeout: None,
    };
    Ok(Config {
        scheme,
        elector: PlainElector::new(network.members, terms),
        epoch: Epoch::new(EPOCH),
        view_retention: ViewDelta::new(RETENTION),
        leader_timeout: LEADER_TIMEOUT,
        certification_timeout: CERTIFICATION_TIMEOUT,
        timeout_retry: TIMEOUT_RETRY,
        skip_budget: network.members as u64,
    })
}
