//! How a member resumes from a journal in another process, or restarts in this one.

ghost use Rattle.std.specs.Prelude.{◌≡◌, ◌≤◌, nat_lt, length, IfOk, IfErr, MatchOption};
ghost use Rattle.ffi_scheme.specs.HostLeaders.{host_members};
ghost use Rattle.ffi_scheme.specs.Host.{host_keys};
ghost use Rattle.ffi_member.specs.Resumption.{IsResumption, IsNotResumedBy, IsFlatStored};

use crate::flat::FlatSettings;
use crate::held::{Held, NotStarted};
use crate::journal::{HostArtifact, NotRead, read_entries};
use crate::numbers::flag_of;
use crate::settings::{HostStart, SettingsError, start_of};
use crate::view_types::{FlatRestart, FlatStored};
use simplex_member::member::{Member, RecoverError, Restart, ResumeError, Stored};
use simplex_types::types::ViewDelta;
use std::alloc::Global;

/// Why no member resumes from a journal.
#[derive(Clone, Copy, PartialEq, Eq, Debug)]
pub enum NotResumed {
    /// No member has these settings.
    Settings(SettingsError),
    /// One of the numbers stored beside the journal must be 0 or 1, and is neither.
    NoFlag,
    /// The journal is no record.
    Journal(NotRead),
    /// There are fewer entries than were stored, or than were closed: votes may be among the lost ones.
    EntriesLost,
    /// The record is refused, or memory ran out.
    Recover(RecoverError),
}

impl Held {
    ghost use Rattle.ffi_member.specs.Resumption.{IsRestartedBy, IsResumedBy};

    /// Resumes a member from its journal: the bytes of its entries as frames, and what was last stored beside them.
    /// Nothing is dropped or pruned.
    pub fn resume(
        alloc: Global,
        flat: &FlatSettings,
        leaders: &[u32],
        certificate: &[u8],
        now: u64,
        stored: &FlatStored,
        journal: &[u8],
    ) -> Result<Held, NotResumed>
        ensures resumed { IfOk result (IsResumedBy flat.now leaders.now certificate.now now stored.now journal.now) }
        ensures refused { IfErr result
            (IsNotResumedBy flat.now leaders.now certificate.now now stored.now journal.now) }
    {
        let from = read_resumption(alloc, flat, leaders, certificate, now, stored, journal)?;
        match Member::resume(alloc, from.start, from.stored, from.entries) {
            Ok(member) => Ok(Held::new(alloc, member)),
            Err(refusal) => match refusal.error {
                ResumeError::EntriesLost => Err(NotResumed::EntriesLost),
                ResumeError::Recover(error) => Err(NotResumed::Recover(error)),
            },
        }
    }

    /// Ends the member's lifetime, also one that has failed, and begins another from its record, with these settings.
    /// Before that it drops the last entries and prunes the record, as asked.
    ///
    /// If the settings are refused, nothing changes.
    pub fn restart(
        &mut self,
        flat: &FlatRestart,
        leaders: &[u32],
        certificate: &[u8],
    ) -> Result<(), NotStarted>
        ensures { IsRestartedBy self.old flat.now leaders.now certificate.now result self.new }
    {
        let start = match start_of(
            self.alloc,
            &flat.settings,
            leaders,
            certificate,
            flat.moment,
        ) {
            Ok(start) => start,
            Err(error) => return Err(NotStarted::Settings(error)),
        };
        let Some(prune) = flag_of(flat.prune) else {
            return Err(NotStarted::Settings(SettingsError::NoFlag));
        };
        let restart = Restart {
            drop: flat.drop,
            prune,
            start,
        };
        match self.member.restart(restart) {
            Ok(()) => Ok(()),
            Err(error) => Err(NotStarted::Recover(error)),
        }
    }
}

/// The input of a resume: the member's settings, what is stored beside its record, and the record.
#[derive(Drop)]
pub struct Resumption {
    pub start: HostStart,
    pub stored: Stored,
    pub entries: Vec<HostArtifact>,
}

/// Returns the input of a resume, from flat settings and the bytes of a journal, which has all entries that were
/// counted.
pub fn read_resumption(
    alloc: Global,
    flat: &FlatSettings,
    leaders: &[u32],
    certificate: &[u8],
    now: u64,
    stored: &FlatStored,
    journal: &[u8],
) -> Result<Resumption, NotResumed>
    ensures from { IfOk result
        (λ it. IsResumption flat.now leaders.now certificate.now now stored.now journal.now it.start it.stored
        it.entries.items) }
    ensures whole { IfOk result (λ it. stored.now.entries ≤ length it.entries.items) }
    ensures fits { IfOk result
        (λ it. host_members it.start.settings.elector ≡ length (host_keys it.start.settings.scheme)) }
    ensures refused { IfErr result (IsNotResumedBy flat.now leaders.now certificate.now now stored.now journal.now) }
{
    let start = match start_of(alloc, flat, leaders, certificate, now) {
        Ok(start) => start,
        Err(error) => return Err(NotResumed::Settings(error)),
    };
    let Some(beside) = stored_of(stored) else {
        return Err(NotResumed::NoFlag);
    };
    let entries = match read_entries(alloc, journal) {
        Ok(entries) => entries,
        Err(error) => return Err(NotResumed::Journal(error)),
    };
    if has_fewer(&entries, stored.entries) {
        return Err(NotResumed::EntriesLost);
    }
    Ok(Resumption {
        start,
        stored: beside,
        entries,
    })
}

/// Returns what was stored beside a journal; `None` if its flag is not valid.
fn stored_of(flat: &FlatStored) -> Option<Stored>
    ensures { MatchOption result (2 ≤ flat.now.is_pruned) (IsFlatStored flat.now) }
{
    let is_pruned = flag_of(flat.is_pruned)?;
    Some(Stored {
        closed: flat.closed as usize,
        is_pruned,
        retention: ViewDelta::new(flat.retention),
        least_retention: ViewDelta::new(flat.least_retention),
    })
}

/// Returns whether there are fewer entries than this.
fn has_fewer(entries: &[HostArtifact], count: u64) -> bool
    ensures { result ≡ nat_lt (length entries.now) count }
{
    (entries.len() as u64) < count
}
