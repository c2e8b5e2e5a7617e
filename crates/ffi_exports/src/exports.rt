//! The functions that C calls. `held_at` says what a handle is: null, or a pointer to a member that
//! `simplex_member_start` or `simplex_member_resume` made, and that no other call has. For null each function returns
//! the status 15, and does nothing. `passed_at` says what these two write.

ghost use Rattle.std.specs.Prelude.{◌≡◌};
ghost use Rattle.std.specs.Borrow.{sem};
ghost use Rattle.ffi_member.specs.declared.held.Held.{Held};
ghost use Rattle.ffi_member.specs.Journals.{IsScan};
ghost use Rattle.ffi_member.specs.PrunedRecord.{IsPruned};
ghost use Rattle.ffi_member.specs.MemberHandles.{IsCallServed};
ghost use Rattle.ffi_member.specs.ShownFacts.{IsChunkOf, IsEntries, IsFound, IsItem, IsText, IsView};
ghost use Rattle.ffi_member.specs.Withheld.{IsWithheld};
ghost use Rattle.ffi_exports.specs.HandleContents.{IsRead, held_at, member_left_at, owned_at};
ghost use Rattle.ffi_exports.specs.OpenStatuses.{IsRestartStatus, IsResumeStatus, IsStartStatus};

use crate::handles::MemberHandle;
use crate::raw_box::RawBox;
use ffi_member::flat::{FlatCall, FlatProposal, FlatReply, FlatSettings};
use ffi_member::held::Held;
use ffi_member::journal::scan;
use ffi_member::null_handle;
use ffi_member::statuses::{number_of_not_resumed, number_of_not_started, number_of_restart};
use ffi_member::view_types::{
    FlatChunk, FlatEntries, FlatFound, FlatItem, FlatRestart, FlatScan, FlatStored, FlatText,
    FlatView, FlatWithheld,
};
use ffi_member::views::subject_text;
use std::alloc::Global;

/// Returns the version, which rises when a struct, a number or a function here changes its meaning.
#[unsafe(no_mangle)]
pub extern "C" fn simplex_version() -> u32
    ensures { result ≡ 5 }
{
    5
}

/// Starts a member that never voted, and writes its handle. Returns 0, or why there is no member; then it writes
/// nothing.
#[unsafe(no_mangle)]
pub extern "C" fn simplex_member_start(
    alloc: Global,
    settings: &FlatSettings,
    leaders: &[u32],
    certificate: &[u8],
    now: u64,
    out: &mut MemberHandle,
) -> u32
    ensures { IsStartStatus settings.now leaders.now certificate.now now result out.old out.new }
{
    match Held::start(alloc, settings, leaders, certificate, now) {
        Ok(held) => out.write(alloc, held),
        Err(error) => number_of_not_started(error),
    }
}

/// Resumes a member from its journal, and writes its handle. Returns 0, or why there is no member; then it writes
/// nothing.
#[unsafe(no_mangle)]
pub extern "C" fn simplex_member_resume(
    alloc: Global,
    settings: &FlatSettings,
    leaders: &[u32],
    certificate: &[u8],
    now: u64,
    stored: &FlatStored,
    journal: &[u8],
    out: &mut MemberHandle,
) -> u32
    ensures { IsResumeStatus settings.now leaders.now certificate.now now stored.now journal.now result
        out.old out.new }
{
    match Held::resume(alloc, settings, leaders, certificate, now, stored, journal) {
        Ok(held) => out.write(alloc, held),
        Err(error) => number_of_not_resumed(error),
    }
}

/// Makes a call of the member.
#[unsafe(no_mangle)]
pub unsafe extern "C" fn simplex_member_call(
    at: *mut u8,
    call: &FlatCall,
    certificate: &[u8],
) -> FlatReply
    ghost held: { Held }
    requires* { sem 𝓛 (held_at at held) }
    ensures* { sem 𝓛 (member_left_at at (result.status ≡ 15)
        (λ now. IsCallServed held call.now certificate.now result now)) }
{
    if at.is_null() {
        return null_handle::reply();
    }
    serve(unsafe { &mut *(at as *mut Held) }, call, certificate)
}

fn serve(held: &mut Held, call: &FlatCall, certificate: &[u8]) -> FlatReply
    ensures { IsCallServed held.old call.now certificate.now result held.new }
{
    held.call(call, certificate)
}

/// Returns a part of the bytes of the last reply, or of those that were loaded last.
#[unsafe(no_mangle)]
pub unsafe extern "C" fn simplex_member_bytes(at: *mut u8, which: u32, from: u64) -> FlatChunk
    ghost held: { Held }
    requires* { sem 𝓛 (held_at at held) }
    ensures* { sem 𝓛 (member_left_at at (result.status ≡ 15)
        (λ now. IsRead held now (IsChunkOf held which from result))) }
{
    if at.is_null() {
        return null_handle::chunk();
    }
    pass_chunk(unsafe { &mut *(at as *mut Held) }, which, from)
}

fn pass_chunk(held: &mut Held, which: u32, from: u64) -> FlatChunk
    ensures { IsRead held.old held.new (IsChunkOf held.old which from result) }
{
    held.chunk(which, from)
}

/// Returns an item of the last reply's lists.
#[unsafe(no_mangle)]
pub unsafe extern "C" fn simplex_member_item(at: *mut u8, which: u32, index: u64) -> FlatItem
    ghost held: { Held }
    requires* { sem 𝓛 (held_at at held) }
    ensures* { sem 𝓛 (member_left_at at (result.status ≡ 15)
        (λ now. IsRead held now (IsItem held.last which index result))) }
{
    if at.is_null() {
        return null_handle::item();
    }
    pass_item(unsafe { &mut *(at as *mut Held) }, which, index)
}

fn pass_item(held: &mut Held, which: u32, index: u64) -> FlatItem
    ensures { IsRead held.old held.new (IsItem held.old.last which index result) }
{
    held.item(which, index)
}

/// Loads a view's certificate.
#[unsafe(no_mangle)]
pub unsafe extern "C" fn simplex_member_certificate(at: *mut u8, kind: u32, view: u64) -> FlatFound
    ghost held: { Held }
    requires* { sem 𝓛 (held_at at held) }
    ensures* { sem 𝓛 (member_left_at at (result.status ≡ 15) (λ now. IsFound held kind view result now)) }
{
    if at.is_null() {
        return null_handle::found();
    }
    pass_certificate(unsafe { &mut *(at as *mut Held) }, kind, view)
}

fn pass_certificate(held: &mut Held, kind: u32, view: u64) -> FlatFound
    ensures { IsFound held.old kind view result held.new }
{
    held.certificate(kind, view)
}

/// Loads what was recorded after the first entries.
#[unsafe(no_mangle)]
pub unsafe extern "C" fn simplex_member_entries(at: *mut u8, count: u64) -> FlatEntries
    ghost held: { Held }
    requires* { sem 𝓛 (held_at at held) }
    ensures* { sem 𝓛 (member_left_at at (result.status ≡ 15) (λ now. IsEntries held count result now)) }
{
    if at.is_null() {
        return null_handle::entries();
    }
    pass_entries(unsafe { &mut *(at as *mut Held) }, count)
}

fn pass_entries(held: &mut Held, count: u64) -> FlatEntries
    ensures { IsEntries held.old count result held.new }
{
    held.entries(count)
}

/// Prunes the record within the lifetime, and loads all that is left of it.
#[unsafe(no_mangle)]
pub unsafe extern "C" fn simplex_member_prune_record(at: *mut u8) -> FlatEntries
    ghost held: { Held }
    requires* { sem 𝓛 (held_at at held) }
    ensures* { sem 𝓛 (member_left_at at (result.status ≡ 15) (λ now. IsPruned held result now)) }
{
    if at.is_null() {
        return null_handle::entries();
    }
    pass_pruned(unsafe { &mut *(at as *mut Held) })
}

fn pass_pruned(held: &mut Held) -> FlatEntries
    ensures { IsPruned held.old result held.new }
{
    held.prune_record()
}

/// Returns what the member knows, and what it knows of a view.
#[unsafe(no_mangle)]
pub unsafe extern "C" fn simplex_member_view(at: *mut u8, view: u64) -> FlatView
    ghost held: { Held }
    requires* { sem 𝓛 (held_at at held) }
    ensures* { sem 𝓛 (member_left_at at (result.status ≡ 15)
        (λ now. IsRead held now (IsView held.member.facts view result))) }
{
    if at.is_null() {
        return null_handle::view();
    }
    pass_view(unsafe { &mut *(at as *mut Held) }, view)
}

fn pass_view(held: &mut Held, view: u64) -> FlatView
    ensures { IsRead held.old held.new (IsView held.old.member.facts view result) }
{
    held.view(view)
}

/// Returns why the member withholds a vote on a view.
#[unsafe(no_mangle)]
pub unsafe extern "C" fn simplex_member_withheld(at: *mut u8, kind: u32, view: u64) -> FlatWithheld
    ghost held: { Held }
    requires* { sem 𝓛 (held_at at held) }
    ensures* { sem 𝓛 (member_left_at at (result.status ≡ 15)
        (λ now. IsRead held now (IsWithheld held.member.facts kind view result))) }
{
    if at.is_null() {
        return null_handle::withheld();
    }
    pass_withheld(unsafe { &mut *(at as *mut Held) }, kind, view)
}

fn pass_withheld(held: &mut Held, kind: u32, view: u64) -> FlatWithheld
    ensures { IsRead held.old held.new (IsWithheld held.old.member.facts kind view result) }
{
    held.withheld(kind, view)
}

/// Ends the member's lifetime and begins another from its record. Returns 0, or why there is none.
#[unsafe(no_mangle)]
pub unsafe extern "C" fn simplex_member_restart(
    at: *mut u8,
    restart: &FlatRestart,
    leaders: &[u32],
    certificate: &[u8],
) -> u32
    ghost held: { Held }
    requires* { sem 𝓛 (held_at at held) }
    ensures* { sem 𝓛 (member_left_at at (result ≡ 15)
        (λ now. IsRestartStatus held restart.now leaders.now certificate.now result now)) }
{
    if at.is_null() {
        return null_handle::status();
    }
    begin_anew(
        unsafe { &mut *(at as *mut Held) },
        restart,
        leaders,
        certificate,
    )
}

fn begin_anew(held: &mut Held, restart: &FlatRestart, leaders: &[u32], certificate: &[u8]) -> u32
    ensures { IsRestartStatus held.old restart.now leaders.now certificate.now result held.new }
{
    number_of_restart(held.restart(restart, leaders, certificate))
}

/// Frees the member, and the memory of its handle.
#[unsafe(no_mangle)]
pub unsafe extern "C" fn simplex_member_free(alloc: Global, at: *mut u8)
    ghost held: { Held }
    requires* { sem 𝓛 (owned_at alloc at held) }
{
    if at.is_null() {
        return;
    }
    end(RawBox {
        at: at as *mut Held,
        alloc,
    })
}

/// Drops the member at a pointer.
fn end(member: RawBox<Held, Global>) {
    let _member = member.into_box();
}

/// Returns the text that a vote signs in the network of a namespace.
#[unsafe(no_mangle)]
pub extern "C" fn simplex_subject(
    alloc: Global,
    namespace: &[u8; 32],
    kind: u32,
    proposal: &FlatProposal,
) -> FlatText
    ensures { IsText namespace.now kind proposal.now result }
{
    subject_text(alloc, namespace, kind, proposal)
}

/// Returns how many whole frames a journal has, and how it ends.
#[unsafe(no_mangle)]
pub extern "C" fn simplex_scan(journal: &[u8]) -> FlatScan
    ensures { IsScan journal.now result }
{
    scan(journal)
}
