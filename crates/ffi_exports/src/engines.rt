//! The functions of an engine that C calls. `engine_at` says what a handle is: null, or a pointer to an engine that
//! `simplex_engine_start` or `simplex_engine_resume` made, and that no other call has. For null each function returns
//! the status 15, and does nothing.

ghost use Rattle.std.specs.Prelude.{◌≡◌};
ghost use Rattle.std.specs.Borrow.{sem};
ghost use Rattle.ffi_engine.specs.declared.held.HeldEngine.{HeldEngine};
ghost use Rattle.ffi_engine.specs.EngineHandles.{IsHandled, IsPolled};
ghost use Rattle.ffi_engine.specs.EngineViews.{ShowsChunk, ShowsFound, ShowsOpenFetch, ShowsServed, ShowsStatus, ShowsView, ShowsWithheld};
ghost use Rattle.ffi_exports.specs.HandleContents.{IsRead, engine_at, engine_left_at, engine_owned_at};
ghost use Rattle.ffi_exports.specs.OpenStatuses.{IsStartedStatus, IsResumptionStatus};

use crate::handles::EngineHandle;
use crate::raw_box::RawBox;
use ffi_engine::begin::number_of_engine_not_started;
use ffi_engine::flat::{FlatInput, FlatOpen, FlatOptions, FlatOutput, FlatStatus, FlatTaken};
use ffi_engine::held::HeldEngine;
use ffi_engine::null_handle as absent_engine;
use ffi_member::flat::FlatSettings;
use ffi_member::null_handle;
use ffi_member::resolver_types::FlatServed;
use ffi_member::view_types::{FlatChunk, FlatFound, FlatStored, FlatView, FlatWithheld};
use std::alloc::Global;

/// Starts an engine whose member never voted, and writes its handle. Returns 0, or why there is no engine; then it
/// writes nothing.
#[unsafe(no_mangle)]
pub extern "C" fn simplex_engine_start(
    alloc: Global,
    settings: &FlatSettings,
    leaders: &[u32],
    certificate: &[u8],
    options: &FlatOptions,
    now: u64,
    out: &mut EngineHandle,
) -> u32
    ensures begun { IsStartedStatus settings.now leaders.now certificate.now options.now now result out.old out.new }
    ensures no_retry { options.now.retry ≡ 0 → result ≡ 33 }
{
    match HeldEngine::start(alloc, settings, leaders, certificate, options, now) {
        Ok(held) => out.write(alloc, held),
        Err(error) => number_of_engine_not_started(error),
    }
}

/// Resumes an engine from its journal, and writes its handle. Returns 0, or why there is no engine; then it writes
/// nothing.
#[unsafe(no_mangle)]
pub extern "C" fn simplex_engine_resume(
    alloc: Global,
    settings: &FlatSettings,
    leaders: &[u32],
    certificate: &[u8],
    options: &FlatOptions,
    now: u64,
    stored: &FlatStored,
    journal: &[u8],
    out: &mut EngineHandle,
) -> u32
    ensures resumed { IsResumptionStatus settings.now leaders.now certificate.now options.now now stored.now journal.now
        result out.old out.new }
    ensures no_retry { options.now.retry ≡ 0 → result ≡ 33 }
{
    match HeldEngine::resume(
        alloc,
        settings,
        leaders,
        certificate,
        options,
        now,
        stored,
        journal,
    ) {
        Ok(held) => out.write(alloc, held),
        Err(error) => number_of_engine_not_started(error),
    }
}

/// Passes an input to the engine.
#[unsafe(no_mangle)]
pub unsafe extern "C" fn simplex_engine_handle(
    at: *mut u8,
    input: &FlatInput,
    bytes: &[u8],
    now: u64,
) -> FlatTaken
    ghost held: { HeldEngine }
    requires* { sem 𝓛 (engine_at at held) }
    ensures* { sem 𝓛 (engine_left_at at (result.status ≡ 15)
        (λ new. IsHandled now held input.now bytes.now result new)) }
{
    if at.is_null() {
        return absent_engine::taken();
    }
    tell(unsafe { &mut *(at as *mut HeldEngine) }, input, bytes, now)
}

fn tell(held: &mut HeldEngine, input: &FlatInput, bytes: &[u8], now: u64) -> FlatTaken
    ensures { IsHandled now held.old input.now bytes.now result held.new }
{
    held.handle(input, bytes, now)
}

/// Returns the engine's next output.
#[unsafe(no_mangle)]
pub unsafe extern "C" fn simplex_engine_poll(at: *mut u8, now: u64) -> FlatOutput
    ghost held: { HeldEngine }
    requires* { sem 𝓛 (engine_at at held) }
    ensures* { sem 𝓛 (engine_left_at at (result.status ≡ 15) (λ new. IsPolled now held result new)) }
{
    if at.is_null() {
        return absent_engine::output();
    }
    give_out(unsafe { &mut *(at as *mut HeldEngine) }, now)
}

fn give_out(held: &mut HeldEngine, now: u64) -> FlatOutput
    ensures { IsPolled now held.old result held.new }
{
    held.poll(now)
}

/// Returns a part of the bytes of the last output, or of those that were loaded last.
#[unsafe(no_mangle)]
pub unsafe extern "C" fn simplex_engine_bytes(at: *mut u8, which: u32, from: u64) -> FlatChunk
    ghost held: { HeldEngine }
    requires* { sem 𝓛 (engine_at at held) }
    ensures* { sem 𝓛 (engine_left_at at (result.status ≡ 15)
        (λ new. IsRead held new (ShowsChunk held which from result))) }
{
    if at.is_null() {
        return null_handle::chunk();
    }
    pass_chunk(unsafe { &mut *(at as *mut HeldEngine) }, which, from)
}

fn pass_chunk(held: &mut HeldEngine, which: u32, from: u64) -> FlatChunk
    ensures { IsRead held.old held.new (ShowsChunk held.old which from result) }
{
    held.chunk(which, from)
}

/// Returns the status of the engine.
#[unsafe(no_mangle)]
pub unsafe extern "C" fn simplex_engine_status(at: *mut u8) -> FlatStatus
    ghost held: { HeldEngine }
    requires* { sem 𝓛 (engine_at at held) }
    ensures* { sem 𝓛 (engine_left_at at (result.status ≡ 15) (λ new. IsRead held new (ShowsStatus held result))) }
{
    if at.is_null() {
        return absent_engine::engine_status();
    }
    pass_status(unsafe { &mut *(at as *mut HeldEngine) })
}

fn pass_status(held: &mut HeldEngine) -> FlatStatus
    ensures { IsRead held.old held.new (ShowsStatus held.old result) }
{
    held.status()
}

/// Returns an open fetch.
#[unsafe(no_mangle)]
pub unsafe extern "C" fn simplex_engine_open(at: *mut u8, index: u64) -> FlatOpen
    ghost held: { HeldEngine }
    requires* { sem 𝓛 (engine_at at held) }
    ensures* { sem 𝓛 (engine_left_at at (result.status ≡ 15)
        (λ new. IsRead held new (ShowsOpenFetch held index result))) }
{
    if at.is_null() {
        return absent_engine::open();
    }
    pass_open(unsafe { &mut *(at as *mut HeldEngine) }, index)
}

fn pass_open(held: &mut HeldEngine, index: u64) -> FlatOpen
    ensures { IsRead held.old held.new (ShowsOpenFetch held.old index result) }
{
    held.open(index)
}

/// Returns what the member knows, and what it knows of a view.
#[unsafe(no_mangle)]
pub unsafe extern "C" fn simplex_engine_view(at: *mut u8, view: u64) -> FlatView
    ghost held: { HeldEngine }
    requires* { sem 𝓛 (engine_at at held) }
    ensures* { sem 𝓛 (engine_left_at at (result.status ≡ 15) (λ new. IsRead held new (ShowsView held view result))) }
{
    if at.is_null() {
        return null_handle::view();
    }
    pass_view(unsafe { &mut *(at as *mut HeldEngine) }, view)
}

fn pass_view(held: &mut HeldEngine, view: u64) -> FlatView
    ensures { IsRead held.old held.new (ShowsView held.old view result) }
{
    held.view(view)
}

/// Returns why the member withholds a vote on a view.
#[unsafe(no_mangle)]
pub unsafe extern "C" fn simplex_engine_withheld(at: *mut u8, kind: u32, view: u64) -> FlatWithheld
    ghost held: { HeldEngine }
    requires* { sem 𝓛 (engine_at at held) }
    ensures* { sem 𝓛 (engine_left_at at (result.status ≡ 15)
        (λ new. IsRead held new (ShowsWithheld held kind view result))) }
{
    if at.is_null() {
        return null_handle::withheld();
    }
    pass_withheld(unsafe { &mut *(at as *mut HeldEngine) }, kind, view)
}

fn pass_withheld(held: &mut HeldEngine, kind: u32, view: u64) -> FlatWithheld
    ensures { IsRead held.old held.new (ShowsWithheld held.old kind view result) }
{
    held.withheld(kind, view)
}

/// Loads a view's certificate.
#[unsafe(no_mangle)]
pub unsafe extern "C" fn simplex_engine_certificate(at: *mut u8, kind: u32, view: u64) -> FlatFound
    ghost held: { HeldEngine }
    requires* { sem 𝓛 (engine_at at held) }
    ensures* { sem 𝓛 (engine_left_at at (result.status ≡ 15) (λ new. ShowsFound held kind view result new)) }
{
    if at.is_null() {
        return null_handle::found();
    }
    pass_certificate(unsafe { &mut *(at as *mut HeldEngine) }, kind, view)
}

fn pass_certificate(held: &mut HeldEngine, kind: u32, view: u64) -> FlatFound
    ensures { ShowsFound held.old kind view result held.new }
{
    held.certificate(kind, view)
}

/// Loads what a peer is served for a view.
#[unsafe(no_mangle)]
pub unsafe extern "C" fn simplex_engine_serve(at: *mut u8, view: u64) -> FlatServed
    ghost held: { HeldEngine }
    requires* { sem 𝓛 (engine_at at held) }
    ensures* { sem 𝓛 (engine_left_at at (result.status ≡ 15) (λ new. ShowsServed held view result new)) }
{
    if at.is_null() {
        return null_handle::served();
    }
    pass_served(unsafe { &mut *(at as *mut HeldEngine) }, view)
}

fn pass_served(held: &mut HeldEngine, view: u64) -> FlatServed
    ensures { ShowsServed held.old view result held.new }
{
    held.serve(view)
}

/// Frees the engine, and the memory of its handle.
#[unsafe(no_mangle)]
pub unsafe extern "C" fn simplex_engine_free(alloc: Global, at: *mut u8)
    ghost held: { HeldEngine }
    requires* { sem 𝓛 (engine_owned_at alloc at held) }
{
    if at.is_null() {
        return;
    }
    end(RawBox {
        at: at as *mut HeldEngine,
        alloc,
    })
}

/// Drops the engine at a pointer.
fn end(engine: RawBox<HeldEngine, Global>) {
    let _engine = engine.into_box();
}
