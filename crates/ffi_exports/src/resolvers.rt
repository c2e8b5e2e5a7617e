//! The functions of a resolver that C calls. `resolver_at` says what a handle is: null, or a pointer to a resolver that
//! `simplex_resolver_start` made, and that no other call has. For null each function returns the status 15, and does
//! nothing.

ghost use Rattle.std.specs.Prelude.{◌≡◌};
ghost use Rattle.std.specs.Borrow.{sem};
ghost use Rattle.ffi_member.specs.declared.resolver_calls.HeldResolver.{HeldResolver};
ghost use Rattle.ffi_member.specs.ResolverHandles.{AreOutstanding, IsEffectAt, IsReceived, IsServedFor, IsSettledAt};
ghost use Rattle.ffi_member.specs.ShownFacts.{IsChunk};
ghost use Rattle.ffi_exports.specs.HandleContents.{IsRead, resolver_at, resolver_left_at, resolver_owned_at};
ghost use Rattle.ffi_exports.specs.OpenStatuses.{IsReplayStatus};

use crate::handles::ResolverHandle;
use crate::raw_box::RawBox;
use ffi_member::null_handle;
use ffi_member::resolver_calls::{HeldResolver, number_of_not_replayed};
use ffi_member::resolver_types::{
    FlatEffect, FlatEffects, FlatOutstanding, FlatResolverReply, FlatServed, FlatSettled,
};
use ffi_member::view_types::FlatChunk;
use std::alloc::Global;

/// Starts a resolver from the bytes of a journal, and writes its handle. Returns 0, or why there is no resolver; then
/// it writes nothing.
#[unsafe(no_mangle)]
pub extern "C" fn simplex_resolver_start(
    alloc: Global,
    term_length: u32,
    journal: &[u8],
    out: &mut ResolverHandle,
) -> u32
    ensures { IsReplayStatus term_length journal.now result out.old out.new }
{
    match HeldResolver::start(alloc, term_length, journal) {
        Ok(held) => out.write(alloc, held),
        Err(error) => number_of_not_replayed(error),
    }
}

/// Passes a certificate or a verdict to the resolver.
#[unsafe(no_mangle)]
pub unsafe extern "C" fn simplex_resolver_told(
    at: *mut u8,
    reply: &FlatResolverReply,
    certificate: &[u8],
) -> FlatEffects
    ghost held: { HeldResolver }
    requires* { sem 𝓛 (resolver_at at held) }
    ensures* { sem 𝓛 (resolver_left_at at (result.status ≡ 15)
        (λ now. IsReceived held reply.now certificate.now result now)) }
{
    if at.is_null() {
        return null_handle::effects();
    }
    tell(
        unsafe { &mut *(at as *mut HeldResolver) },
        reply,
        certificate,
    )
}

fn tell(held: &mut HeldResolver, reply: &FlatResolverReply, certificate: &[u8]) -> FlatEffects
    ensures { IsReceived held.old reply.now certificate.now result held.new }
{
    held.told(reply, certificate)
}

/// Returns an effect of the resolver's last input.
#[unsafe(no_mangle)]
pub unsafe extern "C" fn simplex_resolver_effect(at: *mut u8, index: u64) -> FlatEffect
    ghost held: { HeldResolver }
    requires* { sem 𝓛 (resolver_at at held) }
    ensures* { sem 𝓛 (resolver_left_at at (result.status ≡ 15)
        (λ now. IsRead held now (IsEffectAt held.last.items index result))) }
{
    if at.is_null() {
        return null_handle::effect();
    }
    pass_effect(unsafe { &mut *(at as *mut HeldResolver) }, index)
}

fn pass_effect(held: &mut HeldResolver, index: u64) -> FlatEffect
    ensures { IsRead held.old held.new (IsEffectAt held.old.last.items index result) }
{
    held.effect(index)
}

/// Returns what the resolver knows of a view.
#[unsafe(no_mangle)]
pub unsafe extern "C" fn simplex_resolver_settled(at: *mut u8, view: u64) -> FlatSettled
    ghost held: { HeldResolver }
    requires* { sem 𝓛 (resolver_at at held) }
    ensures* { sem 𝓛 (resolver_left_at at (result.status ≡ 15)
        (λ now. IsRead held now (IsSettledAt held.resolver view result))) }
{
    if at.is_null() {
        return null_handle::settled();
    }
    pass_settled(unsafe { &mut *(at as *mut HeldResolver) }, view)
}

fn pass_settled(held: &mut HeldResolver, view: u64) -> FlatSettled
    ensures { IsRead held.old held.new (IsSettledAt held.old.resolver view result) }
{
    held.settled(view)
}

/// Loads the views with an open fetch, rising.
#[unsafe(no_mangle)]
pub unsafe extern "C" fn simplex_resolver_outstanding(at: *mut u8) -> FlatOutstanding
    ghost held: { HeldResolver }
    requires* { sem 𝓛 (resolver_at at held) }
    ensures* { sem 𝓛 (resolver_left_at at (result.status ≡ 15) (λ now. AreOutstanding held result now)) }
{
    if at.is_null() {
        return null_handle::outstanding();
    }
    pass_outstanding(unsafe { &mut *(at as *mut HeldResolver) })
}

fn pass_outstanding(held: &mut HeldResolver) -> FlatOutstanding
    ensures { AreOutstanding held.old result held.new }
{
    held.outstanding()
}

/// Loads what a peer is served for a view.
#[unsafe(no_mangle)]
pub unsafe extern "C" fn simplex_resolver_produce(at: *mut u8, view: u64) -> FlatServed
    ghost held: { HeldResolver }
    requires* { sem 𝓛 (resolver_at at held) }
    ensures* { sem 𝓛 (resolver_left_at at (result.status ≡ 15) (λ now. IsServedFor held view result now)) }
{
    if at.is_null() {
        return null_handle::served();
    }
    pass_served(unsafe { &mut *(at as *mut HeldResolver) }, view)
}

fn pass_served(held: &mut HeldResolver, view: u64) -> FlatServed
    ensures { IsServedFor held.old view result held.new }
{
    held.produce(view)
}

/// Returns a part of what was served last.
#[unsafe(no_mangle)]
pub unsafe extern "C" fn simplex_resolver_bytes(at: *mut u8, from: u64) -> FlatChunk
    ghost held: { HeldResolver }
    requires* { sem 𝓛 (resolver_at at held) }
    ensures* { sem 𝓛 (resolver_left_at at (result.status ≡ 15)
        (λ now. IsRead held now (IsChunk held.served.items from result))) }
{
    if at.is_null() {
        return null_handle::chunk();
    }
    pass_bytes(unsafe { &mut *(at as *mut HeldResolver) }, from)
}

fn pass_bytes(held: &mut HeldResolver, from: u64) -> FlatChunk
    ensures { IsRead held.old held.new (IsChunk held.old.served.items from result) }
{
    held.chunk(from)
}

/// Frees the resolver, and the memory of its handle.
#[unsafe(no_mangle)]
pub unsafe extern "C" fn simplex_resolver_free(alloc: Global, at: *mut u8)
    ghost held: { HeldResolver }
    requires* { sem 𝓛 (resolver_owned_at alloc at held) }
{
    if at.is_null() {
        return;
    }
    end(RawBox {
        at: at as *mut HeldResolver,
        alloc,
    })
}

/// Drops the resolver at a pointer.
fn end(resolver: RawBox<HeldResolver, Global>) {
    let _resolver = resolver.into_box();
}
