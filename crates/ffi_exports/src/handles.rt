//! The place where a start writes a handle: a pointer that C has, and the value behind it after the write.

ghost use Rattle.std.specs.Prelude.{◌≡◌, ◌⊎◌, Option, Some};
ghost use Rattle.ffi_member.specs.declared.held.Held.{Held};
ghost use Rattle.ffi_member.specs.declared.resolver_calls.HeldResolver.{HeldResolver};
ghost use Rattle.ffi_engine.specs.declared.held.HeldEngine.{HeldEngine};
ghost use Rattle.ffi_exports.specs.HandleContents.{coded_engine, coded_held, coded_resolver};

use crate::raw_box::RawBox;
use ffi_engine::held::HeldEngine;
use ffi_member::held::Held;
use ffi_member::resolver_calls::HeldResolver;
use std::alloc::Global;
use std::marker::Model;

/// The place of a member's handle. Before a handle is written there may be anything at it, and it is then released
/// unchanged.
#[repr(C)]
#[derive(Drop)]
pub struct MemberHandle {
    pub(crate) at: *mut u8,
    pub ghost held: { Option Held } by { coded_held },
}

impl Model for MemberHandle {
    ghost use Rattle.ffi_exports.specs.HandleContents.{passed_at};

    ghost also_owns = { λ h. passed_at h.at h.held };
}

impl MemberHandle {
    ghost use Rattle.ffi_exports.specs.OpenStatuses.{IsWritten};

    fn of(member: RawBox<Held, Global>) -> MemberHandle
        ensures { result.held ≡ Some member.value }
    {
        let RawBox { at, alloc: _alloc } = member;
        MemberHandle { at: at as *mut u8 }
    }

    /// Writes the handle of a member. Returns 0, or 1 if there is no memory for it.
    pub(crate) fn write(&mut self, alloc: Global, held: Held) -> u32
        ensures { IsWritten held result self.old self.new }
    {
        match Box::new(alloc, held) {
            Ok(held) => {
                *self = MemberHandle::of(RawBox::of(held));
                0
            }
            Err(_) => 1,
        }
    }
}

/// The place of a resolver's handle.
#[repr(C)]
#[derive(Drop)]
pub struct ResolverHandle {
    pub(crate) at: *mut u8,
    pub ghost held: { Option HeldResolver } by { coded_resolver },
}

impl Model for ResolverHandle {
    ghost use Rattle.ffi_exports.specs.HandleContents.{resolver_passed_at};

    ghost also_owns = { λ h. resolver_passed_at h.at h.held };
}

impl ResolverHandle {
    ghost use Rattle.ffi_exports.specs.OpenStatuses.{IsResolverWritten};

    fn of(resolver: RawBox<HeldResolver, Global>) -> ResolverHandle
        ensures { result.held ≡ Some resolver.value }
    {
        let RawBox { at, alloc: _alloc } = resolver;
        ResolverHandle { at: at as *mut u8 }
    }

    /// Writes the handle of a resolver. Returns 0, or 1 if there is no memory for it.
    pub(crate) fn write(&mut self, alloc: Global, held: HeldResolver) -> u32
        ensures { IsResolverWritten held result self.old self.new }
    {
        match Box::new(alloc, held) {
            Ok(held) => {
                *self = ResolverHandle::of(RawBox::of(held));
                0
            }
            Err(_) => 1,
        }
    }
}

/// The place of an engine's handle.
#[repr(C)]
#[derive(Drop)]
pub struct EngineHandle {
    pub(crate) at: *mut u8,
    pub ghost held: { Option HeldEngine } by { coded_engine },
}

impl Model for EngineHandle {
    ghost use Rattle.ffi_exports.specs.HandleContents.{engine_passed_at};

    ghost also_owns = { λ h. engine_passed_at h.at h.held };
}

impl EngineHandle {
    ghost use Rattle.ffi_exports.specs.OpenStatuses.{IsEngineWritten};

    fn of(engine: RawBox<HeldEngine, Global>) -> EngineHandle
        ensures { result.held ≡ Some engine.value }
    {
        let RawBox { at, alloc: _alloc } = engine;
        EngineHandle { at: at as *mut u8 }
    }

    /// Writes the handle of an engine. Returns 0, or 1 if there is no memory for it.
    pub(crate) fn write(&mut self, alloc: Global, held: HeldEngine) -> u32
        ensures { IsEngineWritten held result self.old self.new }
    {
        match Box::new(alloc, held) {
            Ok(held) => {
                *self = EngineHandle::of(RawBox::of(held));
                0
            }
            Err(_) => 1,
        }
    }
}
