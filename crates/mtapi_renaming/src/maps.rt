//! Another handle beside each handle, in maps.

ghost use Rattle.std.specs.Prelude.{◌≡◌, ℕ, OnOk, OnErr, IfOk, Some, ◌==◌, if◌then◌else◌};
ghost use Rattle.std.specs.Ordering.{nat_cmp};
ghost use Rattle.std.specs.BTreeMap.{get};
ghost use Rattle.mtapi_renaming.specs.Renaming.{or_zero};
ghost use Rattle.mtapi_renaming.specs.Renaming.{renames_nothing, with_pair};
ghost use Rattle.mtapi_renaming.specs.Maps.{renaming_of};

use crate::ops::Rename;
use mtapi_values::ObjectKind;
use std::alloc::{AllocError, Global};
use std::collections::BTreeMap;

/// Another handle beside each handle of each kind that was added.
#[derive(Drop)]
pub struct OtherHandles {
    actions: BTreeMap<u64, u64>,
    tasks: BTreeMap<u64, u64>,
    groups: BTreeMap<u64, u64>,
    queues: BTreeMap<u64, u64>,
    mutexes: BTreeMap<u64, u64>,
    sems: BTreeMap<u64, u64>,
    rwls: BTreeMap<u64, u64>,
    segments: BTreeMap<u64, u64>,
}

// Puts a number beside a handle.
fn put(map: &mut BTreeMap<u64, u64>, handle: u64, other: u64) -> Result<(), AllocError>
    ensures ok { OnOk result ((h : ℕ)
        → get nat_cmp map.new h ≡ (if h == handle then Some other else get nat_cmp map.old h)) }
    ensures err { OnErr result ((h : ℕ) → get nat_cmp map.new h ≡ get nat_cmp map.old h) }
{
    map.insert(handle, other)?;
    Ok(())
}

// What stands beside a handle, and 0 where nothing does.
fn beside(map: &BTreeMap<u64, u64>, handle: u64) -> u64
    ensures { result ≡ or_zero (get nat_cmp map.now handle) }
{
    match map.get(&handle) {
        Some(other) => *other,
        None => 0,
    }
}

impl OtherHandles {
    /// No handle has another one.
    pub fn new(alloc: Global) -> OtherHandles
        ensures { renaming_of result ≡ renames_nothing }
    {
        OtherHandles {
            actions: BTreeMap::new(alloc),
            tasks: BTreeMap::new(alloc),
            groups: BTreeMap::new(alloc),
            queues: BTreeMap::new(alloc),
            mutexes: BTreeMap::new(alloc),
            sems: BTreeMap::new(alloc),
            rwls: BTreeMap::new(alloc),
            segments: BTreeMap::new(alloc),
        }
    }

    /// Puts another handle beside a handle of this kind, in the place of the one that stood there.
    pub fn add(&mut self, kind: ObjectKind, handle: u64, other: u64) -> Result<(), AllocError>
        ensures ok { OnOk result (renaming_of self.new ≡ with_pair kind handle other (renaming_of self.old)) }
        ensures err { OnErr result (renaming_of self.new ≡ renaming_of self.old) }
    {
        match kind {
            ObjectKind::Action => put(&mut self.actions, handle, other),
            ObjectKind::Task => put(&mut self.tasks, handle, other),
            ObjectKind::Group => put(&mut self.groups, handle, other),
            ObjectKind::Queue => put(&mut self.queues, handle, other),
            ObjectKind::Mutex => put(&mut self.mutexes, handle, other),
            ObjectKind::Sem => put(&mut self.sems, handle, other),
            ObjectKind::Rwl => put(&mut self.rwls, handle, other),
            ObjectKind::Shmem => put(&mut self.segments, handle, other),
        }
    }
}

impl Rename for OtherHandles {
    ghost renaming = { renaming_of };

    fn other(&self, kind: ObjectKind, handle: u64) -> u64 {
        match kind {
            ObjectKind::Action => beside(&self.actions, handle),
            ObjectKind::Task => beside(&self.tasks, handle),
            ObjectKind::Group => beside(&self.groups, handle),
            ObjectKind::Queue => beside(&self.queues, handle),
            ObjectKind::Mutex => beside(&self.mutexes, handle),
            ObjectKind::Sem => beside(&self.sems, handle),
            ObjectKind::Rwl => beside(&self.rwls, handle),
            ObjectKind::Shmem => beside(&self.segments, handle),
        }
    }
}
