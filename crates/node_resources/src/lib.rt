//! The ops of a node on mutexes, semaphores, reader-writer locks and segments, each as its row of the machine says.
//!
//! Nothing here knows a node: an op is told the phase and the number of workers. Handles have layout one: they are those of the pools.
#![tactic(auto)]

mod gate;
mod mutex_ops;
mod ops;
mod replies;
mod rwl_ops;
mod sem_ops;
mod shmem_ops;
pub mod tally_ops;

ghost use Rattle.std.specs.Prelude.{◌≡◌, IfOk, is_some};
ghost use Rattle.handle_pool.specs.Slots.{slot_value, live_count};
ghost use Rattle.mtapi_machine.specs.declared.terms.Terms.{Terms};
ghost use Rattle.mtapi_machine.specs.State.{opening};
ghost use Rattle.node_resources.specs.Holds.{ResourcesStand};

pub use gate::Gate;
use mrapi_counting::{Rwls, Sems};
use mrapi_mutex::Mutexes;
use mrapi_shmem::Segments;
use mtapi_values::{MutexHandle, NodeAttr, RwlHandle, SemHandle, ShmemHandle};
use std::alloc::{AllocError, Global};
use std::marker::Model;
pub use tally_ops::TallyLock;

/// The mutexes, semaphores, reader-writer locks and segments of a node.
#[derive(Drop)]
pub struct Resources {
    mutexes: Mutexes,
    sems: Sems,
    rwls: Rwls,
    segments: Segments,
    // The mutex and the segment that a tally on each seat found last.
    tally_mutexes: [Option<MutexHandle>; 25],
    tally_segments: [Option<ShmemHandle>; 25],
}

impl Model for Resources {
    ghost use Rattle.node_resources.specs.Holds.{ResourceTable, AreSmall};

    ghost Value = { ResourceTable };

    ghost view = { λ r. record {
      mutexes = r.mutexes;
      sems = r.sems;
      rwls = r.rwls;
      segments = r.segments;
    } };

    ghost invariant = { λ r. AreSmall (record {
      mutexes = r.mutexes;
      sems = r.sems;
      rwls = r.rwls;
      segments = r.segments;
    }) };
}

impl Resources {
    /// No object of any kind, and all the memory that as many of each will use as the settings allow.
    pub fn init(alloc: Global, settings: NodeAttr) -> Result<Resources, AllocError>
        ensures { IfOk result (λ r. (t : Terms) → t.settings ≡ settings → ResourcesStand (opening t) r) }
    {
        let max = settings.objects();
        let generations = settings.generations();
        Ok(Resources {
            mutexes: Mutexes::new(alloc, max, generations)?,
            sems: Sems::new(alloc, max, generations)?,
            rwls: Rwls::new(alloc, max, generations)?,
            segments: Segments::new(alloc, max, generations)?,
            tally_mutexes: [None; 25],
            tally_segments: [None; 25],
        })
    }

    /// Tells how many mutexes are live.
    pub fn live_mutexes(&self) -> u32
        ensures { result ≡ live_count self.now.mutexes }
    {
        self.mutexes.live()
    }

    /// Whether a handle names a live mutex.
    pub fn is_mutex(&self, mutex: MutexHandle) -> bool
        ensures { result ≡ is_some (slot_value self.now.mutexes mutex.0) }
    {
        self.mutexes.is_live(mutex)
    }

    /// Tells how many semaphores are live.
    pub fn live_sems(&self) -> u32
        ensures { result ≡ live_count self.now.sems }
    {
        self.sems.live()
    }

    /// Whether a handle names a live semaphore.
    pub fn is_sem(&self, sem: SemHandle) -> bool
        ensures { result ≡ is_some (slot_value self.now.sems sem.0) }
    {
        self.sems.is_live(sem)
    }

    /// Tells how many reader-writer locks are live.
    pub fn live_rwls(&self) -> u32
        ensures { result ≡ live_count self.now.rwls }
    {
        self.rwls.live()
    }

    /// Whether a handle names a live reader-writer lock.
    pub fn is_rwl(&self, rwl: RwlHandle) -> bool
        ensures { result ≡ is_some (slot_value self.now.rwls rwl.0) }
    {
        self.rwls.is_live(rwl)
    }

    /// Tells how many segments are live.
    pub fn live_segments(&self) -> u32
        ensures { result ≡ live_count self.now.segments }
    {
        self.segments.live()
    }

    /// Whether a handle names a live segment.
    pub fn is_segment(&self, shmem: ShmemHandle) -> bool
        ensures { result ≡ is_some (slot_value self.now.segments shmem.0) }
    {
        self.segments.is_live(shmem)
    }
}
