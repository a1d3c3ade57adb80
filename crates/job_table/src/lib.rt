//! Actions under jobs.
#![tactic(auto)]

mod action;
pub mod cover;

ghost use Rattle.std.specs.Prelude.{◌≡◌, ◌+◌, ◌≤◌, ◌<◌, ℕ, List, true, false, replicate, Some, slice_get, is_some, IsSome, IfSome, IfNone, IfOk, OnOk, OnErr};
ghost use Rattle.handle_pool.specs.Slots.{slot_value, free_slot, without, changed, live_count};
ghost use Rattle.mtapi_objects.specs.Actions.{Action, with_enabled, action_create_refusals};
ghost use Rattle.mtapi_values.specs.Conditions.{first};
ghost use Rattle.job_table.specs.Answers.{CreatesAction, Covers, Chooses, job_of, runs_job_on};
ghost use Rattle.job_table.specs.Cover.{CoversBefore};

use action::StoredAction;
pub use cover::Cover;
use handle_pool::Pool;
use linked_places::LinkedLists;
use mtapi_values::{ActionHandle, Kind, Mask, MtapiStatus};
use std::alloc::{AllocError, Global};
use std::marker::Model;

/// Actions, each under a handle. Several may have one job.
#[derive(Drop)]
pub struct Actions {
    pool: Pool<StoredAction>,
    // As many lists as places; that of an action is its job's remainder.
    jobs: LinkedLists,
}

impl Model for Actions {
    ghost use Rattle.handle_pool.specs.Slots.{Slots};
    ghost use Rattle.mtapi_objects.specs.Actions.{Action};

    ghost Value = { Slots Action };

    ghost view = { λ a. a.pool };

    ghost use Rattle.job_table.specs.Cover.{AreListed};

    ghost invariant = { λ a. AreListed a.pool a.jobs };
}

impl Actions {
    /// Room for 1 to 65,536 actions, with all the memory that they will use; a place takes that many handles, one after another.
    pub fn new(alloc: Global, max: u32, generations: u32) -> Result<Actions, AllocError>
        requires some { 1 ≤ max }
        requires few { max ≤ 65536 }
        requires once { 1 ≤ generations }
        ensures generations { IfOk result (λ a. a.generations ≡ generations) }
        ensures slots { IfOk result (λ a. a.slots ≡ replicate max (free_slot 1)) }
    {
        Ok(Actions {
            pool: Pool::new(alloc, max, generations)?,
            jobs: LinkedLists::new(alloc, max, max)?,
        })
    }

    /// Makes an enabled action of a job, which may run on these cores.
    ///
    /// Stands for `mtapi_action_create`.
    ///
    /// # Errors
    ///
    /// - `ErrJobInvalid`: the job isn't 1 to 65,535.
    /// - `ErrActionLimit`: every place is in use or has retired.
    pub fn create(&mut self, job: u32, kind: Kind, cores: Mask) -> Result<ActionHandle, MtapiStatus>
        ensures { CreatesAction self.old job kind cores.0 result self.new }
    {
        if let Some(status) = Actions::create_refusal(job) {
            return Err(status);
        }
        let lists = self.pool.max();
        match self.pool.insert(StoredAction::new(job, kind, cores)) {
            Ok(handle) => {
                self.jobs.push(job % lists, handle);
                Ok(ActionHandle(handle))
            }
            Err(_) => Err(MtapiStatus::ErrActionLimit),
        }
    }

    /// Tells why a create of an action of this job is refused, whether there is room or not:
    /// `ErrJobInvalid` where the job isn't 1 to 65,535, else None.
    pub fn create_refusal(job: u32) -> Option<MtapiStatus>
        ensures { result ≡ first (action_create_refusals job) }
    {
        if job == 0 || job > 65535 {
            Some(MtapiStatus::ErrJobInvalid)
        } else {
            None
        }
    }

    /// Tells how many actions are live.
    pub fn live(&self) -> u32
        ensures { result ≡ live_count self.now }
    {
        self.pool.live()
    }

    /// Whether a handle names a live action.
    pub fn is_live(&self, a: ActionHandle) -> bool
        ensures { result ≡ is_some (slot_value self.now a.0) }
    {
        self.pool.get(a.0).is_some()
    }

    /// The job of an action. `ErrActionInvalid` where the action isn't live.
    pub fn job(&self, a: ActionHandle) -> Result<u32, MtapiStatus>
        ensures { result ≡ job_of (slot_value self.now a.0) }
    {
        match self.pool.get(a.0) {
            Some(action) => Ok(action.job()),
            None => Err(MtapiStatus::ErrActionInvalid),
        }
    }

    /// Gives up an action, and gives its job.
    ///
    /// Stands for `mtapi_action_delete`.
    ///
    /// # Errors
    ///
    /// - `ErrActionInvalid`: the action isn't live.
    pub fn delete(&mut self, a: ActionHandle) -> Result<u32, MtapiStatus>
        ensures reply { result ≡ job_of (slot_value self.old a.0) }
        ensures ok { OnOk result (self.new ≡ without self.old a.0) }
        ensures err { OnErr result (self.new ≡ self.old) }
    {
        let lists = self.pool.max();
        match self.pool.remove(a.0) {
            None => Err(MtapiStatus::ErrActionInvalid),
            Some(action) => {
                self.jobs.remove(action.job() % lists, a.0);
                Ok(action.job())
            }
        }
    }

    /// Lets an action be chosen again, and gives its job. An enabled one stays as it is.
    ///
    /// Stands for `mtapi_action_enable`.
    ///
    /// # Errors
    ///
    /// - `ErrActionInvalid`: the action isn't live.
    pub fn enable(&mut self, a: ActionHandle) -> Result<u32, MtapiStatus>
        ensures reply { result ≡ job_of (slot_value self.old a.0) }
        ensures new { self.new ≡ changed self.old a.0 (with_enabled true) }
    {
        self.set_enabled(a, true)
    }

    /// Has an action be chosen no more, and gives its job. A disabled one stays as it is.
    ///
    /// Stands for `mtapi_action_disable`.
    ///
    /// # Errors
    ///
    /// - `ErrActionInvalid`: the action isn't live.
    pub fn disable(&mut self, a: ActionHandle) -> Result<u32, MtapiStatus>
        ensures reply { result ≡ job_of (slot_value self.old a.0) }
        ensures new { self.new ≡ changed self.old a.0 (with_enabled false) }
    {
        self.set_enabled(a, false)
    }

    fn set_enabled(&mut self, a: ActionHandle, enabled: bool) -> Result<u32, MtapiStatus>
        ensures reply { result ≡ job_of (slot_value self.old a.0) }
        ensures new { self.new ≡ changed self.old a.0 (with_enabled enabled) }
    {
        set_enabled_in(&mut self.pool, a.0, enabled)
    }

    /// Tells which cores the live actions of a job cover: no live action has it, all that do are
    /// disabled, or the cores in some mask of those that aren't. Any job may be asked for.
    pub fn cover(&self, job: u32) -> Cover
        ensures { Covers self.now job result }
    {
        let list = job % self.pool.max();
        let mut cover = Cover::NoAction;
        let mut next = self.jobs.first(list);
        for _index in 0..self.jobs.len(list) {
            let Some(handle) = next else { unreachable!() };
            cover = cover_at(&self.pool, cover, job, handle);
            next = self.jobs.next(handle);
        }
        cover
    }

    /// Finds a live, enabled action of the job whose mask has the worker, and gives its kind beside
    /// it. None exactly where there is none; which of several isn't said.
    pub fn choice(&self, job: u32, worker: u32) -> Option<(ActionHandle, Kind)>
        requires { worker < 64 }
        ensures { Chooses self.now job worker result }
    {
        let list = job % self.pool.max();
        let mut next = self.jobs.first(list);
        for _index in 0..self.jobs.len(list) {
            let Some(handle) = next else { unreachable!() };
            if let Some(kind) = runs_at(&self.pool, job, worker, handle) {
                return Some((ActionHandle(handle), kind));
            }
            next = self.jobs.next(handle);
        }
        None
    }

    /// The kind of a live, enabled action of this job whose mask has the worker. None exactly where
    /// the handle names no such action.
    pub fn kind_for(&self, a: ActionHandle, job: u32, worker: u32) -> Option<Kind>
        requires { worker < 64 }
        ensures some { IfSome result (λ kind. (x : Action) × (slot_value self.now a.0 ≡ Some x) × (x.kind ≡ kind)
            × (runs_job_on job worker x ≡ true)) }
        ensures none { IfNone result ((x : Action) → slot_value self.now a.0 ≡ Some x → runs_job_on job worker x ≡ true
            → ⊥) }
    {
        runs_at(&self.pool, job, worker, a.0)
    }
}

// Enables or disables an action, and gives its job.
fn set_enabled_in(
    pool: &mut Pool<StoredAction>,
    handle: u64,
    enabled: bool,
) -> Result<u32, MtapiStatus>
    ensures reply { result ≡ job_of (slot_value pool.old handle) }
    ensures new { pool.new ≡ changed pool.old handle (with_enabled enabled) }
{
    match pool.get_mut(handle) {
        None => Err(MtapiStatus::ErrActionInvalid),
        Some(action) => {
            action.set_enabled(enabled);
            Ok(action.job())
        }
    }
}

// The cover of the actions before a handle of the list, with the action of this handle.
fn cover_at(pool: &Pool<StoredAction>, cover: Cover, job: u32, handle: u64) -> Cover
    requires { IsSome (slot_value pool.now handle) }
    ensures { (hs : List ℕ) (index : ℕ) → slice_get hs index ≡ Some handle → CoversBefore pool.now hs index job cover
        → CoversBefore pool.now hs (index + 1) job result }
{
    match pool.get(handle) {
        Some(action) if action.has_job(job) => cover.with(action),
        _ => cover,
    }
}

// The kind of the live action of this handle, if it is enabled, has this job, and its mask has the worker.
fn runs_at(pool: &Pool<StoredAction>, job: u32, worker: u32, handle: u64) -> Option<Kind>
    requires { worker < 64 }
    ensures some { IfSome result (λ kind. (a : Action) × (slot_value pool.now handle ≡ Some a) × (a.kind ≡ kind)
        × (runs_job_on job worker a ≡ true)) }
    ensures none { IfNone result ((a : Action) → slot_value pool.now handle ≡ Some a → runs_job_on job worker a ≡ true
        → ⊥) }
{
    match pool.get(handle) {
        Some(action) if action.runs_job_on(job, worker) => Some(action.kind()),
        _ => None,
    }
}
