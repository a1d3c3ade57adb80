//! Actions, with what those of one job cover kept at hand.

ghost use Rattle.std.specs.Prelude.{◌≡◌, ◌≤◌, ◌<◌, replicate, Some, is_some, IfSome, IfNone, IfOk, OnOk, OnErr, true, false};
ghost use Rattle.handle_pool.specs.Slots.{slot_value, free_slot, without, changed, live_count};
ghost use Rattle.mtapi_objects.specs.Actions.{Action, with_enabled};
ghost use Rattle.job_table.specs.Answers.{CreatesAction, Covers, Chooses, job_of, runs_job_on};

use job_table::{Actions, Cover};
use mtapi_values::{ActionHandle, Kind, Mask, MtapiStatus};
use std::alloc::{AllocError, Global};
use std::marker::Model;

// What the actions of a job cover.
#[derive(Clone, Copy, Drop)]
struct KnownCover {
    job: u32,
    cover: Cover,
}

/// Actions, and the covers of the last two jobs whose covers were asked to be kept, until an action changes.
#[derive(Drop)]
pub(crate) struct CoveredActions {
    actions: Actions,
    known: Option<KnownCover>,
    // The one that was kept before.
    earlier: Option<KnownCover>,
}

impl Model for CoveredActions {
    ghost use Rattle.std.specs.Prelude.{IfSome};
    ghost use Rattle.handle_pool.specs.Slots.{Slots};
    ghost use Rattle.mtapi_objects.specs.Actions.{Action};
    ghost use Rattle.job_table.specs.Answers.{Covers};

    ghost Value = { Slots Action };

    ghost view = { λ a. a.actions };

    ghost invariant = { λ a. IfSome a.known (λ k. Covers a.actions k.job k.cover) × IfSome a.earlier (λ k. Covers a.actions k.job k.cover) };
}

impl CoveredActions {
    // Room for actions, as `Actions::new` says it.
    pub(crate) fn new(
        alloc: Global,
        max: u32,
        generations: u32,
    ) -> Result<CoveredActions, AllocError>
        requires some { 1 ≤ max }
        requires few { max ≤ 65536 }
        requires once { 1 ≤ generations }
        ensures generations { IfOk result (λ a. a.generations ≡ generations) }
        ensures slots { IfOk result (λ a. a.slots ≡ replicate max (free_slot 1)) }
    {
        Ok(CoveredActions {
            actions: Actions::new(alloc, max, generations)?,
            known: None,
            earlier: None,
        })
    }

    // Makes an enabled action, as `Actions::create` says it.
    pub(crate) fn create(
        &mut self,
        job: u32,
        kind: Kind,
        cores: Mask,
    ) -> Result<ActionHandle, MtapiStatus>
        ensures { CreatesAction self.old job kind cores.0 result self.new }
    {
        self.known = None;
        self.earlier = None;
        self.actions.create(job, kind, cores)
    }

    // How many actions are live.
    pub(crate) fn live(&self) -> u32
        ensures { result ≡ live_count self.now }
    {
        self.actions.live()
    }

    // Whether a handle names a live action.
    pub(crate) fn is_live(&self, a: ActionHandle) -> bool
        ensures { result ≡ is_some (slot_value self.now a.0) }
    {
        self.actions.is_live(a)
    }

    // The job of an action. `ErrActionInvalid` where the action isn't live.
    pub(crate) fn job(&self, a: ActionHandle) -> Result<u32, MtapiStatus>
        ensures { result ≡ job_of (slot_value self.now a.0) }
    {
        self.actions.job(a)
    }

    // Gives up an action, as `Actions::delete` says it.
    pub(crate) fn delete(&mut self, a: ActionHandle) -> Result<u32, MtapiStatus>
        ensures reply { result ≡ job_of (slot_value self.old a.0) }
        ensures ok { OnOk result (self.new ≡ without self.old a.0) }
        ensures err { OnErr result (self.new ≡ self.old) }
    {
        self.known = None;
        self.earlier = None;
        self.actions.delete(a)
    }

    // Enables an action, as `Actions::enable` says it.
    pub(crate) fn enable(&mut self, a: ActionHandle) -> Result<u32, MtapiStatus>
        ensures reply { result ≡ job_of (slot_value self.old a.0) }
        ensures new { self.new ≡ changed self.old a.0 (with_enabled true) }
    {
        self.known = None;
        self.earlier = None;
        self.actions.enable(a)
    }

    // Disables an action, as `Actions::disable` says it.
    pub(crate) fn disable(&mut self, a: ActionHandle) -> Result<u32, MtapiStatus>
        ensures reply { result ≡ job_of (slot_value self.old a.0) }
        ensures new { self.new ≡ changed self.old a.0 (with_enabled false) }
    {
        self.known = None;
        self.earlier = None;
        self.actions.disable(a)
    }

    // Which cores the live actions of a job cover. It walks them, but where the cover of the job is kept.
    pub(crate) fn cover(&self, job: u32) -> Cover
        ensures { Covers self.now job result }
    {
        match self.known {
            Some(known) if known.job == job => known.cover,
            _ => self.earlier_cover(job),
        }
    }

    // The same, by what was kept before the last.
    fn earlier_cover(&self, job: u32) -> Cover
        ensures { Covers self.now job result }
    {
        match self.earlier {
            Some(known) if known.job == job => known.cover,
            _ => self.actions.cover(job),
        }
    }

    // Keeps the cover of a job beside the one that was kept last. One that was kept before that is given up.
    pub(crate) fn keep_cover(&mut self, job: u32)
        ensures { self.new ≡ self.old }
    {
        let cover = self.cover(job);
        match self.known {
            Some(known) if known.job == job => {}
            _ => {
                self.earlier = self.known;
                self.known = Some(KnownCover { job, cover });
            }
        }
    }

    // An action for the worker, as `Actions::choice` says it.
    pub(crate) fn choice(&self, job: u32, worker: u32) -> Option<(ActionHandle, Kind)>
        requires { worker < 64 }
        ensures { Chooses self.now job worker result }
    {
        self.actions.choice(job, worker)
    }

    // The kind of an action that the worker may run, as `Actions::kind_for` says it.
    pub(crate) fn kind_for(&self, a: ActionHandle, job: u32, worker: u32) -> Option<Kind>
        requires { worker < 64 }
        ensures some { IfSome result (λ kind. (x : Action) × (slot_value self.now a.0 ≡ Some x) × (x.kind ≡ kind)
            × (runs_job_on job worker x ≡ true)) }
        ensures none { IfNone result ((x : Action) → slot_value self.now a.0 ≡ Some x → runs_job_on job worker x ≡ true
            → ⊥) }
    {
        self.actions.kind_for(a, job, worker)
    }
}
