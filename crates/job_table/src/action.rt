ghost use Rattle.std.specs.Prelude.{◌≡◌, ◌<◌};
ghost use Rattle.mtapi_objects.specs.Actions.{new_action, with_enabled, has_job};
ghost use Rattle.job_table.specs.Answers.{runs_job_on};

use mtapi_values::{Kind, Mask};
use std::marker::Model;

/// One action, as it lies in the pool.
#[derive(Drop)]
pub struct StoredAction {
    job: u32,
    kind: Kind,
    cores: Mask,
    enabled: bool,
}

impl Model for StoredAction {
    ghost use Rattle.mtapi_objects.specs.Actions.{Action};

    ghost Value = { Action };

    ghost view = { λ a. record {
      job = a.job;
      kind = a.kind;
      cores = a.cores.0;
      enabled = a.enabled;
    } };
}

impl StoredAction {
    pub fn new(job: u32, kind: Kind, cores: Mask) -> StoredAction
        ensures { result ≡ new_action job kind cores.0 }
    {
        StoredAction {
            job,
            kind,
            cores,
            enabled: true,
        }
    }

    pub fn job(&self) -> u32
        ensures { result ≡ self.now.job }
    {
        self.job
    }

    pub fn has_job(&self, job: u32) -> bool
        ensures { result ≡ has_job job self.now }
    {
        self.job == job
    }

    pub fn kind(&self) -> Kind
        ensures { result ≡ self.now.kind }
    {
        self.kind
    }

    pub fn cores(&self) -> Mask
        ensures { result.0 ≡ self.now.cores }
    {
        self.cores
    }

    pub fn is_enabled(&self) -> bool
        ensures { result ≡ self.now.enabled }
    {
        self.enabled
    }

    pub fn set_enabled(&mut self, enabled: bool)
        ensures { self.new ≡ with_enabled enabled self.old }
    {
        self.enabled = enabled;
    }

    /// Whether the action is enabled, has this job, and this core is in its mask.
    pub fn runs_job_on(&self, job: u32, core: u32) -> bool
        requires { core < 64 }
        ensures { result ≡ runs_job_on job core self.now }
    {
        self.enabled && self.has_job(job) && (self.cores.0 >> core) & 1 == 1
    }
}
