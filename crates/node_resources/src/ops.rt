//! Every op on resources, as one call.

ghost use Rattle.std.specs.Prelude.{◌≡◌, ◌<◌, true};
ghost use Rattle.mtapi_renaming.specs.Ops.{renamed_op};
ghost use Rattle.mtapi_machine.specs.Answers.{is_mrapi};
ghost use Rattle.node_resources.specs.Steps.{ResourceSteps};

use crate::Resources;
use crate::gate::Gate;
use mtapi_machine::{Op, Reply};
use mtapi_renaming::{Rename, other_mutex, other_rwl, other_sem, other_shmem};

impl Resources {
    /// One op on resources, for a seat below 25. The pools have other handles for those that it names.
    pub fn execute<R: Rename>(&mut self, names: &R, gate: Gate, who: u32, op: &Op) -> Reply
        requires seat { who < 25 }
        requires resource { is_mrapi op.now ≡ true }
        ensures { ResourceSteps self.old gate who (renamed_op (R.renaming names.now) op.now) result self.new }
    {
        match op {
            Op::MutexCreate { id, recursive } => self.mutex_create(gate, who, *id, *recursive),
            Op::MutexGet { id } => self.mutex_get(gate, who, *id),
            Op::MutexDelete { mutex } => self.mutex_delete(gate, who, other_mutex(names, *mutex)),
            Op::MutexLook { mutex, last } => {
                self.mutex_look(gate, who, other_mutex(names, *mutex), *last)
            }
            Op::MutexUnlock { mutex, key } => {
                self.mutex_unlock(gate, who, other_mutex(names, *mutex), *key)
            }
            Op::SemCreate { id, limit } => self.sem_create(gate, who, *id, *limit),
            Op::SemGet { id } => self.sem_get(gate, who, *id),
            Op::SemDelete { sem } => self.sem_delete(gate, who, other_sem(names, *sem)),
            Op::SemLook { sem, last } => self.sem_look(gate, who, other_sem(names, *sem), *last),
            Op::SemUnlock { sem } => self.sem_unlock(gate, who, other_sem(names, *sem)),
            Op::RwlCreate { id, limit } => self.rwl_create(gate, who, *id, *limit),
            Op::RwlGet { id } => self.rwl_get(gate, who, *id),
            Op::RwlDelete { rwl } => self.rwl_delete(gate, who, other_rwl(names, *rwl)),
            Op::RwlLook { rwl, writer, last } => {
                self.rwl_look(gate, who, other_rwl(names, *rwl), *writer, *last)
            }
            Op::RwlUnlock { rwl, writer } => {
                self.rwl_unlock(gate, who, other_rwl(names, *rwl), *writer)
            }
            Op::ShmemCreate { id, cells } => self.shmem_create(gate, who, *id, *cells),
            Op::ShmemGet { id } => self.shmem_get(gate, who, *id),
            Op::ShmemDelete { shmem } => self.shmem_delete(gate, who, other_shmem(names, *shmem)),
            Op::ShmemAttach { shmem } => self.shmem_attach(gate, who, other_shmem(names, *shmem)),
            Op::ShmemDetach { shmem } => self.shmem_detach(gate, who, other_shmem(names, *shmem)),
            Op::ShmemRead { shmem, cell } => {
                self.shmem_read(gate, who, other_shmem(names, *shmem), *cell)
            }
            Op::ShmemWrite { shmem, cell, value } => {
                self.shmem_write(gate, who, other_shmem(names, *shmem), *cell, *value)
            }
            // No other op is one on resources.
            _ => unreachable!(),
        }
    }
}
