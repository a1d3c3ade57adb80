//! What a workload's statements make, by the numbers that states use.

use mtapi_values::{Args, Kind};
use std::alloc::{AllocError, Global};
use workload_file::{Deed, Part, Statement, Workload};

/// Where a statement stands: its part, and its place there.
#[derive(Clone, Copy, Drop)]
pub(crate) struct Site {
    pub(crate) part: usize,
    pub(crate) at: usize,
}

/// What an action is made with.
#[derive(Clone, Copy, Drop)]
pub(crate) struct ActionPlan {
    pub(crate) site: Site,
    pub(crate) job: u32,
    pub(crate) kind: Kind,
    pub(crate) cores: u64,
}

/// What a task is started with. A task of a queue has the queue's job and priority.
#[derive(Clone, Copy, Drop)]
pub(crate) struct TaskPlan {
    pub(crate) site: Site,
    pub(crate) job: u32,
    pub(crate) priority: u32,
    pub(crate) cores: u64,
    pub(crate) detached: bool,
    pub(crate) group: Option<u32>,
    pub(crate) queue: Option<u32>,
    /// Where what it reads and writes as a tally stands among the numbers of a state.
    pub(crate) number: usize,
}

/// What a queue is made with.
#[derive(Clone, Copy, Drop)]
pub(crate) struct QueuePlan {
    pub(crate) site: Site,
    pub(crate) id: u32,
    pub(crate) job: u32,
    pub(crate) priority: u32,
    pub(crate) limit: u32,
    pub(crate) ordered: bool,
    pub(crate) retain: bool,
}

/// What a mutex is made with.
#[derive(Clone, Copy, Drop)]
pub(crate) struct MutexPlan {
    pub(crate) site: Site,
    pub(crate) id: u32,
    pub(crate) recursive: bool,
}

/// What a semaphore or a reader-writer lock is made with.
#[derive(Clone, Copy, Drop)]
pub(crate) struct LimitPlan {
    pub(crate) site: Site,
    pub(crate) id: u32,
    pub(crate) limit: u32,
}

/// What a segment is made with, and where its first cell stands among the numbers of a state. Only the first cells are kept, up to
/// the last one that some statement or task names.
#[derive(Clone, Copy, Drop)]
pub(crate) struct SegmentPlan {
    pub(crate) site: Site,
    pub(crate) id: u32,
    pub(crate) cells: u32,
    pub(crate) first: usize,
    pub(crate) kept: usize,
}

/// What a workload makes, each kind in the order of the statements.
#[derive(Drop)]
pub(crate) struct Table {
    /// Of each part: the number of its first statement, over all parts in order.
    pub(crate) first: Vec<usize>,
    /// Of each statement: the number of what it makes among its kind, or the place of the number that it reads.
    pub(crate) own: Vec<usize>,
    pub(crate) actions: Vec<ActionPlan>,
    pub(crate) tasks: Vec<TaskPlan>,
    pub(crate) groups: Vec<Site>,
    pub(crate) queues: Vec<QueuePlan>,
    pub(crate) mutexes: Vec<MutexPlan>,
    pub(crate) sems: Vec<LimitPlan>,
    pub(crate) rwls: Vec<LimitPlan>,
    pub(crate) segments: Vec<SegmentPlan>,
    /// How many numbers a state keeps.
    pub(crate) numbers: usize,
}

/// The cell that a tally with these arguments adds to.
pub(crate) fn cell_of(args: &Args) -> Option<u32> {
    match args.as_slice() {
        [_, _, cell, _] => u32::try_from(*cell).ok(),
        _ => None,
    }
}

/// The cell that a statement, or a task that it starts, may name.
fn named_cell(deed: &Deed) -> Option<u32> {
    match deed {
        Deed::Read { cell, .. } => Some(*cell),
        Deed::Write { cell, .. } => Some(*cell),
        Deed::Start { args, .. } => cell_of(args),
        Deed::Enqueue { args, .. } => cell_of(args),
        _ => None,
    }
}

/// One more than the greatest cell that a part may name, if that is more than this.
fn cells_in(statements: &[Statement], least: usize) -> usize {
    let mut cells = least;
    for statement in statements {
        if let Some(cell) = named_cell(&statement.deed) {
            cells = cells.max((cell as usize).saturating_add(1));
        }
    }
    cells
}

/// One more than the greatest cell that a workload may name.
fn cells_named(parts: &[Part]) -> usize {
    let mut cells = 0;
    for part in parts {
        cells = cells_in(part.statements.as_slice(), cells);
    }
    cells
}

impl Table {
    fn empty(alloc: Global) -> Table {
        Table {
            first: Vec::new(alloc),
            own: Vec::new(alloc),
            actions: Vec::new(alloc),
            tasks: Vec::new(alloc),
            groups: Vec::new(alloc),
            queues: Vec::new(alloc),
            mutexes: Vec::new(alloc),
            sems: Vec::new(alloc),
            rwls: Vec::new(alloc),
            segments: Vec::new(alloc),
            numbers: 0,
        }
    }

    /// Room for so many numbers more, and where they begin.
    fn take_numbers(&mut self, count: usize) -> usize {
        let first = self.numbers;
        self.numbers = first.saturating_add(count);
        first
    }

    fn add_task(&mut self, plan: TaskPlan) -> Result<usize, AllocError> {
        let own = self.tasks.len();
        let number = self.take_numbers(1);
        self.tasks.push(TaskPlan { number, ..plan })?;
        Ok(own)
    }

    /// An action, a task or a group.
    fn add_work(&mut self, site: Site, deed: &Deed) -> Result<usize, AllocError> {
        match deed {
            Deed::Action { job, kind, cores } => {
                let own = self.actions.len();
                self.actions.push(ActionPlan {
                    site,
                    job: *job,
                    kind: *kind,
                    cores: cores.0,
                })?;
                Ok(own)
            }
            Deed::Start {
                job,
                priority,
                cores,
                detached,
                group,
                ..
            } => self.add_task(TaskPlan {
                site,
                job: *job,
                priority: *priority,
                cores: cores.0,
                detached: *detached,
                group: *group,
                queue: None,
                number: 0,
            }),
            Deed::Enqueue {
                queue,
                cores,
                detached,
                group,
                ..
            } => self.add_task(TaskPlan {
                site,
                job: 0,
                priority: 0,
                cores: cores.0,
                detached: *detached,
                group: *group,
                queue: Some(*queue),
                number: 0,
            }),
            Deed::Group => {
                let own = self.groups.len();
                self.groups.push(site)?;
                Ok(own)
            }
            _ => Ok(0),
        }
    }

    /// A queue.
    fn add_queue(&mut self, plan: QueuePlan) -> Result<usize, AllocError> {
        let own = self.queues.len();
        self.queues.push(plan)?;
        Ok(own)
    }

    fn add_mutex(&mut self, plan: MutexPlan) -> Result<usize, AllocError> {
        let own = self.mutexes.len();
        self.mutexes.push(plan)?;
        Ok(own)
    }

    fn add_sem(&mut self, plan: LimitPlan) -> Result<usize, AllocError> {
        let own = self.sems.len();
        self.sems.push(plan)?;
        Ok(own)
    }

    fn add_rwl(&mut self, plan: LimitPlan) -> Result<usize, AllocError> {
        let own = self.rwls.len();
        self.rwls.push(plan)?;
        Ok(own)
    }

    /// A segment, of which at most so many cells are named.
    fn add_segment(
        &mut self,
        site: Site,
        id: u32,
        cells: u32,
        named: usize,
    ) -> Result<usize, AllocError> {
        let own = self.segments.len();
        let kept = named.min(cells as usize);
        let first = self.take_numbers(kept);
        self.segments.push(SegmentPlan {
            site,
            id,
            cells,
            first,
            kept,
        })?;
        Ok(own)
    }

    /// A queue or a resource, or else what tasks need.
    fn add_object(&mut self, site: Site, deed: &Deed, named: usize) -> Result<usize, AllocError> {
        match deed {
            Deed::Queue {
                id,
                job,
                priority,
                limit,
                ordered,
                retain,
            } => self.add_queue(QueuePlan {
                site,
                id: *id,
                job: *job,
                priority: *priority,
                limit: *limit,
                ordered: *ordered,
                retain: *retain,
            }),
            Deed::Mutex { id, recursive } => self.add_mutex(MutexPlan {
                site,
                id: *id,
                recursive: *recursive,
            }),
            Deed::Sem { id, limit } => self.add_sem(LimitPlan {
                site,
                id: *id,
                limit: *limit,
            }),
            Deed::Rwl { id, limit } => self.add_rwl(LimitPlan {
                site,
                id: *id,
                limit: *limit,
            }),
            Deed::Shmem { id, cells } => self.add_segment(site, *id, *cells, named),
            Deed::Read { .. } => Ok(self.take_numbers(1)),
            _ => self.add_work(site, deed),
        }
    }

    fn add_part(
        &mut self,
        part: usize,
        statements: &[Statement],
        named: usize,
    ) -> Result<(), AllocError> {
        self.first.push(self.own.len())?;
        for (at, statement) in statements.iter().enumerate() {
            let own = self.add_object(Site { part, at }, &statement.deed, named)?;
            self.own.push(own)?;
        }
        Ok(())
    }

    /// The table of a workload.
    pub(crate) fn of(alloc: Global, load: &Workload) -> Result<Table, AllocError> {
        let mut table = Table::empty(alloc);
        let parts = load.parts.as_slice();
        let named = cells_named(parts);
        for (part, each) in parts.iter().enumerate() {
            table.add_part(part, each.statements.as_slice(), named)?;
        }
        Ok(table)
    }
}
