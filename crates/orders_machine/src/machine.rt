//! The machine of a workload, and what its steps look up.

use crate::lists::at;
use crate::state::{
    Ability, CALLERS, Group, Mutex, NO_TASK, Outcome, Owner, Queue, Rwl, Segment, Sem, State, Task,
};
use crate::table::{QueuePlan, Site, Table, TaskPlan};
use mtapi_machine::Phase;
use std::alloc::{AllocError, Global};
use workload_file::{Deed, Part, Statement, Workload, has_begin};

/// Workers that no mask of the workload tells apart: the first of them, and how many they are.
#[derive(Clone, Copy, Drop)]
pub(crate) struct Class {
    pub(crate) worker: u32,
    pub(crate) size: usize,
}

/// A workload, worked out for its steps.
#[derive(Drop)]
pub struct Machine<'a> {
    pub(crate) load: &'a Workload,
    pub(crate) table: Table,
    pub(crate) classes: Vec<Class>,
    /// Whether main lets the callers enter by a statement of its own.
    pub(crate) begins: bool,
}

/// Whether the core is in the mask.
pub(crate) fn in_mask(core: u32, mask: u64) -> bool {
    core < 64 && mask >> core & 1 == 1
}

/// Whether each mask of the workload has both workers or neither.
fn are_alike(table: &Table, a: u32, b: u32) -> bool {
    for action in table.actions.as_slice() {
        if in_mask(a, action.cores) != in_mask(b, action.cores) {
            return false;
        }
    }
    for task in table.tasks.as_slice() {
        if in_mask(a, task.cores) != in_mask(b, task.cores) {
            return false;
        }
    }
    true
}

/// The class that a worker belongs to, if there is one yet.
fn class_for(table: &Table, classes: &[Class], worker: u32) -> Option<usize> {
    for (number, class) in classes.iter().enumerate() {
        if are_alike(table, class.worker, worker) {
            return Some(number);
        }
    }
    None
}

/// Puts a worker into its class, or into a new one.
fn add_worker(table: &Table, classes: &mut Vec<Class>, worker: u32) -> Result<(), AllocError> {
    match class_for(table, classes.as_slice(), worker) {
        Some(number) => {
            if number < classes.len() {
                let class = &mut classes[number];
                class.size = class.size.saturating_add(1);
            }
            Ok(())
        }
        None => {
            classes.push(Class { worker, size: 1 })?;
            Ok(())
        }
    }
}

fn classes_of(alloc: Global, table: &Table, workers: u32) -> Result<Vec<Class>, AllocError> {
    let mut classes = Vec::new(alloc);
    for worker in 0..workers {
        add_worker(table, &mut classes, worker)?;
    }
    Ok(classes)
}

fn first_part(parts: &[Part]) -> &[Statement] {
    match parts.first() {
        Some(part) => part.statements.as_slice(),
        None => &[],
    }
}

const NO_GROUP: Group = Group {
    live: false,
    fault: None,
};

const NO_QUEUE: Queue = Queue {
    live: false,
    enabled: false,
};

const NO_MUTEX: Mutex = Mutex {
    live: false,
    owner: Owner::Nobody,
    depth: 0,
};

const NO_SEM: Sem = Sem {
    live: false,
    holdings: [0; CALLERS],
};

const NO_RWL: Rwl = Rwl {
    live: false,
    readers: [false; CALLERS],
    writer: None,
};

const NO_SEGMENT: Segment = Segment {
    live: false,
    attached: [false; CALLERS],
    tallies: 0,
};

impl<'a> Machine<'a> {
    /// The machine of a workload. It fails for want of memory alone.
    pub fn new(alloc: Global, load: &'a Workload) -> Result<Machine<'a>, AllocError> {
        let table = Table::of(alloc, load)?;
        let classes = classes_of(alloc, &table, load.settings.workers())?;
        Ok(Machine {
            load,
            table,
            classes,
            begins: has_begin(first_part(load.parts.as_slice())),
        })
    }

    /// The state before the first step.
    pub fn opening(&self, alloc: Global) -> Result<State, AllocError> {
        let table = &self.table;
        Ok(State {
            phase: Phase::New,
            released: false,
            places: vec![in alloc; 0u16; table.first.len()]?,
            outcomes: vec![in alloc; Outcome::Open; table.own.len()]?,
            numbers: vec![in alloc; 0i64; table.numbers]?,
            actions: vec![in alloc; Ability::Gone; table.actions.len()]?,
            tasks: vec![in alloc; NO_TASK; table.tasks.len()]?,
            groups: vec![in alloc; NO_GROUP; table.groups.len()]?,
            queues: vec![in alloc; NO_QUEUE; table.queues.len()]?,
            mutexes: vec![in alloc; NO_MUTEX; table.mutexes.len()]?,
            sems: vec![in alloc; NO_SEM; table.sems.len()]?,
            rwls: vec![in alloc; NO_RWL; table.rwls.len()]?,
            segments: vec![in alloc; NO_SEGMENT; table.segments.len()]?,
        })
    }

    /// The statements of a part.
    pub(crate) fn statements(&self, part: usize) -> &[Statement] {
        match self.load.parts.as_slice().get(part) {
            Some(part) => part.statements.as_slice(),
            None => &[],
        }
    }

    /// What the statement there does.
    pub(crate) fn deed(&self, site: Site) -> Option<&Deed> {
        match self.statements(site.part).get(site.at) {
            Some(statement) => Some(&statement.deed),
            None => None,
        }
    }

    /// The number of a statement, over all parts in order.
    pub(crate) fn number_of(&self, site: Site) -> usize {
        match at(self.table.first.as_slice(), site.part) {
            Some(first) => first.saturating_add(site.at),
            None => usize::MAX,
        }
    }

    /// The number of what a statement makes, or the place of what it reads.
    pub(crate) fn own(&self, site: Site) -> usize {
        match at(self.table.own.as_slice(), self.number_of(site)) {
            Some(own) => own,
            None => usize::MAX,
        }
    }

    /// What the statement there came to.
    pub(crate) fn outcome(&self, state: &State, site: Site) -> Outcome {
        match at(state.outcomes.as_slice(), self.number_of(site)) {
            Some(outcome) => outcome,
            None => Outcome::Open,
        }
    }

    /// The object to which the statement at this place of a part bound its name.
    pub(crate) fn bound(&self, state: &State, part: usize, place: u32) -> Option<usize> {
        let site = Site {
            part,
            at: place as usize,
        };
        match self.outcome(state, site) {
            Outcome::Names(object) => Some(usize::from(object)),
            _ => None,
        }
    }

    /// How many statements a part has made.
    pub(crate) fn made(&self, state: &State, part: usize) -> usize {
        match at(state.places.as_slice(), part) {
            Some(place) => usize::from(place).saturating_sub(1),
            None => 0,
        }
    }

    /// The queue of a task, if it has one.
    pub(crate) fn queue_of(&self, state: &State, plan: &TaskPlan) -> Option<usize> {
        self.bound(state, plan.site.part, plan.queue?)
    }

    /// What the queue of a task was made with, if it has one.
    pub(crate) fn queue_plan(&self, state: &State, plan: &TaskPlan) -> Option<QueuePlan> {
        at(self.table.queues.as_slice(), self.queue_of(state, plan)?)
    }

    /// The job of a task.
    pub(crate) fn job_of(&self, state: &State, plan: &TaskPlan) -> u32 {
        match self.queue_plan(state, plan) {
            Some(queue) => queue.job,
            None => plan.job,
        }
    }

    /// The priority of a task.
    pub(crate) fn priority_of(&self, state: &State, plan: &TaskPlan) -> u32 {
        match self.queue_plan(state, plan) {
            Some(queue) => queue.priority,
            None => plan.priority,
        }
    }

    /// The group that a task names.
    pub(crate) fn group_of(&self, state: &State, plan: &TaskPlan) -> Option<usize> {
        self.bound(state, plan.site.part, plan.group?)
    }

    /// The class of a worker.
    pub(crate) fn class_of(&self, worker: u32) -> Option<usize> {
        class_for(&self.table, self.classes.as_slice(), worker)
    }

    /// How many workers of a class run a task.
    pub(crate) fn busy(&self, state: &State, class: u8) -> usize {
        let mut count = 0usize;
        for task in state.tasks.as_slice() {
            if task.runs_in(class) {
                count = count.saturating_add(1);
            }
        }
        count
    }

    /// How many callers there are.
    pub(crate) fn parts(&self) -> usize {
        self.load.parts.as_slice().len()
    }

    /// Whether a part has made all its statements.
    pub(crate) fn is_through(&self, state: &State, part: usize) -> bool {
        match at(state.places.as_slice(), part) {
            Some(place) => usize::from(place) > self.statements(part).len(),
            None => false,
        }
    }

    /// Whether the workload has run to its end in this state.
    pub fn is_end(&self, state: &State) -> bool {
        matches!(state.phase, Phase::Closed)
    }
}
