//! Which workloads are outside.

use std::cmp::max;
use workload_file::{Deed, Part, Statement, Workload};

/// How many objects of each kind may be made.
#[derive(Clone, Copy, Drop)]
struct Makers {
    actions: u32,
    tasks: u32,
    groups: u32,
    queues: u32,
    mutexes: u32,
    sems: u32,
    rwls: u32,
    segments: u32,
}

fn with_deed(so_far: Makers, deed: &Deed) -> Makers {
    let mut makers = so_far;
    let count = match deed {
        Deed::Action { .. } => &mut makers.actions,
        Deed::Start { .. } | Deed::Enqueue { .. } => &mut makers.tasks,
        Deed::Group => &mut makers.groups,
        Deed::Queue { .. } => &mut makers.queues,
        Deed::Mutex { .. } => &mut makers.mutexes,
        Deed::Sem { .. } => &mut makers.sems,
        Deed::Rwl { .. } => &mut makers.rwls,
        Deed::Shmem { .. } => &mut makers.segments,
        _ => return makers,
    };
    *count = count.saturating_add(1);
    makers
}

fn with_statements(so_far: Makers, statements: &[Statement]) -> Makers {
    let mut makers = so_far;
    for statement in statements {
        makers = with_deed(makers, &statement.deed);
    }
    makers
}

fn makers_of(parts: &[Part]) -> Makers {
    let mut makers = Makers {
        actions: 0,
        tasks: 0,
        groups: 0,
        queues: 0,
        mutexes: 0,
        sems: 0,
        rwls: 0,
        segments: 0,
    };
    for part in parts {
        makers = with_statements(makers, part.statements.as_slice());
    }
    makers
}

/// Whether a slot of one kind may retire while another object of the kind may yet be asked for in vain.
fn is_scarce(makers: u32, most: u32, generations: u32) -> bool {
    makers > most && generations <= makers
}

/// Whether in some run a slot may retire of whose kind more objects are asked for than the settings allow. Then it matters which slot
/// an object had, which a state doesn't keep.
pub fn may_retire(load: &Workload) -> bool {
    let makers = makers_of(load.parts.as_slice());
    let settings = &load.settings;
    let generations = settings.generations();
    let resources = max(
        max(makers.mutexes, makers.sems),
        max(makers.rwls, makers.segments),
    );
    is_scarce(makers.actions, settings.actions(), generations)
        || is_scarce(makers.tasks, settings.tasks(), generations)
        || is_scarce(makers.groups, settings.groups(), generations)
        || is_scarce(makers.queues, settings.queues(), generations)
        || is_scarce(resources, settings.objects(), generations)
}

/// Whether the workload has more statements than a state can number.
pub fn is_too_large(load: &Workload) -> bool {
    let mut count = 0usize;
    for part in load.parts.as_slice() {
        count = count.saturating_add(part.statements.as_slice().len());
    }
    count > 65_000
}
