//! The end of a task, and what its queue and its group keep of it.

use crate::lists::{at, put};
use crate::machine::Machine;
use crate::state::{Bond, End, Progress, Stage, State, Task, Told};
use crate::table::Site;
use mtapi_values::MtapiStatus;
use workload_file::Deed;

/// What later statements of a part still ask of a group.
#[derive(Clone, Copy, Drop)]
struct Asked {
    any: bool,
    all: bool,
}

impl Machine<'_> {
    /// What the statements of a part from this place on ask of the group that is named there.
    fn asked_later(&self, group: Site, from: usize) -> Asked {
        let mut asked = Asked {
            any: false,
            all: false,
        };
        for (place, statement) in self.statements(group.part).iter().enumerate() {
            if place < from {
                continue;
            }
            match &statement.deed {
                Deed::WaitAny { place, .. } => {
                    if *place as usize == group.at {
                        asked.any = true;
                    }
                }
                Deed::WaitAll { place, .. } => {
                    if *place as usize == group.at {
                        asked.all = true;
                    }
                }
                _ => {}
            }
        }
        asked
    }

    /// Whether this task is a live member of the group.
    pub(crate) fn is_member(&self, state: &State, group: usize, task: usize) -> bool {
        let Some(now) = at(state.tasks.as_slice(), task) else {
            return false;
        };
        let Some(plan) = at(self.table.tasks.as_slice(), task) else {
            return false;
        };
        now.live && now.bond == Bond::Member && self.group_of(state, &plan) == Some(group)
    }

    /// The greatest rank in a group.
    fn last_rank(&self, state: &State, group: usize) -> u16 {
        let mut last = 0u16;
        for (task, now) in state.tasks.as_slice().iter().enumerate() {
            if now.rank > last && self.is_member(state, group, task) {
                last = now.rank;
            }
        }
        last
    }

    /// The first fault among the members of a group that have ended.
    pub(crate) fn first_fault(&self, state: &State, group: usize) -> Option<MtapiStatus> {
        if let Some(now) = at(state.groups.as_slice(), group) {
            if now.fault.is_some() {
                return now.fault;
            }
        }
        let mut best = u16::MAX;
        let mut fault = None;
        for (task, now) in state.tasks.as_slice().iter().enumerate() {
            if now.rank == 0 || now.rank > best || !self.is_member(state, group, task) {
                continue;
            }
            let Some(end) = now.end() else {
                continue;
            };
            if let Some(status) = end.fault() {
                best = now.rank;
                fault = Some(status);
            }
        }
        fault
    }

    /// Takes the ranks of a group's members away.
    pub(crate) fn drop_ranks(&self, state: &mut State, group: usize) {
        for task in 0..state.tasks.len() {
            let Some(now) = at(state.tasks.as_slice(), task) else {
                continue;
            };
            if now.rank > 0 && self.is_member(state, group, task) {
                put(&mut state.tasks, task, Task { rank: 0, ..now });
            }
        }
    }

    /// Forgets the order of the ends in a group where no later statement asks for it: then at most the first fault is kept.
    pub(crate) fn forget_order(&self, state: &mut State, group: usize) {
        let Some(site) = at(self.table.groups.as_slice(), group) else {
            return;
        };
        let asked = self.asked_later(site, self.made(state, site.part));
        if asked.any {
            return;
        }
        let fault = if asked.all {
            self.first_fault(state, group)
        } else {
            None
        };
        self.drop_ranks(state, group);
        if let Some(now) = at(state.groups.as_slice(), group) {
            put(
                &mut state.groups,
                group,
                crate::state::Group { fault, ..now },
            );
        }
    }

    /// A member of a group has ended.
    fn rank_member(&self, state: &mut State, group: usize, task: usize) {
        let last = self.last_rank(state, group);
        if let Some(now) = at(state.tasks.as_slice(), task) {
            put(
                &mut state.tasks,
                task,
                Task {
                    rank: last.saturating_add(1),
                    ..now
                },
            );
        }
        self.forget_order(state, group);
    }

    /// The tasks behind this place in an ordered queue move up.
    fn move_up(&self, state: &mut State, queue: usize, turn: u16) {
        for task in 0..state.tasks.len() {
            let Some(now) = at(state.tasks.as_slice(), task) else {
                continue;
            };
            if now.turn > turn && self.is_of(state, queue, task) {
                put(
                    &mut state.tasks,
                    task,
                    Task {
                        turn: now.turn.saturating_sub(1),
                        ..now
                    },
                );
            }
        }
    }

    /// Whether this task names the queue.
    pub(crate) fn is_of(&self, state: &State, queue: usize, task: usize) -> bool {
        match at(self.table.tasks.as_slice(), task) {
            Some(plan) => self.queue_of(state, &plan) == Some(queue),
            None => false,
        }
    }

    /// The queue and the group of a task that has ended.
    fn tell_end(&self, state: &mut State, task: usize, before: Task) {
        let Some(plan) = at(self.table.tasks.as_slice(), task) else {
            return;
        };
        if before.turn > 0 {
            if let Some(queue) = self.queue_of(state, &plan) {
                self.move_up(state, queue, before.turn);
            }
        }
        if before.bond == Bond::Member {
            if let Some(group) = self.group_of(state, &plan) {
                self.rank_member(state, group, task);
            }
        }
    }

    /// A task ends. A detached one stops being live.
    pub(crate) fn end_task(&self, state: &mut State, task: usize, end: End) {
        let Some(before) = at(state.tasks.as_slice(), task) else {
            return;
        };
        put(
            &mut state.tasks,
            task,
            Task {
                progress: Progress::Ended(end),
                live: before.live && before.bond != Bond::Detached,
                bond: before.bond,
                told: Told::Nothing,
                stage: Stage::Begun,
                turn: 0,
                rank: 0,
            },
        );
        self.tell_end(state, task, before);
    }
}
