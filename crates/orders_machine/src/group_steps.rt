//! Statements on groups.

use crate::lists::{at, put};
use crate::machine::Machine;
use crate::state::{Bond, Group, Outcome, State, Task};
use crate::statements::{Attempt, executed, named, refused};
use crate::table::Site;
use mtapi_values::MtapiStatus;

/// How many of these groups are live.
fn live_count(groups: &[Group]) -> usize {
    let mut count = 0usize;
    for group in groups {
        if group.live {
            count = count.saturating_add(1);
        }
    }
    count
}

/// What is known of the members of a group.
#[derive(Clone, Copy, Drop)]
struct Members {
    any: bool,
    any_unended: bool,
    /// The one that ended first.
    first: Option<usize>,
}

impl Machine<'_> {
    pub(crate) fn create_group(&self, state: &mut State, site: Site) -> Attempt {
        if live_count(state.groups.as_slice()) >= self.load.settings.groups() as usize {
            return refused(MtapiStatus::ErrGroupLimit);
        }
        let own = self.own(site);
        let fault = None;
        put(&mut state.groups, own, Group { live: true, fault });
        named(own)
    }

    /// The live group of a name.
    pub(crate) fn live_group(&self, state: &State, part: usize, place: u32) -> Option<usize> {
        let group = self.bound(state, part, place)?;
        let now = at(state.groups.as_slice(), group)?;
        if now.live { Some(group) } else { None }
    }

    fn members(&self, state: &State, group: usize) -> Members {
        let mut members = Members {
            any: false,
            any_unended: false,
            first: None,
        };
        for (task, now) in state.tasks.as_slice().iter().enumerate() {
            if !self.is_member(state, group, task) {
                continue;
            }
            members.any = true;
            if now.is_unended() {
                members.any_unended = true;
            }
            if now.rank == 1 {
                members.first = Some(task);
            }
        }
        members
    }

    /// The members leave the group, and stop being live.
    fn free_members(&self, state: &mut State, group: usize) {
        for task in 0..state.tasks.len() {
            let Some(now) = at(state.tasks.as_slice(), task) else {
                continue;
            };
            if self.is_member(state, group, task) {
                put(
                    &mut state.tasks,
                    task,
                    Task {
                        live: false,
                        bond: Bond::Alone,
                        rank: 0,
                        ..now
                    },
                );
            }
        }
        put(
            &mut state.groups,
            group,
            Group {
                live: true,
                fault: None,
            },
        );
    }

    pub(crate) fn wait_all(&self, state: &mut State, part: usize, place: u32) -> Attempt {
        let Some(group) = self.live_group(state, part, place) else {
            return refused(MtapiStatus::ErrGroupInvalid);
        };
        if self.members(state, group).any_unended {
            return Attempt::Blocked;
        }
        let fault = self.first_fault(state, group);
        self.free_members(state, group);
        match fault {
            Some(status) => refused(status),
            None => executed(),
        }
    }

    /// The ranks behind the first move up by one.
    fn move_ranks(&self, state: &mut State, group: usize) {
        for task in 0..state.tasks.len() {
            let Some(now) = at(state.tasks.as_slice(), task) else {
                continue;
            };
            if now.rank > 1 && self.is_member(state, group, task) {
                let rank = now.rank.saturating_sub(1);
                put(&mut state.tasks, task, Task { rank, ..now });
            }
        }
    }

    /// This member is given: it leaves the group, and stops being live.
    fn give(&self, state: &mut State, group: usize, task: usize) -> Attempt {
        if let Some(now) = at(state.tasks.as_slice(), task) {
            put(
                &mut state.tasks,
                task,
                Task {
                    live: false,
                    bond: Bond::Alone,
                    rank: 0,
                    ..now
                },
            );
        }
        self.move_ranks(state, group);
        match u16::try_from(task) {
            Ok(number) => Attempt::Makes(Outcome::Given(number)),
            Err(_) => Attempt::Blocked,
        }
    }

    pub(crate) fn wait_any(&self, state: &mut State, part: usize, place: u32) -> Attempt {
        let Some(group) = self.live_group(state, part, place) else {
            return refused(MtapiStatus::ErrGroupInvalid);
        };
        let members = self.members(state, group);
        if !members.any {
            return refused(MtapiStatus::GroupCompleted);
        }
        match members.first {
            Some(task) => self.give(state, group, task),
            None => Attempt::Blocked,
        }
    }

    /// The members leave the group and become detached; one that has ended stops being live.
    fn let_members_go(&self, state: &mut State, group: usize) {
        for task in 0..state.tasks.len() {
            let Some(now) = at(state.tasks.as_slice(), task) else {
                continue;
            };
            if self.is_member(state, group, task) {
                put(
                    &mut state.tasks,
                    task,
                    Task {
                        live: now.is_unended(),
                        bond: Bond::Detached,
                        rank: 0,
                        ..now
                    },
                );
            }
        }
    }

    pub(crate) fn delete_group(&self, state: &mut State, part: usize, place: u32) -> Attempt {
        let Some(group) = self.live_group(state, part, place) else {
            return refused(MtapiStatus::ErrGroupInvalid);
        };
        self.let_members_go(state, group);
        let fault = None;
        put(&mut state.groups, group, Group { live: false, fault });
        executed()
    }
}
