//! Which lines of the report a step settles, and what stands there.

use crate::lists::at;
use crate::machine::Machine;
use crate::state::{Outcome, State};
use crate::steps::Label;
use crate::table::Site;
use mtapi_values::{MrapiStatus, MtapiStatus, TaskEnd};
use std::alloc::{AllocError, Global};
use workload_file::Deed;

/// What stands at a line of the report.
#[derive(Clone, Copy, Drop, PartialEq, Eq)]
#[derive_where(Hash)]
pub enum LineText {
    /// The call was executed, and has no line.
    Nothing,
    /// A call, or the start of a task, answered this status of MTAPI.
    Mtapi(#[derive_where(skip(Hash))] MtapiStatus),
    /// A call answered this status of MRAPI.
    Mrapi(#[derive_where(skip(Hash))] MrapiStatus),
    /// A call answered this number, or a task completed with it.
    Number(i64),
    /// A call gave this task.
    Given(u16),
    /// A task completed with its arguments, or with no number.
    Completed,
    Cancelled,
    /// A task ended with this status.
    Failed(#[derive_where(skip(Hash))] MtapiStatus),
}

/// What stands at the line of a statement, by its number over all parts in order.
#[derive(Clone, Copy, Drop, PartialEq, Eq, Hash)]
pub struct Line {
    pub statement: usize,
    pub text: LineText,
}

/// Whether a task has ended.
fn has_ended(state: &State, task: usize) -> bool {
    match at(state.tasks.as_slice(), task) {
        Some(now) => now.end().is_some(),
        None => false,
    }
}

impl Machine<'_> {
    /// What a statement that was made came to.
    fn call_text(&self, state: &State, site: Site) -> LineText {
        match self.outcome(state, site) {
            Outcome::Key(key) => LineText::Number(i64::from(key)),
            Outcome::Number => {
                LineText::Number(at(state.numbers.as_slice(), self.own(site)).unwrap_or(0))
            }
            Outcome::Given(task) => LineText::Given(task),
            Outcome::Mtapi(status) => LineText::Mtapi(status),
            Outcome::Mrapi(status) => LineText::Mrapi(status),
            _ => LineText::Nothing,
        }
    }

    /// How a task ended.
    fn task_text(&self, state: &State, task: usize) -> LineText {
        match self.end_of(state, task) {
            TaskEnd::Completed(numbers) => match numbers.as_slice() {
                [number] => LineText::Number(*number),
                _ => LineText::Completed,
            },
            TaskEnd::Cancelled => LineText::Cancelled,
            TaskEnd::Failed(status) => LineText::Failed(status),
        }
    }

    /// Appends the line of a statement that was just made, if it is settled now: that of a task is settled when this ends, or is refused.
    fn push_made(
        &self,
        after: &State,
        site: Site,
        lines: &mut Vec<Line>,
    ) -> Result<(), AllocError> {
        let text = self.call_text(after, site);
        let settled = match self.deed(site) {
            Some(Deed::Begin) => false,
            Some(Deed::Start { .. }) => text != LineText::Nothing,
            Some(Deed::Enqueue { .. }) => text != LineText::Nothing,
            Some(_) => true,
            None => false,
        };
        if settled {
            let statement = self.number_of(site);
            lines.push(Line { statement, text })?;
        }
        Ok(())
    }

    /// Appends the lines that a step settles, by which one state became another. It fails for want of memory alone.
    pub fn push_lines(
        &self,
        before: &State,
        after: &State,
        lines: &mut Vec<Line>,
    ) -> Result<(), AllocError> {
        for part in 0..self.parts() {
            let at = self.made(before, part);
            if at < self.made(after, part) {
                self.push_made(after, Site { part, at }, lines)?;
            }
        }
        for (task, plan) in self.table.tasks.as_slice().iter().enumerate() {
            if has_ended(after, task) && !has_ended(before, task) {
                let statement = self.number_of(plan.site);
                let text = self.task_text(after, task);
                lines.push(Line { statement, text })?;
            }
        }
        Ok(())
    }

    /// The lines that a path from the opening settles, as far as its labels are one, and the state that it leads to. It fails for want
    /// of memory alone.
    pub fn follow(&self, alloc: Global, path: &[Label]) -> Result<(Vec<Line>, State), AllocError> {
        let mut lines = Vec::new(alloc);
        let mut state = self.opening(alloc)?;
        for label in path {
            let before = state.clone()?;
            if !self.apply(&mut state, *label) {
                break;
            }
            self.push_lines(&before, &state, &mut lines)?;
        }
        Ok((lines, state))
    }
}
