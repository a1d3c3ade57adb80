//! The steps of a state.

use crate::lists::{at, put};
use crate::machine::Machine;
use crate::state::{Progress, State};
use mtapi_machine::Phase;
use std::alloc::{AllocError, Global};

/// A step.
#[derive(Clone, Copy, Debug, Drop, PartialEq, Eq)]
pub enum Label {
    /// Main opens the node.
    Initialize,
    /// Main lets the callers enter, where no statement does.
    Release,
    /// The caller of a part enters.
    Enter { part: u8 },
    /// The caller of a part makes its next statement.
    Make { part: u8 },
    /// Its next statement gives up, which is blocked and has a bound.
    GiveUp { part: u8 },
    /// A worker of a class takes a task, by an action.
    Pick { class: u8, task: u16, action: u16 },
    /// The worker that runs a task makes its next step.
    Work { task: u16 },
    /// Main closes the node.
    Close,
    /// Main finalizes the node, once every worker has stopped.
    Final,
}

impl Machine<'_> {
    /// Whether every further caller is at its end.
    fn callers_ended(&self, state: &State) -> bool {
        for part in 1..self.parts() {
            if !self.is_through(state, part) {
                return false;
            }
        }
        true
    }

    /// Whether no task is scheduled or running.
    fn all_ended(state: &State) -> bool {
        for task in state.tasks.as_slice() {
            if task.is_unended() {
                return false;
            }
        }
        true
    }

    fn initialize(&self, state: &mut State) -> bool {
        if state.phase != Phase::New {
            return false;
        }
        state.phase = Phase::Open;
        put(&mut state.places, 0, 1);
        true
    }

    fn release(&self, state: &mut State) -> bool {
        if state.phase != Phase::Open || state.released || self.begins {
            return false;
        }
        state.released = true;
        true
    }

    fn enter(&self, state: &mut State, part: usize) -> bool {
        if part == 0 || !state.released || at(state.places.as_slice(), part) != Some(0) {
            return false;
        }
        put(&mut state.places, part, 1);
        true
    }

    fn close(&self, state: &mut State) -> bool {
        if state.phase != Phase::Open || !self.is_through(state, 0) || !self.callers_ended(state) {
            return false;
        }
        if !self.begins && !state.released {
            return false;
        }
        state.phase = Phase::Closing;
        self.end_shut(state);
        true
    }

    fn finalize(&self, state: &mut State) -> bool {
        if state.phase != Phase::Closing || !Self::all_ended(state) {
            return false;
        }
        state.phase = Phase::Closed;
        true
    }

    /// Makes a step. False where the state has no such step; then nothing changes.
    pub(crate) fn apply(&self, state: &mut State, label: Label) -> bool {
        match label {
            Label::Initialize => self.initialize(state),
            Label::Release => self.release(state),
            Label::Enter { part } => self.enter(state, usize::from(part)),
            Label::Make { part } => self.make(state, usize::from(part)),
            Label::GiveUp { part } => self.give_up(state, usize::from(part)),
            Label::Pick {
                class,
                task,
                action,
            } => self.take(state, class, task, action),
            Label::Work { task } => self.work(state, usize::from(task)),
            Label::Close => self.close(state),
            Label::Final => self.finalize(state),
        }
    }

    /// Appends a step, if the state has it.
    fn push_step(
        &self,
        state: &State,
        label: Label,
        steps: &mut Vec<(Label, State)>,
    ) -> Result<(), AllocError> {
        let mut next = state.clone()?;
        if self.apply(&mut next, label) {
            steps.push((label, next))?;
        }
        Ok(())
    }

    /// Appends the step of a part: that its caller enters, that it makes its next statement, or that this gives up, where it is blocked.
    fn push_part(
        &self,
        state: &State,
        part: usize,
        steps: &mut Vec<(Label, State)>,
    ) -> Result<(), AllocError> {
        let Ok(number) = u8::try_from(part) else {
            return Ok(());
        };
        if at(state.places.as_slice(), part) == Some(0) {
            if state.released {
                self.push_step(state, Label::Enter { part: number }, steps)?;
            }
            return Ok(());
        }
        if self.is_through(state, part) {
            return Ok(());
        }
        self.push_statement(state, number, steps)
    }

    /// Appends the next statement of a part, or that it gives up.
    fn push_statement(
        &self,
        state: &State,
        part: u8,
        steps: &mut Vec<(Label, State)>,
    ) -> Result<(), AllocError> {
        let mut next = state.clone()?;
        let made = Label::Make { part };
        if self.apply(&mut next, made) {
            steps.push((made, next))?;
            return Ok(());
        }
        let late = Label::GiveUp { part };
        if self.apply(&mut next, late) {
            steps.push((late, next))?;
        }
        Ok(())
    }

    /// Appends the steps of the workers.
    fn push_work(
        &self,
        alloc: Global,
        state: &State,
        steps: &mut Vec<(Label, State)>,
    ) -> Result<(), AllocError> {
        let mut picks = Vec::new(alloc);
        for class in 0..self.classes.len() {
            self.push_class(state, class, &mut picks)?;
        }
        for label in picks.as_slice() {
            self.push_step(state, *label, steps)?;
        }
        for (task, now) in state.tasks.as_slice().iter().enumerate() {
            if let (Progress::Running { .. }, Ok(task)) = (now.progress, u16::try_from(task)) {
                self.push_step(state, Label::Work { task }, steps)?;
            }
        }
        Ok(())
    }

    /// Appends the one step of main by which the node changes its phase or lets callers in, if it has come to it.
    fn push_phase(&self, state: &State, steps: &mut Vec<(Label, State)>) -> Result<(), AllocError> {
        match state.phase {
            Phase::New => self.push_step(state, Label::Initialize, steps),
            Phase::Open if !state.released && !self.begins => {
                self.push_step(state, Label::Release, steps)
            }
            Phase::Open if self.is_through(state, 0) && self.callers_ended(state) => {
                self.push_step(state, Label::Close, steps)
            }
            Phase::Closing => self.push_step(state, Label::Final, steps),
            _ => Ok(()),
        }
    }

    /// Appends each step of a state, with the state behind it. A state without steps in which the workload hasn't run to its end
    /// is a deadlock. It fails for want of memory alone.
    pub fn steps(
        &self,
        alloc: Global,
        state: &State,
        steps: &mut Vec<(Label, State)>,
    ) -> Result<(), AllocError> {
        self.push_phase(state, steps)?;
        for part in 0..self.parts() {
            self.push_part(state, part, steps)?;
        }
        self.push_work(alloc, state, steps)
    }
}
