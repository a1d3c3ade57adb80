//! The slots that one worker may take, by priority.

ghost use Rattle.std.specs.Prelude.{◌≡◌, ◌+◌, ◌*◌, ◌<◌, ◌≤◌, ℕ, true, false, ◌&&◌, ◌==◌, IfOk, IfSome, IfNone, length, if◌then◌else◌, ◌^◌};
ghost use Rattle.ready_index.specs.Bits.{has_slot, set_of};

use crate::bitmaps::Bitmap;
use crate::steps::Steps;
use std::alloc::{AllocError, Global};
use std::marker::Model;
use std::sync::ledger::Ledger;

/// The slots that one worker may take: a set for each priority.
#[derive(Drop)]
pub struct WorkerSets {
    by_priority: Vec<Bitmap>,
}

impl Model for WorkerSets {
    ghost use Rattle.std.specs.Prelude.{ℕ, List};

    ghost Value = { List (List ℕ) };

    ghost view = { λ w. w.by_priority.items };
}

impl WorkerSets {
    /// An empty set for each priority, with room for the slots below max.
    ///
    /// # Errors
    ///
    /// - `AllocError`: memory ran out.
    pub fn new(alloc: Global, max: u32, priorities: u32) -> Result<WorkerSets, AllocError>
        requires { max ≤ 65536 }
        ensures empty { IfOk result (λ w. (priority slot : ℕ) → has_slot w priority slot ≡ false) }
        ensures room { IfOk result (λ w. (priority : ℕ) → priority < priorities
            → max ≤ 64 * length (set_of w priority)) }
        ensures len { IfOk result (λ w. length w ≡ priorities) }
    {
        let mut by_priority = Vec::new(alloc);
        for _priority in 0..priorities {
            by_priority.push(Bitmap::new(alloc, max)?)?;
        }
        Ok(WorkerSets { by_priority })
    }

    /// Puts a slot into the set of this priority.
    pub fn insert(&mut self, priority: u32, slot: u32)
        requires known { priority < length self.old }
        requires room { slot < 64 * length (set_of self.old priority) }
        ensures slots { (p s : ℕ)
            → has_slot self.new p s ≡ (if p == priority && s == slot then true else has_slot self.old p s) }
        ensures room { (p : ℕ) → length (set_of self.new p) ≡ length (set_of self.old p) }
        ensures len { length self.new ≡ length self.old }
    {
        self.by_priority[priority as usize].insert(slot);
    }

    /// Takes a slot out of the set of this priority.
    pub fn remove(&mut self, priority: u32, slot: u32)
        requires known { priority < length self.old }
        requires room { slot < 64 * length (set_of self.old priority) }
        ensures slots { (p s : ℕ)
            → has_slot self.new p s ≡ (if p == priority && s == slot then false else has_slot self.old p s) }
        ensures room { (p : ℕ) → length (set_of self.new p) ≡ length (set_of self.old p) }
        ensures len { length self.new ≡ length self.old }
    {
        self.by_priority[priority as usize].remove(slot);
    }

    /// The least priority that has a slot, and a slot of it; none exactly where none has one. At
    /// most three words are read for each priority.
    pub fn first<L: Ledger>(&self, steps: &mut Steps<L>) -> Option<(u32, u32)>
        requires { length self.now < 2 ^ 32 }
        ensures found { IfSome result (λ r. has_slot self.now r.0 r.1 ≡ true) }
        ensures least { IfSome result (λ r. (p s : ℕ) → p < r.0 → has_slot self.now p s ≡ false) }
        ensures none { IfNone result ((p s : ℕ) → has_slot self.now p s ≡ false) }
        ensures cost { steps.new ≤ steps.old + 3 * length self.now }
    {
        for priority in 0..self.by_priority.len() {
            if let Some(slot) = self.by_priority[priority].first(steps) {
                return Some((priority as u32, slot));
            }
        }
        None
    }
}
