//! Three levels of bitmaps: a number is found by three words.

ghost use Rattle.std.specs.Prelude.{◌≡◌, ◌+◌, ◌*◌, ◌/◌, ◌<◌, ◌≤◌, ℕ, true, false, ◌==◌, IfOk, IfSome, IfNone, length, if◌then◌else◌};
ghost use Rattle.ready_index.specs.Bits.{has_bit};

use crate::steps::Steps;
use crate::words::Words;
use std::alloc::{AllocError, Global};
use std::marker::Model;
use std::sync::ledger::Ledger;

/// A set of numbers below 65,536. A bit of the summary says that a word of the lowest level has a bit, and a bit of the top that a word of the summary has one.
#[derive(Drop)]
pub struct Bitmap {
    bits: Words,
    summary: Words,
    top: Words,
}

impl Model for Bitmap {
    ghost use Rattle.std.specs.Prelude.{ℕ, List};
    ghost use Rattle.ready_index.specs.Levels.{AreLevels};

    ghost Value = { List ℕ };

    ghost view = { λ b. b.bits };

    ghost invariant = { λ b. AreLevels b.bits b.summary b.top };
}

impl Bitmap {
    /// An empty set with room for the numbers below max.
    ///
    /// # Errors
    ///
    /// - `AllocError`: memory ran out.
    pub fn new(alloc: Global, max: u32) -> Result<Bitmap, AllocError>
        requires { max ≤ 65536 }
        ensures empty { IfOk result (λ b. (number : ℕ) → has_bit b number ≡ false) }
        ensures room { IfOk result (λ b. max ≤ 64 * length b) }
    {
        let words = max.div_ceil(64) as usize;
        Ok(Bitmap {
            bits: Words::new(alloc, words)?,
            summary: Words::new(alloc, words.div_ceil(64))?,
            top: Words::new(alloc, 1)?,
        })
    }

    /// Puts a number into the set.
    pub fn insert(&mut self, number: u32)
        requires { number < 64 * length self.old }
        ensures bits { (other : ℕ)
            → has_bit self.new other ≡ (if other == number then true else has_bit self.old other) }
        ensures room { length self.new ≡ length self.old }
    {
        self.bits.set(number);
        self.summary.set(number / 64);
        self.top.set(number / 64 / 64);
    }

    /// Takes a number out of the set.
    pub fn remove(&mut self, number: u32)
        requires { number < 64 * length self.old }
        ensures bits { (other : ℕ)
            → has_bit self.new other ≡ (if other == number then false else has_bit self.old other) }
        ensures room { length self.new ≡ length self.old }
    {
        if !self.bits.clear(number) {
            return;
        }
        if !self.summary.clear(number / 64) {
            return;
        }
        self.top.clear(number / 64 / 64);
    }

    /// Some number of the set, by at most three words; none exactly where it is empty.
    pub fn first<L: Ledger>(&self, steps: &mut Steps<L>) -> Option<u32>
        ensures found { IfSome result (λ number. has_bit self.now number ≡ true) }
        ensures none { IfNone result ((number : ℕ) → has_bit self.now number ≡ false) }
        ensures cost { steps.new ≤ steps.old + 3 }
    {
        let place = self.top.lowest_in(0, steps)?;
        let word = self.summary.lowest_in(place, steps)?;
        self.bits.lowest_in(word, steps)
    }
}
