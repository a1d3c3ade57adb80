//! Words of 64 bits. Only one call gives a word, and it counts.

ghost use Rattle.std.specs.Prelude.{◌≡◌, ◌≢◌, ◌+◌, ◌*◌, ◌/◌, ◌^◌, ◌<◌, ℕ, true, false, ◌==◌, IfOk, IfSome, IfNone, length, slice_index_or, if◌then◌else◌};
ghost use Rattle.std.specs.Int.{bit_at};
ghost use Rattle.ready_index.specs.Bits.{has_bit, is_empty_word};

use crate::steps::Steps;
use std::alloc::{AllocError, Global};
use std::marker::Model;
use std::sync::ledger::Ledger;

/// The bits of a word.
const BITS: u32 = 64;

/// A set of numbers, 64 to a word.
#[derive(Drop)]
pub struct Words {
    words: Vec<u64>,
}

impl Model for Words {
    ghost use Rattle.std.specs.Prelude.{ℕ, List};

    ghost Value = { List ℕ };

    ghost view = { λ w. w.words.items };
}

impl Words {
    /// So many words without a bit.
    ///
    /// # Errors
    ///
    /// - `AllocError`: memory ran out.
    pub fn new(alloc: Global, count: usize) -> Result<Words, AllocError>
        ensures empty { IfOk result (λ w. (bit : ℕ) → has_bit w bit ≡ false) }
        ensures words { IfOk result (λ w. (word : ℕ) → is_empty_word w word ≡ true) }
        ensures len { IfOk result (λ w. length w ≡ count) }
    {
        Ok(Words {
            words: vec![in alloc; 0; count]?,
        })
    }

    /// The word at this place. This is the step that is counted.
    pub fn read<L: Ledger>(&self, word: usize, steps: &mut Steps<L>) -> u64
        requires { word < length self.now }
        ensures value { result ≡ slice_index_or self.now word 0 }
        ensures step { steps.new ≡ steps.old + 1 }
    {
        steps.add();
        self.words[word]
    }

    /// The lowest number in this word, or None where it has none. It reads the word once.
    pub fn lowest_in<L: Ledger>(&self, word: u32, steps: &mut Steps<L>) -> Option<u32>
        requires place { word < length self.now }
        requires small { word < 2 ^ 20 }
        ensures found { IfSome result (λ number. has_bit self.now number ≡ true) }
        ensures near { IfSome result (λ number. number < 64 * word + 64) }
        ensures none { IfNone result (is_empty_word self.now word ≡ true) }
        ensures step { steps.new ≡ steps.old + 1 }
    {
        let bits = self.read(word as usize, steps);
        match lowest(bits) {
            Some(bit) => Some(word * BITS + bit),
            None => None,
        }
    }

    /// Puts a number into the set.
    pub fn set(&mut self, bit: u32)
        requires { bit / 64 < length self.old }
        ensures bits { (other : ℕ) → has_bit self.new other ≡ (if other == bit then true else has_bit self.old other) }
        ensures words { (word : ℕ)
            → is_empty_word self.new word ≡ (if word == bit / 64 then false else is_empty_word self.old word) }
        ensures len { length self.new ≡ length self.old }
    {
        let word = (bit / BITS) as usize;
        self.words[word] |= 1 << (bit % BITS);
    }

    /// Takes a number out of the set. True exactly where its word has no bit then.
    pub fn clear(&mut self, bit: u32) -> bool
        requires { bit / 64 < length self.old }
        ensures bits { (other : ℕ) → has_bit self.new other ≡ (if other == bit then false else has_bit self.old other) }
        ensures words { (word : ℕ) → word ≢ bit / 64 → is_empty_word self.new word ≡ is_empty_word self.old word }
        ensures empty { result ≡ is_empty_word self.new (bit / 64) }
        ensures shrinks { is_empty_word self.old (bit / 64) ≡ true → result ≡ true }
        ensures len { length self.new ≡ length self.old }
    {
        let word = (bit / BITS) as usize;
        self.words[word] &= !(1 << (bit % BITS));
        self.words[word] == 0
    }
}

/// The lowest bit of a word, or None where it has none.
fn lowest(word: u64) -> Option<u32>
    ensures found { IfSome result (λ bit. (bit < 64) × (bit_at word bit ≡ 1)) }
    ensures none { IfNone result (word ≡ 0) }
{
    if word == 0 {
        None
    } else {
        Some(word.trailing_zeros())
    }
}
