//! The places at which names are bound.
ghost use Rattle.std.specs.Prelude.{◌≡◌, ◌≤◌, ℕ, List, None, Some, OnOk, IfOk, IsTrue, is_none, true, length, nat_eq, if◌then◌else◌};
ghost use Rattle.workload_file.specs.Values.{is_name};
ghost use Rattle.workload_file.specs.Indexed.{found_name, key_of, place_at, with_name};

use crate::name::is_name;
use std::alloc::{AllocError, Global};
use std::collections::HashMap;

/// The place of each name, found without a scan.
///
/// The keys are numbers and not texts: a number stands in the map's own memory, and is compared in one step. No two names have
/// the same number. Those of up to eight bytes stand apart, since 64 bits are hashed and compared faster.
#[derive(Drop)]
pub struct NameIndex {
    short: HashMap<u64, u32>,
    long: HashMap<u128, u32>,
}

/// The first number that 64 bits don't hold.
const LONG: u128 = 1 << 64;

/// The number of a name: its bytes are the digits to base 256, the first the least.
fn key_of(name: &[u8]) -> u128
    requires short { length name.now ≤ 16 }
    ensures value { result ≡ key_of name.now }
{
    let mut key = 0;
    'digits: for at in (0..name.len()).rev() {
        key = key * 256 + u128::from(name[at]);
    }
    key
}

impl NameIndex {
    /// No names.
    pub fn new(alloc: Global) -> Self
        ensures { (name : List ℕ) → found_name result name ≡ None }
    {
        NameIndex {
            short: HashMap::new(alloc),
            long: HashMap::new(alloc),
        }
    }

    fn place_at(&self, key: u128) -> Option<u32>
        ensures { result ≡ place_at self.now key }
    {
        if key < LONG {
            self.short.get(&(key as u64)).copied()
        } else {
            self.long.get(&key).copied()
        }
    }

    /// Puts a number at a place, and answers its place before.
    #[tactic(auto, using(crate::proofs::Places::put_short, crate::proofs::Places::put_long))]
    fn put(&mut self, key: u128, place: u32) -> Result<Option<u32>, AllocError>
        ensures before { IfOk result (λ before. before ≡ place_at self.old key) }
        ensures updates { OnOk result ((k : ℕ)
            → place_at self.new k ≡ (if nat_eq key k then Some place else place_at self.old k)) }
    {
        if key < LONG {
            Ok(self.short.insert(key as u64, place)?)
        } else {
            Ok(self.long.insert(key, place)?)
        }
    }

    /// The place of a name.
    pub fn find(&self, name: &[u8]) -> Option<u32>
        ensures { result ≡ found_name self.now name.now }
    {
        if is_name(name) {
            self.place_at(key_of(name))
        } else {
            None
        }
    }

    /// Puts a name at a place, and answers whether it had none.
    pub fn add(&mut self, name: &[u8], place: u32) -> Result<bool, AllocError>
        requires name { IsTrue (is_name name.now) }
        ensures fresh { IfOk result (λ fresh. fresh ≡ is_none (found_name self.old name.now)) }
        ensures names { IfOk result (λ fresh. fresh ≡ true → (other : List ℕ)
            → found_name self.new other ≡ with_name (Some name.now) place (found_name self.old) other) }
    {
        let key = key_of(name);
        let before = self.put(key, place)?;
        Ok(before.is_none())
    }
}
