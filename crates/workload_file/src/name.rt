//! Names of objects, tasks and callers.
ghost use Rattle.std.specs.Prelude.{◌≡◌, ◌≤◌, length, if◌then◌else◌, Some, None, IsTrue};
ghost use Rattle.std.specs.List.{list_all};
ghost use Rattle.workload_file.specs.Values.{is_name, is_name_byte, begins_with_letter};

use arrayvec::ArrayVec;
use std::marker::Model;

/// A name: a letter a to z, and up to 15 of a to z, 0 to 9 and `_`. It is held in place.
#[derive(Drop)]
pub struct Name {
    text: ArrayVec<u8, 16>,
}

impl Model for Name {
    ghost use Rattle.std.specs.Prelude.{ℕ, List, IsTrue};
    ghost use Rattle.workload_file.specs.Values.{is_name};

    ghost Value = { List ℕ };

    ghost view = { λ n. n.text.items };

    ghost invariant = { λ n. IsTrue (is_name n.text.items) };
}

fn is_name_byte(b: u8) -> bool
    ensures { result ≡ is_name_byte b }
{
    b.is_ascii_lowercase() || b.is_ascii_digit() || b == b'_'
}

fn all_name_bytes(text: &[u8]) -> bool
    ensures { result ≡ list_all is_name_byte text.now }
{
    text.iter().all(|b| is_name_byte(*b))
}

fn begins_with_letter(text: &[u8]) -> bool
    ensures { result ≡ begins_with_letter text.now }
{
    match text {
        [] => false,
        [first, ..] => first.is_ascii_lowercase(),
    }
}

/// Whether the bytes are a name.
#[tactic(auto, unfolding(crate::specs::Values::is_name))]
pub fn is_name(text: &[u8]) -> bool
    ensures value { result ≡ is_name text.now }
    ensures short { IsTrue result → length text.now ≤ 16 }
{
    begins_with_letter(text) && text.len() <= 16 && all_name_bytes(text)
}

impl Name {
    /// The name of these bytes. It takes no memory.
    ///
    /// # Errors
    ///
    /// - `None`: the bytes are no name: a letter a to z, and at most 15 of a to z, 0 to 9 and `_`.
    pub fn new(text: &[u8]) -> Option<Name>
        ensures { result ≡ (if is_name text.now then Some text.now else None) }
    {
        if !is_name(text) {
            return None;
        }
        Some(Name::known(text))
    }

    /// The name of these bytes, which were found to be one, so that they aren't looked at again. It takes no memory.
    #[tactic(auto, unfolding(crate::specs::Values::is_name))]
    pub fn known(text: &[u8]) -> Name
        requires { IsTrue (is_name text.now) }
        ensures { result ≡ text.now }
    {
        let mut name = ArrayVec::new();
        let _ = name.try_extend_from_slice(text);
        Name { text: name }
    }

    /// The bytes of the name, 1 to 16. It takes no memory.
    pub fn as_slice(&self) -> &[u8]
        ensures value { result.now ≡ self.now }
        ensures name { IsTrue (is_name result.now) }
    {
        self.text.as_slice()
    }
}
