//! A sink that keeps what is written, as long as there is memory.
ghost use Rattle.std.specs.Prelude.{◌≡◌, []};

use crate::ends::NoAnswer;
use byte_io::{Failed, Sink, say};
use journal_reading::ShowEnd;
use std::alloc::Global;

/// What was written so far.
#[derive(Drop)]
pub struct Gathered {
    pub bytes: Vec<u8>,
    /// How many pieces there was no memory for.
    pub faults: u64,
}

impl Gathered {
    /// Nothing yet.
    pub fn new(alloc: Global) -> Gathered
        ensures bytes { result.bytes.items ≡ [] }
        ensures faults { result.faults ≡ 0 }
    {
        Gathered {
            bytes: Vec::new(alloc),
            faults: 0,
        }
    }
}

impl Sink for Gathered {
    ghost use Rattle.std.specs.Prelude.{Some};

    ghost held = { λ s. Some s.bytes.items };

    ghost faults = { λ s. s.faults };

    fn write(&mut self, piece: &[u8]) -> Result<usize, Failed> {
        if self.bytes.extend_from_slice(piece).is_err() {
            self.faults = self.faults.saturating_add(1);
            return Err(Failed);
        }
        Ok(piece.len())
    }
}

/// Why the command has no answer, which it said into `said`; if there was no memory for what it wrote, this is why.
pub fn why_none<E: Sink>(out: &Gathered, said: &Gathered, status: u8, err: &mut E) -> NoAnswer {
    if out.faults > 0 || said.faults > 0 {
        return NoAnswer::Shown(ShowEnd::Memory);
    }
    say(err, &said.bytes);
    NoAnswer::Told(status)
}
