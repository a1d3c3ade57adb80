//! The first fault of a text, by the reader of workloads.
ghost use Rattle.std.specs.Prelude.{length};
ghost use Rattle.workload_mistakes.specs.Told.{Judges};

use std::alloc::Global;
use workload_file::{Cause, Failed, LoadError, Source, read_workload};

/// A text as a source. It doesn't fail, and nothing is copied to make it.
#[derive(Drop)]
struct TextSource<'a> {
    left: &'a [u8],
}

impl<'a> Source for TextSource<'a> {
    ghost use Rattle.std.specs.Prelude.{Some};

    ghost left = { λ s. Some s.left.now };

    ghost faults = { λ s. 0 };

    fn read(&mut self, buf: &mut [u8]) -> Result<usize, Failed> {
        let left = self.left;
        let count = buf.len().min(left.len());
        buf[..count].copy_from_slice(&left[..count]);
        self.left = &left[count..];
        Ok(count)
    }
}

/// Whether a text is a workload.
#[derive(Clone, Copy, Drop)]
pub enum Verdict {
    Workload,
    /// Its first faulty line, from 1, and the first cause of that.
    Faulty(u64, Cause),
    TooLong,
    Memory,
}

/// Whether a text is a workload, or its first fault.
pub fn verdict_on(alloc: Global, text: &[u8]) -> Verdict
    ensures { Judges text.now result }
{
    match read_workload(alloc, &mut TextSource { left: text }) {
        Ok(_) => Verdict::Workload,
        Err(LoadError::Refused { line, cause }) => Verdict::Faulty(line, cause),
        Err(LoadError::TooLong) => Verdict::TooLong,
        Err(LoadError::Memory) => Verdict::Memory,
        // Such a source doesn't fail.
        Err(LoadError::Read) => unreachable!(),
    }
}
