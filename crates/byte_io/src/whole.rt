//! A source read whole.

ghost use Rattle.std.specs.Prelude.{◌≡◌, ◌≤◌, ◌<◌, ◌^◌, ◌+◌, length, IfOk, OnOk, IfSome, IsErrOf};
ghost use Rattle.byte_io.specs.Causes.{Rose, ReadsWhole, TakesAtMost};

use crate::{Failed, Source};
use std::alloc::{AllocError, Global};
use thiserror::Error;

/// Why a source was not read whole.
#[derive(Debug, Drop, Error)]
pub enum ReadAllError {
    /// There was no memory for the bytes.
    #[error("out of memory")]
    Memory,
    /// A read failed.
    #[error("read fault")]
    Read,
    /// The source has more bytes than the limit.
    #[error("too long")]
    TooLong,
}

impl From<AllocError> for ReadAllError {
    ghost use Rattle.std.specs.Prelude.{◌≡◌};
    ghost use Rattle.byte_io.specs.declared.whole.ReadAllError.TheVariants.{Memory};

    ghost from_gives = { λ _ e. e ≡ Memory };

    fn from(_: AllocError) -> Self {
        ReadAllError::Memory
    }
}

impl From<Failed> for ReadAllError {
    ghost use Rattle.std.specs.Prelude.{◌≡◌};
    ghost use Rattle.byte_io.specs.declared.whole.ReadAllError.TheVariants.{Read};

    ghost from_gives = { λ _ e. e ≡ Read };

    fn from(_: Failed) -> Self {
        ReadAllError::Read
    }
}

/// Reads a source to its end, or to one byte past `limit`.
///
/// # Errors
///
/// - `Memory`: there is no memory for the bytes.
/// - `Read`: a read failed, and the count of faults rose.
/// - `TooLong`: the source gave more than `limit` bytes.
pub fn read_all<S: Source>(
    alloc: Global,
    src: &mut S,
    limit: usize,
) -> Result<Vec<u8>, ReadAllError>
    requires { limit < 2 ^ 63 }
    // Where the source tells its bytes, they decide between Ok and TooLong, however the reads cut them.
    ensures whole { IfSome (S.left src.old) (λ bytes. ReadsWhole limit bytes (S.left src.new) result) }
    ensures bound { IfOk result (λ bytes. length bytes.items ≤ limit) }
    // An answer other than Read comes without a fault.
    ensures clean { OnOk result (S.faults src.new ≡ S.faults src.old) }
    ensures clean_long { IsErrOf result ReadAllError.TooLong → S.faults src.new ≡ S.faults src.old }
    ensures clean_memory { IsErrOf result ReadAllError.Memory → S.faults src.new ≡ S.faults src.old }
    // Whatever the answer is, no more is taken than a byte past the limit.
    ensures taken { TakesAtMost (limit + 1) (S.left src.old) (S.left src.new) }
    ensures later { S.faults src.old ≤ S.faults src.new }
    ensures cause { IsErrOf result ReadAllError.Read → Rose (S.faults src.old) (S.faults src.new) }
{
    let mut bytes = Vec::new(alloc);
    let mut buf = [0u8; 4096];
    'reading: while bytes.len() <= limit {
        let want = (limit + 1 - bytes.len()).min(4096);
        let count = src.read(&mut buf[..want])?;
        if count == 0 {
            return Ok(bytes);
        }
        bytes.extend_from_slice(&buf[..count])?;
    }
    Err(ReadAllError::TooLong)
}
