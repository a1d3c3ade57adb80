//! A text written whole.

ghost use Rattle.std.specs.Prelude.{◌≤◌, OnOk, OnErr};
ghost use Rattle.std.specs.Io.KnownBytes.{Appends};
ghost use Rattle.byte_io.specs.Causes.{Rose, AppendsFront, HasCause, WritesText};

use crate::{Failed, Sink};

/// Writes all the bytes, in as many calls as the sink wants.
///
/// # Errors
///
/// - `Failed`: a write failed, and the count of faults rose. What the sink took before
///   is a prefix of the bytes, where it tells its bytes.
pub fn write_all<W: Sink>(out: &mut W, bytes: &[u8]) -> Result<(), Failed>
    ensures ok { OnOk result (Appends (W.held out.old) (W.held out.new) bytes.now) }
    ensures err { OnErr result (AppendsFront (W.held out.old) (W.held out.new) bytes.now) }
    ensures cause { HasCause (W.faults out.old) (W.faults out.new) result }
{
    let mut at = 0;
    'writing: while at < bytes.len() {
        let count = out.write(&bytes[at..])?;
        at += count;
    }
    Ok(())
}

/// Writes a message, whose failure changes nothing else: if the count of faults didn't rise, all
/// of it was written, and else a prefix.
pub fn say<E: Sink>(err: &mut E, text: &[u8])
    ensures { WritesText (E.faults err.old) (E.faults err.new) (E.held err.old) (E.held err.new) text.now }
{
    let _ = write_all(err, text);
}
