//! The text in which a faulty line is mended.
ghost use Rattle.std.specs.Prelude.{◌≡◌, ◌++◌, ◌==◌, ◌∷◌, [], if◌then◌else◌, length, take, drop, replicate, IfOk, OnOk};
ghost use Rattle.workload_mistakes.specs.Mending.{binding_line, blanked, over, part_in, usual_text, read_for, mended};

use crate::mistakes::{Meant, Mend, Mistake, Part};
use number_text::cut_at;
use std::alloc::{AllocError, Global};

/// Appends the line that binds a name to what was meant.
fn push_binding(out: &mut Vec<u8>, meant: Meant, name: &[u8]) -> Result<(), AllocError>
    ensures { OnOk result (out.new.items ≡ out.old.items ++ binding_line meant name.now) }
{
    match meant {
        Meant::Nothing => Ok(()),
        Meant::Node => out.extend_from_slice(b"node"),
        Meant::Begin => out.extend_from_slice(b"begin"),
        Meant::Caller => push_bound(out, b"caller ", name, b""),
        Meant::Action => push_bound(out, b"action ", name, b" job=1 kind=add"),
        Meant::Task => push_bound(out, b"start ", name, b" job=1"),
        Meant::Group => push_bound(out, b"group ", name, b""),
        Meant::Queue => push_bound(out, b"queue_get ", name, b" id=0"),
        Meant::Mutex => push_bound(out, b"mutex_get ", name, b" id=0"),
        Meant::Sem => push_bound(out, b"sem_get ", name, b" id=0"),
        Meant::Rwl => push_bound(out, b"rwl_get ", name, b" id=0"),
        Meant::Shmem => push_bound(out, b"shmem_get ", name, b" id=0"),
    }
}

fn push_bound(out: &mut Vec<u8>, front: &[u8], name: &[u8], back: &[u8]) -> Result<(), AllocError>
    ensures { OnOk result (out.new.items ≡ out.old.items ++ (front.now ++ (name.now ++ back.now))) }
{
    out.extend_from_slice(front)?;
    out.extend_from_slice(name)?;
    out.extend_from_slice(back)
}

/// What may stand in for a word: options that the reader takes, and letters that are a name.
#[tactic(auto, unfolding(crate::specs::Mending::usual_text))]
pub fn usual_text() -> &'static [u8]
    ensures { result.now ≡ usual_text }
{
    b" job=1 kind=add timeout=nowait id=0 key=0 limit=1 mode=reader cells=1 cell=0 value=0 abcdefghijklmnopqrstuvwxyzabcdefghijklmno"
}

/// So many bytes of a line, or as many as there are.
fn front_of(line: &[u8], long: u64) -> &[u8]
    ensures { result.now ≡ take long line.now }
{
    &line[..line.len().min(long as usize)]
}

/// A line without so many bytes, or as many as there are.
fn rest_of(line: &[u8], from: u64) -> &[u8]
    ensures { result.now ≡ drop from line.now }
{
    match line.get(from as usize..) {
        Some(rest) => rest,
        None => &[],
    }
}

fn part_in(part: Part, text: &[u8]) -> &[u8]
    ensures { result.now ≡ part_in part text.now }
{
    front_of(rest_of(text, part.from), part.long)
}

#[tactic(auto, using(crate::proofs::Lines::space_more))]
fn push_spaces(out: &mut Vec<u8>, count: u64) -> Result<(), AllocError>
    ensures { OnOk result (out.new.items ≡ out.old.items ++ replicate count 32) }
{
    'spaces: for _ in 0..count {
        out.push(b' ')?;
    }
    Ok(())
}

/// The line with spaces in place of a part.
fn blanked(alloc: Global, word: Part, line: &[u8]) -> Result<Vec<u8>, AllocError>
    ensures { IfOk result (λ v. v.items ≡ blanked word line.now) }
{
    let mut out = Vec::new(alloc);
    out.extend_from_slice(front_of(line, word.from))?;
    push_spaces(&mut out, word.long)?;
    out.extend_from_slice(rest_of(rest_of(line, word.from), word.long))?;
    Ok(out)
}

/// Appends a line with a text over what stands from a place on.
fn push_over(out: &mut Vec<u8>, at: u64, put: &[u8], line: &[u8]) -> Result<(), AllocError>
    ensures { OnOk result (out.new.items ≡ out.old.items ++ over at put.now line.now) }
{
    out.extend_from_slice(front_of(line, at))?;
    out.extend_from_slice(put)?;
    out.extend_from_slice(rest_of(rest_of(line, at), put.len() as u64))
}

/// Appends what is read in place of a faulty line.
fn push_read(alloc: Global, out: &mut Vec<u8>, mend: Mend, line: &[u8]) -> Result<(), AllocError>
    ensures { OnOk result (out.new.items ≡ out.old.items ++ read_for mend line.now) }
{
    match mend {
        Mend::Line(meant, name) => push_binding(out, meant, part_in(name, line)),
        Mend::Word(word, at, usual) => {
            let line = blanked(alloc, word, line)?;
            push_over(out, at, part_in(usual, usual_text()), &line)
        }
    }
}

/// Appends a line, or what is read in its place where it is that of the mistake; and a line feed where one ends it.
fn push_line(
    alloc: Global,
    out: &mut Vec<u8>,
    mistake: &Mistake,
    number: u64,
    line: &[u8],
    ends: bool,
) -> Result<(), AllocError>
    ensures { OnOk result (out.new.items ≡ out.old.items ++ ((if number == mistake.now.line then read_for mistake.now.mend line.now else line.now) ++ (if ends then 10 ∷ [] else []))) }
{
    if number == mistake.line {
        push_read(alloc, out, mistake.mend, line)?;
    } else {
        out.extend_from_slice(line)?;
    }
    if ends {
        out.push(b'\n')?;
    }
    Ok(())
}

/// The text with something read in place of the line of the mistake, and every other line as it was.
pub fn mended(alloc: Global, text: &[u8], mistake: &Mistake) -> Result<Vec<u8>, AllocError>
    ensures { IfOk result (λ v. v.items ≡ mended mistake.now text.now) }
{
    let mut out = Vec::new(alloc);
    let mut left = Some(text);
    let mut number = 1u64;
    'lines: while let Some(rest) = left {
        let (line, after) = cut_at(rest, b'\n');
        push_line(alloc, &mut out, mistake, number, line, after.is_some())?;
        number += 1;
        left = after;
    }
    Ok(out)
}
