//! The names of a part, and what they are bound to.
ghost use Rattle.std.specs.Prelude.{◌≡◌, ◌<◌, ◌≤◌, ◌&&◌, not, true, false, Bool, ℕ, List, Some, None, IfSome, IfOk, OnOk, length, slice_get};
ghost use Rattle.std.specs.List.{list_any};
ghost use Rattle.std.specs.Str.{bytes_eq};
ghost use Rattle.workload_file.specs.Texts.{texts_of_words};
ghost use Rattle.workload_file.specs.Deeds.{binds, is_begin};
ghost use Rattle.workload_file.specs.Names.{is_binding, place_of, use_in, has_second, name_in, options_in, is_taken, is_misplaced, is_ninth_caller};
ghost use Rattle.workload_file.specs.Values.{is_name};
ghost use Rattle.workload_file.specs.Changes.{bound_name};
ghost use Rattle.workload_file.specs.Indexed.{IsReader, found_name, with_name};

use crate::reading::Reader;
use crate::table::{Naming, Sort, Word};
use crate::workload::{Deed, Part, Statement};
use std::alloc::AllocError;

#[tactic(auto, unfolding(crate::specs::Deeds::binds))]
fn binds(sort: Sort, deed: &Deed) -> bool
    ensures { result ≡ binds sort deed.now }
{
    match sort {
        Sort::Action => matches!(deed, Deed::Action { .. }),
        Sort::Task => matches!(deed, Deed::Start { .. } | Deed::Enqueue { .. }),
        Sort::Group => matches!(deed, Deed::Group),
        Sort::Queue => matches!(deed, Deed::Queue { .. } | Deed::QueueGet { .. }),
        Sort::Mutex => matches!(deed, Deed::Mutex { .. } | Deed::MutexGet { .. }),
        Sort::Sem => matches!(deed, Deed::Sem { .. } | Deed::SemGet { .. }),
        Sort::Rwl => matches!(deed, Deed::Rwl { .. } | Deed::RwlGet { .. }),
        Sort::Shmem => matches!(deed, Deed::Shmem { .. } | Deed::ShmemGet { .. }),
    }
}

fn is_binding(sort: Sort, statements: &[Statement], place: u32) -> bool
    ensures { result ≡ is_binding sort (slice_get statements.now place) }
{
    match statements.get(place as usize) {
        None => false,
        Some(s) => binds(sort, &s.deed),
    }
}

/// The place of the statement that bound this name to such a thing.
#[tactic(auto, unfolding(crate::specs::Names::place_of))]
pub fn place_of(r: &Reader, sort: Sort, name: &[u8]) -> Option<u32>
    requires { IsReader r.now }
    ensures { result ≡ place_of sort name.now r.now.said.current.statements }
{
    let place = r.names.find(name)?;
    if is_binding(sort, r.said.current.statements.as_slice(), place) {
        Some(place)
    } else {
        None
    }
}

/// Whether a statement has a name.
pub fn has_second(naming: Naming) -> bool
    ensures { result ≡ has_second naming }
{
    !matches!(naming, Naming::Bare)
}

/// The name, of the words behind the first: the next word, where there has to be one.
pub fn name_in<'a>(naming: Naming, rest: &[&'a [u8]]) -> &'a [u8]
    ensures { result.now ≡ name_in naming (texts_of_words rest.now) }
{
    match rest {
        [name, ..] if has_second(naming) => name,
        _ => &[],
    }
}

/// The options: the words behind the name.
pub fn options_in<'a, 'b>(naming: Naming, rest: &'b [&'a [u8]]) -> &'b [&'a [u8]]
    ensures { texts_of_words result.now ≡ options_in naming (texts_of_words rest.now) }
{
    match rest {
        [_, options @ ..] if has_second(naming) => options,
        _ => rest,
    }
}

fn any_part(parts: &[Part], name: &[u8]) -> bool
    ensures { result ≡ list_any (λ p. bytes_eq p.name name.now) parts.now }
{
    parts.iter().any(|p| p.name.as_slice() == name)
}

/// Whether one of the statements is `begin`.
pub fn has_begin(statements: &[Statement]) -> bool
    ensures { result ≡ list_any (λ s. is_begin s.deed) statements.now }
{
    statements.iter().any(|s| is_begin(&s.deed))
}

/// Binds the name that is to be bound, unless it is bound already: in the part, or by another part.
#[tactic(auto, unfolding(crate::specs::Names::is_taken), using(crate::proofs::Places::alone))]
pub fn take_name(r: &mut Reader, naming: Naming, name: &[u8]) -> Result<bool, AllocError>
    requires reader { IsReader r.old }
    requires named { (has_second naming && not (is_name name.now)) ≡ false }
    ensures free { IfOk result (λ free. free ≡ not (is_taken r.old.said naming name.now)) }
    ensures said { OnOk result (r.new.said ≡ r.old.said) }
    ensures bound { IfOk result (λ free. free ≡ true → (other : List ℕ)
        → found_name r.new.names other ≡ with_name (bound_name naming name.now) (length r.old.said.current.statements) (found_name r.old.names) other) }
{
    match naming {
        Naming::Binds(_) => {
            let place = r.said.current.statements.as_slice().len() as u32;
            r.names.add(name, place)
        }
        Naming::Caller => {
            let taken = r.said.current.name.as_slice() == name
                || any_part(r.said.before.as_slice(), name);
            Ok(!taken)
        }
        Naming::Bare | Naming::Uses(_) => Ok(true),
    }
}

/// The place of the statement that bound the name that is used, where one is used and bound.
pub fn use_in(r: &Reader, naming: Naming, name: &[u8]) -> Option<u32>
    requires { IsReader r.now }
    ensures { result ≡ use_in r.now.said.current.statements naming name.now }
{
    match naming {
        Naming::Uses(sort) => place_of(r, sort, name),
        _ => None,
    }
}

#[tactic(auto, unfolding(crate::specs::Deeds::is_begin))]
fn is_begin(deed: &Deed) -> bool
    ensures { result ≡ is_begin deed.now }
{
    matches!(deed, Deed::Begin)
}

/// Whether a `node` or `begin` may not stand here.
#[tactic(auto, unfolding(crate::specs::Names::is_misplaced))]
pub fn is_misplaced(r: &Reader, word: Word) -> bool
    ensures { result ≡ is_misplaced r.now.said word }
{
    match word {
        Word::Node => r.said.count != 0,
        Word::Begin => {
            !r.said.before.as_slice().is_empty() || has_begin(r.said.current.statements.as_slice())
        }
        _ => false,
    }
}

/// Whether it is a `caller` line behind eight others.
#[tactic(auto, unfolding(crate::specs::Names::is_ninth_caller))]
pub fn is_ninth_caller(r: &Reader, word: Word) -> bool
    ensures { result ≡ is_ninth_caller r.now.said word }
{
    match word {
        Word::Caller => 8 <= r.said.before.as_slice().len(),
        _ => false,
    }
}
