//! Where the tasks of a part were made.
ghost use Rattle.std.specs.Prelude.{◌≡◌, ℕ, OnOk, IfOk, nat_eq};
ghost use Rattle.std.specs.HashMap.{get};
ghost use Rattle.run_report.specs.Replies.{nows};
ghost use Rattle.run_report.specs.Calls.{made_task};
ghost use Rattle.run_report.specs.Places.{first_or_second, place_if, is_found, place_from, names_by};

use crate::deciding::reply_of;
use crate::sorts::{Shown, shown_of};
use crate::text::name_of;
use mtapi_machine::Reply;
use node_journals::ShortEntry;
use std::alloc::{AllocError, Global};
use std::collections::HashMap;
use workload_file::Statement;

/// The handle of the task that a statement made.
fn made(statement: &Statement, reply: &Reply) -> Option<u64>
    ensures { (h : ℕ) → made_task h statement.now reply.now ≡ is_found h result }
{
    match (shown_of(&statement.deed), reply) {
        (Shown::Task, Reply::Handle(handle)) => Some(*handle),
        _ => None,
    }
}

/// A handle keeps its first place.
fn note(
    places: &mut HashMap<u64, usize>,
    place: usize,
    found: Option<u64>,
) -> Result<(), AllocError>
    ensures { OnOk result ((h : ℕ)
        → get nat_eq places.new h ≡ first_or_second (get nat_eq places.old h) (place_if place h found)) }
{
    let Some(handle) = found else {
        return Ok(());
    };
    if places.contains_key(&handle) {
        return Ok(());
    }
    places.insert(handle, place)?;
    Ok(())
}

/// The place of the statement that made each task, by the task's handle.
pub fn places_of(
    alloc: Global,
    statements: &[Statement],
    replies: &[&ShortEntry],
) -> Result<HashMap<u64, usize>, AllocError>
    ensures { IfOk result (λ places. (h : ℕ) → get nat_eq places h ≡ place_from 0 statements.now (nows replies.now) h) }
{
    let mut places = HashMap::new(alloc);
    for (i, statement) in statements.iter().enumerate() {
        let Some(short) = replies.get(i) else {
            return Ok(places);
        };
        note(&mut places, i, made(statement, &reply_of(short)))?;
    }
    Ok(places)
}

/// The name of the task of this handle, by the place at which it was made.
pub fn task_name<'a>(
    statements: &'a [Statement],
    places: &HashMap<u64, usize>,
    handle: u64,
) -> &'a [u8]
    ensures { result.now ≡ names_by statements.now (get nat_eq places.now) handle }
{
    match places.get(&handle) {
        Some(place) => match statements.get(*place) {
            Some(statement) => name_of(statement),
            None => &[],
        },
        None => &[],
    }
}
