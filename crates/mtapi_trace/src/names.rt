//! The names that a workload gives to the objects of its run.

use crate::calls::key_of;
use journal_reading::{KeptRun, OwnNames};
use journal_text::{NodeObject, handle_word, object_made};
use mtapi_machine::{Entry, Op, Reply};
use std::alloc::{AllocError, Global};
use std::collections::HashMap;
use std::str::from_utf8;
use workload_file::{Deed, Part, Statement};
use workload_runs::{Call, call_of};

/// A statement, and the part in which it stands.
#[derive(Clone, Copy, Drop)]
pub struct Binding<'a> {
    pub part: &'a Part,
    pub statement: &'a Statement,
}

/// The names of a run, as far as its entries were followed.
#[derive(Drop)]
pub struct Names<'a> {
    pub parts: &'a [Part],
    /// Names that somebody gave to objects, which count before those of the workload.
    own: &'a OwnNames,
    /// The handles that the statements of each part bound so far, 0 where there is none.
    bound: Vec<Vec<u64>>,
    /// The statement that bound each object first.
    bindings: HashMap<u64, Binding<'a>>,
}

fn is_call(call: &Call, op: &Op) -> bool {
    match call {
        Call::Once(wanted) => wanted == op,
        Call::Looking(wanted, _) => wanted.op(false) == *op || wanted.op(true) == *op,
    }
}

impl<'a> Names<'a> {
    /// No name yet.
    pub fn new(alloc: Global, run: &'a KeptRun) -> Result<Names<'a>, AllocError> {
        let parts: &'a [Part] = match &run.workload {
            Some(load) => load.parts.as_slice(),
            None => &[],
        };
        let mut bound = Vec::new(alloc);
        for _ in parts {
            bound.push(Vec::new(alloc))?;
        }
        Ok(Names {
            parts,
            own: &run.names,
            bound,
            bindings: HashMap::new(alloc),
        })
    }

    /// Follows an entry that answers a caller's call. Gives the caller's next statement, if that makes this call.
    pub fn note(
        &mut self,
        caller: usize,
        entry: &Entry,
    ) -> Result<Option<Binding<'a>>, AllocError> {
        let Some(part) = self.parts.get(caller) else {
            return Ok(None);
        };
        let Some(bound) = self.bound.get_mut(caller) else {
            return Ok(None);
        };
        let Some(statement) = part.statements.as_slice().get(bound.len()) else {
            return Ok(None);
        };
        if !is_call(&call_of(&statement.deed, bound.as_slice()), &entry.op) {
            return Ok(None);
        }
        bound.push(match &entry.reply {
            Reply::Handle(handle) => *handle,
            _ => 0,
        })?;
        let binding = Binding { part, statement };
        if let Some(object) = object_made(&entry.op, &entry.reply) {
            let key = key_of(object);
            if self.bindings.get(&key).is_none() {
                self.bindings.insert(key, binding)?;
            }
        }
        Ok(Some(binding))
    }

    /// The statement that bound an object first.
    pub fn binding_of(&self, object: NodeObject) -> Option<Binding<'a>> {
        match self.bindings.get(&key_of(object)) {
            Some(binding) => Some(*binding),
            None => None,
        }
    }

    /// The name of an object: one that somebody gave it, else that of the statement that bound it first, behind that of its part, or else its
    /// handle.
    pub fn name_of(&self, alloc: Global, object: NodeObject) -> Result<String, AllocError> {
        let handle = handle_word(alloc, object)?;
        if let Some(own) = self.own.name_of(&handle) {
            return String::from_str(alloc, own);
        }
        if let Some(binding) = self.binding_of(object) {
            if let Some(name) = name_at(alloc, binding)? {
                return Ok(name);
            }
        }
        Ok(handle)
    }

    /// The name in a call of what it makes or names: where the call or an earlier one was refused, so that there is no such object, the name
    /// that the call's statement binds or uses.
    pub fn called(
        &self,
        alloc: Global,
        object: Option<NodeObject>,
        statement: Option<Binding<'_>>,
    ) -> Result<String, AllocError> {
        match (object, statement) {
            (Some(object), None) => self.name_of(alloc, object),
            (Some(object), Some(_)) if self.is_named(alloc, object)? => self.name_of(alloc, object),
            (_, Some(statement)) => match (name_at(alloc, statement)?, object) {
                (Some(name), _) => Ok(name),
                (None, Some(object)) => self.name_of(alloc, object),
                (None, None) => Ok(String::new(alloc)),
            },
            (None, None) => Ok(String::new(alloc)),
        }
    }

    /// Whether somebody named an object, or a statement bound it.
    fn is_named(&self, alloc: Global, object: NodeObject) -> Result<bool, AllocError> {
        let handle = handle_word(alloc, object)?;
        Ok(self.own.name_of(&handle).is_some() || self.binding_of(object).is_some())
    }
}

/// The place of the statement that bound the name which a deed uses.
fn place_used(deed: &Deed) -> Option<u32> {
    match deed {
        Deed::ActionDelete { place }
        | Deed::ActionEnable { place }
        | Deed::ActionDisable { place }
        | Deed::Wait { place, .. }
        | Deed::Cancel { place }
        | Deed::WaitAll { place, .. }
        | Deed::WaitAny { place, .. }
        | Deed::GroupDelete { place }
        | Deed::QueueEnable { place }
        | Deed::QueueDisable { place }
        | Deed::QueueDelete { place }
        | Deed::MutexDelete { place }
        | Deed::Lock { place, .. }
        | Deed::Unlock { place, .. }
        | Deed::SemDelete { place }
        | Deed::SemLock { place, .. }
        | Deed::SemUnlock { place }
        | Deed::RwlDelete { place }
        | Deed::RwlLock { place, .. }
        | Deed::RwlUnlock { place, .. }
        | Deed::ShmemDelete { place }
        | Deed::Attach { place }
        | Deed::Detach { place }
        | Deed::Read { place, .. }
        | Deed::Write { place, .. } => Some(*place),
        _ => None,
    }
}

/// The name that a statement binds or uses, behind the name of its part.
pub fn name_at(alloc: Global, binding: Binding<'_>) -> Result<Option<String>, AllocError> {
    let statement = match place_used(&binding.statement.deed) {
        Some(place) => binding.part.statements.as_slice().get(place as usize),
        None => Some(binding.statement),
    };
    let Some(statement) = statement else {
        return Ok(None);
    };
    match &statement.name {
        Some(name) => {
            let part = from_utf8(binding.part.name.as_slice()).unwrap_or("");
            let name = from_utf8(name.as_slice()).unwrap_or("");
            Ok(Some(format!(in alloc; "{part}.{name}")?))
        }
        None => Ok(None),
    }
}
