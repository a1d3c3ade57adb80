//! The workload so far, with what a line adds.
ghost use Rattle.std.specs.Prelude.{◌≡◌, ◌<◌, ◌++◌, ◌∷◌, [], Some, None, OnOk, length};
ghost use Rattle.workload_file.specs.Reading.{with_change};
ghost use Rattle.workload_file.specs.Indexed.{IsReader, IsNamed, name_in_effect};
ghost use Rattle.workload_file.specs.declared.reading.LineEffect.TheVariants as change;

use crate::index::NameIndex;
use crate::name::Name;
use crate::reading::{LineEffect, Reader};
use crate::workload::{Part, Statement, StatementList};
use mtapi_values::NodeAttr;
use std::alloc::{AllocError, Global};
use std::mem;

#[tactic(auto, unfolding(crate::specs::Reading::with_change), using(crate::proofs::Places::alone))]
fn with_node(r: &mut Reader, line: u64, settings: NodeAttr)
    requires named { IsNamed r.old None }
    requires few { r.old.said.count < 20000 }
    ensures value { r.new.said ≡ with_change r.old.said line (Some (change.Node settings)) }
    ensures reader { IsReader r.new }
{
    r.said.node_line = line;
    r.said.settings = settings;
    r.said.count += 1;
}

#[tactic(auto, unfolding(crate::specs::Reading::with_change))]
fn with_caller(alloc: Global, r: &mut Reader, line: u64, name: Name) -> Result<(), AllocError>
    requires named { IsNamed r.old None }
    requires few { r.old.said.count < 20000 }
    ensures value { OnOk result (r.new.said ≡ with_change r.old.said line (Some (change.Caller name))) }
    ensures reader { OnOk result (IsReader r.new) }
{
    let part = Part {
        line,
        name,
        statements: StatementList::new(alloc),
    };
    r.said.before.push(mem::replace(&mut r.said.current, part))?;
    r.said.count += 1;
    r.names = NameIndex::new(alloc);
    Ok(())
}

#[tactic(auto, unfolding(crate::specs::Reading::with_change))]
fn with_statement(r: &mut Reader, line: u64, statement: Statement) -> Result<(), AllocError>
    requires named { IsNamed r.old statement.name }
    requires few { r.old.said.count < 20000 }
    ensures value { OnOk result (r.new.said ≡ with_change r.old.said line (Some (change.Statement statement))) }
    ensures reader { OnOk result (IsReader r.new) }
{
    r.said.current.statements.push(statement)?;
    r.said.count += 1;
    Ok(())
}

/// The workload so far, with what a statement adds.
pub fn with_change(
    alloc: Global,
    r: &mut Reader,
    line: u64,
    change: LineEffect,
) -> Result<(), AllocError>
    requires named { IsNamed r.old (name_in_effect change) }
    requires few { r.old.said.count < 20000 }
    ensures value { OnOk result (r.new.said ≡ with_change r.old.said line (Some change)) }
    ensures reader { OnOk result (IsReader r.new) }
{
    match change {
        LineEffect::Node(settings) => {
            with_node(r, line, settings);
            Ok(())
        }
        LineEffect::Caller(name) => with_caller(alloc, r, line, name),
        LineEffect::Statement(statement) => with_statement(r, line, statement),
    }
}
