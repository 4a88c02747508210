// The variables of a system.
ghost use Rattle.std.specs.Prelude.{◌≡◌, ◌++◌, ◌∷◌, [], IfOk, OnOk};
ghost use Rattle.btor_import.specs.Assembling.{group_kind, group_letter, variables_for};
ghost use Rattle.btor_import.specs.Script.{variable_of, variables_in};

use crate::numbers::{is_input, is_local, is_state, sort_at};
use btor_tree::{Line, LineOp, Nodes};
use moxi_scripts::numbered;
use moxi_terms::{Sort, Variable, Variables};
use std::alloc::Global;
use text_core::NoMemory;

/// The list of a system's variables to which a line's variable belongs (MoXI, SPIN 2024).
#[derive(Clone, Copy)]
pub(crate) enum Group {
    /// The input lines.
    Inputs,
    /// The state lines.
    Outputs,
    /// The constant and operator lines.
    Locals,
}

fn is_in(group: Group, op: &LineOp) -> bool
    ensures { result ≡ group_kind group op.now }
{
    match group {
        Group::Inputs => is_input(op),
        Group::Outputs => is_state(op),
        Group::Locals => is_local(op),
    }
}

fn letter(group: Group) -> &'static [u8]
    ensures { result.now ≡ group_letter group }
{
    match group {
        Group::Inputs => b"i.",
        Group::Outputs => b"s.",
        Group::Locals => b"n.",
    }
}

fn variable_of(
    alloc: Global,
    nodes: &Nodes,
    group: Group,
    line: &Line,
) -> Result<Variable, NoMemory>
    ensures { IfOk result (λ v. v ≡ variable_of nodes.now (group_letter group) line.now) }
{
    let name = numbered(alloc, letter(group), line.id as usize)?;
    let sort = Sort::Bits(sort_at(nodes, line.sort as usize));
    Ok(Variable { name, sort })
}

// Appends the variable of a line that is in the group.
fn add_variable(
    alloc: Global,
    nodes: &Nodes,
    group: Group,
    line: &Line,
    all: &mut Variables,
) -> Result<(), NoMemory>
    ensures { OnOk result (all.new ≡ all.old ++ variables_for nodes.now (group_letter group) (group_kind group) (line.now ∷ [])) }
{
    if is_in(group, &line.op) {
        all.push(variable_of(alloc, nodes, group, line)?)?;
    }
    Ok(())
}

/// Builds the variables of a group, in the order of their lines.
pub(crate) fn variables_in(
    alloc: Global,
    nodes: &Nodes,
    group: Group,
) -> Result<Variables, NoMemory>
    ensures { IfOk result (λ vs. vs ≡ variables_in (group_letter group) (group_kind group) nodes.now) }
{
    let mut all = Variables::new(alloc);
    for line in nodes.as_slice() {
        add_variable(alloc, nodes, group, line, &mut all)?;
    }
    Ok(all)
}
