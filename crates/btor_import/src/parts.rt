// The formulas of a system, with the parts that lines give to them.
ghost use Rattle.std.specs.Prelude.{◌≡◌, ◌++◌, ◌∷◌, [], IfOk, OnOk, Some, map, slice_get};
ghost use Rattle.moxi_terms.specs.View.{plain};
ghost use Rattle.btor_tree.specs.Fits.{IsWellFormed, is_bad, is_constraint, is_init, is_next, sort_at, width_at};
ghost use Rattle.btor_import.specs.Assembling.{number_at, part_of};
ghost use Rattle.btor_import.specs.Operators.{argument, is_one, operand_term};
ghost use Rattle.btor_import.specs.Widths.{HasOperandWidth, IsWidth};
ghost use Rattle.btor_import.specs.Script.{equation_term, formula_of, init_part, inv_part, parts_from, trans_part, value_part};

use crate::numbers::{is_local, number_at};
use crate::operators::{all_term, equal, is_one};
use crate::terms::{argument, line_term, operand};
use btor_tree::{Args, Line, LineOp, Nodes};
use moxi_terms::{Term, Terms};
use std::alloc::Global;
use text_core::NoMemory;

/// A formula of a system (MoXI, SPIN 2024).
#[derive(Clone, Copy)]
pub(crate) enum Part {
    /// The formula of the first step.
    Init,
    /// The formula of two consecutive steps.
    Trans,
    /// The formula of every step.
    Inv,
}

fn is_init(op: &LineOp) -> bool
    ensures { result ≡ is_init op.now }
{
    matches!(op, LineOp::Init)
}

fn is_next(op: &LineOp) -> bool
    ensures { result ≡ is_next op.now }
{
    matches!(op, LineOp::Next)
}

fn is_constraint(op: &LineOp) -> bool
    ensures { result ≡ is_constraint op.now }
{
    matches!(op, LineOp::Constraint)
}

/// Returns whether the line is a bad line.
pub(crate) fn is_bad(op: &LineOp) -> bool
    ensures { result ≡ is_bad op.now }
{
    matches!(op, LineOp::Bad)
}

/// Builds the formula that the first argument is 1.
pub(crate) fn is_true(alloc: Global, numbers: &[u32], args: &Args) -> Result<Term, NoMemory>
    ensures { IfOk result (λ t. plain t ≡ is_one (operand_term (number_at numbers.now) (argument args.now 0))) }
{
    let a = operand(alloc, numbers, argument(args, 0))?;
    is_one(alloc, a)
}

// The formula that a state, which may be primed, equals a value.
fn value_part(alloc: Global, numbers: &[u32], primed: bool, args: &Args) -> Result<Term, NoMemory>
    ensures { IfOk result (λ t. plain t ≡ value_part (number_at numbers.now) primed args.now) }
{
    let state = argument(args, 0).line as usize;
    let value = operand(alloc, numbers, argument(args, 1))?;
    equal(
        alloc,
        Term::Variable(number_at(numbers, state), primed),
        value,
    )
}

// The formula that the variable of the line at an index equals the line's value.
fn equation(
    alloc: Global,
    nodes: &Nodes,
    numbers: &[u32],
    place: usize,
    line: &Line,
) -> Result<Term, NoMemory>
    requires sort { IsWidth (sort_at nodes.now line.now.sort) }
    requires operand { HasOperandWidth (width_at nodes.now) line.now.op line.now.args }
    ensures { IfOk result (λ t. plain t ≡ equation_term (number_at numbers.now) nodes.now place line.now) }
{
    let value = line_term(alloc, nodes, numbers, line)?;
    equal(
        alloc,
        Term::Variable(number_at(numbers, place), false),
        value,
    )
}

// Appends the part of an init or next line.
fn add_value(
    alloc: Global,
    numbers: &[u32],
    primed: bool,
    args: &Args,
    all: &mut Terms,
) -> Result<(), NoMemory>
    ensures { OnOk result (map plain all.new.items ≡ map plain all.old.items ++ value_part (number_at numbers.now) primed args.now ∷ []) }
{
    let t = value_part(alloc, numbers, primed, args)?;
    Ok(all.push(t)?)
}

// Appends the part of a constant, an operator or a constraint.
fn add_inv(
    alloc: Global,
    nodes: &Nodes,
    numbers: &[u32],
    place: usize,
    line: &Line,
    all: &mut Terms,
) -> Result<(), NoMemory>
    requires well_formed { IsWellFormed nodes.now }
    requires there { slice_get nodes.now place ≡ Some line.now }
    ensures { OnOk result (map plain all.new.items ≡ map plain all.old.items ++ inv_part nodes.now (number_at numbers.now) place line.now) }
{
    if is_local(&line.op) {
        let t = equation(alloc, nodes, numbers, place, line)?;
        Ok(all.push(t)?)
    } else if is_constraint(&line.op) {
        let t = is_true(alloc, numbers, &line.args)?;
        Ok(all.push(t)?)
    } else {
        Ok(())
    }
}

fn add_init(
    alloc: Global,
    numbers: &[u32],
    place: usize,
    line: &Line,
    all: &mut Terms,
) -> Result<(), NoMemory>
    ensures { OnOk result (map plain all.new.items ≡ map plain all.old.items ++ init_part (number_at numbers.now) place line.now) }
{
    if is_init(&line.op) {
        add_value(alloc, numbers, false, &line.args, all)
    } else {
        Ok(())
    }
}

fn add_trans(
    alloc: Global,
    numbers: &[u32],
    place: usize,
    line: &Line,
    all: &mut Terms,
) -> Result<(), NoMemory>
    ensures { OnOk result (map plain all.new.items ≡ map plain all.old.items ++ trans_part (number_at numbers.now) place line.now) }
{
    if is_next(&line.op) {
        add_value(alloc, numbers, true, &line.args, all)
    } else {
        Ok(())
    }
}

// Appends the part of the line at an index.
fn add_part(
    alloc: Global,
    part: Part,
    nodes: &Nodes,
    numbers: &[u32],
    place: usize,
    line: &Line,
    all: &mut Terms,
) -> Result<(), NoMemory>
    requires well_formed { IsWellFormed nodes.now }
    requires there { slice_get nodes.now place ≡ Some line.now }
    ensures { OnOk result (map plain all.new.items ≡ map plain all.old.items ++ part_of part (number_at numbers.now) nodes.now place line.now) }
{
    match part {
        Part::Init => add_init(alloc, numbers, place, line, all),
        Part::Trans => add_trans(alloc, numbers, place, line, all),
        Part::Inv => add_inv(alloc, nodes, numbers, place, line, all),
    }
}

// The parts of all lines.
fn parts_of(alloc: Global, part: Part, nodes: &Nodes, numbers: &[u32]) -> Result<Terms, NoMemory>
    ensures { IfOk result (λ ts. map plain ts.items ≡ parts_from (part_of part (number_at numbers.now) nodes.now) 0 nodes.now) }
{
    let mut all = Vec::new(alloc);
    for i in 0..nodes.len() {
        add_part(alloc, part, nodes, numbers, i, nodes.at(i), &mut all)?;
    }
    Ok(all)
}

/// Builds a formula of the system, given the number of each line's variable.
pub(crate) fn formula_of(
    alloc: Global,
    part: Part,
    nodes: &Nodes,
    numbers: &[u32],
) -> Result<Term, NoMemory>
    ensures { IfOk result (λ t. plain t ≡ formula_of (part_of part (number_at numbers.now) nodes.now) nodes.now) }
{
    let parts = parts_of(alloc, part, nodes, numbers)?;
    Ok(all_term(parts))
}
