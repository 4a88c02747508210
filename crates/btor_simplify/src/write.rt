// The lines of the simplified list.
ghost use Rattle.std.specs.Prelude.{◌≡◌, ◌<◌, ◌+◌, ◌^◌, true, length, map, IfOk, OnOk};
ghost use Rattle.btor_tree.specs.Fits.{IsWellFormed};
ghost use Rattle.btor_tree.specs.LineKeys.{IsShort};
ghost use Rattle.btor_simplify.specs.Fates.{AreThere, replaced};
ghost use Rattle.btor_simplify.specs.Marks.{AreKnown, args_by};
ghost use Rattle.btor_simplify.specs.Order.{IsOrder, has_sort};
ghost use Rattle.btor_simplify.specs.Written as spec;

use crate::fates::{replaced, sort_for};
use crate::order::{Order, has_sort, new_place};
use btor_rules::Outcome;
use btor_tree::{Arg, Args, Line, LineOp, Nodes, no_args, one_arg, three_args, two_args};
use std::alloc::Global;
use text_core::{Name, NoMemory};

// Returns the new index of an old line that stays.
fn place_in(order: &Order, place: u32) -> u32
    ensures { result ≡ spec.place_in order.now.moved.items place }
{
    match new_place(&order.moved, place) {
        Some(there) => there,
        None => 0,
    }
}

// Returns the new argument for an old one.
fn moved_arg(fates: &[Outcome], order: &Order, a: &Arg) -> Arg
    requires { a.now.line < length fates.now }
    ensures { result ≡ spec.moved_arg order.now.moved.items (replaced fates.now a.now) }
{
    let b = replaced(fates, a);
    Arg {
        line: place_in(order, b.line),
        negated: b.negated,
    }
}

// Returns the new arguments for old ones.
fn moved_args(fates: &[Outcome], order: &Order, args: &Args) -> Args
    requires short { IsShort args.now }
    requires there { AreThere fates.now args.now }
    ensures { result ≡ map (spec.moved_arg order.now.moved.items) (map (replaced fates.now) args.now) }
{
    match args.len() {
        0 => no_args(),
        1 => one_arg(moved_arg(fates, order, args.at(0))),
        2 => two_args(
            moved_arg(fates, order, args.at(0)),
            moved_arg(fates, order, args.at(1)),
        ),
        _ => three_args(
            moved_arg(fates, order, args.at(0)),
            moved_arg(fates, order, args.at(1)),
            moved_arg(fates, order, args.at(2)),
        ),
    }
}

// Returns the arguments of the new line, by the fate of the old one.
fn args_by(fates: &[Outcome], order: &Order, fate: &Outcome, args: &Args) -> Args
    requires short { IsShort args.now }
    requires there { AreThere fates.now args.now }
    ensures { result ≡ spec.new_args fates.now order.now.moved.items fate.now args.now }
{
    match fate {
        Outcome::Constant(_) => no_args(),
        _ => moved_args(fates, order, args),
    }
}

// Returns the index of the sort line of the new line.
fn new_sort(fates: &[Outcome], order: &Order, op: &LineOp, sort: u32) -> u32
    requires { has_sort op.now ≡ true → sort < length fates.now }
    ensures { result ≡ spec.new_sort fates.now order.now.moved.items op.now sort }
{
    if has_sort(op) {
        place_in(order, sort_for(fates, sort))
    } else {
        0
    }
}

// Returns a copy of the line's kind.
fn same_op(op: &LineOp) -> LineOp
    ensures { result ≡ op.now }
{
    match op {
        LineOp::Sort(width) => LineOp::Sort(*width),
        LineOp::Input => LineOp::Input,
        LineOp::State => LineOp::State,
        LineOp::Constant(word) => LineOp::Constant(*word),
        LineOp::One => LineOp::One,
        LineOp::Zero => LineOp::Zero,
        LineOp::Ones => LineOp::Ones,
        LineOp::Init => LineOp::Init,
        LineOp::Next => LineOp::Next,
        LineOp::Bad => LineOp::Bad,
        LineOp::Constraint => LineOp::Constraint,
        LineOp::Output => LineOp::Output,
        LineOp::Unary(o) => LineOp::Unary(*o),
        LineOp::Binary(o) => LineOp::Binary(*o),
        LineOp::Ite => LineOp::Ite,
        LineOp::Slice(high, low) => LineOp::Slice(*high, *low),
        LineOp::Uext(count) => LineOp::Uext(*count),
        LineOp::Sext(count) => LineOp::Sext(*count),
    }
}

// Returns the kind of the new line, by the fate of the old one.
fn op_by(fate: &Outcome, op: &LineOp) -> LineOp
    ensures { result ≡ spec.op_by fate.now op.now }
{
    match fate {
        Outcome::Constant(word) => LineOp::Constant(*word),
        _ => same_op(op),
    }
}

// Returns a copy of a symbol.
fn same_symbol(alloc: Global, symbol: &Option<Name>) -> Result<Option<Name>, NoMemory>
    ensures { IfOk result (λ copy. copy ≡ symbol.now) }
{
    match symbol {
        Some(name) => Ok(Some(Name::of(alloc, name.bytes())?)),
        None => Ok(None),
    }
}

// Returns the symbol of the new line. A sort line has none.
fn new_symbol(alloc: Global, line: &Line) -> Result<Option<Name>, NoMemory>
    ensures { IfOk result (λ symbol. symbol ≡ spec.new_symbol line.now.op line.now.symbol) }
{
    match &line.op {
        LineOp::Sort(_) => Ok(None),
        _ => same_symbol(alloc, &line.symbol),
    }
}

// Returns the new line at index q for the old line at index i.
fn new_line(
    alloc: Global,
    fates: &[Outcome],
    order: &Order,
    q: usize,
    i: usize,
    line: &Line,
) -> Result<Line, NoMemory>
    requires few { q < 2 ^ 31 }
    requires inside { i < length fates.now }
    requires can { spec.CanWrite fates.now line.now }
    ensures { IfOk result (λ new. new ≡ spec.new_line fates.now order.now.moved.items q i line.now) }
{
    let symbol = new_symbol(alloc, line)?;
    let fate = &fates[i];
    Ok(Line {
        id: q as u32 + 1,
        op: op_by(fate, &line.op),
        sort: new_sort(fates, order, &line.op, line.sort),
        args: args_by(fates, order, fate, &line.args),
        symbol,
    })
}

/// Returns the new lines, in the given order.
pub fn lines_of(
    alloc: Global,
    nodes: &Nodes,
    fates: &[Outcome],
    order: &Order,
) -> Result<Nodes, NoMemory>
    requires known { AreKnown nodes.now fates.now }
    requires order { IsOrder nodes.now fates.now (length nodes.now) order.now.places.items order.now.moved.items }
    ensures written { IfOk result (λ lines. spec.IsWritten nodes.now fates.now order.now.places.items order.now.moved.items (length order.now.places.items) lines) }
    ensures well_formed { IfOk result IsWellFormed }
{
    let mut lines = Nodes::new(alloc);
    for q in 0..order.places.len() {
        put_line(alloc, nodes, fates, order, &mut lines, q)?;
    }
    lines.are_well_formed();
    Ok(lines)
}

// Appends the next new line.
fn put_line(
    alloc: Global,
    nodes: &Nodes,
    fates: &[Outcome],
    order: &Order,
    lines: &mut Nodes,
    q: usize,
) -> Result<(), NoMemory>
    requires known { AreKnown nodes.now fates.now }
    requires order { IsOrder nodes.now fates.now (length nodes.now) order.now.places.items order.now.moved.items }
    requires inside { q < length order.now.places.items }
    requires written { spec.IsWritten nodes.now fates.now order.now.places.items order.now.moved.items q lines.old }
    ensures { OnOk result (spec.IsWritten nodes.now fates.now order.now.places.items order.now.moved.items (q + 1) lines.new) }
{
    let i = order.places[q] as usize;
    let line = new_line(alloc, fates, order, q, i, nodes.at(i))?;
    lines.add(line)
}
