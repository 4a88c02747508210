// Resolves the ids of a line against the lines before it.
ghost use Rattle.std.specs.Prelude.{◌≡◌};
ghost use Rattle.word_core.specs.Table as table;
ghost use Rattle.btor_tree.specs.Shapes as shapes;
ghost use Rattle.btor_tree.specs.Resolving as rules;
ghost use Rattle.btor_text.specs.Seen.{line_of, seen_base, seen_binding, seen_content, seen_extension, seen_operand, seen_property, seen_shape, seen_nullary};

use crate::place::{is_constant_at, sort_at, sort_of_id, state_of_id, width_at, word_of_id};
use crate::progress::Progress;
use crate::shape::{Content, Operand, Shape};
use crate::word::{Base, Binding, Extension, Nullary, Property, literal_word};
use btor_tree::{Arg, Args, LineOp, Nodes, no_args, one_arg, plain_arg, three_args, two_args};
use word_core::{Binary, Unary, WIDEST, gives_one_bit, unary_width};

/// The reason why a line does not fit the lines before it.
#[derive(Clone, Copy, PartialEq, Eq)]
pub enum Fault {
    NoShape,
    NotSupported,
    IdOrder,
    WideSort,
    NoSuchNode,
    SortClash,
    Twice,
    InitLate,
}

/// A resolved line: its kind, and indices for its sort and its arguments.
#[derive(Drop)]
pub struct Body {
    pub op: LineOp,
    pub sort: u32,
    pub args: Args,
}

fn nullary_op(kind: Nullary) -> LineOp
    ensures { result ≡ rules.nullary_op (seen_nullary kind) }
{
    match kind {
        Nullary::Input => LineOp::Input,
        Nullary::State => LineOp::State,
        Nullary::One => LineOp::One,
        Nullary::Zero => LineOp::Zero,
        Nullary::Ones => LineOp::Ones,
    }
}

fn binding_op(kind: Binding) -> LineOp
    ensures { result ≡ rules.binding_op (seen_binding kind) }
{
    match kind {
        Binding::Init => LineOp::Init,
        Binding::Next => LineOp::Next,
    }
}

fn property_op(kind: Property) -> LineOp
    ensures { result ≡ rules.property_op (seen_property kind) }
{
    match kind {
        Property::Bad => LineOp::Bad,
        Property::Constraint => LineOp::Constraint,
        Property::Output => LineOp::Output,
    }
}

fn extension_op(kind: Extension, count: u32) -> LineOp
    ensures { result ≡ rules.extension_op (seen_extension kind) count }
{
    match kind {
        Extension::Uext => LineOp::Uext(count),
        Extension::Sext => LineOp::Sext(count),
    }
}

fn argument(operand: Operand, line: u32) -> Arg
    ensures { result ≡ rules.argument (seen_operand operand) line }
{
    Arg {
        line,
        negated: operand.negated,
    }
}

fn resolve_sort(nodes: &Nodes, width: u32) -> Result<Body, Fault>
    ensures { (sh : shapes.Shape) → line_of sh result ≡ rules.resolve_content nodes.now sh (shapes.sort_content width) }
{
    if width < 1 || width > WIDEST {
        return Err(Fault::WideSort);
    }
    Ok(Body {
        op: LineOp::Sort(width),
        sort: 0,
        args: no_args(),
    })
}

fn resolve_nullary(nodes: &Nodes, kind: Nullary, sort: u32) -> Result<Body, Fault>
    ensures { (sh : shapes.Shape) → line_of sh result ≡ rules.resolve_content nodes.now sh (shapes.nullary_content (seen_nullary kind) sort) }
{
    let Some(sort) = sort_of_id(nodes, sort) else {
        return Err(Fault::NoSuchNode)
    };
    Ok(Body {
        op: nullary_op(kind),
        sort,
        args: no_args(),
    })
}

fn resolve_constant(nodes: &Nodes, kind: Base, sort: u32, digits: &[u8]) -> Result<Body, Fault>
    ensures { (sh : shapes.Shape) → line_of sh result ≡ rules.resolve_content nodes.now sh (shapes.constant_content (seen_base kind) sort digits.now) }
{
    let Some(sort) = sort_of_id(nodes, sort) else {
        return Err(Fault::NoSuchNode)
    };
    let Some(word) = literal_word(kind, sort_at(nodes, sort), digits) else {
        return Err(Fault::SortClash)
    };
    Ok(Body {
        op: LineOp::Constant(word),
        sort,
        args: no_args(),
    })
}

// Whether no line has given the state a value of this kind yet.
fn is_first(progress: &Progress, kind: Binding, state: u32) -> bool
    ensures { result ≡ rules.is_first (seen_binding kind) progress.now state }
{
    match kind {
        Binding::Init => !progress.has_init(state),
        Binding::Next => !progress.has_next(state),
    }
}

// Whether the value of an init is before its state, or is a constant.
fn is_in_time(nodes: &Nodes, kind: Binding, state: u32, value: u32) -> bool
    ensures { result ≡ rules.is_in_time (seen_binding kind) nodes.now state value }
{
    match kind {
        Binding::Init => value < state || is_constant_at(nodes, value),
        Binding::Next => true,
    }
}

fn resolve_binding(
    progress: &Progress,
    kind: Binding,
    sort: u32,
    state: u32,
    value: Operand,
) -> Result<Body, Fault>
    ensures { (sh : shapes.Shape) → line_of sh result ≡ rules.resolve_content progress.now sh (shapes.binding_content (seen_binding kind) sort state (seen_operand value)) }
{
    let nodes = progress.nodes();
    let Some(sort) = sort_of_id(nodes, sort) else {
        return Err(Fault::NoSuchNode)
    };
    let Some(state) = state_of_id(nodes, state) else {
        return Err(Fault::NoSuchNode)
    };
    let Some(place) = word_of_id(nodes, value.id) else {
        return Err(Fault::NoSuchNode)
    };
    let width = width_at(nodes, state);
    if width != sort_at(nodes, sort) || width_at(nodes, place) != width {
        return Err(Fault::SortClash);
    }
    if !is_first(progress, kind, state) {
        return Err(Fault::Twice);
    }
    if !is_in_time(nodes, kind, state, place) {
        return Err(Fault::InitLate);
    }
    Ok(Body {
        op: binding_op(kind),
        sort,
        args: two_args(plain_arg(state), argument(value, place)),
    })
}

fn property_takes(kind: Property, width: u32) -> bool
    ensures { result ≡ rules.property_takes (seen_property kind) width }
{
    match kind {
        Property::Bad | Property::Constraint => width == 1,
        Property::Output => true,
    }
}

fn resolve_property(nodes: &Nodes, kind: Property, operand: Operand) -> Result<Body, Fault>
    ensures { (sh : shapes.Shape) → line_of sh result ≡ rules.resolve_content nodes.now sh (shapes.property_content (seen_property kind) (seen_operand operand)) }
{
    let Some(place) = word_of_id(nodes, operand.id) else {
        return Err(Fault::NoSuchNode)
    };
    if !property_takes(kind, width_at(nodes, place)) {
        return Err(Fault::SortClash);
    }
    Ok(Body {
        op: property_op(kind),
        sort: 0,
        args: one_arg(argument(operand, place)),
    })
}

fn resolve_unary(nodes: &Nodes, op: Unary, sort: u32, operand: Operand) -> Result<Body, Fault>
    ensures { (sh : shapes.Shape) → line_of sh result ≡ rules.resolve_content nodes.now sh (shapes.unary_content op sort (seen_operand operand)) }
{
    let Some(sort) = sort_of_id(nodes, sort) else {
        return Err(Fault::NoSuchNode)
    };
    let Some(place) = word_of_id(nodes, operand.id) else {
        return Err(Fault::NoSuchNode)
    };
    if unary_width(op, width_at(nodes, place)) != sort_at(nodes, sort) {
        return Err(Fault::SortClash);
    }
    Ok(Body {
        op: LineOp::Unary(op),
        sort,
        args: one_arg(argument(operand, place)),
    })
}

fn binary_fits(op: Binary, left: u32, right: u32) -> bool
    ensures { result ≡ rules.binary_fits op left right }
{
    match op {
        Binary::Iff | Binary::Implies => left == 1 && right == 1,
        Binary::Concat => u64::from(left) + u64::from(right) <= u64::from(WIDEST),
        _ => left == right,
    }
}

// The width of the result. No contract here bounds the widths, so the sum is a u64.
fn binary_width(op: Binary, left: u32, right: u32) -> u64
    ensures { result ≡ table.binary_width op left right }
{
    match op {
        Binary::Concat => u64::from(left) + u64::from(right),
        _ => {
            if gives_one_bit(op) {
                1
            } else {
                u64::from(left)
            }
        }
    }
}

fn resolve_binary(
    nodes: &Nodes,
    op: Binary,
    sort: u32,
    first: Operand,
    second: Operand,
) -> Result<Body, Fault>
    ensures { (sh : shapes.Shape) → line_of sh result ≡ rules.resolve_content nodes.now sh (shapes.binary_content op sort (seen_operand first) (seen_operand second)) }
{
    let Some(sort) = sort_of_id(nodes, sort) else {
        return Err(Fault::NoSuchNode)
    };
    let Some(left) = word_of_id(nodes, first.id) else {
        return Err(Fault::NoSuchNode)
    };
    let Some(right) = word_of_id(nodes, second.id) else {
        return Err(Fault::NoSuchNode)
    };
    let v = width_at(nodes, left);
    let w = width_at(nodes, right);
    if !binary_fits(op, v, w) || binary_width(op, v, w) != u64::from(sort_at(nodes, sort)) {
        return Err(Fault::SortClash);
    }
    Ok(Body {
        op: LineOp::Binary(op),
        sort,
        args: two_args(argument(first, left), argument(second, right)),
    })
}

fn resolve_ite(
    nodes: &Nodes,
    sort: u32,
    condition: Operand,
    first: Operand,
    second: Operand,
) -> Result<Body, Fault>
    ensures { (sh : shapes.Shape) → line_of sh result ≡ rules.resolve_content nodes.now sh (shapes.ite_content sort (seen_operand condition) (seen_operand first) (seen_operand second)) }
{
    let Some(sort) = sort_of_id(nodes, sort) else {
        return Err(Fault::NoSuchNode)
    };
    let Some(choice) = word_of_id(nodes, condition.id) else {
        return Err(Fault::NoSuchNode)
    };
    let Some(left) = word_of_id(nodes, first.id) else {
        return Err(Fault::NoSuchNode)
    };
    let Some(right) = word_of_id(nodes, second.id) else {
        return Err(Fault::NoSuchNode)
    };
    let width = sort_at(nodes, sort);
    if width_at(nodes, choice) != 1
        || width_at(nodes, left) != width
        || width_at(nodes, right) != width
    {
        return Err(Fault::SortClash);
    }
    Ok(Body {
        op: LineOp::Ite,
        sort,
        args: three_args(
            argument(condition, choice),
            argument(first, left),
            argument(second, right),
        ),
    })
}

fn resolve_slice(
    nodes: &Nodes,
    sort: u32,
    operand: Operand,
    high: u32,
    low: u32,
) -> Result<Body, Fault>
    ensures { (sh : shapes.Shape) → line_of sh result ≡ rules.resolve_content nodes.now sh (shapes.slice_content sort (seen_operand operand) high low) }
{
    let Some(sort) = sort_of_id(nodes, sort) else {
        return Err(Fault::NoSuchNode)
    };
    let Some(place) = word_of_id(nodes, operand.id) else {
        return Err(Fault::NoSuchNode)
    };
    if low > high
        || high >= width_at(nodes, place)
        || u64::from(high - low) + 1 != u64::from(sort_at(nodes, sort))
    {
        return Err(Fault::SortClash);
    }
    Ok(Body {
        op: LineOp::Slice(high, low),
        sort,
        args: one_arg(argument(operand, place)),
    })
}

fn resolve_extension(
    nodes: &Nodes,
    kind: Extension,
    sort: u32,
    operand: Operand,
    count: u32,
) -> Result<Body, Fault>
    ensures { (sh : shapes.Shape) → line_of sh result ≡ rules.resolve_content nodes.now sh (shapes.extension_content (seen_extension kind) sort (seen_operand operand) count) }
{
    let Some(sort) = sort_of_id(nodes, sort) else {
        return Err(Fault::NoSuchNode)
    };
    let Some(place) = word_of_id(nodes, operand.id) else {
        return Err(Fault::NoSuchNode)
    };
    let width = u64::from(width_at(nodes, place)) + u64::from(count);
    if width != u64::from(sort_at(nodes, sort)) {
        return Err(Fault::SortClash);
    }
    Ok(Body {
        op: extension_op(kind, count),
        sort,
        args: one_arg(argument(operand, place)),
    })
}

fn resolve_content(progress: &Progress, content: &Content<'_>) -> Result<Body, Fault>
    ensures { (sh : shapes.Shape) → line_of sh result ≡ rules.resolve_content progress.now sh (seen_content content.now) }
{
    let nodes = progress.nodes();
    match *content {
        Content::Sort(width) => resolve_sort(nodes, width),
        Content::Nullary(kind, sort) => resolve_nullary(nodes, kind, sort),
        Content::Constant(kind, sort, digits) => resolve_constant(nodes, kind, sort, digits),
        Content::Binding(kind, sort, state, value) => {
            resolve_binding(progress, kind, sort, state, value)
        }
        Content::Property(kind, a) => resolve_property(nodes, kind, a),
        Content::Unary(op, sort, a) => resolve_unary(nodes, op, sort, a),
        Content::Binary(op, sort, a, b) => resolve_binary(nodes, op, sort, a, b),
        Content::Ite(sort, c, a, b) => resolve_ite(nodes, sort, c, a, b),
        Content::Slice(sort, a, high, low) => resolve_slice(nodes, sort, a, high, low),
        Content::Extension(kind, sort, a, count) => resolve_extension(nodes, kind, sort, a, count),
        Content::Unsupported => Err(Fault::NotSupported),
    }
}

/// Resolves the ids of a line against the lines so far.
///
/// Returns the fault where the line does not fit them.
pub fn resolve(progress: &Progress, shape: &Shape<'_>) -> Result<Body, Fault>
    ensures { line_of (seen_shape shape.now) result ≡ rules.resolve progress.now (seen_shape shape.now) }
{
    if let Content::Unsupported = shape.content {
        return Err(Fault::NotSupported);
    }
    if shape.id <= progress.last_id() {
        return Err(Fault::IdOrder);
    }
    resolve_content(progress, &shape.content)
}
