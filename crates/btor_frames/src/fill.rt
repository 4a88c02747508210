// Computes words as their lines say, and fills the row of frame 0, in the order of the lines.
ghost use Rattle.std.specs.Prelude.{◌≡◌, ◌<◌, ◌≤◌, ◌+◌, ◌^◌, true, if◌then◌else◌, length, take, Some, None, slice_get, slice_set, IfSome};
ghost use Rattle.word_core.specs.Table.{unary_of, binary_of, ite_of, slice_of, uext_of, sext_of, BinaryFits};
ghost use Rattle.btor_tree.specs.Fits.{IsWellFormed, OnOne, OnTwo, OnThree, count_of, is_constant, is_init, is_input, is_state, kind_at, state_value};
ghost use Rattle.btor_tree.specs.Frame.{nothing, operand, init_operand, signed_word, read_or, IsFrame};
ghost use Rattle.btor_tree.proofs.Words.{computed};
ghost use Rattle.btor_tree.proofs.Rows.{row_upto};
ghost use Rattle.btor_tree.proofs.Paths.{constant_at, pick, given_of};
ghost use Rattle.btor_frames.specs.Tables.{IsFoundIn};
ghost use Rattle.btor_frames.specs.Steps.{supplied_at, SuppliedFit};

use crate::handed::{
    Seen, Supplied, is_given, supplied_word, with_input, with_state, word_of, word_or,
};
use crate::tables::Tables;
use crate::words::Words;
use btor_tree::{Arg, Args, Line, LineOp, Nodes};
use word_core::{Binary, Unary, WIDEST, Word, binary, ite, sext, slice, uext, unary};

// The word, or the bitwise not of it.
#[inline(always)]
fn signed_word(word: Word, negated: bool) -> Word
    ensures { result ≡ signed_word negated word }
{
    if negated {
        unary(Unary::Not, word)
    } else {
        word
    }
}

// The word of an argument.
#[inline(always)]
pub fn operand(row: &Words, a: &Arg) -> Word
    requires { a.now.line < length row.now }
    ensures { result ≡ operand row.now a.now }
{
    signed_word(row.at(a.line as usize), a.negated)
}

fn is_constant(op: &LineOp) -> bool
    ensures { result ≡ is_constant op.now }
{
    matches!(
        op,
        LineOp::Constant(_) | LineOp::One | LineOp::Zero | LineOp::Ones
    )
}

// The word of a constant line, which is the same in every row.
fn constant_word(nodes: &Nodes, i: usize) -> Word
    requires well_formed { IsWellFormed nodes.now }
    requires constant { kind_at is_constant nodes.now i ≡ true }
    ensures { result ≡ constant_at nodes.now i }
{
    let width = nodes.width_of(i as u32);
    match nodes.at(i).op {
        LineOp::Constant(word) => word,
        LineOp::One => word_of(width, 1),
        LineOp::Zero => word_of(width, 0),
        LineOp::Ones => unary(Unary::Not, word_of(width, 0)),
        _ => word_of(1, 0),
    }
}

// The word of an init's value: a constant's, which may appear on a later line, or an earlier word.
fn init_operand(nodes: &Nodes, row: &Words, a: &Arg) -> Word
    requires well_formed { IsWellFormed nodes.now }
    requires long { length row.now ≡ length nodes.now }
    requires there { a.now.line < length nodes.now }
    ensures { result ≡ init_operand nodes.now row.now a.now }
{
    let i = a.line as usize;
    let word = if is_constant(&nodes.at(i).op) {
        constant_word(nodes, i)
    } else {
        row.at(i)
    };
    signed_word(word, a.negated)
}

// The word of a state in frame 0: its init where it has one, else the word given by the caller.
#[inline(always)]
fn state_word(
    nodes: &Nodes,
    tables: &Tables,
    i: usize,
    spare: &Words,
    supplied: &Supplied<'_>,
    seen: Seen,
) -> Word
    requires inside { i < length nodes.now }
    requires long { length spare.now ≡ length nodes.now }
    requires well_formed { IsWellFormed nodes.now }
    requires found { IsFoundIn nodes.now tables.now }
    requires input_is { seen.input ≡ count_of is_input (take i nodes.now) }
    requires state_is { seen.state ≡ count_of is_state (take i nodes.now) }
    ensures { result ≡ read_or (state_value is_init nodes.now i) (init_operand nodes.now (take i spare.now)) (supplied_at nodes.now supplied.now.inputs.now supplied.now.free.now i) }
{
    match tables.init(i) {
        None => supplied_word(nodes, i, supplied, seen),
        Some(a) => init_operand(nodes, spare, &a),
    }
}

// The word of an input or a state in frame 0. It is not read at other lines.
#[inline(always)]
fn given_word(
    nodes: &Nodes,
    tables: &Tables,
    i: usize,
    spare: &Words,
    supplied: &Supplied<'_>,
    seen: Seen,
) -> Word
    requires inside { i < length nodes.now }
    requires long { length spare.now ≡ length nodes.now }
    requires well_formed { IsWellFormed nodes.now }
    requires found { IsFoundIn nodes.now tables.now }
    requires input_is { seen.input ≡ count_of is_input (take i nodes.now) }
    requires state_is { seen.state ≡ count_of is_state (take i nodes.now) }
    ensures { IfSome (slice_get nodes.now i) (λ l. result ≡ pick l.op (state_value is_init nodes.now i)
        (init_operand nodes.now (take i spare.now)) (supplied_at nodes.now supplied.now.inputs.now supplied.now.free.now i)) }
{
    match nodes.at(i).op {
        LineOp::State => state_word(nodes, tables, i, spare, supplied, seen),
        LineOp::Input => word_or(supplied.inputs, seen.input),
        _ => supplied_word(nodes, i, supplied, seen),
    }
}

// The word of an operator line on one argument.
#[inline(always)]
fn unary_word(op: Unary, args: &Args, row: &Words) -> Word
    requires { OnOne args.now (λ a. a.line < length row.now) }
    ensures { OnOne args.now (λ a. result ≡ unary_of op (operand row.now a)) }
{
    unary(op, operand(row, args.at(0)))
}

// The bitwise and of two words of one width.
#[inline(always)]
pub fn and_word(a: Word, b: Word) -> Word
    requires { BinaryFits Binary.And a.width b.width }
    ensures { result ≡ binary_of Binary.And a b }
{
    word_of(a.width(), a.bits() & b.bits())
}

// The bitwise or of two words of one width.
#[inline(always)]
pub fn or_word(a: Word, b: Word) -> Word
    requires { BinaryFits Binary.Or a.width b.width }
    ensures { result ≡ binary_of Binary.Or a b }
{
    word_of(a.width(), a.bits() | b.bits())
}

// One bit: whether the two words are the same number.
#[inline(always)]
pub fn eq_word(a: Word, b: Word) -> Word
    ensures { result ≡ binary_of Binary.Eq a b }
{
    word_of(1, u128::from(a.bits() == b.bits()))
}

// Sets the result of the operator.
fn put_joined(op: Binary, args: &Args, i: usize, row: &mut Words)
    requires inside { i < length row.old }
    requires fits { OnTwo args.now (λ a b. (a.line < length row.old) × (b.line < length row.old)
        × BinaryFits op (operand row.old a).width (operand row.old b).width) }
    ensures { OnTwo args.now (λ a b. row.new ≡ slice_set row.old i (binary_of op (operand row.old a) (operand row.old b))) }
{
    row.set(
        i,
        binary(op, operand(row, args.at(0)), operand(row, args.at(1))),
    );
}

// Sets the word of an operator line on two arguments. The most frequent operators are handled here, since a call
// for each line is costly. Each reads its own words, since a word that a call may read is kept in memory.
fn put_binary(op: Binary, args: &Args, i: usize, row: &mut Words)
    requires inside { i < length row.old }
    requires fits { OnTwo args.now (λ a b. (a.line < length row.old) × (b.line < length row.old)
        × BinaryFits op (operand row.old a).width (operand row.old b).width) }
    ensures { OnTwo args.now (λ a b. row.new ≡ slice_set row.old i (binary_of op (operand row.old a) (operand row.old b))) }
{
    match op {
        Binary::And => row.set(
            i,
            and_word(operand(row, args.at(0)), operand(row, args.at(1))),
        ),
        Binary::Or => row.set(
            i,
            or_word(operand(row, args.at(0)), operand(row, args.at(1))),
        ),
        Binary::Eq => row.set(
            i,
            eq_word(operand(row, args.at(0)), operand(row, args.at(1))),
        ),
        _ => put_joined(op, args, i, row),
    }
}

// The word of an if-then-else: the second argument's where the first's is one, else the third's.
#[inline(always)]
fn ite_word(args: &Args, row: &Words) -> Word
    requires { OnThree args.now (λ c a b. (c.line < length row.now) × (a.line < length row.now) × (b.line < length row.now)
        × ((operand row.now c).width ≡ 1) × ((operand row.now a).width ≡ (operand row.now b).width)) }
    ensures { OnThree args.now (λ c a b. result ≡ ite_of (operand row.now c) (operand row.now a) (operand row.now b)) }
{
    ite(
        operand(row, args.at(0)),
        operand(row, args.at(1)),
        operand(row, args.at(2)),
    )
}

// The bits of the argument's word from high down to low.
fn slice_word(high: u32, low: u32, args: &Args, row: &Words) -> Word
    requires { OnOne args.now (λ a. (a.line < length row.now) × (low ≤ high) × (high < (operand row.now a).width)) }
    ensures { OnOne args.now (λ a. result ≡ slice_of (operand row.now a) high low) }
{
    slice(operand(row, args.at(0)), high, low)
}

// The argument's word with zeros at the high end.
fn uext_word(count: u32, args: &Args, row: &Words) -> Word
    requires { OnOne args.now (λ a. (a.line < length row.now) × ((operand row.now a).width + count ≤ WIDEST)) }
    ensures { OnOne args.now (λ a. result ≡ uext_of (operand row.now a) count) }
{
    uext(operand(row, args.at(0)), count)
}

// The argument's word with copies of its sign bit at the high end.
fn sext_word(count: u32, args: &Args, row: &Words) -> Word
    requires { OnOne args.now (λ a. (a.line < length row.now) × ((operand row.now a).width + count ≤ WIDEST)) }
    ensures { OnOne args.now (λ a. result ≡ sext_of (operand row.now a) count) }
{
    sext(operand(row, args.at(0)), count)
}

// Sets the word of a line that is computed from the words of earlier lines. Each kind of line sets its own word, so
// that no word is passed between functions.
#[inline(always)]
pub fn put_computed(nodes: &Nodes, i: usize, spare: &mut Words)
    requires inside { i < length nodes.now }
    requires long { length spare.old ≡ length nodes.now }
    requires well_formed { IsWellFormed nodes.now }
    requires frame { IsFrame (take i nodes.now) (take i spare.old) }
    ensures { IfSome (slice_get nodes.now i)
        (λ l. spare.new ≡ slice_set spare.old i (computed (take i nodes.now) (take i spare.old) l.sort l.op l.args nothing)) }
{
    let line = nodes.at(i);
    match line.op {
        LineOp::Constant(_) | LineOp::One | LineOp::Zero | LineOp::Ones => {
            spare.set(i, constant_word(nodes, i));
        }
        LineOp::Unary(op) => {
            spare.set(i, unary_word(op, &line.args, spare));
        }
        LineOp::Binary(op) => put_binary(op, &line.args, i, spare),
        LineOp::Ite => {
            spare.set(i, ite_word(&line.args, spare));
        }
        LineOp::Slice(high, low) => {
            spare.set(i, slice_word(high, low, &line.args, spare));
        }
        LineOp::Uext(count) => {
            spare.set(i, uext_word(count, &line.args, spare));
        }
        LineOp::Sext(count) => {
            spare.set(i, sext_word(count, &line.args, spare));
        }
        _ => spare.set(i, word_of(1, 0)),
    }
}

// Sets the word of the line at index i, and counts inputs and states. A given word is looked up only where it is
// needed.
#[inline(always)]
fn put_word(
    nodes: &Nodes,
    tables: &Tables,
    i: usize,
    line: &Line,
    supplied: &Supplied<'_>,
    seen: Seen,
    spare: &mut Words,
) -> Seen
    requires inside { i < length nodes.now }
    requires long { length spare.old ≡ length nodes.now }
    requires well_formed { IsWellFormed nodes.now }
    requires found { IsFoundIn nodes.now tables.now }
    requires input_is { seen.input ≡ count_of is_input (take i nodes.now) }
    requires state_is { seen.state ≡ count_of is_state (take i nodes.now) }
    requires line_is { slice_get nodes.now i ≡ Some line.now }
    requires few_inputs { seen.input < 2 ^ 63 }
    requires few_states { seen.state < 2 ^ 63 }
    requires frame { IsFrame (take i nodes.now) (take i spare.old) }
    ensures word { IfSome (slice_get nodes.now i) (λ l. spare.new ≡ slice_set spare.old i (computed (take i nodes.now) (take i spare.old) l.sort l.op l.args
        (given_of (state_value is_init nodes.now) (init_operand nodes.now) (supplied_at nodes.now supplied.now.inputs.now supplied.now.free.now) l.op i (take i spare.old)))) }
    ensures next_input { result.input ≡ seen.input + (if is_input line.now.op then 1 else 0) }
    ensures next_state { result.state ≡ seen.state + (if is_state line.now.op then 1 else 0) }
{
    if is_given(&line.op) {
        let word = given_word(nodes, tables, i, spare, supplied, seen);
        spare.set(i, word);
        Seen {
            input: with_input(line, seen.input),
            state: with_state(line, seen.state),
        }
    } else {
        put_computed(nodes, i, spare);
        seen
    }
}

/// Fills a row of words: frame 0.
pub fn fill_first(nodes: &Nodes, tables: &Tables, supplied: &Supplied<'_>, spare: &mut Words)
    requires long { length spare.old ≡ length nodes.now }
    requires found { IsFoundIn nodes.now tables.now }
    requires handed { SuppliedFit nodes.now supplied.now.inputs.now supplied.now.free.now }
    ensures { spare.new ≡ row_upto nodes.now (given_of (state_value is_init nodes.now)
        (init_operand nodes.now) (supplied_at nodes.now supplied.now.inputs.now supplied.now.free.now)) (length nodes.now) }
{
    let mut seen = Seen { input: 0, state: 0 };
    for i in 0..nodes.len() {
        seen = put_word(nodes, tables, i, nodes.at(i), supplied, seen, spare);
    }
}
