// Fills the row of a frame after frame 0. Most lines are not read for it, since the sources of their words are known.
ghost use Rattle.std.specs.Prelude.{◌≡◌, ◌<◌, true, length, take, slice_get, slice_set, IfSome, IsTrue};
ghost use Rattle.word_core.specs.declared.kinds.Binary.TheVariants.{And, Eq, Or};
ghost use Rattle.word_core.specs.declared.kinds.Unary.TheVariants.{Not};
ghost use Rattle.word_core.specs.Table.{binary_of, ite_of, unary_of, BinaryFits};
ghost use Rattle.btor_tree.specs.Fits.{IsWellFormed, state_value};
ghost use Rattle.btor_tree.specs.Frame.{nothing, word_at, IsFrame};
ghost use Rattle.btor_tree.proofs.Words.{computed};
ghost use Rattle.btor_tree.proofs.Rows.{row_upto};
ghost use Rattle.btor_tree.proofs.Paths.{given_of};
ghost use Rattle.btor_frames.specs.declared.sources.Source.TheVariants.{NoWord};
ghost use Rattle.btor_frames.specs.Sources.{IsBlank, IsSource};
ghost use Rattle.btor_frames.specs.Steps.{supplied_at, value_kind, value_word, SuppliedFit};
ghost use Rattle.btor_frames.specs.Tables.{IsFoundIn};

use crate::fill::{and_word, eq_word, fill_first, or_word, put_computed};
use crate::handed::Supplied;
use crate::sources::Source;
use crate::tables::Tables;
use crate::words::Words;
use btor_tree::Nodes;
use word_core::{Unary, Word, ite, unary};

// The word at an index.
#[inline(always)]
fn word_at(words: &Words, n: u32) -> Word
    requires { n < length words.now }
    ensures { result ≡ word_at words.now n }
{
    words.at(n as usize)
}

// The bitwise not of the word at an index.
#[inline(always)]
fn not_word_at(words: &Words, n: u32) -> Word
    requires { n < length words.now }
    ensures { result ≡ unary_of Not (word_at words.now n) }
{
    unary(Unary::Not, word_at(words, n))
}

// Sets the bitwise and of two earlier words.
#[inline(always)]
fn put_and(a: u32, b: u32, i: usize, row: &mut Words)
    requires inside { i < length row.old }
    requires first { a < length row.old }
    requires second { b < length row.old }
    requires fits { BinaryFits And (word_at row.old a).width (word_at row.old b).width }
    ensures { row.new ≡ slice_set row.old i (binary_of And (word_at row.old a) (word_at row.old b)) }
{
    row.set(i, and_word(row.at(a as usize), row.at(b as usize)));
}

// Sets the bitwise or of two earlier words.
#[inline(always)]
fn put_or(a: u32, b: u32, i: usize, row: &mut Words)
    requires inside { i < length row.old }
    requires first { a < length row.old }
    requires second { b < length row.old }
    requires fits { BinaryFits Or (word_at row.old a).width (word_at row.old b).width }
    ensures { row.new ≡ slice_set row.old i (binary_of Or (word_at row.old a) (word_at row.old b)) }
{
    row.set(i, or_word(row.at(a as usize), row.at(b as usize)));
}

// Sets one bit: whether two earlier words are the same number.
#[inline(always)]
fn put_eq(a: u32, b: u32, i: usize, row: &mut Words)
    requires inside { i < length row.old }
    requires first { a < length row.old }
    requires second { b < length row.old }
    ensures { row.new ≡ slice_set row.old i (binary_of Eq (word_at row.old a) (word_at row.old b)) }
{
    row.set(i, eq_word(row.at(a as usize), row.at(b as usize)));
}

// Sets the word of an if-then-else: the second word where the first is one, else the third.
#[inline(always)]
fn put_ite(c: u32, a: u32, b: u32, i: usize, row: &mut Words)
    requires inside { i < length row.old }
    requires condition { c < length row.old }
    requires first { a < length row.old }
    requires second { b < length row.old }
    requires one_bit { (word_at row.old c).width ≡ 1 }
    requires widths { (word_at row.old a).width ≡ (word_at row.old b).width }
    ensures { row.new ≡ slice_set row.old i (ite_of (word_at row.old c) (word_at row.old a) (word_at row.old b)) }
{
    row.set(i, ite(word_at(row, c), word_at(row, a), word_at(row, b)));
}

// Sets the word of the line at index i by its source. A line that has no word keeps what is there.
#[inline(always)]
fn put_source(
    nodes: &Nodes,
    source: Source,
    i: usize,
    last: &Words,
    supplied: &Supplied<'_>,
    spare: &mut Words,
)
    requires inside { i < length nodes.now }
    requires long { length spare.old ≡ length nodes.now }
    requires last_frame { IsFrame nodes.now last.now }
    requires handed { SuppliedFit nodes.now supplied.now.inputs.now supplied.now.free.now }
    requires well_formed { IsWellFormed nodes.now }
    requires source { IfSome (slice_get nodes.now i) (λ l. IsSource nodes.now i l source) }
    requires blank { source ≡ NoWord → word_at spare.old i ≡ nothing }
    requires frame { IsFrame (take i nodes.now) (take i spare.old) }
    ensures { IfSome (slice_get nodes.now i) (λ l. spare.new ≡ slice_set spare.old i (computed (take i nodes.now) (take i spare.old) l.sort l.op l.args
        (given_of (state_value (value_kind true) nodes.now) (value_word true nodes.now last.now) (supplied_at nodes.now supplied.now.inputs.now supplied.now.free.now) l.op i (take i spare.old)))) }
{
    match source {
        Source::NoWord => {}
        Source::FromInput(n) => spare.set(i, word_at(supplied.inputs, n)),
        Source::FromFree(n) => spare.set(i, word_at(supplied.free, n)),
        Source::FromLast(n) => spare.set(i, word_at(last, n)),
        Source::FromLastNot(n) => spare.set(i, not_word_at(last, n)),
        Source::NotOf(a) => spare.set(i, not_word_at(spare, a)),
        Source::AndOf(a, b) => put_and(a, b, i, spare),
        Source::OrOf(a, b) => put_or(a, b, i, spare),
        Source::EqOf(a, b) => put_eq(a, b, i, spare),
        Source::IteOf(c, a, b) => put_ite(c, a, b, i, spare),
        Source::ByLine => put_computed(nodes, i, spare),
    }
}

// Fills the row of the frame after `last`.
fn fill_next(
    nodes: &Nodes,
    tables: &Tables,
    last: &Words,
    supplied: &Supplied<'_>,
    spare: &mut Words,
)
    requires long { length spare.old ≡ length nodes.now }
    requires last_long { length last.now ≡ length nodes.now }
    requires last_frame { IsFrame nodes.now last.now }
    requires found { IsFoundIn nodes.now tables.now }
    requires handed { SuppliedFit nodes.now supplied.now.inputs.now supplied.now.free.now }
    requires blank { IsBlank tables.now.sources spare.old }
    ensures { spare.new ≡ row_upto nodes.now (given_of (state_value (value_kind true) nodes.now)
        (value_word true nodes.now last.now) (supplied_at nodes.now supplied.now.inputs.now supplied.now.free.now)) (length nodes.now) }
{
    for i in 0..nodes.len() {
        put_source(nodes, tables.source(i), i, last, supplied, spare);
    }
}

/// Fills a row of words: the frame after `last` where `begun` is true, else frame 0.
///
/// A line without a word keeps what is at its place, which therefore has to be zero before the call.
pub fn fill(
    nodes: &Nodes,
    tables: &Tables,
    begun: bool,
    last: &Words,
    supplied: &Supplied<'_>,
    spare: &mut Words,
)
    requires long { length spare.old ≡ length nodes.now }
    requires last_long { length last.now ≡ length nodes.now }
    requires last_frame { IsTrue begun → IsFrame nodes.now last.now }
    requires found { IsFoundIn nodes.now tables.now }
    requires handed { SuppliedFit nodes.now supplied.now.inputs.now supplied.now.free.now }
    requires blank { IsBlank tables.now.sources spare.old }
    ensures row { spare.new ≡ row_upto nodes.now (given_of (state_value (value_kind begun) nodes.now)
        (value_word begun nodes.now last.now) (supplied_at nodes.now supplied.now.inputs.now supplied.now.free.now)) (length nodes.now) }
    ensures blank { IsBlank tables.now.sources spare.new }
{
    nodes.are_well_formed();
    if begun {
        fill_next(nodes, tables, last, supplied, spare);
    } else {
        fill_first(nodes, tables, supplied, spare);
    }
}
