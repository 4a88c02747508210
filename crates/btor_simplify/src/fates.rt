// The fate of each line: it stays, it is a constant, or it is replaced by an argument.
ghost use Rattle.std.specs.Prelude.{◌≡◌, ◌≤◌, ◌<◌, true, ◌++◌, ◌∷◌, [], length, Some, map, IfOk};
ghost use Rattle.std.specs.BTreeMap.{get};
ghost use Rattle.btor_tree.specs.Fits.{IsWellFormed, sort_at, width_at};
ghost use Rattle.btor_tree.specs.LineKeys.{EntersKey, IsShort};
ghost use Rattle.btor_rules.specs.Rules.{IsSpelled};
ghost use Rattle.btor_simplify.specs.Contents.{IsSharedBy, content_cmp};
ghost use Rattle.btor_tree.specs.Sharing.{is_shared};
ghost use Rattle.btor_simplify.specs.Fates as spec;

use crate::contents::{Content, content_of, enter};
use btor_rules::{Operand, Operands, Outcome, other_sign, outcome};
use btor_tree::{
    Arg, Args, Line, LineOp, Nodes, no_args, one_arg, plain_arg, sort_width, three_args, two_args,
};
use std::alloc::Global;
use std::collections::BTreeMap;
use text_core::NoMemory;
use word_core::{Unary, Word, unary};

// Returns the argument, or the bitwise not of it.
fn with_sign(negated: bool, a: &Arg) -> Arg
    ensures { result ≡ spec.with_sign negated a.now }
{
    if negated { other_sign(a) } else { *a }
}

/// Returns the replacement of an argument.
pub fn replaced(fates: &[Outcome], a: &Arg) -> Arg
    requires { a.now.line < length fates.now }
    ensures { result ≡ spec.replaced fates.now a.now }
{
    match &fates[a.line as usize] {
        Outcome::Argument(b) => with_sign(a.negated, b),
        _ => *a,
    }
}

/// Returns the index of the sort line that replaces a sort line.
pub fn sort_for(fates: &[Outcome], sort: u32) -> u32
    requires { sort < length fates.now }
    ensures { result ≡ spec.sort_for fates.now sort }
{
    match &fates[sort as usize] {
        Outcome::Argument(b) => b.line,
        _ => sort,
    }
}

/// Returns the replacement of each argument.
pub fn replaced_args(fates: &[Outcome], args: &Args) -> Args
    requires short { IsShort args.now }
    requires there { spec.AreThere fates.now args.now }
    ensures { result ≡ map (spec.replaced fates.now) args.now }
{
    match args.len() {
        0 => no_args(),
        1 => one_arg(replaced(fates, args.at(0))),
        2 => two_args(replaced(fates, args.at(0)), replaced(fates, args.at(1))),
        _ => three_args(
            replaced(fates, args.at(0)),
            replaced(fates, args.at(1)),
            replaced(fates, args.at(2)),
        ),
    }
}

// Returns the word of a width and bits that fit.
fn word_of(width: u32, bits: u128) -> Word
    requires { IsSpelled width bits }
    ensures { result ≡ record { width = width; bits = bits } }
{
    Word::of(width, bits).unwrap()
}

// Returns the word of a constant line of this width.
fn constant_word(op: &LineOp, width: u32) -> Option<Word>
    requires { spec.IsOfWidth op.now width }
    ensures { result ≡ spec.constant_of width op.now }
{
    match op {
        LineOp::Constant(word) => Some(*word),
        LineOp::One => Some(word_of(width, 1)),
        LineOp::Zero => Some(word_of(width, 0)),
        LineOp::Ones => Some(unary(Unary::Not, word_of(width, 0))),
        _ => None,
    }
}

// Returns the word of the line at an index where it is a constant.
fn constant_at(nodes: &Nodes, fates: &[Outcome], place: u32) -> Option<Word>
    requires there { place < length fates.now }
    requires short { length fates.now ≤ length nodes.now }
    requires well_formed { IsWellFormed nodes.now }
    requires worded { 1 ≤ width_at nodes.now place }
    ensures { result ≡ spec.constant_at nodes.now fates.now place }
{
    match &fates[place as usize] {
        Outcome::Constant(word) => Some(*word),
        _ => constant_word(&nodes.at(place as usize).op, nodes.width_of(place)),
    }
}

// Returns the replacement of an argument, as an operand.
fn operand_of(nodes: &Nodes, fates: &[Outcome], a: &Arg) -> Operand
    requires short { length fates.now ≤ length nodes.now }
    requires well_formed { IsWellFormed nodes.now }
    requires there { spec.IsReady nodes.now fates.now a.now }
    ensures { result ≡ spec.operand_of nodes.now fates.now a.now }
{
    let arg = replaced(fates, a);
    let constant = match constant_at(nodes, fates, arg.line) {
        Some(word) => if arg.negated {
            Some(unary(Unary::Not, word))
        } else {
            Some(word)
        },
        None => None,
    };
    Operand {
        arg,
        width: nodes.width_of(arg.line),
        constant,
    }
}

// Returns the operands of a line.
fn operands_of(nodes: &Nodes, fates: &[Outcome], args: &Args) -> Operands
    requires few { length fates.now ≤ length nodes.now }
    requires well_formed { IsWellFormed nodes.now }
    requires short { IsShort args.now }
    requires there { spec.AreReady nodes.now fates.now args.now }
    ensures { result ≡ spec.operands_of nodes.now fates.now args.now }
{
    match args.len() {
        0 => Operands::Empty,
        1 => Operands::Single(operand_of(nodes, fates, args.at(0))),
        2 => Operands::Pair(
            operand_of(nodes, fates, args.at(0)),
            operand_of(nodes, fates, args.at(1)),
        ),
        _ => Operands::Triple(
            operand_of(nodes, fates, args.at(0)),
            operand_of(nodes, fates, args.at(1)),
            operand_of(nodes, fates, args.at(2)),
        ),
    }
}

/// Returns whether lines of this kind are shared: one line is enough for all with the same content.
pub fn is_shared(op: &LineOp) -> bool
    ensures { result ≡ is_shared op.now }
{
    match op {
        LineOp::Input
        | LineOp::State
        | LineOp::Init
        | LineOp::Next
        | LineOp::Bad
        | LineOp::Constraint
        | LineOp::Output => false,
        _ => true,
    }
}

// Returns the content of a line that stays. All constants with one word have the same content.
fn content_as_it_is(nodes: &Nodes, fates: &[Outcome], line: &Line) -> Content
    requires { spec.CanSay nodes.now fates.now line.now }
    ensures { result ≡ spec.content_as_it_is nodes.now fates.now line.now.op line.now.sort line.now.args }
{
    if let LineOp::Sort(_) = &line.op {
        return content_of(&line.op, 0, &no_args());
    }
    let sort = sort_for(fates, line.sort);
    match constant_word(&line.op, sort_width_at(nodes, line.sort)) {
        Some(word) => content_of_word(word, sort),
        None => content_of(&line.op, sort, &replaced_args(fates, &line.args)),
    }
}

// Returns the width of the sort line at an index.
fn sort_width_at(nodes: &Nodes, sort: u32) -> u32
    requires { sort < length nodes.now }
    ensures { result ≡ sort_at nodes.now sort }
{
    sort_width(&nodes.at(sort as usize).op)
}

// Returns the content of the constant line of a word.
fn content_of_word(word: Word, sort: u32) -> Content
    ensures { result ≡ spec.content_of_word word sort }
{
    content_of(&LineOp::Constant(word), sort, &no_args())
}

// Returns the earlier line with this content. Where there is none, enters this line and returns its own fate.
fn shared_or(
    contents: &mut BTreeMap<Content, u32>,
    content: Content,
    place: u32,
    own: Outcome,
) -> Result<Outcome, NoMemory>
    ensures fate { IfOk result (λ f. IsSharedBy (get content_cmp contents.old content) own f) }
    ensures entered { IfOk result (λ f. EntersKey content_cmp (get content_cmp contents.old content) content place contents.old contents.new) }
{
    match enter(contents, content, place)? {
        Some(there) => Ok(Outcome::Argument(plain_arg(there))),
        None => Ok(own),
    }
}

// Returns the fate of a line of a kind that is shared.
#[tactic(auto, using(crate::proofs::Steps::ready, crate::proofs::Steps::operands_fit, crate::proofs::Steps::can_say, crate::proofs::Steps::few, crate::proofs::Steps::short))]
fn shared_fate(
    nodes: &Nodes,
    fates: &[Outcome],
    contents: &mut BTreeMap<Content, u32>,
    line: &Line,
) -> Result<Outcome, NoMemory>
    requires next { spec.IsNextLine nodes.now fates.now line.now }
    requires shared { is_shared line.now.op ≡ true }
    requires has { spec.HasContents nodes.now fates.now contents.old }
    ensures fate { IfOk result (spec.IsFate nodes.now fates.now line.now) }
    ensures width { IfOk result (spec.KeepsWidth nodes.now fates.now (length fates.now)) }
    ensures has { IfOk result (λ f. spec.HasContents nodes.now (fates.now ++ f ∷ []) contents.new) }
{
    let place = fates.len() as u32;
    let operands = operands_of(nodes, fates, &line.args);
    match outcome(&line.op, &operands) {
        Outcome::Stays => {
            let content = content_as_it_is(nodes, fates, line);
            shared_or(contents, content, place, Outcome::Stays)
        }
        Outcome::Constant(word) => {
            let content = content_of_word(word, sort_for(fates, line.sort));
            shared_or(contents, content, place, Outcome::Constant(word))
        }
        Outcome::Argument(a) => Ok(Outcome::Argument(a)),
    }
}

// Returns the fate of a line, given the fates of the lines before it.
fn fate_of(
    nodes: &Nodes,
    fates: &[Outcome],
    contents: &mut BTreeMap<Content, u32>,
    line: &Line,
) -> Result<Outcome, NoMemory>
    requires next { spec.IsNextLine nodes.now fates.now line.now }
    requires has { spec.HasContents nodes.now fates.now contents.old }
    ensures fate { IfOk result (spec.IsFate nodes.now fates.now line.now) }
    ensures width { IfOk result (spec.KeepsWidth nodes.now fates.now (length fates.now)) }
    ensures has { IfOk result (λ f. spec.HasContents nodes.now (fates.now ++ f ∷ []) contents.new) }
{
    if is_shared(&line.op) {
        shared_fate(nodes, fates, contents, line)
    } else {
        Ok(Outcome::Stays)
    }
}

/// Returns the fate of each line.
pub fn fates_of(alloc: Global, nodes: &Nodes) -> Result<Vec<Outcome>, NoMemory>
    ensures fates { IfOk result (λ fates. spec.AreFates nodes.now fates.items) }
    ensures sized { IfOk result (λ fates. length fates.items ≡ length nodes.now) }
{
    let mut fates = Vec::new(alloc);
    let mut contents = BTreeMap::new(alloc);
    nodes.are_well_formed();
    for line in nodes.as_slice() {
        let fate = fate_of(nodes, &fates, &mut contents, line)?;
        fates.push(fate)?;
    }
    Ok(fates)
}
