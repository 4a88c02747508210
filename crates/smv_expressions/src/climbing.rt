// The parser of expressions: it reads an operand, then level by level what continues it.
// Its functions are separate so that each has a small frame: 100 nested brackets with all levels in each fit a usual
// stack.

ghost use Rattle.std.specs.Prelude.{◌≡◌, ◌<◌, ◌≤◌, ◌-◌, ◌^◌, ◌∷◌, [], true, length, IfOk};
ghost use Rattle.smv_text.specs.Levels.{all_levels};
ghost use Rattle.smv_text.specs.Grammar.{start};
ghost use Rattle.smv_text.specs.Tree.{Tree, cases, branches_of};
ghost use Rattle.smv_grammar.specs.Kept.{cap};
ghost use Rattle.smv_grammar.specs.Ranks.{level_at, tightest};
ghost use Rattle.smv_expressions.specs.Gathered.{read_of, AreMembers, AreCases, AreOperands, IsChoice};
ghost use Rattle.smv_grammar.specs.Machine.{bare, operand, when, selected, condition, listing, ask, have, signed, open_next, opened, prefix_sign, closing_of, leader_of, listed};
ghost use Rattle.std.specs.Bool.{OnTrue};
ghost use Rattle.smv_grammar.specs.Reading.{starts_range, waiting};
ghost use Rattle.smv_expressions.specs.Following.{chain_from, chain_of, choice_from, choice_of, IsOperand, Begins, first_level, is_alone, Collects, Follows, Selects, Takes};

use crate::kept::{
    Cases, MeasuredExpr, Members, Operands, discard, leaf, name_leaf, next_value,
    prefixed as with_prefix, put_leaf, selected, taken,
};
use crate::leaves::{expect, integer, number, path, starts_range};
use crate::stop::Stop;
use smv_grammar::{
    Leader, Listing, after_word, first_rank, is_first, leader_of, level_at, operator_after,
    tokens_after,
};
use smv_text::{Level, OperatorClass, Prefix, Reserved, Shape, Sign, Token, TokenKind};
use std::alloc::Global;
use text_core::{FIRST_PLACE, Place};

/// Parses the longest expression at the front of the tokens into `kept`, and returns the tokens after it.
///
/// `Err` is out of memory or the token at which no expression can continue.
pub fn expression<'a>(
    alloc: Global,
    tokens: &'a [Token],
    kept: &mut MeasuredExpr,
) -> Result<&'a [Token], Stop>
    requires { length tokens.now < 2 ^ 32 }
    // The result is that of the machine of the grammar, with the remaining tokens.
    ensures takes { Takes (λ r. (read_of kept.new, r.now)) tokens.now result }
    ensures shorter { IfOk result (λ r. length r.now < length tokens.now) }
{
    read(alloc, 16, tokens, kept)
}

/// Returns the place of the first token, or of the first byte of a text where there is none.
pub fn start(tokens: &[Token]) -> Place
    ensures { result ≡ start tokens.now }
{
    match tokens.first() {
        Some(token) => token.place,
        None => FIRST_PLACE,
    }
}

// An expression at the `levels` tightest levels.
#[cycle(read)]
fn read<'a>(
    alloc: Global,
    levels: usize,
    tokens: &'a [Token],
    kept: &mut MeasuredExpr,
) -> Result<&'a [Token], Stop>
    requires few { levels ≤ 16 }
    requires short { length tokens.now < 2 ^ 32 }
    ensures reads { Follows (λ r. (read_of kept.new, r.now)) (ask (tightest levels)) tokens.now result }
    ensures shorter { IfOk result (λ r. length r.now < length tokens.now) }
{
    // Most operands are a single token.
    if let Some((token, rest)) = tokens.split_first() {
        if let TokenKind::Ident(name) = &token.kind {
            if !is_first(rest, Sign::Dot) {
                name_leaf(alloc, token.place, name, kept)?;
                return climb(alloc, levels, token.place, 0, rest, kept);
            }
        }
        if put_constant(token, rest, kept) {
            return climb(alloc, levels, token.place, 0, rest, kept);
        }
    }
    let level = first_level(levels, tokens);
    let rest = begin(alloc, level, tokens, kept)?;
    climb(alloc, levels, start(tokens), level, rest, kept)
}

// Stores the operand if the token alone is one, a number or a truth value, and returns whether it is.
#[inline(never)]
fn put_constant(token: &Token, rest: &[Token], kept: &mut MeasuredExpr) -> bool
    ensures { OnTrue result (IsOperand token.now rest.now (read_of kept.new)) }
{
    match &token.kind {
        TokenKind::Number(n) => {
            if is_first(rest, Sign::Range) {
                false
            } else {
                put_leaf(kept, token.place, Shape::Number(*n));
                true
            }
        }
        TokenKind::Reserved(word) => match word {
            Reserved::True => {
                put_leaf(kept, token.place, Shape::True);
                true
            }
            Reserved::False => {
                put_leaf(kept, token.place, Shape::False);
                true
            }
            _ => false,
        },
        _ => false,
    }
}

// The number of levels at which the first operand is read: 8 for a range, 4 or 2 for a prefix operator, or else 0.
fn first_level(levels: usize, tokens: &[Token]) -> usize
    ensures { result ≡ first_level levels tokens.now }
{
    if 8 <= levels && starts_range(tokens) {
        8
    } else if 4 <= levels && is_first(tokens, Sign::Minus) {
        4
    } else if 2 <= levels && is_first(tokens, Sign::Not) {
        2
    } else {
        0
    }
}

// The first operand, read at the `level` tightest levels.
#[cycle(read)]
#[inline(never)]
fn begin<'a>(
    alloc: Global,
    level: usize,
    tokens: &'a [Token],
    kept: &mut MeasuredExpr,
) -> Result<&'a [Token], Stop>
    requires begins { Begins level tokens.now }
    requires short { length tokens.now < 2 ^ 32 }
    ensures reads { Follows (λ r. (read_of kept.new, r.now)) (ask (tightest level)) tokens.now result }
    ensures shorter { IfOk result (λ r. length r.now < length tokens.now) }
{
    match tokens.split_first() {
        None => Err(Stop::Dead(0)),
        Some((token, rest)) => {
            if level == 8 {
                range(token.place, tokens, kept)
            } else if level == 4 {
                prefixed(alloc, Prefix::Minus, 3, token.place, rest, kept)
            } else if level == 2 {
                prefixed(alloc, Prefix::Not, 1, token.place, rest, kept)
            } else {
                primary(alloc, tokens, kept)
            }
        }
    }
}

#[inline(never)]
fn range<'a>(
    place: Place,
    tokens: &'a [Token],
    kept: &mut MeasuredExpr,
) -> Result<&'a [Token], Stop>
    requires starts { starts_range tokens.now ≡ true }
    requires first { place ≡ start tokens.now }
    ensures reads { Follows (λ r. (read_of kept.new, r.now)) (ask (tightest 8)) tokens.now result }
    ensures shorter { IfOk result (λ r. length r.now < length tokens.now) }
{
    let (low, dots) = integer(tokens)?;
    let behind = expect(dots, Sign::Range)?;
    let (high, rest) = integer(behind)?;
    put_leaf(kept, place, Shape::Range(low, high));
    Ok(rest)
}

// Continues an operand that was read at `level` levels. Each step takes the level that the next token continues, while
// it is one of those between.
#[cycle(read)]
#[inline(always)]
fn climb<'a>(
    alloc: Global,
    levels: usize,
    place: Place,
    level: usize,
    tokens: &'a [Token],
    kept: &mut MeasuredExpr,
) -> Result<&'a [Token], Stop>
    requires few { levels ≤ 16 }
    requires short { length tokens.now < 2 ^ 32 }
    ensures reads { (t : Tree) → read_of kept.old ≡ cap t → Follows (λ r. (read_of kept.new, r.now)) (λ k. have t (waiting level levels place k)) tokens.now result }
    ensures shorter { IfOk result (λ r. length r.now ≤ length tokens.now) }
{
    let rank = first_rank(tokens);
    if rank <= level || levels < rank {
        return Ok(tokens);
    }
    ascend(alloc, levels, place, level, tokens, kept)
}

// The same, where the next token may continue one of the levels.
#[cycle(read)]
#[inline(never)]
fn ascend<'a>(
    alloc: Global,
    levels: usize,
    place: Place,
    level: usize,
    tokens: &'a [Token],
    kept: &mut MeasuredExpr,
) -> Result<&'a [Token], Stop>
    requires few { levels ≤ 16 }
    requires short { length tokens.now < 2 ^ 32 }
    ensures reads { (t : Tree) → read_of kept.old ≡ cap t → Follows (λ r. (read_of kept.new, r.now)) (λ k. have t (waiting level levels place k)) tokens.now result }
    ensures shorter { IfOk result (λ r. length r.now ≤ length tokens.now) }
{
    let mut below = level;
    let mut rest = tokens;
    loop {
        let rank = first_rank(rest);
        if rank <= below || levels < rank {
            return Ok(rest);
        }
        let last = grown(alloc, rank - 1, place, rest, kept)?;
        below = rank;
        rest = last;
    }
}

// Continues the first operand at the level above `below` others.
#[cycle(read)]
#[inline(always)]
fn grown<'a>(
    alloc: Global,
    below: usize,
    place: Place,
    tokens: &'a [Token],
    kept: &mut MeasuredExpr,
) -> Result<&'a [Token], Stop>
    requires few { below < 16 }
    requires short { length tokens.now < 2 ^ 32 }
    ensures reads { (t : Tree) → read_of kept.old ≡ cap t → Follows (λ r. (read_of kept.new, r.now)) (λ k. have t (opened (level_at below) (tightest below) place k)) tokens.now result }
    ensures shorter { IfOk result (λ r. length r.now ≤ length tokens.now) }
{
    match level_at(below) {
        Level::Chain(class) => chain(alloc, class, below, place, tokens, kept),
        Level::Choice => choice(alloc, below, place, tokens, kept),
        Level::Range => Ok(tokens),
        Level::Before(_) => Ok(tokens),
        Level::Selection => selections(alloc, place, tokens, kept),
    }
}

#[cycle(read)]
#[inline(always)]
fn chain<'a>(
    alloc: Global,
    class: OperatorClass,
    below: usize,
    place: Place,
    tokens: &'a [Token],
    kept: &mut MeasuredExpr,
) -> Result<&'a [Token], Stop>
    requires few { below < 16 }
    requires short { length tokens.now < 2 ^ 32 }
    ensures reads { (t : Tree) → read_of kept.old ≡ cap t → Follows (λ r. (read_of kept.new, r.now)) (λ k. have t (operand class (tightest below) place bare ∷ k)) tokens.now result }
    ensures shorter { IfOk result (λ r. length r.now ≤ length tokens.now) }
{
    let mut operands = Operands::new(alloc, kept.height);
    let mut operand = leaf(place, Shape::True);
    let answer = gather_operands(alloc, class, below, tokens, &mut operand, &mut operands);
    discard(operand);
    let rest = answer?;
    operands.chain(alloc, place, kept)?;
    Ok(rest)
}

// Gathers the operands of a chain after the first, each read into the same place.
#[cycle(read)]
#[inline(always)]
fn gather_operands<'a>(
    alloc: Global,
    class: OperatorClass,
    below: usize,
    tokens: &'a [Token],
    part: &mut MeasuredExpr,
    operands: &mut Operands,
) -> Result<&'a [Token], Stop>
    requires few { below < 16 }
    requires short { length tokens.now < 2 ^ 32 }
    ensures reads { (p : Place) (t : Tree) → AreOperands t [] operands.old → Collects (λ ls. AreOperands t ls operands.new) (chain_of p t) (λ r. r.now) (chain_from class below p t) tokens.now result }
    ensures shorter { IfOk result (λ r. length r.now ≤ length tokens.now) }
{
    let mut rest = tokens;
    while let Some((op, more)) = operator_after(rest, class) {
        let last = read(alloc, below, more, part)?;
        operands.push(op, taken(part))?;
        rest = last;
    }
    Ok(rest)
}

#[cycle(read)]
#[inline(never)]
fn choice<'a>(
    alloc: Global,
    below: usize,
    place: Place,
    tokens: &'a [Token],
    kept: &mut MeasuredExpr,
) -> Result<&'a [Token], Stop>
    requires few { below < 16 }
    requires short { length tokens.now < 2 ^ 32 }
    ensures reads { (t : Tree) → read_of kept.old ≡ cap t → Follows (λ r. (read_of kept.new, r.now)) (λ k. have t (when (tightest below) place [] ∷ k)) tokens.now result }
    ensures shorter { IfOk result (λ r. length r.now ≤ length tokens.now) }
{
    let mut branches = Cases::new(alloc);
    let mut value = leaf(place, Shape::True);
    let answer = gather_choices(alloc, below, tokens, &mut value, kept, &mut branches);
    discard(value);
    let rest = answer?;
    branches.choice(alloc, place, kept)?;
    Ok(rest)
}

// Gathers the branches of a choice. The condition that was read before comes first; the last expression stored is the
// value after the last colon.
#[cycle(read)]
#[inline(always)]
fn gather_choices<'a>(
    alloc: Global,
    below: usize,
    tokens: &'a [Token],
    value: &mut MeasuredExpr,
    kept: &mut MeasuredExpr,
    branches: &mut Cases,
) -> Result<&'a [Token], Stop>
    requires few { below < 16 }
    requires short { length tokens.now < 2 ^ 32 }
    ensures reads { (p : Place) (t : Tree) → AreCases [] branches.old → read_of kept.old ≡ cap t → Collects (IsChoice branches.new (read_of kept.new)) (choice_of p) (λ r. r.now) (choice_from below p t) tokens.now result }
    ensures shorter { IfOk result (λ r. length r.now ≤ length tokens.now) }
{
    let mut rest = tokens;
    while let Some(more) = tokens_after(rest, Sign::Question) {
        let next = read(alloc, below, more, value)?;
        let behind = expect(next, Sign::Colon)?;
        branches.push(taken(kept), taken(value))?;
        let end = read(alloc, below, behind, kept)?;
        rest = end;
    }
    Ok(rest)
}

#[inline(never)]
fn selections<'a>(
    alloc: Global,
    place: Place,
    tokens: &'a [Token],
    kept: &mut MeasuredExpr,
) -> Result<&'a [Token], Stop>
    ensures reads { (t : Tree) → read_of kept.old ≡ cap t → Follows (λ r. (read_of kept.new, r.now)) (λ k. have t (selected place ∷ k)) tokens.now result }
    ensures shorter { IfOk result (λ r. length r.now ≤ length tokens.now) }
{
    let mut rest = tokens;
    while let Some(more) = tokens_after(rest, Sign::OpenBracket) {
        let (high, low, last) = ends(more)?;
        selected(alloc, place, kept, high, low)?;
        rest = last;
    }
    Ok(rest)
}

// The bounds of a selection, after its opening bracket.
fn ends(tokens: &[Token]) -> Result<(u64, u64, &[Token]), Stop>
    ensures reads { Selects (λ x. (x.0, x.1, x.2.now)) tokens.now result }
    ensures shorter { IfOk result (λ x. length x.2.now < length tokens.now) }
{
    let (high, colon) = number(tokens)?;
    let behind = expect(colon, Sign::Colon)?;
    let (low, closing) = number(behind)?;
    let rest = expect(closing, Sign::CloseBracket)?;
    Ok((high, low, rest))
}

// An operand after one prefix operator, and after further repetitions of it.
#[cycle(read)]
#[inline(never)]
fn prefixed<'a>(
    alloc: Global,
    prefix: Prefix,
    below: usize,
    place: Place,
    tokens: &'a [Token],
    kept: &mut MeasuredExpr,
) -> Result<&'a [Token], Stop>
    requires few { below < 16 }
    requires short { length tokens.now < 2 ^ 32 - 1 }
    ensures reads { Follows (λ r. (read_of kept.new, r.now)) (signed prefix (tightest below) place 1) tokens.now result }
    ensures shorter { IfOk result (λ r. length r.now < length tokens.now) }
{
    let mut count: u32 = 1;
    let mut rest = tokens;
    while let Some(more) = tokens_after(rest, sign_of(prefix)) {
        count += 1;
        rest = more;
    }
    let last = read(alloc, below, rest, kept)?;
    with_prefix(alloc, place, prefix, count, kept)?;
    Ok(last)
}

fn sign_of(prefix: Prefix) -> Sign
    ensures { result ≡ prefix_sign prefix }
{
    match prefix {
        Prefix::Not => Sign::Not,
        Prefix::Minus => Sign::Minus,
    }
}

// An expression below all levels.
#[cycle(read)]
#[inline(never)]
fn primary<'a>(
    alloc: Global,
    tokens: &'a [Token],
    kept: &mut MeasuredExpr,
) -> Result<&'a [Token], Stop>
    requires short { length tokens.now < 2 ^ 32 }
    ensures reads { Follows (λ r. (read_of kept.new, r.now)) (ask []) tokens.now result }
    ensures shorter { IfOk result (λ r. length r.now < length tokens.now) }
{
    match tokens.split_first() {
        None => Err(Stop::Dead(0)),
        Some((token, rest)) => {
            let place = token.place;
            match leader_of(&token.kind) {
                Leader::Bracket => {
                    let closing = read(alloc, 16, rest, kept)?;
                    expect(closing, Sign::Close)
                }
                Leader::Set => listed(alloc, place, Listing::Elements, rest, kept),
                Leader::Next => following(alloc, place, rest, kept),
                Leader::Case => cases(alloc, place, rest, kept),
                Leader::Call(function) => {
                    let more = expect(rest, Sign::Open)?;
                    listed(alloc, place, Listing::Arguments(function), more, kept)
                }
                leader => alone(alloc, leader, token, tokens, rest, kept),
            }
        }
    }
}

// An expression without subexpressions: a number, a word literal, a truth value or a name.
#[inline(never)]
fn alone<'a>(
    alloc: Global,
    leader: Leader,
    token: &Token,
    tokens: &'a [Token],
    rest: &'a [Token],
    kept: &mut MeasuredExpr,
) -> Result<&'a [Token], Stop>
    requires first { tokens.now ≡ token.now ∷ rest.now }
    requires leads { leader ≡ leader_of token.now.kind }
    ensures reads { is_alone leader ≡ true → Follows (λ r. (read_of kept.new, r.now)) (ask []) tokens.now result }
    ensures shorter { IfOk result (λ r. length r.now < length tokens.now) }
{
    let place = token.place;
    match leader {
        Leader::Number(n) => {
            put_leaf(kept, place, Shape::Number(n));
            Ok(rest)
        }
        Leader::Literal(word) => {
            put_leaf(kept, place, Shape::Literal(word));
            Ok(rest)
        }
        Leader::Truth(true) => {
            put_leaf(kept, place, Shape::True);
            Ok(rest)
        }
        Leader::Truth(false) => {
            put_leaf(kept, place, Shape::False);
            Ok(rest)
        }
        Leader::Path => {
            let (path, last) = path(alloc, tokens)?;
            put_leaf(kept, place, Shape::Name(path));
            Ok(last)
        }
        Leader::Nothing => Err(Stop::Dead(tokens.len())),
        Leader::Bracket => Err(Stop::Dead(tokens.len())),
        Leader::Set => Err(Stop::Dead(tokens.len())),
        Leader::Next => Err(Stop::Dead(tokens.len())),
        Leader::Case => Err(Stop::Dead(tokens.len())),
        Leader::Call(_) => Err(Stop::Dead(tokens.len())),
    }
}

// The argument of `next`, from its opening bracket on.
#[cycle(read)]
#[inline(never)]
fn following<'a>(
    alloc: Global,
    place: Place,
    tokens: &'a [Token],
    kept: &mut MeasuredExpr,
) -> Result<&'a [Token], Stop>
    requires short { length tokens.now < 2 ^ 32 }
    ensures reads { Follows (λ r. (read_of kept.new, r.now)) (open_next place) tokens.now result }
    ensures shorter { IfOk result (λ r. length r.now < length tokens.now) }
{
    let rest = expect(tokens, Sign::Open)?;
    let closing = read(alloc, 16, rest, kept)?;
    let last = expect(closing, Sign::Close)?;
    next_value(alloc, place, kept)?;
    Ok(last)
}

// A list, after its opening bracket.
#[cycle(read)]
#[inline(never)]
fn listed<'a>(
    alloc: Global,
    place: Place,
    what: Listing,
    tokens: &'a [Token],
    kept: &mut MeasuredExpr,
) -> Result<&'a [Token], Stop>
    requires short { length tokens.now < 2 ^ 32 }
    ensures reads { Follows (λ r. (read_of kept.new, r.now)) (λ k. ask all_levels (listing place what [] ∷ k)) tokens.now result }
    ensures shorter { IfOk result (λ r. length r.now < length tokens.now) }
{
    let mut members = Members::new(alloc);
    let rest = gather_members(alloc, what, tokens, kept, &mut members)?;
    members.put(place, what, kept);
    Ok(rest)
}

// Gathers the members of a list, and reads its closing bracket.
#[cycle(read)]
#[inline(always)]
fn gather_members<'a>(
    alloc: Global,
    what: Listing,
    tokens: &'a [Token],
    kept: &mut MeasuredExpr,
    members: &mut Members,
) -> Result<&'a [Token], Stop>
    requires short { length tokens.now < 2 ^ 32 }
    ensures reads { (p : Place) → AreMembers [] members.old → Collects (λ ts. AreMembers ts members.new) (listed p what) (λ r. r.now) (λ k. ask all_levels (listing p what [] ∷ k)) tokens.now result }
    ensures shorter { IfOk result (λ r. length r.now < length tokens.now) }
{
    let mut rest = tokens;
    loop {
        let more = read(alloc, 16, rest, kept)?;
        members.push(taken(kept))?;
        match tokens_after(more, Sign::Comma) {
            Some(next) => rest = next,
            None => return expect(more, closing_of(what)),
        }
    }
}

fn closing_of(what: Listing) -> Sign
    ensures { result ≡ closing_of what }
{
    match what {
        Listing::Arguments(_) => Sign::Close,
        Listing::Elements => Sign::CloseBrace,
    }
}

// The conditions of a case with their values, after the word `case`.
#[cycle(read)]
#[inline(never)]
fn cases<'a>(
    alloc: Global,
    place: Place,
    tokens: &'a [Token],
    kept: &mut MeasuredExpr,
) -> Result<&'a [Token], Stop>
    requires short { length tokens.now < 2 ^ 32 }
    ensures reads { Follows (λ r. (read_of kept.new, r.now)) (λ k. ask all_levels (condition place [] ∷ k)) tokens.now result }
    ensures shorter { IfOk result (λ r. length r.now < length tokens.now) }
{
    let mut branches = Cases::new(alloc);
    let mut when = leaf(place, Shape::True);
    let answer = gather_cases(alloc, tokens, &mut when, kept, &mut branches);
    discard(when);
    let rest = answer?;
    branches.case(place, kept);
    Ok(rest)
}

// Gathers the conditions of a case with their values, and reads the word `esac`.
#[cycle(read)]
#[inline(always)]
fn gather_cases<'a>(
    alloc: Global,
    tokens: &'a [Token],
    when: &mut MeasuredExpr,
    value: &mut MeasuredExpr,
    branches: &mut Cases,
) -> Result<&'a [Token], Stop>
    requires short { length tokens.now < 2 ^ 32 }
    ensures reads { (p : Place) → AreCases [] branches.old → Collects (λ bs. AreCases bs branches.new) (λ bs. cases p (branches_of bs)) (λ r. r.now) (λ k. ask all_levels (condition p [] ∷ k)) tokens.now result }
    ensures shorter { IfOk result (λ r. length r.now < length tokens.now) }
{
    let mut rest = tokens;
    loop {
        let more = read(alloc, 16, rest, when)?;
        let behind = expect(more, Sign::Colon)?;
        let end = read(alloc, 16, behind, value)?;
        let last = expect(end, Sign::Semicolon)?;
        branches.push(taken(when), taken(value))?;
        match after_word(last, Reserved::Esac) {
            Some(done) => return Ok(done),
            None => rest = last,
        }
    }
}
