// Names, parameters and types of a module.

ghost use Rattle.std.specs.Prelude.{◌≡◌, ◌<◌, ◌≤◌, ◌^◌, Option, suc, length, map, IfOk};
ghost use Rattle.text_core.specs.declared.place.Place.{Place};
ghost use Rattle.smv_text.specs.declared.token.Sign.TheVariants as sign;
ghost use Rattle.smv_text.specs.declared.token.TokenKind.TheVariants as kind;
ghost use Rattle.smv_text.specs.declared.tree.VarKind.{VarKind};
ghost use Rattle.smv_text.specs.Grammar.{start};
ghost use Rattle.smv_text.specs.Heights.{place_of};
ghost use Rattle.smv_text.specs.View.{plain, plain_domain};
ghost use Rattle.smv_parse.specs.Answers.{Gives, first_is, is_name};
ghost use Rattle.smv_grammar.specs.Readers.{expression, high_or, picked, died};
ghost use Rattle.smv_grammar.specs.Rules.{name, parameter, symbol, listed, bracketed, member, width, interval, domain, domain_pick, instance_pick};

use smv_expressions::{MOST, Stop, expect, expression, integer, leaf, name, number, start};
use smv_grammar::{after_word, tokens_after};
use smv_text::{
    Domain, Expr, Exprs, Member, Members, Parameter, Parameters, Reserved, Shape, Sign, Token,
    TokenKind, VarKind,
};
use std::alloc::Global;
use text_core::{Name, Names, Place};

/// Parses an identifier, and returns it, its place and the tokens after it.
#[inline(always)]
pub(crate) fn placed_name<'a>(
    alloc: Global,
    tokens: &'a [Token],
) -> Result<(Name, Place, &'a [Token]), Stop>
    ensures reads { (h : Option Place) → Gives (λ y. ((y.0, y.1), h, y.2.now)) (name h tokens.now) result }
    ensures shorter { IfOk result (λ y. length y.2.now < length tokens.now) }
{
    let (name, rest) = name(alloc, tokens)?;
    Ok((name, start(tokens), rest))
}

/// Returns whether an identifier comes first.
pub(crate) fn first_is_name(tokens: &[Token]) -> bool
    ensures { result ≡ first_is is_name tokens.now }
{
    match tokens.first() {
        Some(token) => match &token.kind {
            TokenKind::Ident(_) => true,
            _ => false,
        },
        None => false,
    }
}

/// Parses an expression, and returns it, the place of the first expression that is too high so far, and the tokens
/// after it.
#[inline(always)]
pub(crate) fn kept_expression<'a>(
    alloc: Global,
    high: Option<Place>,
    tokens: &'a [Token],
) -> Result<(Expr, Option<Place>, &'a [Token]), Stop>
    requires { length tokens.now < 2 ^ 32 }
    ensures reads { Gives (λ y. (plain y.0, y.1, y.2.now)) (expression high tokens.now) result }
    ensures shorter { IfOk result (λ y. length y.2.now < length tokens.now) }
{
    let mut kept = leaf(start(tokens), Shape::True);
    let rest = expression(alloc, tokens, &mut kept)?;
    let high_now = high_after(high, kept.height, place_of(&kept.expr));
    Ok((kept.expr, high_now, rest))
}

// The place of the first expression that is too high, after an expression of this height at this place.
fn high_after(high: Option<Place>, height: u32, place: Place) -> Option<Place>
    ensures { result ≡ high_or high height place }
{
    match high {
        Some(first) => Some(first),
        None => { if height <= MOST { None } else { Some(place) } }
    }
}

fn place_of(expr: &Expr) -> Place
    ensures { result ≡ place_of (plain expr.now) }
{
    expr.place
}

/// Parses the optional parameters of a module's head, in brackets.
pub(crate) fn formals<'a>(
    alloc: Global,
    tokens: &'a [Token],
) -> Result<(Parameters, &'a [Token]), Stop>
    ensures reads { (h : Option Place) → Gives (λ y. (y.0, h, y.1.now)) (bracketed parameter h tokens.now) result }
    ensures within { IfOk result (λ y. length y.1.now ≤ length tokens.now) }
{
    match tokens_after(tokens, Sign::Open) {
        None => Ok((Parameters::new(alloc), tokens)),
        Some(rest) => match tokens_after(rest, Sign::Close) {
            Some(last) => Ok((Parameters::new(alloc), last)),
            None => parameters(alloc, rest),
        },
    }
}

// One or more parameters, and the closing bracket.
fn parameters<'a>(alloc: Global, tokens: &'a [Token]) -> Result<(Parameters, &'a [Token]), Stop>
    ensures reads { (h : Option Place) → Gives (λ y. (y.0, h, y.1.now)) (listed parameter sign.Close h tokens.now) result }
    ensures within { IfOk result (λ y. length y.1.now ≤ length tokens.now) }
{
    let mut all = Parameters::new(alloc);
    let (first, mut rest) = parameter(alloc, tokens)?;
    all.push(first)?;
    while let Some(more) = tokens_after(rest, Sign::Comma) {
        let (next, last) = parameter(alloc, more)?;
        all.push(next)?;
        rest = last;
    }
    let last = expect(rest, Sign::Close)?;
    Ok((all, last))
}

fn parameter<'a>(alloc: Global, tokens: &'a [Token]) -> Result<(Parameter, &'a [Token]), Stop>
    ensures reads { (h : Option Place) → Gives (λ y. (y.0, h, y.1.now)) (parameter h tokens.now) result }
    ensures shorter { IfOk result (λ y. length y.1.now < length tokens.now) }
{
    let (name, place, rest) = placed_name(alloc, tokens)?;
    Ok((Parameter { name, place }, rest))
}

/// Parses a member of an enumeration: a symbol or an integer.
fn member<'a>(alloc: Global, tokens: &'a [Token]) -> Result<(Member, &'a [Token]), Stop>
    ensures reads { (h : Option Place) → Gives (λ y. (y.0, h, y.1.now)) (member h tokens.now) result }
    ensures shorter { IfOk result (λ y. length y.1.now < length tokens.now) }
{
    if first_is_name(tokens) {
        let (symbol, _, rest) = placed_name(alloc, tokens)?;
        Ok((Member::Symbol(symbol), rest))
    } else {
        let (n, rest) = integer(tokens)?;
        Ok((Member::Integer(n), rest))
    }
}

// One or more members, and the closing brace.
fn members<'a>(alloc: Global, tokens: &'a [Token]) -> Result<(Members, &'a [Token]), Stop>
    ensures reads { (h : Option Place) → Gives (λ y. (y.0, h, y.1.now)) (listed member sign.CloseBrace h tokens.now) result }
    ensures within { IfOk result (λ y. length y.1.now ≤ length tokens.now) }
{
    let mut all = Members::new(alloc);
    let (first, mut rest) = member(alloc, tokens)?;
    all.push(first)?;
    while let Some(more) = tokens_after(rest, Sign::Comma) {
        let (next, last) = member(alloc, more)?;
        all.push(next)?;
        rest = last;
    }
    let last = expect(rest, Sign::CloseBrace)?;
    Ok((all, last))
}

/// Parses one or more symbols, and the semicolon after them.
pub(crate) fn symbols<'a>(alloc: Global, tokens: &'a [Token]) -> Result<(Names, &'a [Token]), Stop>
    ensures reads { (h : Option Place) → Gives (λ y. (y.0, h, y.1.now)) (listed symbol sign.Semicolon h tokens.now) result }
    ensures within { IfOk result (λ y. length y.1.now ≤ length tokens.now) }
{
    let mut all = Names::new(alloc);
    let (first, _, mut rest) = placed_name(alloc, tokens)?;
    all.push(first)?;
    while let Some(more) = tokens_after(rest, Sign::Comma) {
        let (next, _, last) = placed_name(alloc, more)?;
        all.push(next)?;
        rest = last;
    }
    let last = expect(rest, Sign::Semicolon)?;
    Ok((all, last))
}

/// Parses the optional actual parameters of an instance, in brackets.
fn actuals<'a>(
    alloc: Global,
    high: Option<Place>,
    tokens: &'a [Token],
) -> Result<(Exprs, Option<Place>, &'a [Token]), Stop>
    requires { length tokens.now < 2 ^ 32 }
    ensures reads { Gives (λ y. (map plain y.0.items, y.1, y.2.now)) (bracketed expression high tokens.now) result }
    ensures within { IfOk result (λ y. length y.2.now ≤ length tokens.now) }
{
    match tokens_after(tokens, Sign::Open) {
        None => Ok((Vec::new(alloc), high, tokens)),
        Some(rest) => match tokens_after(rest, Sign::Close) {
            Some(last) => Ok((Vec::new(alloc), high, last)),
            None => arguments(alloc, high, rest),
        },
    }
}

// One or more expressions, and the closing bracket.
fn arguments<'a>(
    alloc: Global,
    high: Option<Place>,
    tokens: &'a [Token],
) -> Result<(Exprs, Option<Place>, &'a [Token]), Stop>
    requires { length tokens.now < 2 ^ 32 }
    ensures reads { Gives (λ y. (map plain y.0.items, y.1, y.2.now)) (listed expression sign.Close high tokens.now) result }
    ensures within { IfOk result (λ y. length y.2.now ≤ length tokens.now) }
{
    let mut all = Vec::new(alloc);
    let (first, mut high, mut rest) = kept_expression(alloc, high, tokens)?;
    all.push(first)?;
    while let Some(more) = tokens_after(rest, Sign::Comma) {
        let (next, so_far, last) = kept_expression(alloc, high, more)?;
        all.push(next)?;
        high = so_far;
        rest = last;
    }
    let last = expect(rest, Sign::Close)?;
    Ok((all, high, last))
}

// `[n]`
fn width(tokens: &[Token]) -> Result<(u64, &[Token]), Stop>
    ensures reads { (h : Option Place) → Gives (λ y. (y.0, h, y.1.now)) (width h tokens.now) result }
    ensures within { IfOk result (λ y. length y.1.now ≤ length tokens.now) }
{
    let more = expect(tokens, Sign::OpenBracket)?;
    let (n, rest) = number(more)?;
    let last = expect(rest, Sign::CloseBracket)?;
    Ok((n, last))
}

// `l..h`
fn interval(tokens: &[Token]) -> Result<(Domain, &[Token]), Stop>
    ensures reads { (h : Option Place) → Gives (λ y. (plain_domain y.0, h, y.1.now)) (interval h tokens.now) result }
    ensures within { IfOk result (λ y. length y.1.now ≤ length tokens.now) }
{
    let (low, rest) = integer(tokens)?;
    let more = expect(rest, Sign::Range)?;
    let (high, last) = integer(more)?;
    Ok((Domain::Between(low, high), last))
}

// A type that begins with this word, and the tokens after it.
fn word_type(word: Reserved, tokens: &[Token]) -> Result<(Domain, &[Token]), Stop>
    ensures reads { (h : Option Place) → (k : VarKind) → (p : Place) → Gives (λ y. (plain_domain y.0, h, y.1.now)) (picked (domain_pick k (kind.Reserved word) p) h tokens.now (died (suc (length tokens.now)))) result }
    ensures within { IfOk result (λ y. length y.1.now ≤ length tokens.now) }
{
    match word {
        Reserved::Boolean => Ok((Domain::Boolean, tokens)),
        Reserved::Unsigned => match after_word(tokens, Reserved::Word) {
            Some(rest) => {
                let (n, last) = width(rest)?;
                Ok((Domain::Bits(n), last))
            }
            None => Err(Stop::Dead(tokens.len())),
        },
        Reserved::Word => {
            let (n, last) = width(tokens)?;
            Ok((Domain::Bits(n), last))
        }
        _ => Err(Stop::Dead(tokens.len() + 1)),
    }
}

/// Parses the type of a variable of this kind, or the module and actuals of an instance.
pub(crate) fn domain<'a>(
    alloc: Global,
    kind: VarKind,
    high: Option<Place>,
    tokens: &'a [Token],
) -> Result<(Domain, Option<Place>, &'a [Token]), Stop>
    requires { length tokens.now < 2 ^ 32 }
    ensures reads { Gives (λ y. (plain_domain y.0, y.1, y.2.now)) (domain kind high tokens.now) result }
    ensures within { IfOk result (λ y. length y.2.now ≤ length tokens.now) }
{
    match tokens.split_first() {
        None => Err(Stop::Dead(0)),
        Some((token, rest)) => match &token.kind {
            TokenKind::Reserved(word) => {
                let (domain, last) = word_type(*word, rest)?;
                Ok((domain, high, last))
            }
            TokenKind::Ident(module) => instance(alloc, kind, module, high, rest),
            TokenKind::Sign(sign) => match sign {
                Sign::OpenBrace => {
                    let (all, last) = members(alloc, rest)?;
                    Ok((Domain::Members(all), high, last))
                }
                _ => bounds(high, tokens),
            },
            _ => bounds(high, tokens),
        },
    }
}

// The rest of an instance, which is allowed only in `VAR`.
fn instance<'a>(
    alloc: Global,
    kind: VarKind,
    module: &Name,
    high: Option<Place>,
    tokens: &'a [Token],
) -> Result<(Domain, Option<Place>, &'a [Token]), Stop>
    requires { length tokens.now < 2 ^ 32 }
    ensures reads { Gives (λ y. (plain_domain y.0, y.1, y.2.now)) (picked (instance_pick kind module.now) high tokens.now (died (suc (length tokens.now)))) result }
    ensures within { IfOk result (λ y. length y.2.now ≤ length tokens.now) }
{
    match kind {
        VarKind::State => {
            let (all, high, last) = actuals(alloc, high, tokens)?;
            Ok((Domain::Instance(module.duplicate(alloc)?, all), high, last))
        }
        _ => Err(Stop::Dead(tokens.len() + 1)),
    }
}

// An interval of integers.
fn bounds(high: Option<Place>, tokens: &[Token]) -> Result<(Domain, Option<Place>, &[Token]), Stop>
    ensures reads { Gives (λ y. (plain_domain y.0, y.1, y.2.now)) (interval high tokens.now) result }
    ensures within { IfOk result (λ y. length y.2.now ≤ length tokens.now) }
{
    let (domain, last) = interval(tokens)?;
    Ok((domain, high, last))
}
