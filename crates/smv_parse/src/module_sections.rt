// Sections of a module, and modules.

ghost use Rattle.std.specs.Prelude.{◌≡◌, ◌<◌, ◌≤◌, ◌-◌, ◌^◌, Option, suc, length, map, IfOk};
ghost use Rattle.text_core.specs.declared.place.Place.{Place};
ghost use Rattle.smv_text.specs.declared.token.TokenKind.TheVariants as kind;
ghost use Rattle.smv_text.specs.declared.tree.When.{When};
ghost use Rattle.smv_text.specs.Tree.{vars, spec};
ghost use Rattle.smv_text.specs.View.{plain, plain_item, plain_definition, plain_assignment, plain_element, plain_module};
ghost use Rattle.smv_parse.specs.Answers.{Gives, first_is, begins_target, begins_section};
ghost use Rattle.smv_grammar.specs.Readers.{both, mapped, either, fail, picked, died, many};
ghost use Rattle.smv_grammar.specs.Rules.{item_pick, body, definition_pick, enclosed, target_pick, assignment_pick, constraint, label, element_pick, module_rest, module_pick};

use crate::module_types::{domain, first_is_name, formals, kept_expression, placed_name, symbols};
use smv_expressions::{Stop, expect, path, start};
use smv_grammar::{after_word, tokens_after};
use smv_text::{
    Assignment, Assignments, Definition, Definitions, Element, Elements, Expr, Item, Items, Module,
    Modules, Path, Reserved, Sign, Token, TokenKind, VarKind, When,
};
use std::alloc::Global;
use text_core::{Name, Place};

// A declaration, with its semicolon.
fn item<'a>(
    alloc: Global,
    kind: VarKind,
    high: Option<Place>,
    tokens: &'a [Token],
) -> Result<(Item, Option<Place>, &'a [Token]), Stop>
    requires { length tokens.now < 2 ^ 32 }
    ensures reads { Gives (λ y. (plain_item y.0, y.1, y.2.now)) (either (item_pick kind) fail high tokens.now) result }
    ensures shorter { IfOk result (λ y. length y.2.now < length tokens.now) }
{
    let (name, place, rest) = placed_name(alloc, tokens)?;
    let more = expect(rest, Sign::Colon)?;
    let domain_place = start(more);
    let (domain, high, rest) = domain(alloc, kind, high, more)?;
    let last = expect(rest, Sign::Semicolon)?;
    Ok((
        Item {
            name,
            place,
            domain,
            domain_place,
        },
        high,
        last,
    ))
}

// Declarations, as long as a name comes next.
fn items<'a>(
    alloc: Global,
    kind: VarKind,
    high: Option<Place>,
    tokens: &'a [Token],
) -> Result<(Items, Option<Place>, &'a [Token]), Stop>
    requires { length tokens.now < 2 ^ 32 }
    ensures reads { Gives (λ y. (map plain_item y.0, y.1, y.2.now)) (many (item_pick kind) high tokens.now) result }
    ensures within { IfOk result (λ y. length y.2.now ≤ length tokens.now) }
{
    let mut all = Items::new(alloc);
    let mut high = high;
    let mut rest = tokens;
    while first_is_name(rest) {
        let (next, so_far, last) = item(alloc, kind, high, rest)?;
        all.push(next)?;
        high = so_far;
        rest = last;
    }
    Ok((all, high, rest))
}

// The right side of an assignment, from `:=` to the semicolon.
#[inline(always)]
fn body<'a>(
    alloc: Global,
    high: Option<Place>,
    tokens: &'a [Token],
) -> Result<(Expr, Option<Place>, &'a [Token]), Stop>
    requires { length tokens.now < 2 ^ 32 }
    ensures reads { Gives (λ y. (plain y.0, y.1, y.2.now)) (body high tokens.now) result }
    ensures within { IfOk result (λ y. length y.2.now ≤ length tokens.now) }
{
    let more = expect(tokens, Sign::Assign)?;
    let (value, high, rest) = kept_expression(alloc, high, more)?;
    let last = expect(rest, Sign::Semicolon)?;
    Ok((value, high, last))
}

fn definition<'a>(
    alloc: Global,
    high: Option<Place>,
    tokens: &'a [Token],
) -> Result<(Definition, Option<Place>, &'a [Token]), Stop>
    requires { length tokens.now < 2 ^ 32 }
    ensures reads { Gives (λ y. (plain_definition y.0, y.1, y.2.now)) (either definition_pick fail high tokens.now) result }
    ensures shorter { IfOk result (λ y. length y.2.now < length tokens.now) }
{
    let (name, place, rest) = placed_name(alloc, tokens)?;
    let (body, high, last) = body(alloc, high, rest)?;
    Ok((Definition { name, place, body }, high, last))
}

// Definitions, as long as a name comes next.
fn definitions<'a>(
    alloc: Global,
    high: Option<Place>,
    tokens: &'a [Token],
) -> Result<(Definitions, Option<Place>, &'a [Token]), Stop>
    requires { length tokens.now < 2 ^ 32 }
    ensures reads { Gives (λ y. (map plain_definition y.0, y.1, y.2.now)) (many definition_pick high tokens.now) result }
    ensures within { IfOk result (λ y. length y.2.now ≤ length tokens.now) }
{
    let mut all = Definitions::new(alloc);
    let mut high = high;
    let mut rest = tokens;
    while first_is_name(rest) {
        let (next, so_far, last) = definition(alloc, high, rest)?;
        all.push(next)?;
        high = so_far;
        rest = last;
    }
    Ok((all, high, rest))
}

// A path in round brackets.
#[inline(always)]
fn enclosed<'a>(alloc: Global, tokens: &'a [Token]) -> Result<(Path, &'a [Token]), Stop>
    ensures reads { (h : Option Place) → (w : When) → Gives (λ y. ((w, y.0), h, y.1.now)) (enclosed w h tokens.now) result }
    ensures within { IfOk result (λ y. length y.1.now ≤ length tokens.now) }
{
    let more = expect(tokens, Sign::Open)?;
    let (path, rest) = path(alloc, more)?;
    let last = expect(rest, Sign::Close)?;
    Ok((path, last))
}

// The left side of an assignment.
#[inline(always)]
fn target<'a>(alloc: Global, tokens: &'a [Token]) -> Result<(When, Path, &'a [Token]), Stop>
    ensures reads { (h : Option Place) → Gives (λ y. ((y.0, y.1), h, y.2.now)) (either target_pick fail h tokens.now) result }
    ensures shorter { IfOk result (λ y. length y.2.now < length tokens.now) }
{
    if let Some(rest) = after_word(tokens, Reserved::Initial) {
        let (target, last) = enclosed(alloc, rest)?;
        return Ok((When::First, target, last));
    }
    if let Some(rest) = after_word(tokens, Reserved::Next) {
        let (target, last) = enclosed(alloc, rest)?;
        return Ok((When::Following, target, last));
    }
    let (target, last) = path(alloc, tokens)?;
    Ok((When::Always, target, last))
}

fn assignment<'a>(
    alloc: Global,
    high: Option<Place>,
    tokens: &'a [Token],
) -> Result<(Assignment, Option<Place>, &'a [Token]), Stop>
    requires { length tokens.now < 2 ^ 32 }
    ensures reads { Gives (λ y. (plain_assignment y.0, y.1, y.2.now)) (either assignment_pick fail high tokens.now) result }
    ensures shorter { IfOk result (λ y. length y.2.now < length tokens.now) }
{
    let (when, target, rest) = target(alloc, tokens)?;
    let (body, high, last) = body(alloc, high, rest)?;
    Ok((Assignment { when, target, body }, high, last))
}

// Whether the left side of an assignment begins here.
fn first_is_target(tokens: &[Token]) -> bool
    ensures { result ≡ first_is begins_target tokens.now }
{
    match tokens.first() {
        Some(token) => match &token.kind {
            TokenKind::Ident(_) => true,
            TokenKind::Reserved(word) => match word {
                Reserved::Itself => true,
                Reserved::Initial => true,
                Reserved::Next => true,
                _ => false,
            },
            _ => false,
        },
        None => false,
    }
}

// Assignments, as long as the left side of one comes next.
fn assignments<'a>(
    alloc: Global,
    high: Option<Place>,
    tokens: &'a [Token],
) -> Result<(Assignments, Option<Place>, &'a [Token]), Stop>
    requires { length tokens.now < 2 ^ 32 }
    ensures reads { Gives (λ y. (map plain_assignment y.0, y.1, y.2.now)) (many assignment_pick high tokens.now) result }
    ensures within { IfOk result (λ y. length y.2.now ≤ length tokens.now) }
{
    let mut all = Assignments::new(alloc);
    let mut high = high;
    let mut rest = tokens;
    while first_is_target(rest) {
        let (next, so_far, last) = assignment(alloc, high, rest)?;
        all.push(next)?;
        high = so_far;
        rest = last;
    }
    Ok((all, high, rest))
}

// An expression, and an optional semicolon after it.
fn constraint<'a>(
    alloc: Global,
    high: Option<Place>,
    tokens: &'a [Token],
) -> Result<(Expr, Option<Place>, &'a [Token]), Stop>
    requires { length tokens.now < 2 ^ 32 }
    ensures reads { Gives (λ y. (plain y.0, y.1, y.2.now)) (constraint high tokens.now) result }
    ensures within { IfOk result (λ y. length y.2.now ≤ length tokens.now) }
{
    let (value, high, rest) = kept_expression(alloc, high, tokens)?;
    match tokens_after(rest, Sign::Semicolon) {
        Some(last) => Ok((value, high, last)),
        None => Ok((value, high, rest)),
    }
}

// The optional name of an invariant.
fn label<'a>(alloc: Global, tokens: &'a [Token]) -> Result<(Option<Name>, &'a [Token]), Stop>
    ensures reads { (h : Option Place) → Gives (λ y. (y.0, h, y.1.now)) (label h tokens.now) result }
    ensures within { IfOk result (λ y. length y.1.now ≤ length tokens.now) }
{
    match after_word(tokens, Reserved::Name) {
        Some(more) => {
            let (label, _, rest) = placed_name(alloc, more)?;
            let last = expect(rest, Sign::Assign)?;
            Ok((Some(label), last))
        }
        None => Ok((None, tokens)),
    }
}

// Declarations of one kind.
fn variables<'a>(
    alloc: Global,
    kind: VarKind,
    high: Option<Place>,
    tokens: &'a [Token],
) -> Result<(Element, Option<Place>, &'a [Token]), Stop>
    requires { length tokens.now < 2 ^ 32 }
    ensures reads { Gives (λ y. (plain_element y.0, y.1, y.2.now)) (mapped (vars kind) (many (item_pick kind)) high tokens.now) result }
    ensures within { IfOk result (λ y. length y.2.now ≤ length tokens.now) }
{
    let (all, high, rest) = items(alloc, kind, high, tokens)?;
    Ok((Element::Vars(kind, all), high, rest))
}

// The rest of an `INVARSPEC`, with its optional name.
fn specification<'a>(
    alloc: Global,
    high: Option<Place>,
    tokens: &'a [Token],
) -> Result<(Element, Option<Place>, &'a [Token]), Stop>
    requires { length tokens.now < 2 ^ 32 }
    ensures reads { Gives (λ y. (plain_element y.0, y.1, y.2.now)) (mapped (λ q. spec q.0 q.1) (both label constraint) high tokens.now) result }
    ensures within { IfOk result (λ y. length y.2.now ≤ length tokens.now) }
{
    let (name, rest) = label(alloc, tokens)?;
    let (value, high, last) = constraint(alloc, high, rest)?;
    Ok((Element::Spec(name, value), high, last))
}

// The section that this word begins, after the word.
fn section<'a>(
    alloc: Global,
    word: Reserved,
    high: Option<Place>,
    tokens: &'a [Token],
) -> Result<(Element, Option<Place>, &'a [Token]), Stop>
    requires { length tokens.now < 2 ^ 32 - 1 }
    ensures reads { (p : Place) → Gives (λ y. (plain_element y.0, y.1, y.2.now)) (picked (element_pick (kind.Reserved word) p) high tokens.now (died (suc (length tokens.now)))) result }
    ensures within { IfOk result (λ y. length y.2.now ≤ length tokens.now) }
{
    match word {
        Reserved::Var => variables(alloc, VarKind::State, high, tokens),
        Reserved::Ivar => variables(alloc, VarKind::Input, high, tokens),
        Reserved::Frozenvar => variables(alloc, VarKind::Frozen, high, tokens),
        Reserved::Define => {
            let (all, high, rest) = definitions(alloc, high, tokens)?;
            Ok((Element::Defines(all), high, rest))
        }
        Reserved::Constants => {
            let (all, rest) = symbols(alloc, tokens)?;
            Ok((Element::Constants(all), high, rest))
        }
        Reserved::Assign => {
            let (all, high, rest) = assignments(alloc, high, tokens)?;
            Ok((Element::Assigns(all), high, rest))
        }
        Reserved::Init => {
            let (value, high, rest) = constraint(alloc, high, tokens)?;
            Ok((Element::Init(value), high, rest))
        }
        Reserved::Trans => {
            let (value, high, rest) = constraint(alloc, high, tokens)?;
            Ok((Element::Trans(value), high, rest))
        }
        Reserved::Invar => {
            let (value, high, rest) = constraint(alloc, high, tokens)?;
            Ok((Element::Invar(value), high, rest))
        }
        Reserved::Invarspec => specification(alloc, high, tokens),
        _ => Err(Stop::Dead(tokens.len() + 1)),
    }
}

fn element<'a>(
    alloc: Global,
    high: Option<Place>,
    tokens: &'a [Token],
) -> Result<(Element, Option<Place>, &'a [Token]), Stop>
    requires { length tokens.now < 2 ^ 32 }
    ensures reads { Gives (λ y. (plain_element y.0, y.1, y.2.now)) (either element_pick fail high tokens.now) result }
    ensures shorter { IfOk result (λ y. length y.2.now < length tokens.now) }
{
    match tokens.split_first() {
        None => Err(Stop::Dead(0)),
        Some((token, rest)) => match &token.kind {
            TokenKind::Reserved(word) => section(alloc, *word, high, rest),
            _ => Err(Stop::Dead(tokens.len())),
        },
    }
}

// Whether a section begins here.
fn first_is_section(tokens: &[Token]) -> bool
    ensures { result ≡ first_is begins_section tokens.now }
{
    match tokens.first() {
        Some(token) => match &token.kind {
            TokenKind::Reserved(word) => match word {
                Reserved::Var => true,
                Reserved::Ivar => true,
                Reserved::Frozenvar => true,
                Reserved::Define => true,
                Reserved::Constants => true,
                Reserved::Assign => true,
                Reserved::Init => true,
                Reserved::Trans => true,
                Reserved::Invar => true,
                Reserved::Invarspec => true,
                _ => false,
            },
            _ => false,
        },
        None => false,
    }
}

// Sections, as long as the word of one comes next.
fn elements<'a>(
    alloc: Global,
    high: Option<Place>,
    tokens: &'a [Token],
) -> Result<(Elements, Option<Place>, &'a [Token]), Stop>
    requires { length tokens.now < 2 ^ 32 }
    ensures reads { Gives (λ y. (map plain_element y.0, y.1, y.2.now)) (many element_pick high tokens.now) result }
    ensures within { IfOk result (λ y. length y.2.now ≤ length tokens.now) }
{
    let mut all = Elements::new(alloc);
    let mut high = high;
    let mut rest = tokens;
    while first_is_section(rest) {
        let (next, so_far, last) = element(alloc, high, rest)?;
        all.push(next)?;
        high = so_far;
        rest = last;
    }
    Ok((all, high, rest))
}

// The rest of a module, after its first word.
fn module_rest<'a>(
    alloc: Global,
    high: Option<Place>,
    tokens: &'a [Token],
) -> Result<(Module, Option<Place>, &'a [Token]), Stop>
    requires { length tokens.now < 2 ^ 32 }
    ensures reads { Gives (λ y. (plain_module y.0, y.1, y.2.now)) (module_rest high tokens.now) result }
    ensures within { IfOk result (λ y. length y.2.now ≤ length tokens.now) }
{
    let (name, place, rest) = placed_name(alloc, tokens)?;
    let (parameters, body) = formals(alloc, rest)?;
    let (elements, high, last) = elements(alloc, high, body)?;
    let tokens = (body.len() - last.len()) as u32;
    Ok((
        Module {
            name,
            place,
            parameters,
            elements,
            tokens,
        },
        high,
        last,
    ))
}

/// Parses modules as long as the word `MODULE` comes next.
///
/// Returns them, the place of the first expression that is too high so far, and the remaining tokens.
pub(crate) fn modules<'a>(
    alloc: Global,
    high: Option<Place>,
    tokens: &'a [Token],
) -> Result<(Modules, Option<Place>, &'a [Token]), Stop>
    requires { length tokens.now < 2 ^ 32 }
    ensures reads { Gives (λ y. (map plain_module y.0, y.1, y.2.now)) (many module_pick high tokens.now) result }
    ensures within { IfOk result (λ y. length y.2.now ≤ length tokens.now) }
{
    let mut all = Modules::new(alloc);
    let mut high = high;
    let mut rest = tokens;
    while let Some(more) = after_word(rest, Reserved::Module) {
        let (next, so_far, last) = module_rest(alloc, high, more)?;
        all.push(next)?;
        high = so_far;
        rest = last;
    }
    Ok((all, high, rest))
}
