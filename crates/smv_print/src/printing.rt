// The printed form of a model.
ghost use Rattle.std.specs.Prelude.{◌≡◌, ◌++◌, ℕ, List, [], ◌∷◌, Some, true, false, drop, map, IfOk, OnOk, suc};
ghost use Rattle.std.specs.List.{flat_map};
ghost use Rattle.smv_text.specs.Tree.{Tree, chain, Links, link, PlainSource, trees_of, links_of, branches_of};
ghost use Rattle.smv_text.specs.View.{plain, plain_link, plain_branch, plain_domain, plain_item, plain_definition, plain_assignment, plain_element, plain_module, plain_source};
ghost use Rattle.smv_text.specs.Levels.{all_levels, infix_of, prefix_kind, class_of, infix_kind};
ghost use Rattle.smv_print.specs.Ranks.{rank, chain_class, tree_rank};
ghost use Rattle.smv_text.specs.Sources.{section_word, SpellsSource};
ghost use Rattle.smv_text.specs.Lexing.{kinds, Lexes};
ghost use Rattle.smv_text.specs.Grammar.{Spells};
ghost use Rattle.smv_print.specs.Unplaced.{unplaced_source, SpellsSame, SpellsSameSource, IsReadAgain, ReadsBack};
ghost use Rattle.smv_text.specs.declared.token.Token.{Token};
ghost use Rattle.smv_text.specs.declared.token.TokenKind.{TokenKind};
ghost use Rattle.smv_text.specs.declared.operators.Infix.{Infix};
ghost use Rattle.smv_text.specs.declared.level.OperatorClass.{OperatorClass};
ghost use Rattle.smv_text.specs.declared.level.Level.{Level};
ghost use Rattle.text_core.specs.declared.place.Place.{Place};
ghost use Rattle.smv_lex.specs.Spelling.{spaced, written};
ghost use Rattle.smv_print.specs.Printing.{repeated, parted, ident, path_kinds, standing, tree_kinds, link_kinds, choice_kinds, case_kinds, argument_kinds, in_brackets};
ghost use Rattle.smv_print.specs.Printing.{member_kinds, actual_kinds, domain_kinds, item_kinds, body_kinds, definition_kinds};
ghost use Rattle.smv_print.specs.Printing.{target_kinds, assignment_kinds, spec_name_kinds, formula_kinds, element_kinds, parameter_name, parameter_kinds, rest_kinds, module_kinds, source_kinds, printed};

use crate::spelling::{
    put_first, put_ident, put_infix, put_int, put_literal, put_number, put_prefixes, put_range,
    put_sign, put_wanted, put_word,
};
use smv_lex::printed_is_lexed;
use smv_text::{
    Assignment, Assignments, Branch, Definition, Definitions, Domain, Element, Elements, Expr,
    Item, Items, Level, Link, Member, Members, Module, OperatorClass, Parameters, Path, Prefix,
    Reserved, Shape, Sign, Source, TokenKind, VarKind, When, class_of, function_word,
};
use std::alloc::Global;
use text_core::{Name, Names, NoMemory, Text};

// The rank after all levels.
const TIGHTEST: u8 = 16;

// Names with the sign between them, and also before the first where `first` is set.
fn put_names(out: &mut Text, sign: Sign, first: bool, names: &Names) -> Result<(), NoMemory>
    ensures { OnOk result (out.new ≡ out.old ++ spaced (parted sign first (map ident names.now))) }
{
    let mut behind = first;
    for name in names {
        put_wanted(out, behind, sign)?;
        put_ident(out, name)?;
        behind = true;
    }
    Ok(())
}

fn put_path(out: &mut Text, path: &Path) -> Result<(), NoMemory>
    ensures { OnOk result (out.new ≡ out.old ++ spaced (path_kinds path.now)) }
{
    if path.from_self {
        put_word(out, Reserved::Itself)?;
        put_names(out, Sign::Dot, true, &path.names)
    } else {
        put_names(out, Sign::Dot, false, &path.names)
    }
}

// The rank of a level among all levels, from 0 for the loosest.
fn rank(level: Level) -> u8
    ensures { result ≡ rank level }
{
    match level {
        Level::Chain(class) => class_rank(class),
        Level::Choice => 2,
        Level::Range => 8,
        Level::Before(Prefix::Minus) => 12,
        Level::Before(Prefix::Not) => 14,
        Level::Selection => 15,
    }
}

fn class_rank(class: OperatorClass) -> u8
    ensures { result ≡ rank (Level.Chain class) }
{
    match class {
        OperatorClass::Implications => 0,
        OperatorClass::Equivalences => 1,
        OperatorClass::Disjunctions => 3,
        OperatorClass::Conjunctions => 4,
        OperatorClass::Comparisons => 5,
        OperatorClass::Memberships => 6,
        OperatorClass::Unions => 7,
        OperatorClass::Shifts => 9,
        OperatorClass::Sums => 10,
        OperatorClass::Products => 11,
        OperatorClass::Concatenations => 13,
    }
}

fn chain_class(links: &[Link]) -> OperatorClass
    ensures { result ≡ chain_class (links_of (map plain_link links.now)) }
{
    match links {
        [] => OperatorClass::Implications,
        [link, ..] => class_of(link.op),
    }
}

// The rank of an expression's level.
fn rank_of(expr: &Expr) -> u8
    ensures { result ≡ tree_rank (plain expr.now) }
{
    match &expr.shape {
        Shape::Prefix(prefix, _, _) => rank(Level::Before(*prefix)),
        Shape::Chain(_, links) => rank(Level::Chain(chain_class(links))),
        Shape::Choice(_, _) => rank(Level::Choice),
        Shape::Select(_, _, _) => rank(Level::Selection),
        Shape::Range(_, _) => rank(Level::Range),
        _ => TIGHTEST,
    }
}

// An expression where a level of rank `floor` is required: bare if its own level has this rank or a tighter one, else
// in brackets.
#[cycle(put)]
fn put_standing(out: &mut Text, floor: u8, expr: &Expr) -> Result<(), NoMemory>
    ensures { OnOk result (out.new ≡ out.old ++ spaced (standing floor (plain expr.now) (tree_kinds (plain expr.now)))) }
{
    if floor <= rank_of(expr) {
        put_expr(out, expr)
    } else {
        put_sign(out, Sign::Open)?;
        put_expr(out, expr)?;
        put_sign(out, Sign::Close)
    }
}

// An expression without brackets around it.
#[cycle(put)]
fn put_expr(out: &mut Text, expr: &Expr) -> Result<(), NoMemory>
    ensures { OnOk result (out.new ≡ out.old ++ spaced (tree_kinds (plain expr.now))) }
{
    match &expr.shape {
        Shape::True => put_word(out, Reserved::True),
        Shape::False => put_word(out, Reserved::False),
        Shape::Number(n) => put_number(out, *n),
        Shape::Literal(word) => put_literal(out, word),
        Shape::Name(path) => put_path(out, path),
        Shape::Prefix(prefix, count, operand) => put_prefixed(out, *prefix, *count, operand),
        Shape::Chain(first, links) => {
            let floor = rank(Level::Chain(chain_class(links))) + 1;
            put_standing(out, floor, first)?;
            put_links(out, floor, links)
        }
        Shape::Choice(branches, last) => {
            put_choices(out, branches)?;
            put_standing(out, rank(Level::Choice) + 1, last)
        }
        Shape::Case(branches) => put_case(out, branches),
        Shape::Select(operand, high, low) => {
            put_standing(out, rank(Level::Selection), operand)?;
            put_ends(out, *high, *low)
        }
        Shape::Call(function, arguments) => {
            put_word(out, function_word(*function))?;
            put_enclosed(out, Sign::Open, arguments, Sign::Close)
        }
        Shape::Next(operand) => put_next(out, operand),
        Shape::Set(elements) => put_enclosed(out, Sign::OpenBrace, elements, Sign::CloseBrace),
        Shape::Range(low, high) => put_range(out, *low, *high),
    }
}

#[cycle(put)]
fn put_prefixed(out: &mut Text, prefix: Prefix, count: u32, operand: &Expr) -> Result<(), NoMemory>
    ensures { OnOk result (out.new ≡ out.old ++ spaced (repeated count (prefix_kind prefix) ++ standing (suc (rank (Level.Before prefix))) (plain operand.now) (tree_kinds (plain operand.now)))) }
{
    put_prefixes(out, prefix, count)?;
    put_standing(out, rank(Level::Before(prefix)) + 1, operand)
}

// The bounds of a bit selection, in brackets.
fn put_ends(out: &mut Text, high: u64, low: u64) -> Result<(), NoMemory>
    ensures { OnOk result (out.new ≡ out.old ++ spaced (TokenKind.Sign Sign.OpenBracket ∷ TokenKind.Number high ∷ TokenKind.Sign Sign.Colon ∷ TokenKind.Number low ∷ TokenKind.Sign Sign.CloseBracket ∷ [])) }
{
    put_sign(out, Sign::OpenBracket)?;
    put_number(out, high)?;
    put_sign(out, Sign::Colon)?;
    put_number(out, low)?;
    put_sign(out, Sign::CloseBracket)
}

#[cycle(put)]
fn put_next(out: &mut Text, operand: &Expr) -> Result<(), NoMemory>
    ensures { OnOk result (out.new ≡ out.old ++ spaced (TokenKind.Reserved Reserved.Next ∷ in_brackets (tree_kinds (plain operand.now)))) }
{
    put_word(out, Reserved::Next)?;
    put_sign(out, Sign::Open)?;
    put_expr(out, operand)?;
    put_sign(out, Sign::Close)
}

#[cycle(put)]
fn put_links(out: &mut Text, floor: u8, links: &[Link]) -> Result<(), NoMemory>
    ensures { OnOk result (out.new ≡ out.old ++ spaced (link_kinds floor (links_of (map plain_link links.now)))) }
{
    for link in links {
        put_infix(out, link.op)?;
        put_standing(out, floor, &link.operand)?;
    }
    Ok(())
}

// Conditions with their values, each followed by its sign.
#[cycle(put)]
fn put_choices(out: &mut Text, branches: &[Branch]) -> Result<(), NoMemory>
    ensures { OnOk result (out.new ≡ out.old ++ spaced (choice_kinds (branches_of (map plain_branch branches.now)))) }
{
    let floor = rank(Level::Choice) + 1;
    for branch in branches {
        put_standing(out, floor, &branch.when)?;
        put_sign(out, Sign::Question)?;
        put_standing(out, floor, &branch.value)?;
        put_sign(out, Sign::Colon)?;
    }
    Ok(())
}

#[cycle(put)]
fn put_case(out: &mut Text, branches: &[Branch]) -> Result<(), NoMemory>
    ensures { OnOk result (out.new ≡ out.old ++ spaced (TokenKind.Reserved Reserved.Case ∷ (case_kinds (branches_of (map plain_branch branches.now)) ++ TokenKind.Reserved Reserved.Esac ∷ []))) }
{
    put_word(out, Reserved::Case)?;
    put_branches(out, branches)?;
    put_word(out, Reserved::Esac)
}

#[cycle(put)]
fn put_branches(out: &mut Text, branches: &[Branch]) -> Result<(), NoMemory>
    ensures { OnOk result (out.new ≡ out.old ++ spaced (case_kinds (branches_of (map plain_branch branches.now)))) }
{
    for branch in branches {
        put_expr(out, &branch.when)?;
        put_sign(out, Sign::Colon)?;
        put_expr(out, &branch.value)?;
        put_sign(out, Sign::Semicolon)?;
    }
    Ok(())
}

// Expressions between two signs.
#[cycle(put)]
fn put_enclosed(
    out: &mut Text,
    opening: Sign,
    exprs: &[Expr],
    closing: Sign,
) -> Result<(), NoMemory>
    ensures { OnOk result (out.new ≡ out.old ++ spaced (TokenKind.Sign opening ∷ (argument_kinds false (trees_of (map plain exprs.now)) ++ TokenKind.Sign closing ∷ []))) }
{
    put_sign(out, opening)?;
    put_arguments(out, exprs)?;
    put_sign(out, closing)
}

#[cycle(put)]
fn put_arguments(out: &mut Text, exprs: &[Expr]) -> Result<(), NoMemory>
    ensures { OnOk result (out.new ≡ out.old ++ spaced (argument_kinds false (trees_of (map plain exprs.now)))) }
{
    let mut behind = false;
    for expr in exprs {
        put_wanted(out, behind, Sign::Comma)?;
        put_expr(out, expr)?;
        behind = true;
    }
    Ok(())
}

fn put_member(out: &mut Text, member: &Member) -> Result<(), NoMemory>
    ensures { OnOk result (out.new ≡ out.old ++ spaced (member_kinds member.now)) }
{
    match member {
        Member::Symbol(name) => put_ident(out, name),
        Member::Integer(n) => put_int(out, *n),
    }
}

fn put_members(out: &mut Text, members: &Members) -> Result<(), NoMemory>
    ensures { OnOk result (out.new ≡ out.old ++ spaced (parted Sign.Comma false (map member_kinds members.now))) }
{
    let mut behind = false;
    for member in members {
        put_wanted(out, behind, Sign::Comma)?;
        put_member(out, member)?;
        behind = true;
    }
    Ok(())
}

fn put_actuals(out: &mut Text, actuals: &[Expr]) -> Result<(), NoMemory>
    ensures { OnOk result (out.new ≡ out.old ++ spaced (actual_kinds (trees_of (map plain actuals.now)))) }
{
    if actuals.is_empty() {
        return Ok(());
    }
    put_enclosed(out, Sign::Open, actuals, Sign::Close)
}

fn put_width(out: &mut Text, width: u64) -> Result<(), NoMemory>
    ensures { OnOk result (out.new ≡ out.old ++ spaced (TokenKind.Reserved Reserved.Word ∷ TokenKind.Sign Sign.OpenBracket ∷ TokenKind.Number width ∷ TokenKind.Sign Sign.CloseBracket ∷ [])) }
{
    put_word(out, Reserved::Word)?;
    put_sign(out, Sign::OpenBracket)?;
    put_number(out, width)?;
    put_sign(out, Sign::CloseBracket)
}

fn put_domain(out: &mut Text, domain: &Domain) -> Result<(), NoMemory>
    ensures { OnOk result (out.new ≡ out.old ++ spaced (domain_kinds (plain_domain domain.now))) }
{
    match domain {
        Domain::Boolean => put_word(out, Reserved::Boolean),
        Domain::Members(members) => {
            put_sign(out, Sign::OpenBrace)?;
            put_members(out, members)?;
            put_sign(out, Sign::CloseBrace)
        }
        Domain::Between(low, high) => put_range(out, *low, *high),
        Domain::Bits(width) => put_width(out, *width),
        Domain::Instance(module, actuals) => {
            put_ident(out, module)?;
            put_actuals(out, actuals)
        }
    }
}

fn put_item(out: &mut Text, item: &Item) -> Result<(), NoMemory>
    ensures { OnOk result (out.new ≡ out.old ++ spaced (item_kinds (plain_item item.now))) }
{
    put_ident(out, &item.name)?;
    put_sign(out, Sign::Colon)?;
    put_domain(out, &item.domain)?;
    put_sign(out, Sign::Semicolon)
}

fn put_items(out: &mut Text, items: &Items) -> Result<(), NoMemory>
    ensures { OnOk result (out.new ≡ out.old ++ spaced (flat_map item_kinds (map plain_item items.now))) }
{
    for item in items {
        put_item(out, item)?;
    }
    Ok(())
}

// The right side of an assignment, after its sign.
fn put_body(out: &mut Text, body: &Expr) -> Result<(), NoMemory>
    ensures { OnOk result (out.new ≡ out.old ++ spaced (body_kinds (plain body.now))) }
{
    put_sign(out, Sign::Assign)?;
    put_formula(out, body)
}

// An expression, and the semicolon that ends it.
fn put_formula(out: &mut Text, expr: &Expr) -> Result<(), NoMemory>
    ensures { OnOk result (out.new ≡ out.old ++ spaced (formula_kinds (plain expr.now))) }
{
    put_expr(out, expr)?;
    put_sign(out, Sign::Semicolon)
}

fn put_definition(out: &mut Text, definition: &Definition) -> Result<(), NoMemory>
    ensures { OnOk result (out.new ≡ out.old ++ spaced (definition_kinds (plain_definition definition.now))) }
{
    put_ident(out, &definition.name)?;
    put_body(out, &definition.body)
}

fn put_definitions(out: &mut Text, definitions: &Definitions) -> Result<(), NoMemory>
    ensures { OnOk result (out.new ≡ out.old ++ spaced (flat_map definition_kinds (map plain_definition definitions.now))) }
{
    for definition in definitions {
        put_definition(out, definition)?;
    }
    Ok(())
}

// A path in brackets, after a word.
fn put_moment(out: &mut Text, word: Reserved, path: &Path) -> Result<(), NoMemory>
    ensures { OnOk result (out.new ≡ out.old ++ spaced (TokenKind.Reserved word ∷ in_brackets (path_kinds path.now))) }
{
    put_word(out, word)?;
    put_sign(out, Sign::Open)?;
    put_path(out, path)?;
    put_sign(out, Sign::Close)
}

fn put_target(out: &mut Text, when: When, target: &Path) -> Result<(), NoMemory>
    ensures { OnOk result (out.new ≡ out.old ++ spaced (target_kinds when target.now)) }
{
    match when {
        When::Always => put_path(out, target),
        When::First => put_moment(out, Reserved::Initial, target),
        When::Following => put_moment(out, Reserved::Next, target),
    }
}

fn put_assignment(out: &mut Text, assignment: &Assignment) -> Result<(), NoMemory>
    ensures { OnOk result (out.new ≡ out.old ++ spaced (assignment_kinds (plain_assignment assignment.now))) }
{
    put_target(out, assignment.when, &assignment.target)?;
    put_body(out, &assignment.body)
}

fn put_assignments(out: &mut Text, assignments: &Assignments) -> Result<(), NoMemory>
    ensures { OnOk result (out.new ≡ out.old ++ spaced (flat_map assignment_kinds (map plain_assignment assignments.now))) }
{
    for assignment in assignments {
        put_assignment(out, assignment)?;
    }
    Ok(())
}

fn section_word(kind: VarKind) -> Reserved
    ensures { result ≡ section_word kind }
{
    match kind {
        VarKind::State => Reserved::Var,
        VarKind::Input => Reserved::Ivar,
        VarKind::Frozen => Reserved::Frozenvar,
    }
}

fn put_constants(out: &mut Text, names: &Names) -> Result<(), NoMemory>
    ensures { OnOk result (out.new ≡ out.old ++ spaced (TokenKind.Reserved Reserved.Constants ∷ (parted Sign.Comma false (map ident names.now) ++ TokenKind.Sign Sign.Semicolon ∷ []))) }
{
    put_word(out, Reserved::Constants)?;
    put_names(out, Sign::Comma, false, names)?;
    put_sign(out, Sign::Semicolon)
}

// The name of an invariant, if it has one.
fn put_spec_name(out: &mut Text, name: &Option<Name>) -> Result<(), NoMemory>
    ensures { OnOk result (out.new ≡ out.old ++ spaced (spec_name_kinds name.now)) }
{
    match name {
        None => Ok(()),
        Some(name) => {
            put_word(out, Reserved::Name)?;
            put_ident(out, name)?;
            put_sign(out, Sign::Assign)
        }
    }
}

fn put_section(out: &mut Text, word: Reserved, formula: &Expr) -> Result<(), NoMemory>
    ensures { OnOk result (out.new ≡ out.old ++ spaced (TokenKind.Reserved word ∷ formula_kinds (plain formula.now))) }
{
    put_word(out, word)?;
    put_formula(out, formula)
}

fn put_element(out: &mut Text, element: &Element) -> Result<(), NoMemory>
    ensures { OnOk result (out.new ≡ out.old ++ spaced (element_kinds (plain_element element.now))) }
{
    match element {
        Element::Vars(kind, items) => {
            put_word(out, section_word(*kind))?;
            put_items(out, items)
        }
        Element::Defines(definitions) => {
            put_word(out, Reserved::Define)?;
            put_definitions(out, definitions)
        }
        Element::Constants(names) => put_constants(out, names),
        Element::Assigns(assignments) => {
            put_word(out, Reserved::Assign)?;
            put_assignments(out, assignments)
        }
        Element::Init(formula) => put_section(out, Reserved::Init, formula),
        Element::Trans(formula) => put_section(out, Reserved::Trans, formula),
        Element::Invar(formula) => put_section(out, Reserved::Invar, formula),
        Element::Spec(name, formula) => {
            put_word(out, Reserved::Invarspec)?;
            put_spec_name(out, name)?;
            put_formula(out, formula)
        }
    }
}

fn put_elements(out: &mut Text, elements: &Elements) -> Result<(), NoMemory>
    ensures { OnOk result (out.new ≡ out.old ++ spaced (flat_map element_kinds (map plain_element elements.now))) }
{
    for element in elements {
        put_element(out, element)?;
    }
    Ok(())
}

fn put_parameter_names(out: &mut Text, parameters: &Parameters) -> Result<(), NoMemory>
    ensures { OnOk result (out.new ≡ out.old ++ spaced (parted Sign.Comma false (map ident (map parameter_name parameters.now)))) }
{
    let mut behind = false;
    for parameter in parameters {
        put_wanted(out, behind, Sign::Comma)?;
        put_ident(out, &parameter.name)?;
        behind = true;
    }
    Ok(())
}

fn put_parameters(out: &mut Text, parameters: &Parameters) -> Result<(), NoMemory>
    ensures { OnOk result (out.new ≡ out.old ++ spaced (parameter_kinds parameters.now)) }
{
    if parameters.len() == 0 {
        return Ok(());
    }
    put_sign(out, Sign::Open)?;
    put_parameter_names(out, parameters)?;
    put_sign(out, Sign::Close)
}

// A module after its first word.
fn put_rest(out: &mut Text, declared: &Module) -> Result<(), NoMemory>
    ensures { OnOk result (out.new ≡ out.old ++ spaced (rest_kinds (plain_module declared.now))) }
{
    put_ident(out, &declared.name)?;
    put_parameters(out, &declared.parameters)?;
    put_elements(out, &declared.elements)
}

// A module, with a blank before it unless it is the first.
fn put_module(out: &mut Text, behind: bool, declared: &Module) -> Result<(), NoMemory>
    ensures { OnOk result (out.new ≡ out.old ++ written behind (module_kinds (plain_module declared.now))) }
{
    put_first(out, behind, Reserved::Module)?;
    put_rest(out, declared)
}

// Returns the printed form of a model.
fn source_text(alloc: Global, source: &Source) -> Result<Text, NoMemory>
    ensures { IfOk result (λ text. text ≡ printed (plain_source source.now)) }
{
    let mut out = Text::new(alloc);
    let mut behind = false;
    for declared in &source.modules {
        put_module(&mut out, behind, declared)?;
        behind = true;
    }
    Ok(out)
}

/// Returns the text of a model in a canonical spelling.
///
/// There are single blanks between the tokens and no line ends. Brackets appear only where the grammar needs them; a
/// `;` wherever one is allowed. An empty list of parameters has no brackets, and `word` stands without `unsigned`. A
/// word literal is `0ud`, its width, `_` and its decimal digits (NuSMV 2.6 User Manual, 2.2 and 2.3). The layout is our
/// own.
pub fn print(alloc: Global, source: &Source) -> Result<Text, NoMemory>
    // What is printed.
    ensures text { IfOk result (λ text. text ≡ printed (plain_source source.now)) }
    // It reads back to the same model but for places and counts of tokens, where some text spells the model.
    ensures again { IfOk result (ReadsBack (plain_source source.now)) }
{
    printed_is_read();
    source_text(alloc, source)
}

/// Proves that the printed tokens spell the same tree again, except for places and counts of tokens.
///
/// For an expression that some tokens spell, the printed tokens spell one that differs only in places. A model may also
/// differ in its counts of tokens. Models with no other difference have the same printed form.
pub fn printed_spells()
    ensures expressions { (levels : List Level) (t : Tree) (xs ys : List Token) → Spells levels t xs → kinds ys ≡ tree_kinds t → SpellsSame all_levels t ys }
    ensures sources { (source : PlainSource) (end place : Place) (xs ys : List Token) → SpellsSource source end xs → kinds ys ≡ source_kinds source → SpellsSameSource source place ys }
    ensures one_text { (source model : PlainSource) → unplaced_source source ≡ unplaced_source model → printed source ≡ printed model }
{}

/// Proves that the levels by which the printer sets brackets are those of the grammar.
pub fn ranks_are_levels()
    // The rank of a level is its place among all levels.
    ensures ranks { (l : Level) → drop (rank l) all_levels ≡ l ∷ drop (suc (rank l)) all_levels }
    // An operator is printed as the token that the grammar reads as this operator.
    ensures operators { (o : Infix) → infix_of (class_of o) (infix_kind o) ≡ Some o }
    // A chain has the rank of the level whose operators join it in the grammar.
    ensures chains { (c : OperatorClass) (k : TokenKind) (o : Infix) (p : Place) (t u : Tree) (ls : Links) → infix_of c k ≡ Some o → tree_rank (chain p t (link o u ls)) ≡ rank (Level.Chain c) }
{}

/// Proves that the printed form of a parsed model is lexed and parsed to the same model again, except for places and
/// counts of tokens.
pub fn printed_is_read()
    ensures { (source : PlainSource) (end : Place) (text : List ℕ) (xs : List Token) → Lexes text xs → SpellsSource source end xs → IsReadAgain source (printed source) }
{
    printed_is_lexed();
}
