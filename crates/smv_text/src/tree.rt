// Syntax trees of a model: expressions, types, declarations, elements, modules (NuSMV 2.6 User Manual, chapter 2).

use crate::operators::{Function, Infix, Prefix};
use text_core::{List, Name, Names, Place};
use word_core::Word;

/// A possibly qualified name: `self` or an identifier, then the identifiers that follow dots (NuSMV 2.6 User Manual,
/// 2.3).
///
/// Its place is the place of its first token.
#[derive(Drop)]
pub struct Path {
    /// Whether the path begins with `self`.
    pub from_self: bool,
    /// The identifiers, in order.
    pub names: Names,
    pub place: Place,
}

/// An expression, and the place of its first token.
///
/// Round brackets around the whole expression are not part of it.
#[cycle(tree)]
#[derive(Drop)]
pub struct Expr {
    pub place: Place,
    pub shape: Shape,
}

/// The shape of an expression (NuSMV 2.6 User Manual, 2.2).
#[cycle(tree)]
#[derive(Drop)]
pub enum Shape {
    /// `TRUE`
    True,
    /// `FALSE`
    False,
    /// A decimal number, below 2^62.
    Number(u64),
    /// A word literal.
    Literal(Word),
    /// The name of a variable, a definition, a parameter, an instance or a symbol.
    Name(Path),
    /// A prefix operator, the number of its repetitions (at least one), and its operand.
    Prefix(Prefix, u32, Box<Expr>),
    /// A chain of operators of one level: its first operand, and at least one link.
    Chain(Box<Expr>, Links),
    /// `c ? v : w`: at least one condition with its value, and the value after the last colon.
    Choice(Branches, Box<Expr>),
    /// `case c : v; esac`: at least one condition with its value.
    Case(Branches),
    /// `w[h:l]`: the word, the high bit, the low bit.
    Select(Box<Expr>, u64, u64),
    /// A built-in function with at least one argument.
    Call(Function, Exprs),
    /// `next(e)`
    Next(Box<Expr>),
    /// `{a, b}`: at least one element.
    Set(Exprs),
    /// `l..h`: both bounds are greater than -2^62 and less than 2^62.
    Range(i64, i64),
}

/// An operator of a chain, and its right operand.
#[cycle(tree)]
#[derive(Drop)]
pub struct Link {
    pub op: Infix,
    pub operand: Expr,
}

/// A condition, and the value that applies where it is true.
#[cycle(tree)]
#[derive(Drop)]
pub struct Branch {
    pub when: Expr,
    pub value: Expr,
}

/// A list of expressions, in order.
pub type Exprs = Vec<Expr>;

/// The links of a chain, in order.
pub type Links = Vec<Link>;

/// A list of branches, in order.
pub type Branches = Vec<Branch>;

/// A member of an enumeration.
#[derive(Drop)]
pub enum Member {
    /// A symbol.
    Symbol(Name),
    /// An integer greater than -2^62 and less than 2^62.
    Integer(i64),
}

/// The type of a variable, or the module and the actual parameters of an instance (NuSMV 2.6 User Manual, 2.3).
#[derive(Drop)]
pub enum Domain {
    /// `boolean`
    Boolean,
    /// `{a, b, 1}`: at least one member.
    Members(Members),
    /// `l..h`
    Between(i64, i64),
    /// `word[n]`: the width as written.
    Bits(u64),
    /// The module's name and the actual parameters.
    Instance(Name, Exprs),
}

/// A declared variable or instance: its name, its type or module, and the places of both.
#[derive(Drop)]
pub struct Item {
    pub name: Name,
    pub place: Place,
    pub domain: Domain,
    pub domain_place: Place,
}

/// The kind of a variable (NuSMV 2.6 User Manual, 2.3).
#[derive(Clone, Copy, PartialEq, Eq)]
pub enum VarKind {
    /// `VAR`
    State,
    /// `IVAR`
    Input,
    /// `FROZENVAR`
    Frozen,
}

/// A definition: its name, the name's place, and its body.
#[derive(Drop)]
pub struct Definition {
    pub name: Name,
    pub place: Place,
    pub body: Expr,
}

/// The states to which an assignment applies (NuSMV 2.6 User Manual, 2.3).
#[derive(Clone, Copy, PartialEq, Eq)]
pub enum When {
    /// Every state: `x := e`.
    Always,
    /// The first state: `init(x) := e`.
    First,
    /// Every following state: `next(x) := e`.
    Following,
}

/// An assignment to a variable.
#[derive(Drop)]
pub struct Assignment {
    pub when: When,
    pub target: Path,
    pub body: Expr,
}

/// A section of a module's body (NuSMV 2.6 User Manual, 2.3).
#[derive(Drop)]
pub enum Element {
    /// `VAR`, `IVAR`, `FROZENVAR`
    Vars(VarKind, Items),
    /// `DEFINE`
    Defines(Definitions),
    /// `CONSTANTS`: at least one symbol.
    Constants(Names),
    /// `ASSIGN`
    Assigns(Assignments),
    /// `INIT`
    Init(Expr),
    /// `TRANS`
    Trans(Expr),
    /// `INVAR`
    Invar(Expr),
    /// `INVARSPEC`, with its `NAME` if it has one.
    Spec(Option<Name>, Expr),
}

/// A formal parameter.
#[derive(Drop)]
pub struct Parameter {
    pub name: Name,
    pub place: Place,
}

/// A module: its name, the name's place, its parameters, its body, and the number of tokens of the body.
///
/// The body's tokens are those after the module's name and parameters and before the next module, with all brackets and
/// separators.
#[derive(Drop)]
pub struct Module {
    pub name: Name,
    pub place: Place,
    pub parameters: Parameters,
    pub elements: Elements,
    pub tokens: u32,
}

/// A model: its modules, and the place of the end of its text.
#[derive(Drop)]
pub struct Source {
    pub modules: Modules,
    pub end: Place,
}

/// The members of an enumeration, in order.
pub type Members = List<Member>;

/// The variables of a section, in order.
pub type Items = List<Item>;

/// The definitions of a section, in order.
pub type Definitions = List<Definition>;

/// The assignments of a section, in order.
pub type Assignments = List<Assignment>;

/// The sections of a module, in order.
pub type Elements = List<Element>;

/// The parameters of a module, in order.
pub type Parameters = List<Parameter>;

/// The modules of a model, in order.
pub type Modules = List<Module>;
