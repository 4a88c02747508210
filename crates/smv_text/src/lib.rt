//! Tokens and syntax trees of SMV models, and the relation between the two.
#![tactic(auto)]

mod level;
mod operators;
mod token;
mod tree;

pub use level::{LEVELS, Level, OperatorClass};
pub use operators::{
    Function, Infix, Prefix, class_of, function_at, function_word, infix_at, infix_bytes,
};
pub use token::{Reserved, Sign, Token, TokenKind, Tokens, sign_bytes, word_bytes};
pub use tree::{
    Assignment, Assignments, Branch, Branches, Definition, Definitions, Domain, Element, Elements,
    Expr, Exprs, Item, Items, Link, Links, Member, Members, Module, Modules, Parameter, Parameters,
    Path, Shape, Source, VarKind, When,
};
