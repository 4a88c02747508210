// The declarations that a response is read against.

use moxi_terms::{Scope, Variables};
use std::marker::Model;
use text_core::{Name, Names};

/// The declarations that a response is printed and read against: the name of the checked system, the scope with its
/// enumeration sorts, the variables in order (hidden ones included), and the names of the queries.
#[derive(Drop)]
pub struct Declarations<'a> {
    pub system: &'a Name,
    pub scope: &'a Scope,
    pub variables: &'a Variables,
    pub queries: &'a Names,
}

impl<'a> Model for Declarations<'a> {
    ghost use Rattle.moxi_trace.specs.Traces.{Declared};

    ghost Value = { Declared };

    ghost view = { λ d. record { system = d.system.now; enumerations = d.scope.now.enumerations; variables = d.variables.now; queries = d.queries.now } };
}
