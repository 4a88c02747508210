// The declarations that a response is read against, with an index of names.
ghost use Rattle.std.specs.Prelude.{◌≡◌, ◌<◌, ◌≤◌, ◌^◌, ◌+◌, [], true, Some, None, length, IfOk};
ghost use Rattle.name_maps.specs.Names.{are_fresh, place_of};
ghost use Rattle.moxi_trace.specs.Traces.{HasOwnNames, names_of, is_within};
ghost use Rattle.moxi_trace.specs.Values.{value_of};
ghost use Rattle.moxi_trace.specs.Reading.{value_at};

use crate::declarations::Declarations;
use crate::tokens::Shape;
use crate::values::value_of;
use moxi_terms::{Datum, Variables};
use name_maps::{NameSet, NameTable, Successors};
use std::alloc::Global;
use std::marker::Model;
use text_core::NoMemory;

/// The most steps of a trace.
pub const MOST_STEPS: u64 = 100000;
/// The most values of a trace: its steps times its variables.
pub const MOST_VALUES: u64 = 4000000;

/// The declarations, with an index of the names of variables and queries.
#[derive(Drop)]
pub struct Table<'a> {
    declarations: &'a Declarations<'a>,
    names: NameTable,
    queries: NameSet,
}

impl<'a> Model for Table<'a> {
    ghost use Rattle.std.specs.Prelude.{◌≡◌, ◌≤◌, ◌^◌, length};
    ghost use Rattle.moxi_trace.specs.Traces.{Declared, names_of};

    ghost Value = { Declared };

    ghost view = { λ t. t.declarations.now };

    ghost invariant = { λ t. (t.names ≡ names_of t.declarations.now.variables) × ((t.queries ≡ t.declarations.now.queries) × (length t.queries ≤ 2 ^ 32)) };
}

// The names of the variables, which are distinct.
fn variable_names(alloc: Global, variables: &Variables) -> Result<NameTable, NoMemory>
    requires { are_fresh [] (names_of variables.now) ≡ true }
    ensures { IfOk result (λ names. names ≡ names_of variables.now) }
{
    let mut names = NameTable::new(alloc);
    for variable in variables {
        names.declare(alloc, variable.name.bytes())?;
    }
    Ok(names)
}

impl<'a> Table<'a> {
    /// Builds the table of these declarations.
    ///
    /// The names of the variables are distinct, and so are those of the queries.
    pub fn of(alloc: Global, declarations: &'a Declarations<'a>) -> Result<Table<'a>, NoMemory>
        requires { HasOwnNames declarations.now }
        ensures { IfOk result (λ table. table ≡ declarations.now) }
    {
        let names = variable_names(alloc, declarations.variables)?;
        let mut queries = NameSet::new(alloc);
        queries.declare_all(alloc, declarations.queries)?;
        Ok(Table {
            declarations,
            names,
            queries,
        })
    }

    /// Returns the name of the system.
    pub fn system(&self) -> &[u8]
        ensures { result.now ≡ self.now.system }
    {
        let declarations = self.declarations;
        declarations.system.bytes()
    }

    /// Returns the number of variables.
    pub fn len(&self) -> usize
        ensures { result ≡ length self.now.variables }
    {
        let declarations = self.declarations;
        declarations.variables.len()
    }

    /// Returns the names of the variables.
    pub fn names(&self) -> &NameTable
        ensures { result.now ≡ names_of self.now.variables }
    {
        &self.names
    }

    /// Returns the number of the variable with this name.
    pub fn variable(&self, successors: &mut Successors, name: &[u8]) -> Option<usize>
        ensures { result ≡ place_of (names_of self.now.variables) name.now }
    {
        successors.place(&self.names, name)
    }

    /// Returns the number of the query with this name.
    pub fn query(&self, name: &[u8]) -> Option<u32>
        ensures { result ≡ place_of self.now.queries name.now }
    {
        let place = self.queries.place(name)?;
        Some(place as u32)
    }

    /// Returns the value that a token spells for variable number k, or None where it spells none of that variable's sort.
    pub fn value(&self, k: usize, shape: Shape, bytes: &[u8]) -> Option<Datum>
        ensures { result ≡ value_at self.now k shape bytes.now }
    {
        let declarations = self.declarations;
        if k < declarations.variables.len() {
            let sort = declarations.variables.at(k).sort;
            value_of(declarations.scope, sort, shape, bytes)
        } else {
            None
        }
    }

    /// Returns whether a trace may have this many steps.
    pub fn is_within(&self, steps: u128) -> bool
        requires { steps < 2 ^ 64 + 1 }
        ensures { result ≡ is_within self.now steps }
    {
        steps <= u128::from(MOST_STEPS) && steps * (self.len() as u128) <= u128::from(MOST_VALUES)
    }
}
