// The parts of commands: attributes, lists of variables, uses of systems, queries.

use moxi_terms::Sort;
use text_core::{List, Name, Numbers, Place};

/// The purpose of an attribute.
#[derive(Clone, Copy)]
pub enum Key {
    Input,
    Output,
    Local,
    Init,
    Trans,
    Inv,
    Subsystem,
    Assumption,
    Current,
    Reachable,
    Query,
    Queries,
}

/// The command that contains the attributes.
#[derive(Clone, Copy)]
pub enum Command {
    System,
    Check,
}

/// The next part of an attribute list: a keyword, the value of one, or the forms that are skipped after an unknown keyword.
#[derive(Clone, Copy)]
pub enum Turn {
    AtKeyword,
    Behind(Key),
    Passing,
}

/// The name of a command.
#[derive(Clone, Copy)]
pub enum CommandName {
    Logic,
    PassedOver,
    Enumeration,
    Sort,
    Function,
    System,
    Check,
}

/// A declared variable or parameter, the place of its name, and its sort.
///
/// The sort is None where it fails a test.
#[derive(Drop)]
pub struct Declared {
    pub name: Name,
    pub place: Place,
    pub sort: Option<Sort>,
}

/// Variables that lists declare.
pub type Entries = List<Declared>;

/// The entries of a declared list, whether each of its forms is `(x S)`, and whether none of its tests fails.
#[derive(Drop)]
pub struct DeclaredList {
    pub entries: Entries,
    pub shaped: bool,
    pub whole: bool,
}

/// The lists of a system or a check.
#[derive(Drop)]
pub struct Lists {
    pub inputs: DeclaredList,
    pub outputs: DeclaredList,
    pub locals: DeclaredList,
}

/// The places of the lists of a check.
///
/// A missing list has the place of the check.
#[derive(Clone, Copy)]
pub struct ListPlaces {
    pub inputs: Place,
    pub outputs: Place,
    pub locals: Place,
}

/// An actual: the number of a variable, and its sort where it is known.
#[derive(Drop)]
pub struct Actual {
    pub number: u32,
    pub sort: Option<Sort>,
    pub place: Place,
}

/// A subsystem as written: its name, the name of its system with its place, and the actuals with the place of their list.
#[derive(Drop)]
pub struct Use {
    pub name: Name,
    pub target: Name,
    pub place: Place,
    pub list: Place,
    pub actuals: List<Actual>,
}

/// The numbers of the formulas that a query names, whether each is known, and whether one is primed.
#[derive(Drop)]
pub struct QueryNames {
    pub assumptions: Numbers,
    pub currents: Numbers,
    pub reachables: Numbers,
    pub known: bool,
    pub primed: bool,
}
