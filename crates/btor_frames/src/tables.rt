// The inits of states, the sources of words in later frames, and the arguments of bad and constraint lines, found once
// for all frames.
ghost use Rattle.std.specs.Prelude.{◌≡◌, ◌<◌, ◌++◌, List, length, get_or, slice_get, None, Some, IfOk, OnOk, if◌then◌else◌};
ghost use Rattle.btor_tree.specs.Fits.{AreEarlier, operands};
ghost use Rattle.btor_frames.specs.Tables.{has_role, HoldsNone, HoldsValues, IsFoundIn, line_operands, noted};

use crate::sources::{Source, sources};
use btor_tree::{Arg, Args, Line, LineOp, Nodes};
use std::alloc::Global;
use std::marker::Model;
use text_core::{List, NoMemory};

// The kinds of line whose arguments are kept in tables.
#[derive(Clone, Copy)]
pub enum Role {
    Init,
    Next,
    Bad,
    Constraint,
}

/// The init of each state, by the state's index, the source of each line's word in later frames, and the arguments of
/// bad and constraint lines in order.
#[derive(Drop)]
pub struct Tables {
    inits: Vec<Option<Arg>>,
    sources: List<Source>,
    bads: List<Arg>,
    constraints: List<Arg>,
}

impl Model for Tables {
    ghost use Rattle.btor_frames.specs.Tables.{Found};

    ghost Value = { Found };

    ghost view = { λ a. record { inits = a.inits.items; sources = a.sources; bads = a.bads; constraints = a.constraints } };
}

impl Tables {
    /// Returns the tables of these lines.
    pub fn of(alloc: Global, nodes: &Nodes) -> Result<Tables, NoMemory>
        ensures { IfOk result (λ tables. IsFoundIn nodes.now tables) }
    {
        let nexts = values(alloc, nodes, Role::Next)?;
        Ok(Tables {
            inits: values(alloc, nodes, Role::Init)?,
            sources: sources(alloc, nodes, &nexts)?,
            bads: role_operands(alloc, nodes, Role::Bad)?,
            constraints: role_operands(alloc, nodes, Role::Constraint)?,
        })
    }

    /// Returns the value of the init of the state at index `s`.
    ///
    /// Returns None where the state has no init.
    pub fn init(&self, s: usize) -> Option<Arg>
        requires { s < length self.now.inits }
        ensures { result ≡ get_or self.now.inits s None }
    {
        self.inits[s]
    }

    /// Returns the source of the word of the line at index `i` in frames after frame 0.
    pub fn source(&self, i: usize) -> Source
        requires { i < length self.now.sources }
        ensures { slice_get self.now.sources i ≡ Some result }
    {
        *self.sources.at(i)
    }

    /// Returns the arguments of the bad lines.
    pub fn bads(&self) -> &List<Arg>
        ensures { result.now ≡ self.now.bads }
    {
        &self.bads
    }

    /// Returns the arguments of the constraint lines.
    pub fn constraints(&self) -> &List<Arg>
        ensures { result.now ≡ self.now.constraints }
    {
        &self.constraints
    }
}

// Whether the line has this role.
fn has_role(role: Role, op: &LineOp) -> bool
    ensures { result ≡ has_role role op.now }
{
    match role {
        Role::Init => matches!(op, LineOp::Init),
        Role::Next => matches!(op, LineOp::Next),
        Role::Bad => matches!(op, LineOp::Bad),
        Role::Constraint => matches!(op, LineOp::Constraint),
    }
}

// The value that the lines of a role give to each state, by the state's index.
fn values(alloc: Global, nodes: &Nodes, role: Role) -> Result<Vec<Option<Arg>>, NoMemory>
    ensures { IfOk result (λ values. HoldsValues (has_role role) nodes.now values.items) }
{
    let mut values = no_values(alloc, nodes.len())?;
    for line in nodes.as_slice() {
        note_value(&mut values, role, line);
    }
    Ok(values)
}

// A list of n empty entries.
fn no_values(alloc: Global, n: usize) -> Result<Vec<Option<Arg>>, NoMemory>
    ensures { IfOk result (λ values. HoldsNone n values.items) }
{
    let mut values = Vec::new(alloc);
    for _i in 0..n {
        values.push(None)?;
    }
    Ok(values)
}

// Enters the value that a line gives to a state, where the line has the role and the state has no value yet.
fn note_value(values: &mut Vec<Option<Arg>>, role: Role, line: &Line)
    requires { AreEarlier (length values.old.items) line.now.args }
    ensures { values.new.items ≡ (if has_role role line.now.op then noted values.old.items line.now.args else values.old.items) }
{
    if has_role(role, &line.op) && line.args.len() == 2 {
        let state = line.args.at(0).line as usize;
        let value = *line.args.at(1);
        values[state] = values[state].or(Some(value));
    }
}

// The arguments of the lines with a role, in order.
fn role_operands(alloc: Global, nodes: &Nodes, role: Role) -> Result<List<Arg>, NoMemory>
    ensures { IfOk result (λ args. args ≡ operands (has_role role) nodes.now) }
{
    let mut args = List::new(alloc);
    for line in nodes {
        add_operands(&mut args, role, line)?;
    }
    Ok(args)
}

// Appends the arguments of a line, where it has the role.
fn add_operands(args: &mut List<Arg>, role: Role, line: &Line) -> Result<(), NoMemory>
    ensures { OnOk result (args.new ≡ args.old ++ line_operands (has_role role) line.now) }
{
    if has_role(role, &line.op) {
        add_all(args, &line.args)?;
    }
    Ok(())
}

// Appends arguments.
fn add_all(args: &mut List<Arg>, more: &Args) -> Result<(), NoMemory>
    ensures { OnOk result (args.new ≡ args.old ++ more.now) }
{
    for k in 0..more.len() {
        args.push(*more.at(k))?;
    }
    Ok(())
}
