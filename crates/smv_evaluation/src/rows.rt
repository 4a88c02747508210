// Values stored during the evaluation of an expression, found by instance and name without a search.
ghost use Rattle.std.specs.Prelude.{◌≡◌, ◌<◌, List, ℕ, Some, None, map, bytes_eq, if◌then◌else◌, IfOk, OnOk};
ghost use Rattle.smv_meaning.specs.Values.{given};
ghost use Rattle.smv_meaning.specs.Names.{dotted_at};
ghost use Rattle.smv_meaning.specs.Meaning.{is_input};
ghost use Rattle.smv_meaning.specs.Instances.{dotted};
ghost use Rattle.name_maps.specs.Maps.{named_in};
ghost use Rattle.smv_evaluation.specs.Rows.{found_value, at_dotted, AreGiven, cached_value, row_reads, IsCached};
ghost use Rattle.smv_instances.specs.View.{instance_plain};
ghost use Rattle.smv_operators.specs.View.{seen_value};
ghost use Rattle.smv_evaluation.specs.View.{stated};

use crate::dotted::Dotted;
use name_maps::InstanceMap;
use smv_instances::{Table, Target};
use smv_meaning::{State, Value};
use smv_operators::{Seen, borrow_value, copy_value, no_seen};
use smv_text::{Path, VarKind};
use std::alloc::Global;
use std::collections::HashMap;
use text_core::NoMemory;

/// Values, by the number of an instance and a name in it.
pub type Cache<'a> = InstanceMap<'a, Seen<'a>>;

/// Values, by the dotted names of variables.
pub type Named<'a> = HashMap<Dotted<'a>, &'a Value>;

/// The values of a state or a label, if given, found by dotted names without a search.
#[derive(Drop)]
pub struct Values<'a> {
    pub given: Option<&'a State>,
    pub named: Named<'a>,
}

/// The values of names in a state: those of its variables, and those of evaluated definitions and actuals.
#[derive(Drop)]
pub struct Row<'a> {
    pub state: Values<'a>,
    pub bodies: Cache<'a>,
}

fn seen_under<'a>(kept: &Cache<'a>, i: usize, x: &[u8]) -> Option<Seen<'a>>
    ensures { result ≡ named_in kept.now i x.now }
{
    match kept.get(&(i, x)) {
        None => None,
        Some(value) => Some(copy_value(value)),
    }
}

// ---- variables

fn nothing_named<'a>(alloc: Global) -> Named<'a>
    ensures { (p : List ℕ) (x : List ℕ) → at_dotted result p x ≡ None }
{
    HashMap::new(alloc)
}

fn put_named<'a>(names: &mut Named<'a>, name: &'a [u8], value: &'a Value) -> Result<(), NoMemory>
    ensures { OnOk result ((p : List ℕ) (x : List ℕ) → at_dotted names.new p x ≡ (if bytes_eq name.now (dotted p x) then Some value.entry else at_dotted names.old p x)) }
{
    match names.insert(Dotted { path: &[], name }, value) {
        Ok(_) => Ok(()),
        Err(_) => Err(NoMemory),
    }
}

// The values of a state. Where a name occurs twice, the first value counts.
fn by_name<'a>(alloc: Global, state: &'a State) -> Result<Named<'a>, NoMemory>
    ensures { IfOk result (λ m. (p : List ℕ) (x : List ℕ) → found_value (at_dotted m p x) ≡ given state.now (dotted p x)) }
{
    let mut names = nothing_named(alloc);
    let mut k = state.len();
    while k > 0 {
        k -= 1;
        let entry = state.at(k);
        put_named(&mut names, entry.name.bytes(), &entry.value)?;
    }
    Ok(names)
}

fn value_named<'a>(names: &Named<'a>, path: &[u8], name: &[u8]) -> Seen<'a>
    ensures { seen_value result ≡ found_value (at_dotted names.now path.now name.now) }
{
    match names.get(&Dotted { path, name }).copied() {
        None => no_seen(),
        Some(value) => borrow_value(value),
    }
}

/// Returns the values of a state or a label, or no values where none is given.
pub fn values_of<'a>(alloc: Global, given: Option<&'a State>) -> Result<Values<'a>, NoMemory>
    ensures given { IfOk result (λ v. v.given ≡ given.entry) }
    ensures right { IfOk result AreGiven }
{
    let named = match given {
        None => nothing_named(alloc),
        Some(state) => by_name(alloc, state)?,
    };
    Ok(Values { given, named })
}

// The value of a variable in a state or a label.
fn value_of_variable<'a>(table: &Table<'a>, values: &Values<'a>, i: usize, x: &[u8]) -> Seen<'a>
    requires { AreGiven values.now }
    ensures { seen_value result ≡ stated values.now.given (dotted_at (map instance_plain table.now) i x.now) }
{
    if i < table.len() {
        value_named(&values.named, table.at(i).path.bytes(), x)
    } else {
        value_named(&values.named, &[], x)
    }
}

// The value of a variable: an input is read in the label, any other variable in the state.
fn value_of_kind<'a>(
    table: &Table<'a>,
    kind: VarKind,
    i: usize,
    x: &[u8],
    row: &Row<'a>,
    label: &Values<'a>,
) -> Seen<'a>
    requires state { AreGiven row.now.state }
    requires label { AreGiven label.now }
    ensures { seen_value result ≡ (if is_input kind then stated label.now.given (dotted_at (map instance_plain table.now) i x.now) else stated row.now.state.given (dotted_at (map instance_plain table.now) i x.now)) }
{
    match kind {
        VarKind::Input => value_of_variable(table, label, i, x),
        VarKind::State => value_of_variable(table, &row.state, i, x),
        VarKind::Frozen => value_of_variable(table, &row.state, i, x),
    }
}

// ---- names

fn value_of_body<'a>(row: &Row<'a>, i: usize, x: &[u8]) -> Seen<'a>
    ensures { seen_value result ≡ cached_value (named_in row.now.bodies i x.now) }
{
    match seen_under(&row.bodies, i, x) {
        None => no_seen(),
        Some(value) => value,
    }
}

/// Returns the value of a path: of a variable in the state or the label, or the stored value of a definition or an
/// actual.
pub fn value_of_path<'a>(
    table: &Table<'a>,
    i: usize,
    path: &'a Path,
    row: &Row<'a>,
    label: &Values<'a>,
) -> Seen<'a>
    requires { IsCached table.now i row.now label.now path.now }
    ensures { seen_value result ≡ row_reads table.now i row.now label.now path.now }
{
    match table.target(i, path) {
        Target::Variable(k, x, kind, _) => value_of_kind(table, kind, k, x, row, label),
        Target::Body(k, x, _, _) => value_of_body(row, k, x),
        Target::Instance(_) => no_seen(),
        Target::Symbol(s) => Seen::Symbol(s),
        Target::Cyclic => no_seen(),
        Target::Missing => no_seen(),
    }
}
