// The numbers of a model's items and symbols, and the leaves that paths translate to.
ghost use Rattle.std.specs.Prelude.{◌≡◌, ◌<◌, ◌^◌, true, length, [], List, Some, map, OnOk, IfOk, IfSome};
ghost use Rattle.smv_text.specs.declared.tree.VarKind.TheVariants as OfVarKind;
ghost use Rattle.smv_meaning.specs.Instances.{Instance as Specified};
ghost use Rattle.smv_meaning.specs.Meaning.{is_input};
ghost use Rattle.smv_meaning.specs.Names.{dotted_at};
ghost use Rattle.name_maps.specs.Rows.{row_named};
ghost use Rattle.smv_instances.specs.View.{instance_plain, found_plain};
ghost use Rattle.smv_items.specs.FlatItems.{is_variable_as, path_of, leaf_found, item_leaf, symbol_leaf, origins_of, symbols_of};
ghost use Rattle.smv_items.specs.FlatOrigins.{origin_plain, content_plain, input_count, leaf_plain, number_kept, number_as, path_number, AreInstanceNumbers, AreNumbers, IsNoted, ArePathsNoted, IsItemNoted};

use crate::origins::{Content, Origin, dotted_path};
use crate::symbols::Symbols;
use name_maps::{
    InstanceRows, NameRows, add_first_in, add_row, add_row_in, no_rows, no_rows_in, row_value,
    row_value_in,
};
use smv_instances::{Table, Target};
use smv_text::VarKind;
use std::alloc::Global;
use text_core::{Name, NoMemory};

/// The numbers of bodies, by instance and name.
pub type Bodies<'a> = InstanceRows<'a, usize>;

/// The numbers of variables by dotted path, with inputs apart from other variables.
#[derive(Drop)]
pub struct PathNumbers<'n> {
    pub states: NameRows<'n, usize>,
    pub inputs: NameRows<'n, usize>,
}

/// The number of a variable, tagged by whether it is an input.
#[derive(Clone, Copy)]
pub enum VariableNumber {
    State(usize),
    Input(usize),
}

/// The numbers of variables, by instance and name.
pub type Variables<'a> = InstanceRows<'a, VariableNumber>;

/// The numbers of items: bodies by instance and name, and variables by dotted path.
///
/// Variables are also stored by instance and name, so that a lookup need not build a dotted path.
#[derive(Drop)]
pub struct ItemNumbers<'a, 'n> {
    pub bodies: Bodies<'a>,
    pub paths: PathNumbers<'n>,
    pub variables: Variables<'a>,
}

// The number of a dotted path: the first one stored counts.
fn first_number<'n>(
    numbers: &mut NameRows<'n, usize>,
    path: &'n [u8],
    k: usize,
) -> Result<usize, NoMemory>
    ensures noted { OnOk result (IsNoted true path.now k numbers.old numbers.new) }
    ensures number { IfOk result (λ n. row_named numbers.new path.now ≡ Some n) }
{
    match row_value(numbers, path) {
        Some(n) => Ok(n),
        None => {
            add_row(numbers, path, k)?;
            Ok(k)
        }
    }
}

// Stores the dotted path of a variable, and returns its number.
fn note_path<'n>(
    paths: &mut PathNumbers<'n>,
    kind: VarKind,
    path: &'n [u8],
    k: usize,
) -> Result<usize, NoMemory>
    ensures noted { OnOk result (ArePathsNoted (is_input kind) path.now k paths.old paths.new) }
    ensures number { IfOk result (λ n. path_number paths.new (is_input kind) path.now ≡ Some n) }
{
    match kind {
        VarKind::State | VarKind::Frozen => first_number(&mut paths.states, path, k),
        VarKind::Input => first_number(&mut paths.inputs, path, k),
    }
}

// The number of a variable with this dotted path.
fn number_of_path(numbers: &PathNumbers, kind: VarKind, path: &[u8]) -> Option<usize>
    ensures { result ≡ path_number numbers.now (is_input kind) path.now }
{
    match kind {
        VarKind::State | VarKind::Frozen => row_value(&numbers.states, path),
        VarKind::Input => row_value(&numbers.inputs, path),
    }
}

fn number_as(kind: VarKind, k: usize) -> VariableNumber
    ensures { result ≡ number_as (is_input kind) k }
{
    match kind {
        VarKind::State | VarKind::Frozen => VariableNumber::State(k),
        VarKind::Input => VariableNumber::Input(k),
    }
}

// The stored number, where it is that of a variable of these kinds.
fn number_kept(number: Option<VariableNumber>, kind: VarKind) -> Option<usize>
    ensures { result ≡ number_kept (is_input kind) number }
{
    match number {
        None => None,
        Some(VariableNumber::State(k)) => match kind {
            VarKind::State | VarKind::Frozen => Some(k),
            VarKind::Input => None,
        },
        Some(VariableNumber::Input(k)) => match kind {
            VarKind::State | VarKind::Frozen => None,
            VarKind::Input => Some(k),
        },
    }
}

// Stores a variable's dotted path, and its number by the variable's instance and name.
fn note_variable<'a, 'n>(
    paths: &mut PathNumbers<'n>,
    variables: &mut Variables<'a>,
    origin: &Origin<'a>,
    kind: VarKind,
    path: &'n [u8],
    k: usize,
) -> Result<(), NoMemory>
    ensures noted { OnOk result (ArePathsNoted (is_input kind) path.now k paths.old paths.new) }
    ensures kept { (t : List Specified) → path.now ≡ path_of t (origin_plain origin.now) → AreInstanceNumbers t paths.old variables.old → OnOk result (AreInstanceNumbers t paths.new variables.new) }
{
    let n = note_path(paths, kind, path, k)?;
    add_row_in(
        variables,
        origin.instance as usize,
        origin.name,
        number_as(kind, n),
    )
}

// Stores item k, which has this dotted path.
fn note_item<'a, 'n>(
    numbers: &mut ItemNumbers<'a, 'n>,
    origin: &Origin<'a>,
    path: &'n [u8],
    k: usize,
) -> Result<(), NoMemory>
    ensures { OnOk result (IsItemNoted (origin_plain origin.now) path.now k numbers.old numbers.new) }
{
    match origin.content {
        Content::Variable(kind, _) => note_variable(
            &mut numbers.paths,
            &mut numbers.variables,
            origin,
            kind,
            path,
            k,
        ),
        Content::Definition(_, _) => {
            add_first_in(
                &mut numbers.bodies,
                origin.instance as usize,
                origin.name,
                k,
            )
        }
        Content::Actual(_, _) => {
            add_first_in(
                &mut numbers.bodies,
                origin.instance as usize,
                origin.name,
                k,
            )
        }
    }
}

fn is_input(content: &Content) -> bool
    ensures { result ≡ is_variable_as OfVarKind.Input (content_plain content.now) }
{
    match content {
        Content::Variable(kind, _) => match kind {
            VarKind::State | VarKind::Frozen => false,
            VarKind::Input => true,
        },
        Content::Definition(_, _) => false,
        Content::Actual(_, _) => false,
    }
}

// The number of inputs. Most models have few or none, and need little room for them.
fn input_count(origins: &[Origin]) -> usize
    ensures { result ≡ input_count (map origin_plain origins.now) }
{
    let mut count = 0;
    for origin in origins {
        if is_input(&origin.content) {
            count += 1;
        }
    }
    count
}

// An empty table of numbers, with room for all items.
fn no_numbers<'a, 'n>(
    alloc: Global,
    origins: &[Origin<'a>],
) -> Result<ItemNumbers<'a, 'n>, NoMemory>
    ensures { IfOk result (λ ns. (t : List Specified) → AreNumbers t [] ns) }
{
    let bodies = no_rows_in(alloc, origins.len())?;
    let states = no_rows(alloc, origins.len())?;
    let inputs = no_rows(alloc, input_count(origins))?;
    let variables = no_rows_in(alloc, origins.len())?;
    Ok(ItemNumbers {
        bodies,
        paths: PathNumbers { states, inputs },
        variables,
    })
}

/// Returns the numbers of all items, given their origins and their dotted paths.
pub fn numbers_of<'a, 'n>(
    alloc: Global,
    origins: &[Origin<'a>],
    paths: &'n [Name],
) -> Result<ItemNumbers<'a, 'n>, NoMemory>
    requires { length paths.now ≡ length origins.now }
    ensures { (t : List Specified) → paths.now ≡ map (path_of t) (map origin_plain origins.now) → IfOk result (λ ns. AreNumbers t (map origin_plain origins.now) ns) }
{
    let mut numbers = no_numbers(alloc, origins)?;
    for (k, origin) in origins.iter().enumerate() {
        note_item(&mut numbers, origin, paths[k].bytes(), k)?;
    }
    Ok(numbers)
}

/// The translation of a path: the number of an item or of a symbol, or nothing.
#[derive(Clone, Copy, PartialEq, Eq)]
pub enum Leaf {
    Item(u32),
    Symbol(u32),
    Nothing,
}

fn item(k: Option<usize>) -> Leaf
    requires { IfSome k (λ n. n < 2 ^ 32) }
    ensures { leaf_plain result ≡ item_leaf k }
{
    match k {
        None => Leaf::Nothing,
        Some(k) => Leaf::Item(k as u32),
    }
}

fn symbol(k: Option<usize>) -> Leaf
    requires { IfSome k (λ n. n < 2 ^ 32) }
    ensures { leaf_plain result ≡ symbol_leaf k }
{
    match k {
        None => Leaf::Nothing,
        Some(k) => Leaf::Symbol(k as u32),
    }
}

// The number of a variable, stored by instance and name. Its dotted path is built only where none is stored.
fn variable_number<'a>(
    alloc: Global,
    table: &Table<'a>,
    numbers: &ItemNumbers,
    i: usize,
    x: &[u8],
    kind: VarKind,
) -> Result<Option<usize>, NoMemory>
    requires { AreInstanceNumbers (map instance_plain table.now) numbers.now.paths numbers.now.variables }
    ensures { IfOk result (λ k. k ≡ path_number numbers.now.paths (is_input kind) (dotted_at (map instance_plain table.now) i x.now)) }
{
    match number_kept(row_value_in(&numbers.variables, i, x), kind) {
        Some(k) => Ok(Some(k)),
        None => {
            let path = dotted_path(alloc, table, i, x)?;
            Ok(number_of_path(&numbers.paths, kind, path.bytes()))
        }
    }
}

/// Returns the translation of a path with this target.
#[tactic(auto, using(crate::proofs::NumberLemmas::variable_few, crate::proofs::NumberLemmas::body_few, crate::proofs::NumberLemmas::symbol_few))]
pub fn leaf_of<'a, 'n, 'p>(
    alloc: Global,
    table: &Table<'a>,
    numbers: &ItemNumbers<'a, 'n>,
    symbols: &Symbols,
    target: Target<'p>,
) -> Result<Leaf, NoMemory>
    requires numbers { AreNumbers (map instance_plain table.now) (origins_of (map instance_plain table.now)) numbers.now }
    requires symbols { symbols.now ≡ symbols_of (map instance_plain table.now) }
    requires few_items { length (origins_of (map instance_plain table.now)) < 2 ^ 32 }
    requires few_symbols { length symbols.now < 2 ^ 32 }
    ensures { IfOk result (λ l. leaf_plain l ≡ leaf_found (map instance_plain table.now) (found_plain (map instance_plain table.now) target.entry)) }
{
    match target {
        Target::Variable(j, x, kind, _) => {
            let number = variable_number(alloc, table, numbers, j, x, kind)?;
            Ok(item(number))
        }
        Target::Body(j, x, _, _) => Ok(item(row_value_in(&numbers.bodies, j, x))),
        Target::Instance(_) => Ok(Leaf::Nothing),
        Target::Symbol(x) => Ok(symbol(symbols.place(x))),
        Target::Cyclic => Ok(Leaf::Nothing),
        Target::Missing => Ok(Leaf::Nothing),
    }
}
