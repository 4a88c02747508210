// References between definitions and actuals, and an order with each after those to which it refers.
ghost use Rattle.std.specs.Prelude.{◌≡◌, ◌<◌, ◌++◌, [], List, ℕ, map, IfOk, OnOk, unwrap_or};
ghost use Rattle.digraph.specs.Ordering.{IsOrder};
ghost use Rattle.smv_meaning.specs.Instances.{Instance as Specified};
ghost use Rattle.smv_meaning.specs.Phases.{body_here};
ghost use Rattle.smv_meaning.specs.Bodies.{placed_bodies, bodies_of, number_in, number_or, references_of, reference_graph, path_numbers, all_path_numbers};
ghost use Rattle.smv_references.specs.BodyOrders.{IsOrdering};
ghost use Rattle.smv_text.specs.View.{plain};
ghost use Rattle.smv_meaning.specs.Expressions.{paths_of};
ghost use Rattle.name_maps.specs.Rows.{row_in};
ghost use Rattle.smv_instances.specs.View.{instance_plain, local_plain};
ghost use Rattle.smv_references.specs.View.{body_plain, path_seen, key_of};

use crate::bodies::Body;
use crate::paths::paths_in;
use digraph::{Graph, Order, sort};
use name_maps::{InstanceRows, add_first_in, no_rows_in, row_value_in};
use smv_instances::{Known, Table};
use smv_text::{Expr, Path};
use std::alloc::Global;
use text_core::{List, Names, NoMemory};

/// The result of ordering the definitions and actuals of a model by their references.
#[derive(Drop)]
pub enum Ordering {
    /// None reaches itself. In this order of their numbers, each comes after those to which it refers.
    Ordered(List<usize>),
    /// The number of the first one that reaches itself.
    Cycle(usize),
}

/// The numbers of definitions and actuals, by instance and name.
pub type BodyNumbers<'a> = InstanceRows<'a, usize>;

/// Returns the number of each definition and actual: the place of the first one with its instance and name.
pub fn numbers_of<'a>(alloc: Global, bodies: &[Body<'a>]) -> Result<BodyNumbers<'a>, NoMemory>
    ensures { IfOk result (λ m. (i : ℕ) (x : List ℕ) → row_in m i x ≡ number_in (map key_of bodies.now) (i, x)) }
{
    let mut numbers = no_rows_in(alloc, bodies.len())?;
    for (k, body) in bodies.iter().enumerate() {
        add_first_in(&mut numbers, body.instance, body.name, k)?;
    }
    Ok(numbers)
}

fn number<'a>(numbers: &BodyNumbers<'a>, i: usize, x: &[u8]) -> usize
    ensures { result ≡ unwrap_or (row_in numbers.now i x.now) 0 }
{
    match row_value_in(numbers, i, x) {
        None => 0,
        Some(k) => k,
    }
}

// Adds the number of a name that is a definition or an actual, given the meaning of the name in its instance.
fn note<'a>(
    numbers: &BodyNumbers<'a>,
    i: usize,
    x: &[u8],
    known: Known<'a>,
    row: &mut List<usize>,
) -> Result<(), NoMemory>
    ensures { (t : List Specified) → ((j : ℕ) (y : List ℕ) → row_in numbers.now j y ≡ number_in (bodies_of t) (j, y)) → OnOk result (row.new ≡ row.old ++ map (number_or (bodies_of t)) (body_here i x.now (local_plain known.entry))) }
{
    match known {
        Known::Alias(_, _) => row.push(number(numbers, i, x))?,
        Known::Body(_, _) => row.push(number(numbers, i, x))?,
        Known::Variable(_, _) => {}
        Known::Instance => {}
        Known::Nothing => {}
    }
    Ok(())
}

// Adds the numbers of the definitions and actuals on a path.
#[tactic(auto, using(smv_meaning::specs::laws::Lists::front_is, smv_meaning::specs::laws::Lists::end_is, crate::proofs::ReferenceLemmas::path_numbers_none, crate::proofs::ReferenceLemmas::path_numbers_last, crate::proofs::ReferenceLemmas::path_numbers_more))]
fn add_path_numbers<'a>(
    table: &Table<'a>,
    numbers: &BodyNumbers<'a>,
    i: usize,
    names: &'a Names,
    row: &mut List<usize>,
) -> Result<(), NoMemory>
    requires { (i : ℕ) (x : List ℕ) → row_in numbers.now i x ≡ number_in (bodies_of (map instance_plain table.now)) (i, x) }
    ensures { OnOk result (row.new ≡ row.old ++ path_numbers (map instance_plain table.now) i names.now) }
{
    let mut at = i;
    for name in names.as_slice() {
        let x = name.bytes();
        let known = table.local(at, x);
        note(numbers, at, x, known, row)?;
        match table.instance_of_name(at, x, known) {
            None => return Ok(()),
            Some(c) => at = c,
        }
    }
    Ok(())
}

fn add_all_path_numbers<'a>(
    table: &Table<'a>,
    numbers: &BodyNumbers<'a>,
    i: usize,
    paths: &[&'a Path],
    row: &mut List<usize>,
) -> Result<(), NoMemory>
    requires { (i : ℕ) (x : List ℕ) → row_in numbers.now i x ≡ number_in (bodies_of (map instance_plain table.now)) (i, x) }
    ensures { OnOk result (row.new ≡ row.old ++ all_path_numbers (map instance_plain table.now) i (map path_seen paths.now)) }
{
    for path in paths {
        add_path_numbers(table, numbers, i, &path.names, row)?;
    }
    Ok(())
}

fn alias_row<'a>(
    alloc: Global,
    table: &Table<'a>,
    numbers: &BodyNumbers<'a>,
    j: usize,
    path: &'a Path,
) -> Result<List<usize>, NoMemory>
    requires { (i : ℕ) (x : List ℕ) → row_in numbers.now i x ≡ number_in (bodies_of (map instance_plain table.now)) (i, x) }
    ensures { IfOk result (λ row. row ≡ path_numbers (map instance_plain table.now) j path.now.names) }
{
    let mut row = List::new(alloc);
    add_path_numbers(table, numbers, j, &path.names, &mut row)?;
    Ok(row)
}

fn body_row<'a>(
    alloc: Global,
    table: &Table<'a>,
    numbers: &BodyNumbers<'a>,
    j: usize,
    e: &'a Expr,
) -> Result<List<usize>, NoMemory>
    requires { (i : ℕ) (x : List ℕ) → row_in numbers.now i x ≡ number_in (bodies_of (map instance_plain table.now)) (i, x) }
    ensures { IfOk result (λ row. row ≡ all_path_numbers (map instance_plain table.now) j (paths_of (plain e.now) [])) }
{
    let paths = paths_in(alloc, e)?;
    let mut row = List::new(alloc);
    add_all_path_numbers(table, numbers, j, paths.as_slice(), &mut row)?;
    Ok(row)
}

// The numbers of the definitions and actuals to which the given one refers.
#[tactic(auto, using(crate::proofs::ReferenceLemmas::alias_row, crate::proofs::ReferenceLemmas::body_row, crate::proofs::ReferenceLemmas::no_row))]
fn row_of<'a>(
    alloc: Global,
    table: &Table<'a>,
    numbers: &BodyNumbers<'a>,
    body: &Body<'a>,
) -> Result<List<usize>, NoMemory>
    requires { (i : ℕ) (x : List ℕ) → row_in numbers.now i x ≡ number_in (bodies_of (map instance_plain table.now)) (i, x) }
    ensures { IfOk result (λ row. row ≡ references_of (map instance_plain table.now) (key_of body.now)) }
{
    match table.local(body.instance, body.name) {
        Known::Alias(j, path) => Ok(alias_row(alloc, table, numbers, j, path)?),
        Known::Body(j, e) => Ok(body_row(alloc, table, numbers, j, e)?),
        Known::Variable(_, _) => Ok(List::new(alloc)),
        Known::Instance => Ok(List::new(alloc)),
        Known::Nothing => Ok(List::new(alloc)),
    }
}

fn graph_of<'a>(alloc: Global, table: &Table<'a>, bodies: &[Body<'a>]) -> Result<Graph, NoMemory>
    requires { map body_plain bodies.now ≡ placed_bodies (map instance_plain table.now) }
    ensures { IfOk result (λ g. g ≡ reference_graph (map instance_plain table.now)) }
{
    let numbers = numbers_of(alloc, bodies)?;
    let mut graph = List::new(alloc);
    for body in bodies {
        graph.push(row_of(alloc, table, &numbers, body)?)?;
    }
    Ok(graph)
}

fn ordering_of(order: Order) -> Ordering
    ensures { (t : List Specified) → IsOrder (reference_graph t) order → IsOrdering t result }
{
    match order {
        Order::Sorted(order) => Ordering::Ordered(order),
        Order::Returns(k) => Ordering::Cycle(k),
    }
}

/// Returns an order with each definition and actual after those to which it refers, or the first one that reaches
/// itself.
///
/// The first one is the one with the least number.
pub fn body_order<'a>(
    alloc: Global,
    table: &Table<'a>,
    bodies: &[Body<'a>],
) -> Result<Ordering, NoMemory>
    requires { map body_plain bodies.now ≡ placed_bodies (map instance_plain table.now) }
    ensures { IfOk result (IsOrdering (map instance_plain table.now)) }
{
    let graph = graph_of(alloc, table, bodies)?;
    Ok(ordering_of(sort(alloc, &graph)?))
}
