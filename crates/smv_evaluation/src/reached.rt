// The definitions and actuals that an expression reaches.
ghost use Rattle.std.specs.Prelude.{◌≡◌, ◌||◌, List, ℕ, None, map, IfOk, OnOk};
ghost use Rattle.std.specs.List.{list_any};
ghost use Rattle.smv_text.specs.View.{plain};
ghost use Rattle.smv_meaning.specs.Names.{local, found_in};
ghost use Rattle.smv_meaning.specs.Checks.{first_failing};
ghost use Rattle.smv_meaning.specs.Settled.{cycle_checks_of};
ghost use Rattle.smv_meaning.specs.Bodies.{placed_bodies, IsBodyOrder};
ghost use Rattle.smv_evaluation.specs.Rows.{is_marked, MarkedOn, MarksStart, MarksClosed, MarksLeast, IsOrdered};
ghost use Rattle.smv_meaning.specs.Reached.{is_body_of, leads_to, local_leads_to};
ghost use Rattle.smv_instances.specs.View.{instance_plain};
ghost use Rattle.smv_references.specs.View.{body_plain, path_seen};

use name_maps::{InstanceMap, nothing_in, put_in, value_in};
use smv_instances::{Known, Table, Target};
use smv_references::{Body, Ordering, bodies_in, body_order, paths_in};
use smv_text::{Expr, Path};
use std::alloc::Global;
use text_core::{List, NoMemory};

/// A set of definitions and actuals, by instance and name.
pub type Marks<'a> = InstanceMap<'a, bool>;

/// Returns whether the definition or actual is marked.
pub fn has_mark<'a>(marks: &Marks<'a>, i: usize, x: &[u8]) -> bool
    ensures { result ≡ is_marked marks.now i x.now }
{
    value_in(marks, i, x).is_some()
}

fn mark<'a>(
    table: &Table<'a>,
    i: usize,
    path: &'a Path,
    marks: &mut Marks<'a>,
) -> Result<(), NoMemory>
    ensures { OnOk result ((k : ℕ) (x : List ℕ) → is_marked marks.new k x ≡ (is_marked marks.old k x || is_body_of k x (found_in (map instance_plain table.now) i path.now))) }
{
    match table.target(i, path) {
        Target::Body(k, x, _, _) => put_in(marks, k, x, true),
        Target::Variable(_, _, _, _) => Ok(()),
        Target::Instance(_) => Ok(()),
        Target::Symbol(_) => Ok(()),
        Target::Cyclic => Ok(()),
        Target::Missing => Ok(()),
    }
}

fn mark_all<'a>(
    table: &Table<'a>,
    i: usize,
    paths: &[&'a Path],
    marks: &mut Marks<'a>,
) -> Result<(), NoMemory>
    ensures { OnOk result ((k : ℕ) (x : List ℕ) → is_marked marks.new k x ≡ (is_marked marks.old k x || list_any (λ q. is_body_of k x (found_in (map instance_plain table.now) i q)) (map path_seen paths.now))) }
{
    for path in paths {
        mark(table, i, *path, marks)?;
    }
    Ok(())
}

// Marks the targets of an expression's paths.
fn mark_body<'a>(
    alloc: Global,
    table: &Table<'a>,
    i: usize,
    e: &'a Expr,
    marks: &mut Marks<'a>,
) -> Result<(), NoMemory>
    ensures { OnOk result ((k : ℕ) (x : List ℕ) → is_marked marks.new k x ≡ (is_marked marks.old k x || leads_to (map instance_plain table.now) i (plain e.now) k x)) }
{
    let paths = paths_in(alloc, e)?;
    mark_all(table, i, paths.as_slice(), marks)
}

fn mark_local<'a>(
    alloc: Global,
    table: &Table<'a>,
    i: usize,
    x: &[u8],
    marks: &mut Marks<'a>,
) -> Result<(), NoMemory>
    ensures { OnOk result ((l : ℕ) (y : List ℕ) → is_marked marks.new l y ≡ (is_marked marks.old l y || local_leads_to (map instance_plain table.now) (local (map instance_plain table.now) i x.now) l y)) }
{
    match table.local(i, x) {
        Known::Body(j, e) => mark_body(alloc, table, j, e, marks),
        Known::Alias(_, _) => Ok(()),
        Known::Variable(_, _) => Ok(()),
        Known::Instance => Ok(()),
        Known::Nothing => Ok(()),
    }
}

// Marks the targets of a body, if it is marked itself.
fn mark_on<'a>(
    alloc: Global,
    table: &Table<'a>,
    body: &Body<'a>,
    marks: &mut Marks<'a>,
) -> Result<(), NoMemory>
    ensures { OnOk result (MarkedOn (map instance_plain table.now) marks.old marks.new body.now.instance body.now.name.now) }
{
    if has_mark(marks, body.instance, body.name) {
        mark_local(alloc, table, body.instance, body.name, marks)
    } else {
        Ok(())
    }
}

// Walks the order backward, from each body to those to which it refers, so that each body is visited once.
fn marks_of<'a>(
    alloc: Global,
    table: &Table<'a>,
    bodies: &[Body<'a>],
    order: &List<usize>,
    i: usize,
    e: &'a Expr,
) -> Result<Marks<'a>, NoMemory>
    requires bodies { map body_plain bodies.now ≡ placed_bodies (map instance_plain table.now) }
    requires order { IsBodyOrder (map instance_plain table.now) order.now }
    ensures starts { IfOk result (MarksStart (map instance_plain table.now) i (plain e.now)) }
    ensures closed { IfOk result (MarksClosed (map instance_plain table.now)) }
    ensures least { IfOk result (MarksLeast (map instance_plain table.now) i (plain e.now)) }
{
    let mut marks = nothing_in(alloc);
    mark_body(alloc, table, i, e, &mut marks)?;
    let mut n = order.len();
    while n > 0 {
        n -= 1;
        let k = *order.at(n);
        mark_on(alloc, table, &bodies[k], &mut marks)?;
    }
    Ok(marks)
}

// The order, which exists since no check of a cycle fails.
fn order_of<'a>(
    alloc: Global,
    table: &Table<'a>,
    bodies: &[Body<'a>],
) -> Result<List<usize>, NoMemory>
    requires bodies { map body_plain bodies.now ≡ placed_bodies (map instance_plain table.now) }
    requires passing { first_failing (cycle_checks_of (map instance_plain table.now)) ≡ None }
    ensures { IfOk result (IsBodyOrder (map instance_plain table.now)) }
{
    match body_order(alloc, table, bodies)? {
        Ordering::Ordered(order) => Ok(order),
        Ordering::Cycle(_) => Ok(List::new(alloc)),
    }
}

/// The definitions and actuals of a model, an order with each after those to which it refers, and marks on those that
/// an expression reaches.
#[derive(Drop)]
pub struct Reach<'a> {
    pub bodies: Vec<Body<'a>>,
    pub order: List<usize>,
    pub marks: Marks<'a>,
}

/// Returns the definitions and actuals that an expression in the instance with this number reaches, in an acyclic
/// model.
pub fn reach_of<'a>(
    alloc: Global,
    table: &Table<'a>,
    i: usize,
    e: &'a Expr,
) -> Result<Reach<'a>, NoMemory>
    requires { first_failing (cycle_checks_of (map instance_plain table.now)) ≡ None }
    ensures ordered { IfOk result (IsOrdered (map instance_plain table.now)) }
    ensures starts { IfOk result (λ r. MarksStart (map instance_plain table.now) i (plain e.now) r.marks) }
    ensures closed { IfOk result (λ r. MarksClosed (map instance_plain table.now) r.marks) }
    ensures least { IfOk result (λ r. MarksLeast (map instance_plain table.now) i (plain e.now) r.marks) }
{
    let bodies = bodies_in(alloc, table)?;
    let order = order_of(alloc, table, bodies.as_slice())?;
    let marks = marks_of(alloc, table, bodies.as_slice(), &order, i, e)?;
    Ok(Reach {
        bodies,
        order,
        marks,
    })
}
