// The order of the lines that stay, with each sort line before the first line that uses it.
ghost use Rattle.std.specs.Prelude.{◌≡◌, ◌<◌, ◌+◌, ◌^◌, ◌++◌, ◌∷◌, [], true, false, length, Some, None, slice_get, slice_set, get_or, IfOk, OnOk};
ghost use Rattle.btor_simplify.specs.Fates as fates_spec;
ghost use Rattle.btor_simplify.specs.Marks.{AreKnown, AreMarks};
ghost use Rattle.btor_simplify.specs.Order as spec;

use crate::fates::sort_for;
use btor_rules::Outcome;
use btor_tree::{Line, LineOp, Nodes};
use std::alloc::Global;
use text_core::NoMemory;

/// The old index of each new line, and the new index of each old line that stays.
#[derive(Drop)]
pub struct Order {
    pub places: Vec<u32>,
    pub moved: Vec<Option<u32>>,
}

/// Returns whether a line of this kind has a sort.
pub fn has_sort(op: &LineOp) -> bool
    ensures { result ≡ spec.has_sort op.now }
{
    match op {
        LineOp::Sort(_) | LineOp::Bad | LineOp::Constraint | LineOp::Output => false,
        _ => true,
    }
}

/// Returns the new index of the line at old index `i`, or None where it has none.
pub fn new_place(moved: &[Option<u32>], i: u32) -> Option<u32>
    ensures { result ≡ get_or moved.now i None }
{
    match moved.get(i as usize) {
        Some(place) => *place,
        None => None,
    }
}

// Appends a line.
fn put(order: &mut Order, i: u32) -> Result<(), NoMemory>
    requires inside { i < length order.old.moved.items }
    requires few { length order.old.places.items < 2 ^ 31 }
    ensures places { OnOk result (order.new.places.items ≡ order.old.places.items ++ i ∷ []) }
    ensures moved { OnOk result (order.new.moved.items ≡ slice_set order.old.moved.items i (Some (length order.old.places.items))) }
{
    let place = order.places.len() as u32;
    order.places.push(i)?;
    order.moved[i as usize] = Some(place);
    Ok(())
}

// Appends the sort line at an index, unless it is in the order already.
fn put_sort(
    nodes: &Nodes,
    fates: &[Outcome],
    order: &mut Order,
    n: usize,
    s: u32,
) -> Result<(), NoMemory>
    requires known { AreKnown nodes.now fates.now }
    requires sort { spec.IsLiveSort nodes.now fates.now s }
    requires order { spec.IsOrder nodes.now fates.now n order.old.places.items order.old.moved.items }
    ensures order { OnOk result (spec.IsOrder nodes.now fates.now n order.new.places.items order.new.moved.items) }
    ensures keeps { OnOk result (spec.KeepsPlaces order.old.moved.items order.new.moved.items) }
    ensures there { OnOk result (spec.HasPlace order.new.moved.items s) }
    ensures placed { OnOk result (order.new.places.items ≡ spec.with_place order.old.places.items s) }
{
    match new_place(&order.moved, s) {
        Some(_) => Ok(()),
        None => put(order, s),
    }
}

// Appends the sort line of a line, unless the line has none or it is in the order already.
fn put_sort_of(
    nodes: &Nodes,
    fates: &[Outcome],
    order: &mut Order,
    line: &Line,
    i: usize,
) -> Result<(), NoMemory>
    requires known { AreKnown nodes.now fates.now }
    requires at { slice_get nodes.now i ≡ Some line.now }
    requires order { spec.IsOrder nodes.now fates.now i order.old.places.items order.old.moved.items }
    ensures order { OnOk result (spec.IsOrder nodes.now fates.now i order.new.places.items order.new.moved.items) }
    ensures keeps { OnOk result (spec.KeepsPlaces order.old.moved.items order.new.moved.items) }
    ensures there { OnOk result (spec.has_sort line.now.op ≡ true → spec.HasPlace order.new.moved.items (fates_spec.sort_for fates.now line.now.sort)) }
    ensures placed { OnOk result (order.new.places.items ≡ spec.with_sort_of fates.now line.now order.old.places.items) }
{
    if has_sort(&line.op) {
        put_sort(nodes, fates, order, i, sort_for(fates, line.sort))
    } else {
        Ok(())
    }
}

// Appends a marked line, after its sort line.
fn put_line(
    nodes: &Nodes,
    fates: &[Outcome],
    marks: &[bool],
    order: &mut Order,
    i: usize,
) -> Result<(), NoMemory>
    requires known { AreKnown nodes.now fates.now }
    requires marks { AreMarks nodes.now fates.now 0 marks.now }
    requires inside { i < length nodes.now }
    requires marked { get_or marks.now i false ≡ true }
    requires order { spec.IsOrder nodes.now fates.now i order.old.places.items order.old.moved.items }
    requires moved { spec.HaveMarkedMoved marks.now i order.old.moved.items }
    ensures order { OnOk result (spec.IsOrder nodes.now fates.now (i + 1) order.new.places.items order.new.moved.items) }
    ensures moved { OnOk result (spec.HaveMarkedMoved marks.now (i + 1) order.new.moved.items) }
    ensures placed { OnOk result (order.new.places.items ≡ spec.with_line fates.now i (slice_get nodes.now i) order.old.places.items) }
{
    put_sort_of(nodes, fates, order, nodes.at(i), i)?;
    put(order, i as u32)
}

// Appends a line where it is marked.
fn put_marked(
    nodes: &Nodes,
    fates: &[Outcome],
    marks: &[bool],
    order: &mut Order,
    i: usize,
) -> Result<(), NoMemory>
    requires known { AreKnown nodes.now fates.now }
    requires marks { AreMarks nodes.now fates.now 0 marks.now }
    requires inside { i < length nodes.now }
    requires order { spec.IsOrder nodes.now fates.now i order.old.places.items order.old.moved.items }
    requires moved { spec.HaveMarkedMoved marks.now i order.old.moved.items }
    ensures order { OnOk result (spec.IsOrder nodes.now fates.now (i + 1) order.new.places.items order.new.moved.items) }
    ensures moved { OnOk result (spec.HaveMarkedMoved marks.now (i + 1) order.new.moved.items) }
    ensures placed { OnOk result (order.new.places.items ≡ spec.with_marked nodes.now fates.now marks.now i order.old.places.items) }
{
    if marks[i] {
        put_line(nodes, fates, marks, order, i)
    } else {
        Ok(())
    }
}

/// Returns the order of the marked lines.
pub fn order_of(
    alloc: Global,
    nodes: &Nodes,
    fates: &[Outcome],
    marks: &[bool],
) -> Result<Order, NoMemory>
    requires known { AreKnown nodes.now fates.now }
    requires marks { AreMarks nodes.now fates.now 0 marks.now }
    ensures order { IfOk result (λ order. spec.IsOrder nodes.now fates.now (length nodes.now) order.places.items order.moved.items) }
    ensures moved { IfOk result (λ order. spec.HaveMarkedMoved marks.now (length nodes.now) order.moved.items) }
    ensures placed { IfOk result (λ order. order.places.items ≡ spec.order_upto nodes.now fates.now marks.now (length nodes.now)) }
{
    let mut order = no_order(alloc, nodes, fates)?;
    for i in 0..nodes.len() {
        put_marked(nodes, fates, marks, &mut order, i)?;
    }
    Ok(order)
}

// Returns the empty order.
fn no_order(alloc: Global, nodes: &Nodes, fates: &[Outcome]) -> Result<Order, NoMemory>
    ensures order { IfOk result (λ order. spec.IsOrder nodes.now fates.now 0 order.places.items order.moved.items) }
    ensures empty { IfOk result (λ order. order.places.items ≡ []) }
{
    let mut moved = Vec::new(alloc);
    moved.resize(nodes.len(), None)?;
    Ok(Order {
        places: Vec::new(alloc),
        moved,
    })
}
