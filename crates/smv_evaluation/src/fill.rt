// The values of the definitions and actuals that an expression reaches, each evaluated once.
ghost use Rattle.std.specs.Prelude.{◌≡◌, Some, true, map, IfOk, OnOk};
ghost use Rattle.smv_meaning.specs.Names.{local};
ghost use Rattle.smv_meaning.specs.Values.{given};
ghost use Rattle.smv_evaluation.specs.Rows.{AreGiven, is_marked, IsOrdered, MarksClosed, MarkedSafe, LocalReady, KeepsLocal, KeepsMarked, MarkedAreCached};
ghost use Rattle.smv_instances.specs.View.{instance_plain};
ghost use Rattle.smv_evaluation.specs.View.{stated};

use crate::evaluate::{Scene, evaluate};
use crate::reached::{Marks, Reach, has_mark};
use crate::rows::{Row, Values, values_of};
use name_maps::{nothing_in, put_in};
use smv_instances::{Known, Table};
use smv_meaning::State;
use smv_references::Body;
use std::alloc::Global;
use text_core::NoMemory;

// Stores the value of a name that is a definition or an actual with a body.
fn keep_local<'a>(
    table: &Table<'a>,
    i: usize,
    x: &'a [u8],
    label: &Values<'a>,
    row: &mut Row<'a>,
) -> Result<(), NoMemory>
    requires { LocalReady table.now row.old label.now (local (map instance_plain table.now) i x.now) }
    ensures state { OnOk result (row.new.state ≡ row.old.state) }
    ensures kept { OnOk result (KeepsLocal table.now row.old row.new label.now i x.now) }
{
    match table.local(i, x) {
        Known::Body(j, e) => {
            let scene = Scene {
                table,
                instance: j,
                current: row,
                label,
                following: row,
            };
            let value = evaluate(&scene, e);
            put_in(&mut row.bodies, i, x, value)
        }
        Known::Alias(_, _) => Ok(()),
        Known::Variable(_, _) => Ok(()),
        Known::Instance => Ok(()),
        Known::Nothing => Ok(()),
    }
}

// Evaluates the body from the stored values, which include all that it refers to.
fn keep_marked<'a>(
    table: &Table<'a>,
    body: &Body<'a>,
    marks: &Marks<'a>,
    label: &Values<'a>,
    row: &mut Row<'a>,
) -> Result<(), NoMemory>
    requires { is_marked marks.now body.now.instance body.now.name.now ≡ true → LocalReady table.now row.old label.now (local (map instance_plain table.now) body.now.instance body.now.name.now) }
    ensures state { OnOk result (row.new.state ≡ row.old.state) }
    ensures kept { OnOk result (KeepsMarked table.now marks.now row.old row.new label.now body.now.instance body.now.name.now) }
{
    if has_mark(marks, body.instance, body.name) {
        keep_local(table, body.instance, body.name, label, row)
    } else {
        Ok(())
    }
}

// Evaluates the marked bodies, in an order with each after those to which it refers.
fn keep_all<'a>(
    table: &Table<'a>,
    reach: &Reach<'a>,
    label: &Values<'a>,
    row: &mut Row<'a>,
) -> Result<(), NoMemory>
    requires ordered { IsOrdered (map instance_plain table.now) reach.now }
    requires closed { MarksClosed (map instance_plain table.now) reach.now.marks }
    requires safe { MarkedSafe (map instance_plain table.now) reach.now.marks (stated row.old.state.given) (stated label.now.given) }
    requires state { AreGiven row.old.state }
    requires label { AreGiven label.now }
    ensures state { OnOk result (row.new.state ≡ row.old.state) }
    ensures kept { OnOk result (MarkedAreCached table.now reach.now.marks row.new label.now) }
{
    let bodies = reach.bodies.as_slice();
    for number in reach.order.as_slice() {
        let k = *number;
        keep_marked(table, &bodies[k], &reach.marks, label, row)?;
    }
    Ok(())
}

/// Returns the values of names in a state: those of its variables, and those of the bodies that the expression reaches.
///
/// Each body is evaluated once.
pub fn row_of<'a>(
    alloc: Global,
    table: &Table<'a>,
    reach: &Reach<'a>,
    state: &'a State,
    label: &Values<'a>,
) -> Result<Row<'a>, NoMemory>
    requires ordered { IsOrdered (map instance_plain table.now) reach.now }
    requires closed { MarksClosed (map instance_plain table.now) reach.now.marks }
    requires safe { MarkedSafe (map instance_plain table.now) reach.now.marks (given state.now) (stated label.now.given) }
    requires label { AreGiven label.now }
    ensures given { IfOk result (λ r. r.state.given ≡ Some state.entry) }
    ensures state { IfOk result (λ r. AreGiven r.state) }
    ensures kept { IfOk result (λ r. MarkedAreCached table.now reach.now.marks r label.now) }
{
    let mut row = Row {
        state: values_of(alloc, Some(state))?,
        bodies: nothing_in(alloc),
    };
    keep_all(table, reach, label, &mut row)?;
    Ok(row)
}
