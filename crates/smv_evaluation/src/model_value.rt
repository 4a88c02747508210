// The value of an expression of a model.
ghost use Rattle.std.specs.Prelude.{◌≡◌, ◌||◌, not, map, position, is_some, IsTrue, bytes_eq, IfOk};
ghost use Rattle.smv_text.specs.View.{plain, plain_source};
ghost use Rattle.smv_meaning.specs.Values.{given};
ghost use Rattle.smv_meaning.specs.Instances.{instances_of};
ghost use Rattle.smv_meaning.specs.Meaning.{value_of};
ghost use Rattle.smv_meaning.specs.Runs.{state_fits};
ghost use Rattle.smv_meaning.specs.Owed.{instance_number, following_or, label_given, following_given};
ghost use Rattle.smv_meaning.specs.Parts.{OccursIn};
ghost use Rattle.smv_meaning.specs.Checked.{IsChecked, reaches_an_input};
ghost use Rattle.smv_instances.specs.View.{instance_plain};
ghost use Rattle.smv_evaluation.specs.View.{stated};
ghost use Rattle.smv_evaluation.specs.Asked.{IsAsked, value_asked};
ghost use Rattle.smv_evaluation.specs.Rows.{AreGiven, IsOrdered, MarksStart, MarksClosed, MarksLeast};

use crate::evaluate::{Scene, evaluate};
use crate::fill::row_of;
use crate::literals::literals_are_words;
use crate::reached::{Reach, reach_of};
use crate::rows::{Values, values_of};
use smv_instances::{Instance, Table, instance_list as instances};
use smv_meaning::{State, Value};
use smv_operators::into_value;
use smv_text::{Expr, Source};
use std::alloc::Global;
use text_core::{Name, NoMemory};

// The number of the instance with this path.
fn number_of<'a>(table: &[Instance<'a>], path: &[u8]) -> usize
    ensures { result ≡ instance_number (map instance_plain table.now) path.now }
{
    match place_of(table, path) {
        None => table.len(),
        Some(i) => i,
    }
}

fn place_of<'a>(table: &[Instance<'a>], path: &[u8]) -> Option<usize>
    ensures { result ≡ position (λ at. bytes_eq (instance_plain at).path path.now) table.now }
{
    table.iter().position(|at| at.path.bytes() == path)
}

/// Returns the value of an expression in the instance with this dotted path, empty for main (NuSMV 2.6 User Manual,
/// 2.2).
///
/// Names of state and frozen variables are read in the state `now`, inputs in the label, and names under `next` in the
/// following state. Without a following state, `next` reads the state itself.
///
/// The model's paths, cycles and types are checked. The expression is one of the instance's module, or part of one. A
/// set has no value, and neither has the name of an instance.
///
/// The states have a value of its type for each variable. A label is given where the expression reaches an input.
///
/// Each definition and actual that the expression reaches is evaluated once per state, after those to which it refers.
/// None is evaluated within another, so stack use is bounded by the nesting of a single expression.
pub fn value_at<'a>(
    alloc: Global,
    source: &'a Source,
    instance: &Name,
    expr: &'a Expr,
    now: &'a State,
    label: Option<&'a State>,
    following: Option<&'a State>,
) -> Result<Value, NoMemory>
    requires checked { IsChecked (instances_of (plain_source source.now)) }
    requires occurs { OccursIn (instances_of (plain_source source.now)) (instance_number (instances_of (plain_source source.now)) instance.now) (plain expr.now) }
    requires labelled { IsTrue (is_some label || not (reaches_an_input (instances_of (plain_source source.now)) (instance_number (instances_of (plain_source source.now)) instance.now) (plain expr.now))) }
    requires now_given { IsTrue (state_fits (instances_of (plain_source source.now)) (given now.now)) }
    requires label_given { IsTrue (label_given (instances_of (plain_source source.now)) label) }
    requires following_given { IsTrue (following_given (instances_of (plain_source source.now)) following) }
    ensures { IfOk result (λ v. v ≡ value_of (plain_source source.now) (instance_number (instances_of (plain_source source.now)) instance.now) (plain expr.now) (given now.now) (stated label.entry) (following_or (given now.now) following.entry)) }
{
    let parts = instances(alloc, source)?;
    literals_are_words(parts.as_slice());
    let i = number_of(parts.as_slice(), instance.bytes());
    let table = Table::over(alloc, parts)?;
    value_in_table(alloc, &table, i, expr, now, label, following)
}

// The value in a table of the model's instances.
fn value_in_table<'a>(
    alloc: Global,
    table: &Table<'a>,
    i: usize,
    expr: &'a Expr,
    now: &'a State,
    label: Option<&'a State>,
    following: Option<&'a State>,
) -> Result<Value, NoMemory>
    requires { IsAsked (map instance_plain table.now) i (plain expr.now) (given now.now) label following }
    ensures { IfOk result (λ v. v ≡ value_asked (map instance_plain table.now) i (plain expr.now) (given now.now) label.entry following.entry) }
{
    let reach = reach_of(alloc, table, i, expr)?;
    let label = values_of(alloc, label)?;
    value_on_rows(alloc, table, &reach, i, expr, now, &label, following)
}

// The value, given what the expression reaches and the values of the label.
fn value_on_rows<'a>(
    alloc: Global,
    table: &Table<'a>,
    reach: &Reach<'a>,
    i: usize,
    expr: &'a Expr,
    now: &'a State,
    label: &Values<'a>,
    following: Option<&'a State>,
) -> Result<Value, NoMemory>
    requires asked { IsAsked (map instance_plain table.now) i (plain expr.now) (given now.now) label.now.given following }
    requires ordered { IsOrdered (map instance_plain table.now) reach.now }
    requires starts { MarksStart (map instance_plain table.now) i (plain expr.now) reach.now.marks }
    requires closed { MarksClosed (map instance_plain table.now) reach.now.marks }
    requires least { MarksLeast (map instance_plain table.now) i (plain expr.now) reach.now.marks }
    requires label { AreGiven label.now }
    ensures { IfOk result (λ v. v ≡ value_asked (map instance_plain table.now) i (plain expr.now) (given now.now) label.now.given following.entry) }
{
    let here = row_of(alloc, table, reach, now, label)?;
    let scene = Scene {
        table,
        instance: i,
        current: &here,
        label,
        following: &here,
    };
    match following {
        None => into_value(alloc, evaluate(&scene, expr)),
        Some(later) => {
            let there = row_of(alloc, table, reach, later, label)?;
            let scene = Scene {
                following: &there,
                ..scene
            };
            into_value(alloc, evaluate(&scene, expr))
        }
    }
}
