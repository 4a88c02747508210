// Whether the lists of variables appear in the text in the order of their numbers.
ghost use Rattle.std.specs.Prelude.{◌≡◌, ◌++◌, [], true, IfSome};
ghost use Rattle.moxi_sexpr.specs.Tree.{plain_forms};
ghost use Rattle.moxi_scripts.specs.declared.parts.Turn.TheVariants as turns;
ghost use Rattle.moxi_scripts.specs.Lists.{all_entries, entries_at, entries_behind, text_entries};
ghost use Rattle.moxi_attributes.specs.declared.order.Next.TheVariants as lists_left;
ghost use Rattle.moxi_attributes.specs.Order.{entries_from};

use crate::attributes::turn_after;
use moxi_scripts::{Command, Entries, Key, Lists, Turn};
use moxi_sexpr::Form;

/// The first of the lists that are still to come.
#[derive(Clone, Copy)]
pub enum Next {
    Inputs,
    Outputs,
    Locals,
    Nothing,
}

fn is_empty(entries: &Entries) -> bool
    ensures { result ≡ true → entries.now ≡ [] }
{
    entries.len() == 0
}

#[tactic(auto, using(crate::proofs::OrderLaws::no_inputs))]
fn pass_inputs(lists: &Lists, next: Next) -> Next
    ensures { entries_from lists.now result ≡ entries_from lists.now next }
{
    match next {
        Next::Inputs if is_empty(&lists.inputs.entries) => Next::Outputs,
        other => other,
    }
}

#[tactic(auto, using(crate::proofs::OrderLaws::no_outputs))]
fn pass_outputs(lists: &Lists, next: Next) -> Next
    ensures { entries_from lists.now result ≡ entries_from lists.now next }
{
    match next {
        Next::Outputs if is_empty(&lists.outputs.entries) => Next::Locals,
        other => other,
    }
}

fn pass_locals(lists: &Lists, next: Next) -> Next
    ensures { entries_from lists.now result ≡ entries_from lists.now next }
{
    match next {
        Next::Locals if is_empty(&lists.locals.entries) => Next::Nothing,
        other => other,
    }
}

// The first remaining list that holds a variable.
fn pass_empty(lists: &Lists, next: Next) -> Next
    ensures { entries_from lists.now result ≡ entries_from lists.now next }
{
    pass_locals(lists, pass_outputs(lists, pass_inputs(lists, next)))
}

// The lists to come after a list that is not the next one. Only an empty list changes nothing.
#[tactic(auto, using(crate::proofs::OrderLaws::nothing_before))]
fn behind_other(lists: &Lists, entries: &Entries, next: Next) -> Option<Next>
    ensures { IfSome result (λ then. entries_from lists.now next ≡ entries.now ++ entries_from lists.now then) }
{
    if is_empty(entries) {
        return Some(next);
    }
    None
}

// The lists to come after the list of a key.
#[tactic(auto, using(crate::proofs::OrderLaws::inputs_first, crate::proofs::OrderLaws::locals_last))]
fn behind_list(lists: &Lists, k: Key, next: Next) -> Option<Next>
    ensures { IfSome result (λ then. entries_from lists.now next ≡ entries_at lists.now k ++ entries_from lists.now then) }
{
    match k {
        Key::Input => match next {
            Next::Inputs => Some(Next::Outputs),
            other => behind_other(lists, &lists.inputs.entries, other),
        },
        Key::Output => match next {
            Next::Outputs => Some(Next::Locals),
            other => behind_other(lists, &lists.outputs.entries, other),
        },
        Key::Local => match next {
            Next::Locals => Some(Next::Nothing),
            other => behind_other(lists, &lists.locals.entries, other),
        },
        Key::Init => Some(next),
        Key::Trans => Some(next),
        Key::Inv => Some(next),
        Key::Subsystem => Some(next),
        Key::Assumption => Some(next),
        Key::Current => Some(next),
        Key::Reachable => Some(next),
        Key::Query => Some(next),
        Key::Queries => Some(next),
    }
}

// The lists to come after a form.
fn behind_form(lists: &Lists, turn: Turn, next: Next) -> Option<Next>
    ensures { IfSome result (λ then. entries_from lists.now next ≡ entries_behind lists.now turn ++ entries_from lists.now then) }
{
    match turn {
        Turn::AtKeyword => Some(next),
        Turn::Behind(k) => behind_list(lists, k, pass_empty(lists, next)),
        Turn::Passing => Some(next),
    }
}

fn is_over(lists: &Lists, next: Next) -> bool
    ensures { result ≡ true → entries_from lists.now next ≡ [] }
{
    match pass_empty(lists, next) {
        Next::Nothing => true,
        Next::Inputs => false,
        Next::Outputs => false,
        Next::Locals => false,
    }
}

/// Returns whether the variables appear in the text in the order of their numbers.
///
/// The contract covers only the result true.
pub fn is_in_order(lists: &Lists, command: Command, forms: &[Form]) -> bool
    ensures { result ≡ true → text_entries lists.now command turns.AtKeyword (plain_forms forms.now) ≡ all_entries lists.now }
{
    let mut turn = Turn::AtKeyword;
    let mut next = Next::Inputs;
    for form in forms {
        match behind_form(lists, turn, next) {
            None => return false,
            Some(then) => next = then,
        }
        turn = turn_after(command, turn, form);
    }
    is_over(lists, next)
}
