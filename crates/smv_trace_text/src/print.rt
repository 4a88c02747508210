// The printer of traces.
ghost use Rattle.std.specs.Prelude.{◌≡◌, ◌++◌, ◌∷◌, ◌<◌, codes, map, OnOk, IfOk};
ghost use Rattle.std.specs.List.{flat_map};
ghost use Rattle.smv_items.specs.FlatItemView.{item_plain};
ghost use Rattle.smv_lex.specs.Spelling.{literal_bytes};
ghost use Rattle.smv_trace_text.specs.Texts.{is_input, has_inputs, truth_text, value_text, margin, value_line, heading_text, state_text, label_text, following_text, steps_text, claim_front, claim_back, trace_text};

use smv_flatten::{Flat, FlatItems, ItemKind};
use smv_meaning::{Given, Run, State, Value};
use std::alloc::Global;
use text_core::{NoMemory, Text};
use word_core::Word;

fn is_input(kind: ItemKind) -> bool
    ensures { result ≡ is_input kind }
{
    matches!(kind, ItemKind::Input)
}

// Whether the model has inputs.
#[tactic(auto, using(smv_meaning::specs::laws::Lists::front_is, smv_meaning::specs::laws::Lists::end_is))]
fn has_inputs(items: &FlatItems) -> bool
    ensures { result ≡ has_inputs (map item_plain items.now) }
{
    for k in 0..items.len() {
        if is_input(items.at(k).kind) {
            return true;
        }
    }
    false
}

fn truth_bytes(truth: bool) -> &'static [u8]
    ensures { result.now ≡ truth_text truth }
{
    if truth { b"TRUE" } else { b"FALSE" }
}

fn put_word(out: &mut Text, word: &Word) -> Result<(), NoMemory>
    ensures { OnOk result (out.new ≡ out.old ++ literal_bytes word.now) }
{
    out.put(b"0ud")?;
    out.put_unsigned(u128::from(word.width()))?;
    out.put(b"_")?;
    out.put_unsigned(word.bits())
}

fn put_value(out: &mut Text, value: &Value) -> Result<(), NoMemory>
    ensures { OnOk result (out.new ≡ out.old ++ value_text value.now) }
{
    match value {
        Value::Truth(truth) => out.put(truth_bytes(*truth)),
        Value::Integer(number) => out.put_decimal(i128::from(*number)),
        Value::Symbol(name) => out.put(name.bytes()),
        Value::Bits(word) => put_word(out, word),
    }
}

// The blanks before a name, if a line follows.
fn margin(followed: bool) -> &'static [u8]
    ensures { result.now ≡ margin followed }
{
    if followed { b"    " } else { b"" }
}

// The text from the end of a name with this truth value to the next name.
fn equal_truth(truth: bool, followed: bool) -> &'static [u8]
    ensures { result.now ≡ codes " = " ++ (truth_text truth ++ 10 ∷ margin followed) }
{
    match (truth, followed) {
        (true, true) => b" = TRUE\n    ",
        (true, false) => b" = TRUE\n",
        (false, true) => b" = FALSE\n    ",
        (false, false) => b" = FALSE\n",
    }
}

// Prints the text from the end of a name to the next name. A truth value is one piece, since most values are truth
// values.
fn put_equal(out: &mut Text, value: &Value, followed: bool) -> Result<(), NoMemory>
    ensures { OnOk result (out.new ≡ out.old ++ (codes " = " ++ (value_text value.now ++ 10 ∷ margin followed))) }
{
    if let Value::Truth(truth) = value {
        return out.put(equal_truth(*truth, followed));
    }
    out.put(b" = ")?;
    put_value(out, value)?;
    out.put(b"\n")?;
    out.put(margin(followed))
}

fn put_lines(out: &mut Text, values: &State) -> Result<(), NoMemory>
    ensures { OnOk result (out.new ≡ out.old ++ flat_map value_line values.now) }
{
    let mut rest = values.as_slice();
    out.put(margin(!rest.is_empty()))?;
    while let Some((given, more)) = rest.split_first() {
        out.put(given.name.bytes())?;
        put_equal(out, &given.value, !more.is_empty())?;
        rest = more;
    }
    Ok(())
}

#[tactic(auto, unfolding(crate::specs::Texts::heading_text))]
fn put_heading(out: &mut Text, word: &[u8], number: u128) -> Result<(), NoMemory>
    ensures { OnOk result (out.new ≡ out.old ++ heading_text word.now number) }
{
    out.put(b"  -> ")?;
    out.put(word)?;
    out.put(b": 1.")?;
    out.put_unsigned(number)?;
    out.put(b" <-\n")
}

fn put_state(out: &mut Text, number: u128, state: &State) -> Result<(), NoMemory>
    ensures { OnOk result (out.new ≡ out.old ++ state_text number state.now) }
{
    put_heading(out, b"State", number)?;
    put_lines(out, state)
}

fn put_label(out: &mut Text, inputs: bool, number: u128, label: &State) -> Result<(), NoMemory>
    ensures { OnOk result (out.new ≡ out.old ++ label_text inputs number label.now) }
{
    if !inputs {
        return Ok(());
    }
    put_heading(out, b"Input", number)?;
    put_lines(out, label)
}

// Prints the labels, each with the state that it leads to, from number 2 on.
fn put_following(
    out: &mut Text,
    inputs: bool,
    states: &[State],
    labels: &[State],
) -> Result<(), NoMemory>
    ensures { OnOk result (out.new ≡ out.old ++ following_text inputs 2 states.now labels.now) }
{
    let mut rest = states;
    let mut number: u128 = 2;
    for label in labels {
        let Some((state, more)) = rest.split_first() else {
            return Ok(())
        };
        put_label(out, inputs, number, label)?;
        put_state(out, number, state)?;
        rest = more;
        number += 1;
    }
    Ok(())
}

fn put_steps(out: &mut Text, inputs: bool, run: &Run) -> Result<(), NoMemory>
    ensures { OnOk result (out.new ≡ out.old ++ steps_text inputs run.now.states run.now.labels) }
{
    let Some((first, rest)) = run.states.as_slice().split_first() else {
        return Ok(())
    };
    put_state(out, 1, first)?;
    put_following(out, inputs, rest, run.labels.as_slice())
}

#[tactic(auto, unfolding(crate::specs::Texts::claim_front))]
fn put_claim_front(out: &mut Text, j: u32) -> Result<(), NoMemory>
    ensures { OnOk result (out.new ≡ out.old ++ claim_front j) }
{
    out.put(b"-- invariant ")?;
    out.put_unsigned(u128::from(j))
}

#[tactic(auto, unfolding(crate::specs::Texts::claim_back))]
fn put_claim_back(out: &mut Text, count: usize) -> Result<(), NoMemory>
    ensures { OnOk result (out.new ≡ out.old ++ claim_back count) }
{
    out.put(b" is false")?;
    out.put(b" in state 1.")?;
    out.put_unsigned(count as u128)?;
    out.put(b"\n")
}

/// Returns the printed form of a run that breaks invariant j.
///
/// The first line says that the invariant is false. Then each state follows with its values in order, after its label
/// where the model has inputs. States are counted from 1, and a label has the number of the state that it leads to. A
/// word is `0ud`, its width, `_` and its decimal digits.
pub fn print_trace(alloc: Global, flat: &Flat, j: u32, run: &Run) -> Result<Text, NoMemory>
    ensures { IfOk result (λ text. text ≡ trace_text (map item_plain flat.now.items) j run.now.states run.now.labels) }
{
    let mut out = Text::new(alloc);
    let inputs = has_inputs(flat.items());
    put_claim_front(&mut out, j)?;
    put_claim_back(&mut out, run.states.len())?;
    put_steps(&mut out, inputs, run)?;
    Ok(out)
}
