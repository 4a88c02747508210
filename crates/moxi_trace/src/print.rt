// The printer of responses.
ghost use Rattle.std.specs.Prelude.{◌≡◌, ◌++◌, ◌<◌, codes, map, OnOk, IfOk};
ghost use Rattle.text_core.specs.Binary.{binary_digits};
ghost use Rattle.moxi_trace.specs.ReadBack.{ReadsBack};
ghost use Rattle.moxi_trace.specs.Texts.{constant_name, truth_text, value_text, front_text, fronted_text, step_text, steps_text, words_of_response, words_of_query, words_of_result, words_of_trace, head_text, response_text};
ghost use Rattle.moxi_term_print.specs.Terms.{name_at};

use crate::declarations::Declarations;
use moxi_sexpr::put_symbol;
use moxi_terms::{Datum, Env, Scope, Variable, Variables};
use std::alloc::Global;
use text_core::{List, Name, Names, NoMemory, Text};
use word_core::Word;

/// The steps of a trace, each with a value of each variable.
pub type Steps = List<Env>;

// For each variable, the bytes before its value.
type Fronts = List<Name>;

fn name_in(names: &Names, i: u32) -> &[u8]
    ensures { result.now ≡ name_at names.now i }
{
    if (i as usize) < names.len() {
        names.at(i as usize).bytes()
    } else {
        b""
    }
}

fn constant_name(scope: &Scope, n: u32, i: u32) -> &[u8]
    ensures { result.now ≡ constant_name scope.now.enumerations n i }
{
    match scope.constants(n) {
        Some(names) => name_in(names, i),
        None => b"",
    }
}

fn put_word(out: &mut Text, word: &Word) -> Result<(), NoMemory>
    ensures { OnOk result (out.new ≡ out.old ++ (codes "#b" ++ binary_digits word.now.width word.now.bits)) }
{
    out.put(b"#b")?;
    out.put_binary(word.width(), word.bits())
}

fn closed_truth(truth: bool) -> &'static [u8]
    ensures { result.now ≡ truth_text truth ++ codes ")" }
{
    if truth { b"true)" } else { b"false)" }
}

// Appends a value, and the bracket that closes its statement.
fn put_closed(out: &mut Text, scope: &Scope, value: &Datum) -> Result<(), NoMemory>
    ensures { OnOk result (out.new ≡ out.old ++ (value_text scope.now.enumerations value.now ++ codes ")")) }
{
    match value {
        Datum::Truth(truth) => out.put(closed_truth(*truth)),
        Datum::Bits(word) => {
            put_word(out, word)?;
            out.put(b")")
        }
        Datum::Constant(n, i) => {
            put_symbol(out, constant_name(scope, *n, *i), false)?;
            out.put(b")")
        }
    }
}

// The bytes before a variable's value.
fn front_of(alloc: Global, variable: &Variable) -> Result<Name, NoMemory>
    ensures { IfOk result (λ front. front ≡ front_text variable.now) }
{
    let mut text = Text::new(alloc);
    text.put(b" (")?;
    put_symbol(&mut text, variable.name.bytes(), false)?;
    text.put(b" ")?;
    Name::of(alloc, text.bytes())
}

// For each variable, the bytes before its value. They are the same in each step.
fn fronts_of(alloc: Global, variables: &Variables) -> Result<Fronts, NoMemory>
    ensures { IfOk result (λ fronts. fronts ≡ map front_text variables.now) }
{
    let mut fronts = Fronts::new(alloc);
    for variable in variables {
        let front = front_of(alloc, variable)?;
        fronts.push(front)?;
    }
    Ok(fronts)
}

fn put_statement(out: &mut Text, scope: &Scope, front: &[u8], value: &Datum) -> Result<(), NoMemory>
    ensures { OnOk result (out.new ≡ out.old ++ (front.now ++ (value_text scope.now.enumerations value.now ++ codes ")"))) }
{
    out.put(front)?;
    put_closed(out, scope, value)
}

fn put_statements(
    out: &mut Text,
    scope: &Scope,
    fronts: &Fronts,
    values: &Env,
) -> Result<(), NoMemory>
    ensures { OnOk result (out.new ≡ out.old ++ fronted_text scope.now.enumerations fronts.now values.now) }
{
    for (front, value) in fronts.iter().zip(values) {
        put_statement(out, scope, front.bytes(), value)?;
    }
    Ok(())
}

fn put_step(
    out: &mut Text,
    declarations: &Declarations,
    fronts: &Fronts,
    number: u128,
    step: &Env,
) -> Result<(), NoMemory>
    requires { fronts.now ≡ map front_text declarations.now.variables }
    ensures { OnOk result (out.new ≡ out.old ++ step_text declarations.now number step.now) }
{
    out.put(b"\n(")?;
    out.put_unsigned(number)?;
    put_statements(out, declarations.scope, fronts, step)?;
    out.put(b")")
}

fn put_steps(
    out: &mut Text,
    declarations: &Declarations,
    fronts: &Fronts,
    steps: &Steps,
) -> Result<(), NoMemory>
    requires { fronts.now ≡ map front_text declarations.now.variables }
    ensures { OnOk result (out.new ≡ out.old ++ steps_text declarations.now 0 steps.now) }
{
    let mut number: u128 = 0;
    for step in steps {
        put_step(out, declarations, fronts, number, step)?;
        number += 1;
    }
    Ok(())
}

#[tactic(auto, unfolding(crate::specs::Texts::words_of_response))]
fn put_words_of_response(out: &mut Text) -> Result<(), NoMemory>
    ensures { OnOk result (out.new ≡ out.old ++ words_of_response) }
{
    out.put(b"(check-system-response ")
}

#[tactic(auto, unfolding(crate::specs::Texts::words_of_query))]
fn put_words_of_query(out: &mut Text) -> Result<(), NoMemory>
    ensures { OnOk result (out.new ≡ out.old ++ words_of_query) }
{
    out.put(b" :query (")
}

#[tactic(auto, unfolding(crate::specs::Texts::words_of_result))]
fn put_words_of_result(out: &mut Text) -> Result<(), NoMemory>
    ensures { OnOk result (out.new ≡ out.old ++ words_of_result) }
{
    out.put(b" :result sat :trace t)")
}

#[tactic(auto, unfolding(crate::specs::Texts::words_of_trace))]
fn put_words_of_trace(out: &mut Text) -> Result<(), NoMemory>
    ensures { OnOk result (out.new ≡ out.old ++ words_of_trace) }
{
    out.put(b" :trace (t")?;
    out.put(b" :prefix p)")?;
    out.put(b" :trail (p")
}

fn put_head(out: &mut Text, system: &[u8], query: &[u8]) -> Result<(), NoMemory>
    ensures { OnOk result (out.new ≡ out.old ++ head_text system.now query.now) }
{
    put_words_of_response(out)?;
    put_symbol(out, system, false)?;
    put_words_of_query(out)?;
    put_symbol(out, query, false)?;
    put_words_of_result(out)?;
    put_words_of_trace(out)
}

// Returns the text of a response.
fn response_text(
    alloc: Global,
    declarations: &Declarations,
    q: u32,
    steps: &Steps,
) -> Result<Text, NoMemory>
    ensures { IfOk result (λ text. text ≡ response_text declarations.now q steps.now) }
{
    let fronts = fronts_of(alloc, declarations.variables)?;
    let mut out = Text::new(alloc);
    put_head(
        &mut out,
        declarations.system.bytes(),
        name_in(declarations.queries, q),
    )?;
    put_steps(&mut out, declarations, &fronts, steps)?;
    out.put(b"))\n")?;
    Ok(out)
}

/// Returns the text of a response, which states that a trace meets a query.
///
/// Each step has its own line, with its values in the order of the variables. Steps are counted from 0. A name is printed
/// as a symbol, and a word as `#b` followed by as many digits as it is wide.
pub fn print_response(
    alloc: Global,
    declarations: &Declarations,
    q: u32,
    steps: &Steps,
) -> Result<Text, NoMemory>
    // What is printed.
    ensures text { IfOk result (λ text. text ≡ response_text declarations.now q steps.now) }
    // It reads back to the same query and trace, where these can be stated, and within the limits of the reader.
    ensures again { IfOk result (ReadsBack declarations.now q steps.now) }
{
    response_text(alloc, declarations, q, steps)
}
