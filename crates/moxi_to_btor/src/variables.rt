// The lines of variables.
ghost use Rattle.std.specs.Prelude.{◌≡◌, [], IfOk, OnOk};
ghost use Rattle.moxi_terms.specs.declared.data.Sort.TheVariants as sort;
ghost use Rattle.moxi_terms.specs.Sorts.{IsSort};
ghost use Rattle.moxi_lines.specs.Codes.{sort_bits};
ghost use Rattle.moxi_lines.specs.Lines.{with_code, with_variable, with_variables};
ghost use Rattle.moxi_to_btor.specs.Putting.{CanPutBelow, CanPutCode, CanPutVariable, CanPutVariables, below_lines};

use crate::lines::{put_constraint, put_free, put_free_behind, put_given, put_place};
use crate::operators::choice_width;
use crate::words::{put_binary, put_constant};
use btor_tree::{Builder, LineOp};
use moxi_terms::{Enumeration, Sort, Variable, Variables};
use std::alloc::Global;
use text_core::{List, NoMemory};
use word_core::{Binary, Word};

// The width of the words of a sort.
fn sort_width(enumerations: &List<Enumeration>, sort: Sort) -> u32
    requires { IsSort enumerations.now sort }
    ensures { result ≡ sort_bits enumerations.now sort }
{
    match sort {
        Sort::Truth => 1,
        Sort::Bits(width) => width,
        Sort::Choice(n) => choice_width(enumerations.at(n as usize).constants.len()),
    }
}

// The constraint that the code of an enumeration is below its number of constants. Where the constants use all words, their
// number is no word of that width, and there is no such line.
fn put_choice_code(
    builder: &mut Builder,
    enumerations: &List<Enumeration>,
    n: u32,
    place: u32,
) -> Result<(), NoMemory>
    requires { CanPutCode enumerations.now (sort.Choice n) builder.old place }
    ensures { OnOk result (builder.new ≡ with_code enumerations.now (sort.Choice n) builder.old place) }
{
    let count = enumerations.at(n as usize).constants.len();
    match Word::of(choice_width(count), count as u128) {
        Some(word) => put_below(builder, word, place),
        None => Ok(()),
    }
}

// The constraint that the word at a place is below a constant.
fn put_below(builder: &mut Builder, limit: Word, place: u32) -> Result<(), NoMemory>
    requires { CanPutBelow limit builder.old place }
    ensures { OnOk result (builder.new ≡ below_lines limit builder.old place) }
{
    let limit = put_constant(builder, limit)?;
    let less = put_binary(builder, Binary::Ult, place, limit)?;
    put_constraint(builder, less)
}

fn put_code(
    builder: &mut Builder,
    enumerations: &List<Enumeration>,
    sort: Sort,
    place: u32,
) -> Result<(), NoMemory>
    requires { CanPutCode enumerations.now sort builder.old place }
    ensures { OnOk result (builder.new ≡ with_code enumerations.now sort builder.old place) }
{
    match sort {
        Sort::Choice(n) => put_choice_code(builder, enumerations, n, place),
        Sort::Truth | Sort::Bits(_) => Ok(()),
    }
}

// The lines of a variable: its input, and right after it the state that holds the input of the previous frame.
fn put_variable(
    alloc: Global,
    builder: &mut Builder,
    enumerations: &List<Enumeration>,
    variable: &Variable,
) -> Result<u32, NoMemory>
    requires { CanPutVariable enumerations.now builder.old variable.now }
    ensures { IfOk result (λ p. (builder.new, p) ≡ with_variable enumerations.now builder.old variable.now) }
{
    let name = variable.name.bytes();
    let width = sort_width(enumerations, variable.sort);
    let input = put_free(alloc, builder, LineOp::Input, width, name)?;
    // Asking for the length gives the fact that the lines are well formed.
    let _ = builder.len();
    let state = put_free_behind(alloc, builder, LineOp::State, width, name, b".prev")?;
    put_given(builder, LineOp::Next, width, state, input)?;
    put_code(builder, enumerations, variable.sort, input)?;
    Ok(input)
}

/// Adds the lines of variables, and returns the places of their inputs.
///
/// Each input is followed by the state that holds its value of the previous step.
pub fn put_variables(
    alloc: Global,
    builder: &mut Builder,
    enumerations: &List<Enumeration>,
    variables: &Variables,
) -> Result<Vec<u32>, NoMemory>
    requires { CanPutVariables enumerations.now (builder.old, []) variables.now }
    ensures { IfOk result (λ inputs. (builder.new, inputs.items) ≡ with_variables enumerations.now (builder.old, []) variables.now) }
{
    let mut inputs = Vec::new(alloc);
    for variable in variables.as_slice() {
        let input = put_variable(alloc, builder, enumerations, variable)?;
        put_place(&mut inputs, input)?;
    }
    Ok(inputs)
}
