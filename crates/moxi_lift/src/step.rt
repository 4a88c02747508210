// The step of a frame of a witness.
ghost use Rattle.std.specs.Prelude.{◌≡◌, ◌==◌, nat_lt, if◌then◌else◌, ℕ, length, IfOk};
ghost use Rattle.std.specs.List.{AllByRecursion};
ghost use Rattle.moxi_terms.specs.declared.data.Datum.TheVariants as datum;
ghost use Rattle.moxi_terms.specs.Sorted.{AreSorts};
ghost use Rattle.moxi_terms.specs.Sorts.{IsSort};
ghost use Rattle.moxi_terms.specs.Tree.{sorts_of};
ghost use Rattle.moxi_terms.specs.Names.{constant_count};
ghost use Rattle.moxi_lines.specs.Codes.{sort_bits};
ghost use Rattle.moxi_lines.specs.Decoding.{decoded_datum};
ghost use Rattle.btor_frames.specs.Judged.{stated_or};
ghost use Rattle.btor_witness.specs.Printing.{IsBelow};
ghost use Rattle.moxi_lift.specs.Lifted.{lifted_step};

use btor_witness::{Stateds, table_of, zero_of};
use moxi_terms::{Datum, Env, Scope, Sort, Variables};
use std::alloc::Global;
use text_core::NoMemory;
use word_core::Word;

// The number that the stated word spells, or zero.
fn bits_of(stated: Option<Word>) -> u128
    ensures { (width : ℕ) → result ≡ (stated_or stated width).bits }
{
    match stated {
        Some(word) => word.bits(),
        None => 0,
    }
}

// The constant with this index, or the first one where there is none.
fn constant_at(scope: &Scope, n: u32, place: u128) -> Datum
    ensures { result ≡ (if nat_lt place (constant_count scope.now.enumerations n) then datum.Constant n place else datum.Constant n 0) }
{
    if place < u128::from(scope.constant_count(n)) {
        Datum::Constant(n, place as u32)
    } else {
        Datum::Constant(n, 0)
    }
}

// The value of the sort that the stated word encodes, or that the zero word encodes where none is stated.
fn value_of(scope: &Scope, sort: Sort, stated: Option<Word>) -> Datum
    requires { IsSort scope.now.enumerations sort }
    ensures { result ≡ decoded_datum scope.now.enumerations sort (stated_or stated (sort_bits scope.now.enumerations sort)) }
{
    match sort {
        Sort::Truth => Datum::Truth(bits_of(stated) == 1),
        Sort::Bits(width) => {
            let word = match stated {
                Some(word) => word,
                None => zero_of(width),
            };
            Datum::Bits(word)
        }
        Sort::Choice(n) => constant_at(scope, n, bits_of(stated)),
    }
}

/// Returns the values of the variables in a frame: variable v has the value that the word of input v encodes (MoXI, SPIN
/// 2024).
///
/// An input that is not stated is zero.
pub fn lifted_step(
    alloc: Global,
    scope: &Scope,
    variables: &Variables,
    stated: &Stateds,
) -> Result<Env, NoMemory>
    requires sorts { AreSorts scope.now.enumerations (sorts_of variables.now) }
    requires inputs { AllByRecursion (IsBelow (length variables.now)) stated.now }
    ensures { IfOk result (λ env. env ≡ lifted_step scope.now.enumerations variables.now stated.now) }
{
    let table = table_of(alloc, stated, variables.len())?;
    let mut env = Env::with_capacity(alloc, variables.len())?;
    for v in 0..variables.len() {
        env.push(value_of(scope, variables.at(v).sort, table[v]))?;
    }
    Ok(env)
}
