// Values of terms over declared functions and enumerations.
ghost use Rattle.std.specs.Prelude.{[]};
ghost use Rattle.moxi_terms.specs.View.{plain};
ghost use Rattle.moxi_terms.specs.declared.data.Primes.TheVariants.{Refused};
ghost use Rattle.moxi_term_reading.specs.WellSorted.{IsTerm};

use crate::scripts::{forms_of, script_of};
use case_text::{Answer, Fault, Piece, piece_bytes};
use moxi_sexpr::{Form, put_symbol};
use moxi_term_reading::term_of;
use moxi_terms::{Datum, Env, Primes, Scope, Sort, Term, Variables, eval};
use std::alloc::Global;
use text_core::{NoMemory, Text};

/// Appends the value of the term.
pub fn put_term_value(alloc: Global, out: &mut Answer, pieces: &[Piece]) -> Result<(), Fault> {
    let text = piece_bytes(pieces, "text")?;
    let commands = whole_script(alloc, piece_bytes(pieces, "scope")?)?;
    let script = script_of(alloc, commands.bytes())?;
    let done = put_value_in(alloc, out, &script.scope, text);
    drop(script);
    done
}

// The commands, followed by a system and its check, without which they are not a script.
fn whole_script(alloc: Global, commands: &[u8]) -> Result<Text, NoMemory> {
    let mut out = Answer::new(alloc);
    out.put(commands);
    out.put(b"(define-system S) (check-system S)");
    out.done()
}

fn put_value_in(alloc: Global, out: &mut Answer, scope: &Scope, text: &[u8]) -> Result<(), Fault> {
    match value_of(alloc, scope, text) {
        Ok(value) => put_value(out, scope, value),
        Err(fault) => Err(fault),
    }
}

// The value of the first term of a text.
fn value_of(alloc: Global, scope: &Scope, text: &[u8]) -> Result<Datum, Fault> {
    let forms = forms_of(alloc, text)?;
    let form = forms.first().ok_or("no term")?;
    term_value(alloc, scope, form)
}

fn term_value(alloc: Global, scope: &Scope, form: &Form) -> Result<Datum, Fault> {
    let (term, sort) = term_of(alloc, scope, &Variables::new(alloc), form, Primes::Refused)?;
    Ok(constant_value(alloc, scope, sort, &term)?)
}

// The value of a term of this sort without variables.
fn constant_value(alloc: Global, scope: &Scope, sort: Sort, term: &Term) -> Result<Datum, NoMemory>
    requires { IsTerm scope.now Refused [] [] (plain term.now) sort }
{
    eval(alloc, scope, term, &Env::new(alloc), None)
}

fn put_value(out: &mut Answer, scope: &Scope, value: Datum) -> Result<(), Fault> {
    match value {
        Datum::Truth(b) => {
            out.put(if b { b"true" } else { b"false" });
            Ok(())
        }
        Datum::Bits(word) => {
            out.put(b"(_ bv");
            out.put_unsigned(word.bits());
            out.put(b" ");
            out.put_unsigned(u128::from(word.width()));
            out.put(b")");
            Ok(())
        }
        Datum::Constant(n, i) => put_constant(out, scope, n, i as usize),
    }
}

fn put_constant(out: &mut Answer, scope: &Scope, n: u32, i: usize) -> Result<(), Fault> {
    let constants = scope.constants(n).ok_or("a value of no enumeration")?;
    if i >= constants.len() {
        return Err(Fault::from("a value that is no constant"));
    }
    let done = put_symbol(out.text(), constants.at(i).bytes(), false);
    out.take(done);
    Ok(())
}
