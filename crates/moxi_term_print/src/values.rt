// Printing of values.
ghost use Rattle.std.specs.Prelude.{◌≡◌, ◌++◌, OnOk};
ghost use Rattle.text_core.specs.Binary.{binary_digits};
ghost use Rattle.moxi_sexpr.specs.declared.form.Atom.TheVariants as atoms;
ghost use Rattle.moxi_term_print.specs.Shown.{part, text_of};
ghost use Rattle.moxi_term_print.specs.Terms.{shown_value, truth_word};

use crate::named::constant_name;
use moxi_sexpr::put_symbol;
use moxi_terms::{Datum, Scope};
use text_core::{NoMemory, Text};
use word_core::Word;

fn truth_word(b: bool) -> &'static [u8]
    ensures { result.now ≡ truth_word b }
{
    if b { b"true" } else { b"false" }
}

fn put_word(out: &mut Text, word: &Word) -> Result<(), NoMemory>
    ensures { OnOk result (out.new ≡ out.old ++ text_of (part (atoms.Binary (binary_digits word.now.width word.now.bits)))) }
{
    out.put(b"#b")?;
    out.put_binary(word.width(), word.bits())
}

/// Appends a value: `true`, `false`, `#b` and the digits of a word, or the name of a constant (SMT-LIB 2.6, section 3.1).
pub fn put_value(out: &mut Text, scope: &Scope, value: &Datum) -> Result<(), NoMemory>
    ensures { OnOk result (out.new ≡ out.old ++ text_of (shown_value scope.now value.now)) }
{
    match value {
        Datum::Truth(b) => out.put(truth_word(*b)),
        Datum::Bits(word) => put_word(out, word),
        Datum::Constant(n, i) => put_symbol(out, constant_name(scope, *n, *i), false),
    }
}
