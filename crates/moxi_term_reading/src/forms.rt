// The parts of forms.
ghost use Rattle.std.specs.Prelude.{◌≡◌};
ghost use Rattle.moxi_sexpr.specs.Tree.{plain, plain_forms};
ghost use Rattle.moxi_term_reading.specs.Forms.{digits_now, is_primed, is_word, numeral_atom, numeral_of, only_now, only_of, pair_now, pair_of, place_in, symbol_atom, symbol_now, symbol_of};
ghost use Rattle.moxi_term_reading.specs.SortReading.{only_numeral};

use moxi_sexpr::{Atom, Form, FormShape};
use text_core::{Place, is_same};

/// Returns the name of a symbol, and whether it is primed, or None for any other atom.
pub fn symbol_atom<'a>(a: &'a Atom) -> Option<(&'a [u8], bool)>
    ensures { symbol_now result ≡ symbol_atom a.now }
{
    match a {
        Atom::Symbol(name, primed) => Some((name.bytes(), *primed)),
        Atom::Keyword(_) => None,
        Atom::Numeral(_) => None,
        Atom::Binary(_) => None,
        Atom::Hex(_) => None,
        Atom::Quote(_) => None,
    }
}

/// Returns the place of the form.
pub fn place_in(form: &Form) -> Place
    ensures { result ≡ place_in (plain form.now) }
{
    form.place
}

/// Returns the name of the form, and whether it is primed, or None where the form is no symbol.
pub fn symbol_of<'a>(form: &'a Form) -> Option<(&'a [u8], bool)>
    ensures { symbol_now result ≡ symbol_of (plain form.now) }
{
    match &form.shape {
        FormShape::Atom(a) => symbol_atom(a),
        FormShape::List(_) => None,
    }
}

fn numeral_atom<'a>(a: &'a Atom) -> Option<&'a [u8]>
    ensures { digits_now result ≡ numeral_atom a.now }
{
    match a {
        Atom::Symbol(_, _) => None,
        Atom::Keyword(_) => None,
        Atom::Numeral(digits) => Some(digits.bytes()),
        Atom::Binary(_) => None,
        Atom::Hex(_) => None,
        Atom::Quote(_) => None,
    }
}

/// Returns the digits of the form, or None where it is no numeral.
pub fn numeral_of<'a>(form: &'a Form) -> Option<&'a [u8]>
    ensures { digits_now result ≡ numeral_of (plain form.now) }
{
    match &form.shape {
        FormShape::Atom(a) => numeral_atom(a),
        FormShape::List(_) => None,
    }
}

/// Returns the form if it is the only one.
#[tactic(auto, using(crate::proofs::FormLaws::only_none, crate::proofs::FormLaws::only_one))]
pub fn only_form<'a>(forms: &'a [Form]) -> Option<&'a Form>
    ensures { only_now result ≡ only_of (plain_forms forms.now) }
{
    match forms.split_first() {
        None => None,
        Some((form, rest)) => match rest.split_first() {
            None => Some(form),
            Some(_) => None,
        },
    }
}

/// Returns the two forms, or None where there are not exactly two.
#[tactic(auto, using(crate::proofs::FormLaws::pair_none, crate::proofs::FormLaws::pair_rest))]
pub fn pair<'a>(forms: &'a [Form]) -> Option<(&'a Form, &'a Form)>
    ensures { pair_now result ≡ pair_of (plain_forms forms.now) }
{
    match forms.split_first() {
        None => None,
        Some((first, rest)) => match only_form(rest) {
            None => None,
            Some(second) => Some((first, second)),
        },
    }
}

/// Returns the digits of the only form, or None where there is not exactly one form, a numeral.
pub fn only_numeral<'a>(forms: &'a [Form]) -> Option<&'a [u8]>
    ensures { digits_now result ≡ only_numeral (plain_forms forms.now) }
{
    match only_form(forms) {
        Some(form) => numeral_of(form),
        None => None,
    }
}

/// Returns whether the form is this symbol, primed or not.
pub fn is_word(word: &[u8], form: &Form) -> bool
    ensures { result ≡ is_word word.now (plain form.now) }
{
    match symbol_of(form) {
        Some((name, _)) => is_same(name, word),
        None => false,
    }
}

/// Returns whether the form is a primed symbol.
pub fn is_primed(form: &Form) -> bool
    ensures { result ≡ is_primed (plain form.now) }
{
    match symbol_of(form) {
        Some((_, primed)) => primed,
        None => false,
    }
}
