// Values in a response.
ghost use Rattle.std.specs.Prelude.{◌≡◌};
ghost use Rattle.moxi_terms.specs.Sorts.{same_sort};
ghost use Rattle.moxi_terms.specs.declared.data.Datum.TheVariants as datum;
ghost use Rattle.moxi_terms.specs.declared.data.Sort.TheVariants as sort;
ghost use Rattle.moxi_trace.specs.Values.{if_same, symbol_value, word_value, value_of, meant_value};

use crate::tokens::Shape;
use moxi_terms::{Datum, Meaning, Scope, Sort};
use word_core::read_digits;

fn same_sort(s: Sort, t: Sort) -> bool
    ensures { result ≡ same_sort s t }
{
    match s {
        Sort::Truth => matches!(t, Sort::Truth),
        Sort::Bits(v) => match t {
            Sort::Bits(w) => v == w,
            Sort::Truth | Sort::Choice(_) => false,
        },
        Sort::Choice(n) => match t {
            Sort::Choice(m) => n == m,
            Sort::Truth | Sort::Bits(_) => false,
        },
    }
}

fn if_same(s: Sort, t: Sort, value: Datum) -> Option<Datum>
    ensures { result ≡ if_same s t value }
{
    if same_sort(s, t) { Some(value) } else { None }
}

fn meant_value(s: Sort, meaning: Option<Meaning>) -> Option<Datum>
    ensures { result ≡ meant_value s meaning }
{
    match meaning {
        Some(Meaning::Value(value, t)) => if_same(s, t, value),
        Some(Meaning::Bound(_, _)) => None,
        Some(Meaning::Variable(_, _)) => None,
        Some(Meaning::Call(_, _)) => None,
        None => None,
    }
}

// The value with this name if it is of the sort, including `true` and `false`.
#[tactic(auto, using(crate::proofs::Symbols::bare_value))]
fn symbol_value(scope: &Scope, s: Sort, name: &[u8]) -> Option<Datum>
    ensures { result ≡ symbol_value scope.now.enumerations s name.now }
{
    meant_value(s, scope.constant_or_function(name))
}

fn bits_value(width: u32, digits: &[u8]) -> Option<Datum>
    ensures { result ≡ word_value (sort.Bits width) digits.now }
{
    if digits.len() != width as usize {
        return None;
    }
    let word = read_digits(width, 2, digits)?;
    Some(Datum::Bits(word))
}

fn word_value(s: Sort, digits: &[u8]) -> Option<Datum>
    ensures { result ≡ word_value s digits.now }
{
    match s {
        Sort::Bits(width) => bits_value(width, digits),
        Sort::Truth => None,
        Sort::Choice(_) => None,
    }
}

/// Returns the value of a sort that a token spells.
///
/// It is `true` or `false`, the name of a constant, or `#b` followed by exactly as many digits as the sort is wide. Returns
/// None for any other token.
pub fn value_of(scope: &Scope, s: Sort, shape: Shape, bytes: &[u8]) -> Option<Datum>
    ensures { result ≡ value_of scope.now.enumerations s shape bytes.now }
{
    match shape {
        Shape::Symbol => symbol_value(scope, s, bytes),
        Shape::Binary => word_value(s, bytes),
        Shape::Open => None,
        Shape::Close => None,
        Shape::Keyword => None,
        Shape::Numeral => None,
        Shape::Other => None,
    }
}
