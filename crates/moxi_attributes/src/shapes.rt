// The shapes of lists.
ghost use Rattle.std.specs.Prelude.{◌≡◌};
ghost use Rattle.moxi_sexpr.specs.Tree.{plain, plain_forms};
ghost use Rattle.moxi_term_reading.specs.Forms.{place_in};
ghost use Rattle.moxi_scripts.specs.Declarations.{is_empty_list};
ghost use Rattle.moxi_scripts.specs.Shapes.{headed, misshapen, misshapen_place, named, named_in, parts_of, triple_of};
ghost use Rattle.moxi_attributes.specs.Views.{headed_now, named_now, parts_now, triple_now};

use moxi_sexpr::{Form, FormShape};
use moxi_term_reading::{only_form, pair, refusal, symbol_of};
use text_core::kinds::moxi;
use text_core::{Place, Refusal};

/// A symbol, and the forms after it.
#[derive(Clone, Copy)]
pub struct Headed<'a> {
    pub name: &'a [u8],
    pub primed: bool,
    pub place: Place,
    pub rest: &'a [Form],
}

/// A symbol, and the only form after it.
#[derive(Clone, Copy)]
pub struct Named<'a> {
    pub name: &'a [u8],
    pub primed: bool,
    pub place: Place,
    pub form: &'a Form,
}

/// Returns the forms as a symbol and the forms after it, or None where they don't begin with a symbol.
pub fn headed_forms<'a>(forms: &'a [Form]) -> Option<Headed<'a>>
    ensures { headed_now result ≡ headed (plain_forms forms.now) }
{
    match forms.split_first() {
        None => None,
        Some((head, rest)) => match symbol_of(head) {
            None => None,
            Some((name, primed)) => Some(Headed {
                name,
                primed,
                place: head.place,
                rest,
            }),
        },
    }
}

/// Returns a list as a symbol and a form, or None where it has another shape.
pub fn named_form<'a>(form: &'a Form) -> Option<Named<'a>>
    ensures { named_now result ≡ named (plain form.now) }
{
    match &form.shape {
        FormShape::Atom(_) => None,
        FormShape::List(parts) => named_in(parts),
    }
}

/// Returns the forms of a list, or None for an atom.
pub fn parts_of<'a>(form: &'a Form) -> Option<&'a [Form]>
    ensures { parts_now result ≡ parts_of (plain form.now) }
{
    match &form.shape {
        FormShape::Atom(_) => None,
        FormShape::List(parts) => Some(parts),
    }
}

/// Returns the three forms, or None where there are not exactly three.
pub fn triple_of<'a>(forms: &'a [Form]) -> Option<(&'a Form, &'a Form, &'a Form)>
    ensures { triple_now result ≡ triple_of (plain_forms forms.now) }
{
    match forms.split_first() {
        None => None,
        Some((first, rest)) => match pair(rest) {
            None => None,
            Some((second, third)) => Some((first, second, third)),
        },
    }
}

/// Returns the place of the form.
pub fn place_of(form: &Form) -> Place
    ensures { result ≡ place_in (plain form.now) }
{
    form.place
}

/// Returns the place of the list whose own elements don't fit, for a misshapen form in a list at `around`.
///
/// That is the form if it is a list, otherwise the list around it.
pub fn misshapen_place(around: Place, form: &Form) -> Place
    ensures { result ≡ misshapen_place around (plain form.now) }
{
    match &form.shape {
        FormShape::Atom(_) => around,
        FormShape::List(_) => form.place,
    }
}

/// Returns the refusal of a misshapen form in a list at `around`.
pub fn shape_refusal(around: Place, form: &Form) -> Refusal
    ensures { result ≡ misshapen around (plain form.now) }
{
    refusal(moxi::ARITY, misshapen_place(around, form))
}

/// Returns the forms as a symbol and one form after it, or None where they have another shape.
pub fn named_in<'a>(forms: &'a [Form]) -> Option<Named<'a>>
    ensures { named_now result ≡ named_in (headed (plain_forms forms.now)) }
{
    match headed_forms(forms) {
        None => None,
        Some(h) => match only_form(h.rest) {
            None => None,
            Some(form) => Some(Named {
                name: h.name,
                primed: h.primed,
                place: h.place,
                form,
            }),
        },
    }
}

/// Returns whether the form is an empty list.
pub fn is_empty_list(form: &Form) -> bool
    ensures { result ≡ is_empty_list (plain form.now) }
{
    match &form.shape {
        FormShape::Atom(_) => false,
        FormShape::List(parts) => match parts.split_first() {
            None => true,
            Some(_) => false,
        },
    }
}
