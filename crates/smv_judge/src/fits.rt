// The check that the values of a row's variables are of their declared types.
ghost use Rattle.std.specs.Prelude.{◌≡◌, map};
ghost use Rattle.smv_text.specs.declared.tree.Member.{Member};
ghost use Rattle.smv_meaning.specs.Values.{value_same, member_value, is_among};
ghost use Rattle.smv_intervals.specs.View.{seen};
ghost use Rattle.smv_items.specs.FlatItemView.{item_plain};
ghost use Rattle.smv_operators.specs.View.{seen_value};
ghost use Rattle.smv_flat_evaluation.specs.RowValues.{row_values};
ghost use Rattle.smv_judge.specs.Fits.{type_has, declared_has, item_fits as fits_item, items_fit as fit_items};

use smv_flat_evaluation::item_at;
use smv_intervals::Ty;
use smv_items::{FlatItem, ItemKind};
use smv_operators::Seen;
use smv_text::{Member, Members};

// Whether the value is of the type.
fn is_of_type(ty: Ty, value: &Seen) -> bool
    ensures { result ≡ type_has (seen ty) (seen_value value.now) }
{
    match ty {
        Ty::Truth => match value {
            Seen::Truth(_) => true,
            Seen::Integer(_) => false,
            Seen::Symbol(_) => false,
            Seen::Bits(_) => false,
        },
        Ty::Integer(low, high) => match value {
            Seen::Truth(_) => false,
            Seen::Integer(z) => low <= *z && *z <= high,
            Seen::Symbol(_) => false,
            Seen::Bits(_) => false,
        },
        Ty::Symbol => false,
        Ty::Bits(width) => match value {
            Seen::Truth(_) => false,
            Seen::Integer(_) => false,
            Seen::Symbol(_) => false,
            Seen::Bits(word) => 1 <= width && word.width() == width,
        },
    }
}

fn is_member(member: &Member, value: &Seen) -> bool
    ensures { result ≡ value_same (member_value member.now) (seen_value value.now) }
{
    match member {
        Member::Symbol(name) => match value {
            Seen::Truth(_) => false,
            Seen::Integer(_) => false,
            Seen::Symbol(other) => name.bytes() == *other,
            Seen::Bits(_) => false,
        },
        Member::Integer(z) => match value {
            Seen::Truth(_) => false,
            Seen::Integer(other) => *z == *other,
            Seen::Symbol(_) => false,
            Seen::Bits(_) => false,
        },
    }
}

// Whether the value is one of the members.
fn is_one_of(members: &[Member], value: &Seen) -> bool
    ensures { result ≡ is_among members.now (seen_value value.now) }
{
    let mut rest = members;
    while let Some((first, more)) = rest.split_first() {
        if is_member(first, value) {
            return true;
        }
        rest = more;
    }
    false
}

// Whether the value is of the declared type, if the item is a variable.
fn item_fits(item: &FlatItem, value: &Seen) -> bool
    ensures { result ≡ fits_item (item_plain item.now) (seen_value value.now) }
{
    match item.kind {
        ItemKind::State | ItemKind::Frozen | ItemKind::Input => declared_fits(item, value),
        ItemKind::Define | ItemKind::Actual => true,
    }
}

fn declared_fits(item: &FlatItem, value: &Seen) -> bool
    ensures { result ≡ declared_has (seen item.now.ty) item.now.members (seen_value value.now) }
{
    let members = item.members.as_slice();
    if members.is_empty() {
        is_of_type(item.ty, value)
    } else {
        is_one_of(members, value)
    }
}

/// Returns whether the value of each variable is of its declared type.
pub(crate) fn items_fit(items: &[FlatItem], values: &[Seen]) -> bool
    ensures { result ≡ fit_items (row_values values.now) 0 (map item_plain items.now) }
{
    let mut k = 0usize;
    let mut rest = items;
    while let Some((item, more)) = rest.split_first() {
        if !item_fits(item, &item_at(values, k)) {
            return false;
        }
        k += 1;
        rest = more;
    }
    true
}
