// A label whose values are of the declared types.
ghost use Rattle.std.specs.Prelude.{◌≡◌, map, IfOk};
ghost use Rattle.smv_meaning.specs.Values.{member_value as value_of_member};
ghost use Rattle.smv_intervals.specs.View.{seen};
ghost use Rattle.smv_items.specs.FlatItemView.{item_plain};
ghost use Rattle.smv_judge.specs.Labels.{first_of_type, first_value as first_of, first_label as label_of};

use smv_intervals::Ty;
use smv_items::{FlatItem, ItemKind};
use smv_meaning::{Given, State, Value};
use smv_text::Member;
use std::alloc::Global;
use text_core::{List, Name, NoMemory};
use word_core::Word;

fn of_type(ty: Ty) -> Value
    ensures { result ≡ first_of_type (seen ty) }
{
    match ty {
        Ty::Truth => Value::Truth(false),
        Ty::Integer(low, _) => Value::Integer(low),
        Ty::Symbol => Value::Truth(false),
        Ty::Bits(width) => match Word::of(width, 0) {
            Some(word) => Value::Bits(word),
            None => Value::Truth(false),
        },
    }
}

fn member_value(alloc: Global, member: &Member) -> Result<Value, NoMemory>
    ensures { IfOk result (λ v. v ≡ value_of_member member.now) }
{
    match member {
        Member::Symbol(name) => Ok(Value::Symbol(Name::of(alloc, name.bytes())?)),
        Member::Integer(z) => Ok(Value::Integer(*z)),
    }
}

fn first_value(alloc: Global, item: &FlatItem) -> Result<Value, NoMemory>
    ensures { IfOk result (λ v. v ≡ first_of (seen item.now.ty) item.now.members) }
{
    match item.members.as_slice().split_first() {
        None => Ok(of_type(item.ty)),
        Some((member, _)) => member_value(alloc, member),
    }
}

/// Returns the label in which each input has the first value of its type.
pub fn first_label(alloc: Global, items: &[FlatItem]) -> Result<State, NoMemory>
    ensures { IfOk result (λ label. label ≡ label_of (map item_plain items.now)) }
{
    let mut label = State::new(alloc);
    let mut rest = items;
    while let Some((item, more)) = rest.split_first() {
        if let ItemKind::Input = item.kind {
            let value = first_value(alloc, item)?;
            let name = Name::of(alloc, item.name.bytes())?;
            label.push(Given { name, value })?;
        }
        rest = more;
    }
    Ok(label)
}

/// Returns the first value of each item's type.
pub(crate) fn first_values(alloc: Global, items: &[FlatItem]) -> Result<List<Value>, NoMemory>
    ensures { IfOk result (λ values. values ≡ map (λ m. first_of m.type m.members) (map item_plain items.now)) }
{
    let mut values = List::new(alloc);
    let mut rest = items;
    while let Some((item, more)) = rest.split_first() {
        values.push(first_value(alloc, item)?)?;
        rest = more;
    }
    Ok(values)
}
