// The items of a model, each with its dotted path and its type.
ghost use Rattle.std.specs.Prelude.{◌≡◌, length, map, option_map, IfOk};
ghost use Rattle.smv_intervals.specs.View.{seen};
ghost use Rattle.smv_items.specs.FlatItems.{kind_of, type_or_truth};
ghost use Rattle.smv_items.specs.FlatItemView.{item_plain};
ghost use Rattle.smv_items.specs.FlatOrigins.{content_plain, origin_plain};
ghost use Rattle.smv_flatten.specs.Listing.{item_with, items_with};

use crate::members::members_of;
use smv_intervals::Ty;
use smv_items::{Content, FlatItem, ItemKind, Origin};
use smv_text::VarKind;
use std::alloc::Global;
use text_core::{Name, NoMemory};

fn kind_of(content: &Content) -> ItemKind
    ensures { result ≡ kind_of (content_plain content.now) }
{
    match content {
        Content::Variable(VarKind::State, _) => ItemKind::State,
        Content::Variable(VarKind::Frozen, _) => ItemKind::Frozen,
        Content::Variable(VarKind::Input, _) => ItemKind::Input,
        Content::Definition(_, _) => ItemKind::Define,
        Content::Actual(_, _) => ItemKind::Actual,
    }
}

fn type_or_truth(t: Option<Ty>) -> Ty
    ensures { seen result ≡ type_or_truth (option_map seen t) }
{
    match t {
        Some(t) => t,
        None => Ty::Truth,
    }
}

fn flat_item(
    alloc: Global,
    origin: &Origin,
    name: Name,
    ty: Option<Ty>,
) -> Result<FlatItem, NoMemory>
    ensures { IfOk result (λ m. item_plain m ≡ item_with (origin_plain origin.now) name (option_map seen ty)) }
{
    let members = members_of(alloc, &origin.content)?;
    Ok(FlatItem {
        name,
        instance: origin.instance,
        kind: kind_of(&origin.content),
        ty: type_or_truth(ty),
        members,
    })
}

/// Returns the items with these origins, dotted paths and types.
///
/// An item without a type is `boolean`.
pub(crate) fn flat_items(
    alloc: Global,
    origins: &[Origin],
    paths: Vec<Name>,
    types: &[Option<Ty>],
) -> Result<Vec<FlatItem>, NoMemory>
    requires paths { length paths.items ≡ length origins.now }
    requires types { length types.now ≡ length origins.now }
    ensures { IfOk result (λ ms. map item_plain ms.items ≡ items_with (map origin_plain origins.now) paths.items (map (option_map seen) types.now)) }
{
    let mut items = Vec::with_capacity(alloc, origins.len())?;
    let mut k = 0;
    for name in paths {
        let item = flat_item(alloc, &origins[k], name, types[k])?;
        items.push(item)?;
        k += 1;
    }
    Ok(items)
}
