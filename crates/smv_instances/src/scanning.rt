// Lookup of a name in an instance of a small module, by a scan of the module.
ghost use Rattle.std.specs.Prelude.{◌≡◌, Some, map};
ghost use Rattle.smv_text.specs.Tree.{trees_of};
ghost use Rattle.smv_text.specs.View.{plain, plain_item, plain_definition, plain_element, plain_module};
ghost use Rattle.smv_meaning.specs.Names.{Local, among_items, among_definitions, among_elements, among_parameters, local_in};
ghost use Rattle.smv_instances.specs.NameMap.{is_small};
ghost use Rattle.smv_instances.specs.View.{instance_plain, or_local, local_plain};

use crate::instances::Instance;
use crate::names::{Known, actual, domain};
use smv_text::{Definitions, Element, Elements, Expr, Items, Module, Parameters, VarKind};
use text_core::is_same;

/// The most tokens in the body of a small module.
const MOST_TOKENS: u32 = 40;
/// The most parameters of a small module.
const MOST_PARAMETERS: usize = 8;

/// Returns whether the module is so small that its names are found by a scan of its declarations.
#[inline(always)]
pub fn is_small(module: &Module) -> bool
    ensures { result ≡ is_small (plain_module «module».now) }
{
    module.tokens <= MOST_TOKENS && module.parameters.len() <= MOST_PARAMETERS
}

// The first variable or instance with this name.
#[inline(always)]
fn among_items<'a>(kind: VarKind, items: &'a Items, x: &[u8]) -> Option<Known<'a>>
    ensures { (other : Local) → or_local result other ≡ among_items kind (map plain_item items.now) x.now other }
{
    for item in items {
        if is_same(item.name.bytes(), x) {
            return Some(domain(kind, &item.domain));
        }
    }
    None
}

// The first definition with this name.
#[inline(always)]
fn among_definitions<'a>(i: usize, definitions: &'a Definitions, x: &[u8]) -> Option<Known<'a>>
    ensures { (other : Local) → or_local result other ≡ among_definitions i (map plain_definition definitions.now) x.now other }
{
    for definition in definitions {
        if is_same(definition.name.bytes(), x) {
            return Some(Known::Body(i, &definition.body));
        }
    }
    None
}

// The declaration of this name among the elements.
#[inline(always)]
fn among_elements<'a>(i: usize, elements: &'a Elements, x: &[u8]) -> Known<'a>
    ensures { local_plain result ≡ among_elements i (map plain_element elements.now) x.now }
{
    for element in elements {
        match element {
            Element::Vars(kind, items) => if let Some(known) = among_items(*kind, items, x) {
                return known;
            },
            Element::Defines(definitions) => if let Some(known) = among_definitions(
                i,
                definitions,
                x,
            ) {
                return known;
            },
            _ => {}
        }
    }
    Known::Nothing
}

// The first parameter with this name that has an actual.
#[inline(always)]
fn among_parameters<'a>(
    parent: usize,
    parameters: &'a Parameters,
    actuals: &'a [Expr],
    x: &[u8],
) -> Option<Known<'a>>
    ensures { (other : Local) → or_local result other ≡ among_parameters parent parameters.now (trees_of (map plain actuals.now)) x.now other }
{
    for (parameter, e) in parameters.iter().zip(actuals) {
        if is_same(parameter.name.bytes(), x) {
            return Some(actual(parent, e));
        }
    }
    None
}

/// Returns the meaning of a name in the instance with this number, found by a scan of its module.
#[inline(always)]
pub fn scanned<'a>(i: usize, part: &Instance<'a>, x: &[u8]) -> Known<'a>
    ensures { local_plain result ≡ local_in i x.now (Some (instance_plain part.now)) }
{
    let module = part.module;
    let parent = part.parent.unwrap_or(0);
    match among_parameters(parent, &module.parameters, part.actuals, x) {
        Some(known) => known,
        None => among_elements(i, &module.elements, x),
    }
}
