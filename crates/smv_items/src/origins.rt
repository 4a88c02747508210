// The declarations that the items of a model come from, in order.
ghost use Rattle.std.specs.Prelude.{◌≡◌, ◌<◌, ◌^◌, ◌++◌, [], length, map, flat_map, OnOk, IfOk};
ghost use Rattle.smv_text.specs.Tree.{trees_of};
ghost use Rattle.smv_text.specs.View.{plain, plain_item, plain_definition, plain_element, plain_domain};
ghost use Rattle.smv_meaning.specs.Names.{dotted_at};
ghost use Rattle.smv_instances.specs.View.{instance_plain};
ghost use Rattle.smv_items.specs.FlatItems.{with_content, actual_content, actual_items, domain_content, variable_item, definition_item, element_items, items_here, origins_of, path_of};
ghost use Rattle.smv_items.specs.FlatOrigins.{origin_plain, content_or_none};

use smv_instances::{Instance, Table, path_below};
use smv_text::{Definitions, Domain, Element, Elements, Expr, Items, Parameters, Shape, VarKind};
use std::alloc::Global;
use text_core::{Name, NoMemory};

/// The content of an item: a variable, or a body with the number of the instance in which it is read.
#[derive(Clone, Copy)]
pub enum Content<'a> {
    Variable(VarKind, &'a Domain),
    Definition(usize, &'a Expr),
    Actual(usize, &'a Expr),
}

/// An item: its instance, its name there, and its content.
#[derive(Clone, Copy)]
pub struct Origin<'a> {
    pub instance: u32,
    pub name: &'a [u8],
    pub content: Content<'a>,
}

/// The origins of a model's items, in order.
pub type Origins<'a> = Vec<Origin<'a>>;

// Adds an item, if there is one.
fn add<'a>(
    origins: &mut Origins<'a>,
    instance: u32,
    name: &'a [u8],
    content: Option<Content<'a>>,
) -> Result<(), NoMemory>
    ensures { OnOk result (map origin_plain origins.new.items ≡ map origin_plain origins.old.items ++ with_content instance name.now (content_or_none content.entry)) }
{
    match content {
        None => Ok(()),
        Some(content) => Ok(origins.push(Origin {
            instance,
            name,
            content,
        })?),
    }
}

// An actual that is a path is not an item.
fn actual<'a>(parent: usize, e: &'a Expr) -> Option<Content<'a>>
    ensures { content_or_none result ≡ actual_content parent (plain e.now) }
{
    match &e.shape {
        Shape::Name(_) => None,
        _ => Some(Content::Actual(parent, e)),
    }
}

fn variable<'a>(kind: VarKind, d: &'a Domain) -> Option<Content<'a>>
    ensures { content_or_none result ≡ domain_content kind (plain_domain d.now) }
{
    match d {
        Domain::Boolean => Some(Content::Variable(kind, d)),
        Domain::Members(_) => Some(Content::Variable(kind, d)),
        Domain::Between(_, _) => Some(Content::Variable(kind, d)),
        Domain::Bits(_) => Some(Content::Variable(kind, d)),
        Domain::Instance(_, _) => None,
    }
}

fn add_actuals<'a>(
    origins: &mut Origins<'a>,
    i: u32,
    parent: usize,
    parameters: &'a Parameters,
    actuals: &'a [Expr],
) -> Result<(), NoMemory>
    ensures { OnOk result (map origin_plain origins.new.items ≡ map origin_plain origins.old.items ++ actual_items i parent parameters.now (trees_of (map plain actuals.now))) }
{
    for (parameter, e) in parameters.iter().zip(actuals) {
        add(origins, i, parameter.name.bytes(), actual(parent, e))?;
    }
    Ok(())
}

fn add_variables<'a>(
    origins: &mut Origins<'a>,
    i: u32,
    kind: VarKind,
    items: &'a Items,
) -> Result<(), NoMemory>
    ensures { OnOk result (map origin_plain origins.new.items ≡ map origin_plain origins.old.items ++ flat_map (variable_item i kind) (map plain_item items.now)) }
{
    for item in items {
        add(origins, i, item.name.bytes(), variable(kind, &item.domain))?;
    }
    Ok(())
}

fn add_definitions<'a>(
    origins: &mut Origins<'a>,
    i: u32,
    definitions: &'a Definitions,
) -> Result<(), NoMemory>
    ensures { OnOk result (map origin_plain origins.new.items ≡ map origin_plain origins.old.items ++ map (definition_item i) (map plain_definition definitions.now)) }
{
    for definition in definitions {
        add(
            origins,
            i,
            definition.name.bytes(),
            Some(Content::Definition(i as usize, &definition.body)),
        )?;
    }
    Ok(())
}

fn add_element<'a>(origins: &mut Origins<'a>, i: u32, element: &'a Element) -> Result<(), NoMemory>
    ensures { OnOk result (map origin_plain origins.new.items ≡ map origin_plain origins.old.items ++ element_items i (plain_element element.now)) }
{
    match element {
        Element::Vars(kind, items) => add_variables(origins, i, *kind, items),
        Element::Defines(definitions) => add_definitions(origins, i, definitions),
        Element::Constants(_) => Ok(()),
        Element::Assigns(_) => Ok(()),
        Element::Init(_) => Ok(()),
        Element::Trans(_) => Ok(()),
        Element::Invar(_) => Ok(()),
        Element::Spec(_, _) => Ok(()),
    }
}

fn add_elements<'a>(
    origins: &mut Origins<'a>,
    i: u32,
    elements: &'a Elements,
) -> Result<(), NoMemory>
    ensures { OnOk result (map origin_plain origins.new.items ≡ map origin_plain origins.old.items ++ flat_map (element_items i) (map plain_element elements.now)) }
{
    for element in elements {
        add_element(origins, i, element)?;
    }
    Ok(())
}

// Appends the items of the instance with this number.
fn put_origins<'a>(origins: &mut Origins<'a>, i: u32, at: &Instance<'a>) -> Result<(), NoMemory>
    ensures { OnOk result (map origin_plain origins.new.items ≡ map origin_plain origins.old.items ++ items_here i (instance_plain at.now)) }
{
    let module = at.module;
    add_actuals(
        origins,
        i,
        at.parent.unwrap_or(0),
        &module.parameters,
        at.actuals,
    )?;
    add_elements(origins, i, &module.elements)
}

/// Returns the origins of a model's items, in order.
#[tactic(auto, using(smv_meaning::specs::laws::Lists::front_is, smv_meaning::specs::laws::Lists::end_is, text_core::proofs::ListLaws::joined_on))]
pub fn origins_in<'a>(alloc: Global, table: &Table<'a>) -> Result<Origins<'a>, NoMemory>
    requires few { length table.now < 2 ^ 32 }
    ensures { IfOk result (λ os. map origin_plain os.items ≡ origins_of (map instance_plain table.now)) }
{
    let mut origins = Vec::new(alloc);
    for (i, part) in table.list().iter().enumerate() {
        put_origins(&mut origins, i as u32, part)?;
    }
    Ok(origins)
}

/// Returns the dotted paths of these items.
#[tactic(auto, using(smv_meaning::specs::laws::Lists::front_is, smv_meaning::specs::laws::Lists::end_is, text_core::proofs::ListLaws::joined_on, text_core::proofs::ListLaws::append_none))]
pub fn dotted_paths<'a>(
    alloc: Global,
    table: &Table<'a>,
    origins: &[Origin<'a>],
) -> Result<Vec<Name>, NoMemory>
    ensures { IfOk result (λ ps. ps.items ≡ map (path_of (map instance_plain table.now)) (map origin_plain origins.now)) }
{
    let mut paths = Vec::with_capacity(alloc, origins.len())?;
    for origin in origins {
        let path = dotted_path(alloc, table, origin.instance as usize, origin.name)?;
        paths.push(path)?;
    }
    Ok(paths)
}

/// Returns the dotted path of a name in the instance with this number.
pub fn dotted_path<'a>(
    alloc: Global,
    table: &Table<'a>,
    i: usize,
    name: &[u8],
) -> Result<Name, NoMemory>
    ensures { IfOk result (λ p. p ≡ dotted_at (map instance_plain table.now) i name.now) }
{
    if i < table.len() {
        path_below(alloc, table.at(i).path.bytes(), name)
    } else {
        path_below(alloc, &[], name)
    }
}
