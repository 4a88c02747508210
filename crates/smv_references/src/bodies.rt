// The definitions and actuals of a model, numbered in the order of their checks.
ghost use Rattle.std.specs.Prelude.{◌≡◌, ◌<◌, ◌++◌, ◌∷◌, [], map, flat_map, IfOk, OnOk};
ghost use Rattle.smv_text.specs.Tree.{trees_of};
ghost use Rattle.smv_text.specs.View.{plain, plain_definition, plain_element};
ghost use Rattle.smv_meaning.specs.Bodies.{actual_bodies, element_bodies, placed_definition, placed_bodies};
ghost use Rattle.smv_meaning.specs.Phases.{place_of};
ghost use Rattle.smv_instances.specs.View.{instance_plain};
ghost use Rattle.smv_references.specs.View.{body_plain};

use smv_instances::{Instance, Table};
use smv_text::{Definitions, Element, Elements, Expr, Parameters, Shape};
use std::alloc::Global;
use text_core::{NoMemory, Place};

/// A definition, or an actual under the name of its parameter: the number of its instance, its name there, and its
/// place.
#[derive(Drop)]
pub struct Body<'a> {
    pub instance: usize,
    pub name: &'a [u8],
    pub place: Place,
}

fn add<'a>(
    bodies: &mut Vec<Body<'a>>,
    instance: usize,
    name: &'a [u8],
    place: Place,
) -> Result<(), NoMemory>
    ensures { OnOk result (map body_plain bodies.new.items ≡ map body_plain bodies.old.items ++ record { body = (instance, name.now); place = place } ∷ []) }
{
    Ok(bodies.push(Body {
        instance,
        name,
        place,
    })?)
}

/// Returns the place of an expression.
pub fn place(e: &Expr) -> Place
    ensures { result ≡ place_of (plain e.now) }
{
    match &e.shape {
        Shape::True => e.place,
        Shape::False => e.place,
        Shape::Number(_) => e.place,
        Shape::Literal(_) => e.place,
        Shape::Name(_) => e.place,
        Shape::Prefix(_, _, _) => e.place,
        Shape::Chain(_, _) => e.place,
        Shape::Choice(_, _) => e.place,
        Shape::Case(_) => e.place,
        Shape::Select(_, _, _) => e.place,
        Shape::Call(_, _) => e.place,
        Shape::Next(_) => e.place,
        Shape::Set(_) => e.place,
        Shape::Range(_, _) => e.place,
    }
}

fn add_actuals<'a>(
    bodies: &mut Vec<Body<'a>>,
    i: usize,
    parameters: &'a Parameters,
    actuals: &'a [Expr],
) -> Result<(), NoMemory>
    ensures { OnOk result (map body_plain bodies.new.items ≡ map body_plain bodies.old.items ++ actual_bodies i parameters.now (trees_of (map plain actuals.now))) }
{
    for (parameter, e) in parameters.iter().zip(actuals) {
        add(bodies, i, parameter.name.bytes(), place(e))?;
    }
    Ok(())
}

#[tactic(auto, using(text_core::proofs::ListLaws::joined_on))]
fn add_definitions<'a>(
    bodies: &mut Vec<Body<'a>>,
    i: usize,
    definitions: &'a Definitions,
) -> Result<(), NoMemory>
    ensures { OnOk result (map body_plain bodies.new.items ≡ map body_plain bodies.old.items ++ map (placed_definition i) (map plain_definition definitions.now)) }
{
    for definition in definitions {
        add(bodies, i, definition.name.bytes(), definition.place)?;
    }
    Ok(())
}

#[tactic(auto, using(text_core::proofs::ListLaws::joined_on))]
fn add_elements<'a>(
    bodies: &mut Vec<Body<'a>>,
    i: usize,
    elements: &'a Elements,
) -> Result<(), NoMemory>
    ensures { OnOk result (map body_plain bodies.new.items ≡ map body_plain bodies.old.items ++ flat_map (element_bodies i) (map plain_element elements.now)) }
{
    for element in elements {
        if let Element::Defines(definitions) = element {
            add_definitions(bodies, i, definitions)?;
        }
    }
    Ok(())
}

/// Returns the definitions and actuals of the model.
///
/// Instances come in preorder. In each, its actuals come first, then its definitions in the order of the text.
pub fn bodies_in<'a>(alloc: Global, table: &Table<'a>) -> Result<Vec<Body<'a>>, NoMemory>
    ensures { IfOk result (λ fs. map body_plain fs.items ≡ placed_bodies (map instance_plain table.now)) }
{
    let mut bodies = Vec::new(alloc);
    for (i, at) in table.list().iter().enumerate() {
        add_actuals(&mut bodies, i, &at.module.parameters, at.actuals)?;
        add_elements(&mut bodies, i, &at.module.elements)?;
    }
    Ok(bodies)
}
