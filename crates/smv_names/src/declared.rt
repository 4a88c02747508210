// The declarations of a module, in the order of their checks.
ghost use Rattle.std.specs.Prelude.{◌≡◌, ◌++◌, ◌∷◌, [], map, flat_map, IfOk, OnOk};
ghost use Rattle.smv_text.specs.View.{plain_item, plain_definition, plain_element, plain_module};
ghost use Rattle.smv_meaning.specs.Phases.{element_declares, declared_in, parameter_declared, item_declared, definition_declared};
ghost use Rattle.smv_names.specs.View.{declared_plain};

use smv_text::{Definitions, Element, Elements, Item, Items, Module, Parameters};
use std::alloc::Global;
use text_core::{NoMemory, Place};

/// A declared name.
///
/// A parameter or a definition has no item; a variable or an instance has one.
#[derive(Clone, Copy)]
pub struct Declaration<'a> {
    pub name: &'a [u8],
    pub place: Place,
    pub item: Option<&'a Item>,
}

/// A list of declarations, in order.
pub type Declarations<'a> = Vec<Declaration<'a>>;

fn add<'a>(list: &mut Declarations<'a>, declaration: Declaration<'a>) -> Result<(), NoMemory>
    ensures { OnOk result (map declared_plain list.new.items ≡ map declared_plain list.old.items ++ declared_plain declaration.entry ∷ []) }
{
    Ok(list.push(declaration)?)
}

fn add_parameters<'a>(
    list: &mut Declarations<'a>,
    parameters: &'a Parameters,
) -> Result<(), NoMemory>
    ensures { OnOk result (map declared_plain list.new.items ≡ map declared_plain list.old.items ++ map parameter_declared parameters.now) }
{
    for parameter in parameters {
        add(
            list,
            Declaration {
                name: parameter.name.bytes(),
                place: parameter.place,
                item: None,
            },
        )?;
    }
    Ok(())
}

fn add_items<'a>(list: &mut Declarations<'a>, items: &'a Items) -> Result<(), NoMemory>
    ensures { OnOk result (map declared_plain list.new.items ≡ map declared_plain list.old.items ++ map item_declared (map plain_item items.now)) }
{
    for item in items {
        add(
            list,
            Declaration {
                name: item.name.bytes(),
                place: item.place,
                item: Some(item),
            },
        )?;
    }
    Ok(())
}

fn add_definitions<'a>(
    list: &mut Declarations<'a>,
    definitions: &'a Definitions,
) -> Result<(), NoMemory>
    ensures { OnOk result (map declared_plain list.new.items ≡ map declared_plain list.old.items ++ map definition_declared (map plain_definition definitions.now)) }
{
    for definition in definitions {
        add(
            list,
            Declaration {
                name: definition.name.bytes(),
                place: definition.place,
                item: None,
            },
        )?;
    }
    Ok(())
}

fn add_elements<'a>(list: &mut Declarations<'a>, elements: &'a Elements) -> Result<(), NoMemory>
    ensures { OnOk result (map declared_plain list.new.items ≡ map declared_plain list.old.items ++ flat_map element_declares (map plain_element elements.now)) }
{
    for element in elements {
        match element {
            Element::Vars(_, items) => add_items(list, items)?,
            Element::Defines(definitions) => add_definitions(list, definitions)?,
            _ => {}
        }
    }
    Ok(())
}

/// Returns the declarations of a module: parameters first, then the others in the order of the text.
pub fn declared_of<'a>(alloc: Global, module: &'a Module) -> Result<Declarations<'a>, NoMemory>
    ensures { IfOk result (λ ds. map declared_plain ds.items ≡ declared_in (plain_module module.now)) }
{
    let mut list = Vec::new(alloc);
    add_parameters(&mut list, &module.parameters)?;
    add_elements(&mut list, &module.elements)?;
    Ok(list)
}
