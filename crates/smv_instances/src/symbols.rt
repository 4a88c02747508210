// A lookup table of a model's symbols.
ghost use Rattle.std.specs.Prelude.{◌≡◌, ◌||◌, List, ℕ, is_some, map, IfOk, OnOk};
ghost use Rattle.std.specs.List.{list_any};
ghost use Rattle.smv_text.specs.View.{plain_item, plain_element};
ghost use Rattle.smv_meaning.specs.Instances.{is_one_of};
ghost use Rattle.smv_meaning.specs.Names.{is_symbol, item_has, element_has, has_symbol};
ghost use Rattle.name_maps.specs.Maps.{named};
ghost use Rattle.smv_instances.specs.View.{instance_plain};

use crate::instances::Instance;
use name_maps::{NameMap, no_names, put};
use smv_text::{Domain, Element, Elements, Items, Member, Members};
use std::alloc::Global;
use text_core::{Names, NoMemory};

/// The set of names that are symbols.
pub type SymbolNames<'a> = NameMap<'a, ()>;

fn put_members<'a>(symbols: &mut SymbolNames<'a>, members: &'a Members) -> Result<(), NoMemory>
    ensures { OnOk result ((x : List ℕ) → is_some (named symbols.new x) ≡ (is_some (named symbols.old x) || list_any (is_symbol x) members.now)) }
{
    for member in members {
        match member {
            Member::Symbol(name) => put(symbols, name.bytes(), ())?,
            Member::Integer(_) => {}
        }
    }
    Ok(())
}

fn put_domains<'a>(symbols: &mut SymbolNames<'a>, items: &'a Items) -> Result<(), NoMemory>
    ensures { OnOk result ((x : List ℕ) → is_some (named symbols.new x) ≡ (is_some (named symbols.old x) || list_any (item_has x) (map plain_item items.now))) }
{
    for item in items {
        match &item.domain {
            Domain::Boolean => {}
            Domain::Members(members) => put_members(symbols, members)?,
            Domain::Between(_, _) => {}
            Domain::Bits(_) => {}
            Domain::Instance(_, _) => {}
        }
    }
    Ok(())
}

fn put_constants<'a>(symbols: &mut SymbolNames<'a>, names: &'a Names) -> Result<(), NoMemory>
    ensures { OnOk result ((x : List ℕ) → is_some (named symbols.new x) ≡ (is_some (named symbols.old x) || is_one_of names.now x)) }
{
    for name in names {
        put(symbols, name.bytes(), ())?;
    }
    Ok(())
}

fn put_elements<'a>(symbols: &mut SymbolNames<'a>, elements: &'a Elements) -> Result<(), NoMemory>
    ensures { OnOk result ((x : List ℕ) → is_some (named symbols.new x) ≡ (is_some (named symbols.old x) || list_any (element_has x) (map plain_element elements.now))) }
{
    for element in elements {
        match element {
            Element::Vars(_, items) => put_domains(symbols, items)?,
            Element::Constants(names) => put_constants(symbols, names)?,
            _ => {}
        }
    }
    Ok(())
}

/// Returns the symbols of the instantiated modules.
pub fn symbols_of<'a>(alloc: Global, table: &[Instance<'a>]) -> Result<SymbolNames<'a>, NoMemory>
    ensures { IfOk result (λ m. (x : List ℕ) → is_some (named m x) ≡ has_symbol (map instance_plain table.now) x) }
{
    let mut symbols = no_names(alloc);
    for part in table {
        put_elements(&mut symbols, &part.module.elements)?;
    }
    Ok(symbols)
}
