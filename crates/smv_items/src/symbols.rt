// The symbols of a model, each at its first place.
ghost use Rattle.std.specs.Prelude.{◌≡◌, ◌++◌, ◌∷◌, [], is_none, if◌then◌else◌, map, flat_map, position, bytes_eq, OnOk, IfOk};
ghost use Rattle.smv_text.specs.View.{plain_item, plain_element, plain_domain};
ghost use Rattle.name_maps.specs.Names.{place_of};
ghost use Rattle.smv_instances.specs.View.{instance_plain};
ghost use Rattle.smv_items.specs.FlatItems.{gathered, member_symbols, domain_symbols, element_symbols, symbols_of};

use name_maps::NameSet;
use smv_instances::Table;
use smv_text::{Domain, Element, Elements, Items, Member, Members};
use std::alloc::Global;
use std::marker::Model;
use text_core::{Names, NoMemory};

/// A list of distinct symbols.
#[derive(Drop)]
pub struct Symbols {
    names: NameSet,
}

impl Model for Symbols {
    ghost use Rattle.std.specs.Prelude.{List, ℕ};

    ghost Value = { List (List ℕ) };

    ghost view = { λ d. d.names };
}

impl Symbols {
    fn new(alloc: Global) -> Symbols
        ensures { result ≡ [] }
    {
        Symbols {
            names: NameSet::new(alloc),
        }
    }

    /// Returns the number of this symbol, or None where it is not in the list.
    pub fn place(&self, name: &[u8]) -> Option<usize>
        ensures { result ≡ position (bytes_eq name.now) self.now }
    {
        self.names.place(name)
    }

    /// Returns the symbols as a set of names.
    pub fn into_names(self) -> NameSet
        ensures { result ≡ self }
    {
        self.names
    }

    // Appends a symbol if it is new, and returns whether it is.
    fn declare(&mut self, alloc: Global, name: &[u8]) -> Result<bool, NoMemory>
        ensures fresh { IfOk result (λ fresh. fresh ≡ is_none (place_of self.old name.now)) }
        ensures names { IfOk result (λ fresh. self.new ≡ (if fresh then self.old ++ name.now ∷ [] else self.old)) }
    {
        self.names.declare(alloc, name)
    }
}

// Adds a symbol if it is new.
#[tactic(auto, using(crate::proofs::SymbolLemmas::noted))]
fn note(alloc: Global, symbols: &mut Symbols, name: &[u8]) -> Result<(), NoMemory>
    ensures { OnOk result (symbols.new ≡ gathered symbols.old (name.now ∷ [])) }
{
    symbols.declare(alloc, name)?;
    Ok(())
}

#[tactic(auto, using(crate::proofs::SymbolLemmas::gathered_joined))]
fn note_members(alloc: Global, symbols: &mut Symbols, members: &Members) -> Result<(), NoMemory>
    ensures { OnOk result (symbols.new ≡ gathered symbols.old (flat_map member_symbols members.now)) }
{
    for member in members {
        match member {
            Member::Symbol(name) => note(alloc, symbols, name.bytes())?,
            Member::Integer(_) => {}
        }
    }
    Ok(())
}

fn note_domain(alloc: Global, symbols: &mut Symbols, domain: &Domain) -> Result<(), NoMemory>
    ensures { OnOk result (symbols.new ≡ gathered symbols.old (domain_symbols (plain_domain domain.now))) }
{
    match domain {
        Domain::Boolean => Ok(()),
        Domain::Members(members) => note_members(alloc, symbols, members),
        Domain::Between(_, _) => Ok(()),
        Domain::Bits(_) => Ok(()),
        Domain::Instance(_, _) => Ok(()),
    }
}

#[tactic(auto, using(crate::proofs::SymbolLemmas::gathered_joined))]
fn note_items(alloc: Global, symbols: &mut Symbols, items: &Items) -> Result<(), NoMemory>
    ensures { OnOk result (symbols.new ≡ gathered symbols.old (flat_map (λ v. domain_symbols v.domain) (map plain_item items.now))) }
{
    for item in items {
        note_domain(alloc, symbols, &item.domain)?;
    }
    Ok(())
}

fn note_names(alloc: Global, symbols: &mut Symbols, names: &Names) -> Result<(), NoMemory>
    ensures { OnOk result (symbols.new ≡ gathered symbols.old names.now) }
{
    for name in names {
        note(alloc, symbols, name.bytes())?;
    }
    Ok(())
}

fn note_element(alloc: Global, symbols: &mut Symbols, element: &Element) -> Result<(), NoMemory>
    ensures { OnOk result (symbols.new ≡ gathered symbols.old (element_symbols (plain_element element.now))) }
{
    match element {
        Element::Vars(_, items) => note_items(alloc, symbols, items),
        Element::Defines(_) => Ok(()),
        Element::Constants(names) => note_names(alloc, symbols, names),
        Element::Assigns(_) => Ok(()),
        Element::Init(_) => Ok(()),
        Element::Trans(_) => Ok(()),
        Element::Invar(_) => Ok(()),
        Element::Spec(_, _) => Ok(()),
    }
}

#[tactic(auto, using(crate::proofs::SymbolLemmas::gathered_joined))]
fn note_elements(alloc: Global, symbols: &mut Symbols, elements: &Elements) -> Result<(), NoMemory>
    ensures { OnOk result (symbols.new ≡ gathered symbols.old (flat_map element_symbols (map plain_element elements.now))) }
{
    for element in elements {
        note_element(alloc, symbols, element)?;
    }
    Ok(())
}

/// Returns the symbols of a model: those of enumerations and of CONSTANTS.
#[tactic(auto, using(smv_meaning::specs::laws::Lists::front_is, smv_meaning::specs::laws::Lists::end_is, crate::proofs::SymbolLemmas::gathered_joined))]
pub fn symbols_in<'a>(alloc: Global, table: &Table<'a>) -> Result<Symbols, NoMemory>
    ensures { IfOk result (λ s. s ≡ symbols_of (map instance_plain table.now)) }
{
    let mut symbols = Symbols::new(alloc);
    for part in table.list() {
        note_elements(alloc, &mut symbols, &part.module.elements)?;
    }
    Ok(symbols)
}
