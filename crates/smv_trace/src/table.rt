// The declarations against which a trace is read, with a lookup table of their names.
ghost use Rattle.std.specs.Prelude.{◌≡◌, ◌<◌, [], true, Some, map, length, is_some, IfOk, IfSome, slice_get};
ghost use Rattle.name_maps.specs.Names.{are_fresh, place_of};
ghost use Rattle.smv_items.specs.FlatItemView.{item_plain};
ghost use Rattle.smv_trace.specs.Reading.{is_variable, variables_of};
ghost use Rattle.smv_trace.specs.Answer.{declarations_of};

use name_maps::{NameSet, NameTable, Successors};
use smv_flatten::{Flat, FlatItem, FlatItems};
use smv_numbered::Heading;
use std::alloc::Global;
use std::marker::Model;
use text_core::NoMemory;

/// The items and symbols of a model, and the number of its variables.
#[derive(Drop)]
pub struct Table<'a> {
    items: &'a FlatItems,
    names: NameTable,
    symbols: &'a NameSet,
    variables: usize,
}

impl<'a> Model for Table<'a> {
    ghost use Rattle.std.specs.Prelude.{◌≡◌, map, length};
    ghost use Rattle.smv_items.specs.FlatItemView.{item_plain};
    ghost use Rattle.smv_numbered.specs.Stated.{Declarations};
    ghost use Rattle.smv_trace.specs.Reading.{variables_of};

    ghost Value = { Declarations };

    ghost view = { λ t. record { items = map item_plain t.items.now; symbols = t.symbols.now } };

    ghost invariant = { λ t. (t.names ≡ map (λ m. m.name) (map item_plain t.items.now)) × (t.variables ≡ length (variables_of (map item_plain t.items.now))) };
}

// The names of the items, which are distinct.
#[tactic(auto, using(smv_meaning::specs::laws::Lists::front_is, smv_meaning::specs::laws::Lists::end_is, name_maps::proofs::KeyLaws::joined_on, crate::proofs::Lists::first_fresh, crate::proofs::Lists::rest_fresh))]
fn names_of(alloc: Global, items: &FlatItems) -> Result<NameTable, NoMemory>
    requires { are_fresh [] (map (λ m. m.name) (map item_plain items.now)) ≡ true }
    ensures { IfOk result (λ names. names ≡ map (λ m. m.name) (map item_plain items.now)) }
{
    let mut names = NameTable::new(alloc);
    for k in 0..items.len() {
        if !names.declare(alloc, items.at(k).name.bytes())? {
            unreachable!();
        }
    }
    Ok(names)
}

fn is_variable(item: &FlatItem) -> bool
    ensures { result ≡ is_variable (item_plain item.now) }
{
    Heading::State.picks(item.kind) || Heading::Input.picks(item.kind)
}

// The number of variables, including inputs.
#[tactic(auto, using(smv_meaning::specs::laws::Lists::front_is, smv_meaning::specs::laws::Lists::end_is))]
fn variables_in(items: &FlatItems) -> usize
    ensures { result ≡ length (variables_of (map item_plain items.now)) }
{
    let mut count = 0;
    for k in 0..items.len() {
        if is_variable(items.at(k)) {
            count += 1;
        }
    }
    count
}

impl<'a> Table<'a> {
    /// Creates the table of a flat form's declarations.
    pub fn of(alloc: Global, flat: &'a Flat) -> Result<Table<'a>, NoMemory>
        ensures { IfOk result (λ table. table ≡ declarations_of flat.now) }
    {
        flat.is_of_model();
        let items = flat.items();
        let names = names_of(alloc, items)?;
        let variables = variables_in(items);
        Ok(Table {
            items,
            names,
            symbols: flat.symbols(),
            variables,
        })
    }

    /// Returns the number of items.
    pub fn len(&self) -> usize
        ensures { result ≡ length self.now.items }
    {
        self.items.len()
    }

    /// Returns the item with this number.
    pub fn item(&self, k: usize) -> &FlatItem
        requires { k < length self.now.items }
        ensures { slice_get self.now.items k ≡ Some (item_plain result.now) }
    {
        self.items.at(k)
    }

    /// Returns the names of the items.
    pub fn names(&self) -> &NameTable
        ensures { result.now ≡ map (λ m. m.name) self.now.items }
    {
        &self.names
    }

    /// Returns the number of the item with this name, or None where there is none.
    pub fn place(&self, successors: &mut Successors, name: &[u8]) -> Option<usize>
        ensures place { result ≡ place_of (map (λ m. m.name) self.now.items) name.now }
        ensures within { IfSome result (λ k. k < length self.now.items) }
    {
        successors.place(&self.names, name)
    }

    /// Returns whether there is a symbol with this name.
    pub fn has_symbol(&self, name: &[u8]) -> bool
        ensures { result ≡ is_some (place_of self.now.symbols name.now) }
    {
        self.symbols.place(name).is_some()
    }

    /// Returns the number of variables, including inputs.
    pub fn variables(&self) -> usize
        ensures { result ≡ length (variables_of self.now.items) }
    {
        self.variables
    }
}
