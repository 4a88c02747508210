// Lookup of a model's modules by name.
ghost use Rattle.std.specs.Prelude.{◌≡◌, ◌<◌, length, map, IfOk, IfSome};
ghost use Rattle.smv_text.specs.View.{plain_module};
ghost use Rattle.smv_meaning.specs.Instances.{module_named};
ghost use Rattle.smv_instances.specs.NameMap.{module_at};
ghost use Rattle.smv_instances.specs.View.{module_or_none};

use name_maps::{NameRows, add_row, no_rows, row_value};
use smv_text::{Module, Modules};
use std::alloc::Global;
use std::marker::Model;
use text_core::{NoMemory, is_same};

/// The most modules that are searched one by one for a name.
const FEW: usize = 4;

/// The modules of a model, with their places by name. Contracts see it as the list of modules.
#[derive(Drop)]
pub struct ModuleTable<'a> {
    list: &'a Modules,
    places: NameRows<'a, usize>,
}

impl<'a> Model for ModuleTable<'a> {
    ghost use Rattle.std.specs.Prelude.{List};
    ghost use Rattle.smv_text.specs.declared.tree.Module.{Module};
    ghost use Rattle.std.specs.Coded.{codes};
    ghost use Rattle.smv_text.specs.contracts.tree.Expr as expr;
    ghost use Rattle.smv_text.specs.contracts.tree.Shape as shape;

    ghost Value = { List Module };

    ghost coded = { Prim.hlevel (codes, expr.the_row.coded, shape.the_row.coded) };

    ghost use Rattle.smv_instances.specs.NameMap.{FindsPlaces};

    ghost view = { λ t. t.list.now };

    ghost invariant = { λ t. FindsPlaces t.list.now t.list.now t.places };
}

impl<'a> ModuleTable<'a> {
    /// Creates the table of a model's modules.
    pub fn of(alloc: Global, modules: &'a Modules) -> Result<ModuleTable<'a>, NoMemory>
        ensures { IfOk result (λ t. t ≡ modules.now) }
    {
        let mut places = no_rows(alloc, modules.len())?;
        let mut k = modules.len();
        // From the last to the first, so that the first module with a name counts.
        while k > 0 {
            k -= 1;
            add_row(&mut places, modules.at(k).name.bytes(), k)?;
        }
        Ok(ModuleTable {
            list: modules,
            places,
        })
    }

    /// Returns the number of modules.
    pub fn len(&self) -> usize
        ensures { result ≡ length self.now }
    {
        self.list.len()
    }

    /// Returns the place of the first module with this name, or None where there is none.
    pub fn place(&self, name: &[u8]) -> Option<usize>
        ensures module { module_at self.now result ≡ module_named (map plain_module self.now) name.now }
        ensures within { IfSome result (λ k. k < length self.now) }
    {
        if self.list.len() <= FEW {
            return place_among(self.list, name);
        }
        match row_value(&self.places, name) {
            None => None,
            Some(k) => if k < self.list.len() { Some(k) } else { None },
        }
    }

    /// Returns the first module with this name, or None where there is none.
    pub fn named(&self, name: &[u8]) -> Option<&'a Module>
        ensures { module_or_none result ≡ module_named (map plain_module self.now) name.now }
    {
        match self.place(name) {
            None => None,
            Some(k) => Some(self.list.at(k)),
        }
    }
}

// The place of the first module with this name, found by a search of the list.
#[inline(always)]
fn place_among(modules: &Modules, name: &[u8]) -> Option<usize>
    ensures module { module_at modules.now result ≡ module_named (map plain_module modules.now) name.now }
    ensures within { IfSome result (λ k. k < length modules.now) }
{
    for (k, module) in modules.as_slice().iter().enumerate() {
        if is_same(module.name.bytes(), name) {
            return Some(k);
        }
    }
    None
}
