// The declarations of each module, collected once for all its instances.
ghost use Rattle.std.specs.Prelude.{◌≡◌, ◌++◌, ◌∷◌, [], length, map, IfOk, OnOk};
ghost use Rattle.smv_text.specs.View.{plain_module};
ghost use Rattle.smv_meaning.specs.Instances.{module_named};
ghost use Rattle.smv_meaning.specs.Phases.{declared_in};
ghost use Rattle.smv_instances.specs.View.{module_or_none};
ghost use Rattle.smv_names.specs.View.{declared_plain};
ghost use Rattle.smv_names.specs.Declaring.{first_twice};

use crate::declared::{Declaration, Declarations, declared_of};
use name_maps::{add_row, no_rows, row_value};
use smv_instances::ModuleTable;
use smv_text::{Module, Modules};
use std::alloc::Global;
use std::marker::Model;
use text_core::NoMemory;

/// A module with its declarations and the place of the first one whose name was declared before.
///
/// Contracts see it as the module.
#[derive(Drop)]
pub(crate) struct DeclaredModule<'a> {
    module: &'a Module,
    list: Declarations<'a>,
    twice: Option<usize>,
}

impl<'a> Model for DeclaredModule<'a> {
    ghost use Rattle.std.specs.Prelude.{◌≡◌, [], map};
    ghost use Rattle.std.specs.Coded.{codes};
    ghost use Rattle.smv_text.specs.declared.tree.Module.{Module};
    ghost use Rattle.smv_text.specs.contracts.tree.Expr as expr;
    ghost use Rattle.smv_text.specs.contracts.tree.Shape as shape;

    ghost Value = { Module };

    ghost coded = { Prim.hlevel (codes, expr.the_row.coded, shape.the_row.coded) };

    ghost use Rattle.smv_text.specs.View.{plain_module};
    ghost use Rattle.smv_meaning.specs.Phases.{declared_in};
    ghost use Rattle.smv_names.specs.View.{declared_plain};
    ghost use Rattle.smv_names.specs.Declaring.{first_twice};

    ghost view = { λ d. d.module.now };

    ghost invariant = { λ d. (map declared_plain d.list.items ≡ declared_in (plain_module d.module.now)) × (d.twice ≡ first_twice 0 [] (declared_in (plain_module d.module.now))) };
}

impl<'a> DeclaredModule<'a> {
    fn of(alloc: Global, module: &'a Module) -> Result<DeclaredModule<'a>, NoMemory>
        ensures { IfOk result (λ d. d ≡ «module».now) }
    {
        let list = declared_of(alloc, module)?;
        let twice = place_twice(alloc, list.as_slice())?;
        Ok(DeclaredModule {
            module,
            list,
            twice,
        })
    }

    pub(crate) fn module(&self) -> &'a Module
        ensures { result.now ≡ self.now }
    {
        self.module
    }

    /// Returns the declarations of the module, in the order of their checks.
    pub(crate) fn declarations(&self) -> &[Declaration<'a>]
        ensures { map declared_plain result.now ≡ declared_in (plain_module self.now) }
    {
        self.list.as_slice()
    }

    /// Returns the place of the first declaration whose name was declared before, or None where there is none.
    pub(crate) fn twice(&self) -> Option<usize>
        ensures { result ≡ first_twice 0 [] (declared_in (plain_module self.now)) }
    {
        self.twice
    }
}

// The place of the first declaration whose name was declared before.
#[tactic(auto, using(smv_meaning::specs::laws::Lists::front_is, smv_meaning::specs::laws::Lists::end_is))]
fn place_twice(alloc: Global, list: &[Declaration]) -> Result<Option<usize>, NoMemory>
    ensures { IfOk result (λ place. place ≡ first_twice 0 [] (map declared_plain list.now)) }
{
    let mut seen = no_rows(alloc, list.len())?;
    for (k, declaration) in list.iter().enumerate() {
        if row_value(&seen, declaration.name).is_some() {
            return Ok(Some(k));
        }
        add_row(&mut seen, declaration.name, ())?;
    }
    Ok(None)
}

/// The modules of a model with their declarations.
///
/// Contracts see it as the list of modules.
#[derive(Drop)]
pub(crate) struct DeclaredModules<'a> {
    list: Vec<DeclaredModule<'a>>,
    table: ModuleTable<'a>,
}

impl<'a> Model for DeclaredModules<'a> {
    ghost use Rattle.std.specs.Prelude.{◌≡◌, List};
    ghost use Rattle.std.specs.Coded.{codes};
    ghost use Rattle.smv_text.specs.declared.tree.Module.{Module};
    ghost use Rattle.smv_text.specs.contracts.tree.Expr as expr;
    ghost use Rattle.smv_text.specs.contracts.tree.Shape as shape;

    ghost Value = { List Module };

    ghost coded = { Prim.hlevel (codes, expr.the_row.coded, shape.the_row.coded) };

    ghost view = { λ t. t.list.items };

    ghost invariant = { λ t. t.table ≡ t.list.items };
}

impl<'a> DeclaredModules<'a> {
    pub(crate) fn of(alloc: Global, modules: &'a Modules) -> Result<DeclaredModules<'a>, NoMemory>
        ensures { IfOk result (λ t. t ≡ modules.now) }
    {
        let list = declared_modules(alloc, modules)?;
        let table = ModuleTable::of(alloc, modules)?;
        Ok(DeclaredModules { list, table })
    }

    /// Returns the number of modules.
    pub(crate) fn len(&self) -> usize
        ensures { result ≡ length self.now }
    {
        self.list.len()
    }

    /// Returns the first module with this name, or None where there is none.
    pub(crate) fn named(&self, name: &[u8]) -> Option<&DeclaredModule<'a>>
        ensures { module_or_none result ≡ module_named (map plain_module self.now) name.now }
    {
        match self.table.place(name) {
            None => None,
            Some(k) => self.list.get(k),
        }
    }
}

fn add<'a>(
    alloc: Global,
    list: &mut Vec<DeclaredModule<'a>>,
    module: &'a Module,
) -> Result<(), NoMemory>
    ensures { OnOk result (list.new.items ≡ list.old.items ++ «module».now ∷ []) }
{
    let declared = DeclaredModule::of(alloc, module)?;
    Ok(list.push(declared)?)
}

fn declared_modules<'a>(
    alloc: Global,
    modules: &'a Modules,
) -> Result<Vec<DeclaredModule<'a>>, NoMemory>
    ensures { IfOk result (λ list. list.items ≡ modules.now) }
{
    let mut list = Vec::with_capacity(alloc, modules.len())?;
    for module in modules {
        add(alloc, &mut list, module)?;
    }
    Ok(list)
}
