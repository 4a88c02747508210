// The instances of a model, numbered in preorder.
ghost use Rattle.std.specs.Prelude.{◌≡◌, ◌<◌, [], length, map, slice_get, IfOk};
ghost use Rattle.smv_text.specs.View.{plain_module, plain_item, plain_source};
ghost use Rattle.smv_meaning.specs.Instances.{dotted, child_of, grow, grow_items, instances_of};
ghost use Rattle.smv_meaning.specs.Names.{path_in};
ghost use Rattle.smv_instances.specs.View.{instance_plain, instance_or_none};

use crate::modules::ModuleTable;
use smv_text::{Domain, Element, Expr, Item, Items, Module, Source};
use std::alloc::Global;
use text_core::{Name, NoMemory};

/// An instance of a module.
///
/// It has the number of its parent, its name there, its dotted path, its module and its actual parameters. The parent
/// is the instance that declares it; the actuals are read in the parent's scope.
#[derive(Drop)]
pub struct Instance<'a> {
    pub parent: Option<usize>,
    pub name: &'a [u8],
    pub path: Name,
    pub module: &'a Module,
    pub actuals: &'a [Expr],
}

/// Returns the dotted path of a name in the instance with this path.
pub fn path_below(alloc: Global, path: &[u8], name: &[u8]) -> Result<Name, NoMemory>
    ensures { IfOk result (λ p. p ≡ dotted path.now name.now) }
{
    if path.is_empty() {
        Name::of(alloc, name)
    } else {
        Name::dotted(alloc, path, name)
    }
}

// The instance that a declaration in instance i, which has this path, creates.
fn child<'a>(
    alloc: Global,
    modules: &ModuleTable<'a>,
    i: usize,
    path: &[u8],
    item: &'a Item,
) -> Result<Option<Instance<'a>>, NoMemory>
    ensures { IfOk result (λ o. instance_or_none o ≡ child_of (map plain_module modules.now) i path.now (plain_item item.now)) }
{
    match &item.domain {
        Domain::Boolean => Ok(None),
        Domain::Members(_) => Ok(None),
        Domain::Between(_, _) => Ok(None),
        Domain::Bits(_) => Ok(None),
        Domain::Instance(name, actuals) => match modules.named(name.bytes()) {
            None => Ok(None),
            Some(module) => {
                let below = path_below(alloc, path, item.name.bytes())?;
                Ok(Some(Instance {
                    parent: Some(i),
                    name: item.name.bytes(),
                    path: below,
                    module,
                    actuals: actuals.as_slice(),
                }))
            }
        },
    }
}

// Adds the instance and then all instances below it; modules nest at most `deep` levels.
#[cycle(grow)]
#[tactic(auto, using(crate::proofs::Grow::grow_none, crate::proofs::Grow::grow_begins))]
fn extend<'a>(
    alloc: Global,
    modules: &ModuleTable<'a>,
    deep: usize,
    new: Instance<'a>,
    table: &mut Vec<Instance<'a>>,
) -> Result<(), NoMemory>
    ensures { IfOk result (λ u. map instance_plain table.new.items ≡ grow deep (map plain_module modules.now) (instance_plain new.entry) (map instance_plain table.old.items)) }
{
    if deep == 0 {
        return Ok(());
    }
    let i = table.len();
    let elements = &new.module.elements;
    table.push(new)?;
    for element in elements {
        match element {
            Element::Vars(_, items) => extend_items(alloc, modules, deep - 1, i, items, table)?,
            _ => {}
        }
    }
    Ok(())
}

// Adds the instances that declarations in instance i of the table create, each with all instances below it.
#[cycle(grow)]
#[tactic(auto, using(crate::proofs::Grow::grow_none, crate::proofs::Grow::grow_begins))]
fn extend_items<'a>(
    alloc: Global,
    modules: &ModuleTable<'a>,
    deep: usize,
    i: usize,
    items: &'a Items,
    table: &mut Vec<Instance<'a>>,
) -> Result<(), NoMemory>
    requires within { i < length table.old.items }
    ensures { IfOk result (λ u. map instance_plain table.new.items ≡ grow_items (grow deep (map plain_module modules.now)) (map plain_module modules.now) i (path_in (slice_get (map instance_plain table.old.items) i)) (map plain_item items.now) (map instance_plain table.old.items)) }
{
    for item in items {
        match child(alloc, modules, i, table[i].path.bytes(), item)? {
            None => {}
            Some(below) => extend(alloc, modules, deep, below, table)?,
        }
    }
    Ok(())
}

/// Returns the instances of a model: main and all instances below it, in preorder.
///
/// Returns an empty list where there is no module main.
pub fn instances<'a>(alloc: Global, source: &'a Source) -> Result<Vec<Instance<'a>>, NoMemory>
    ensures { IfOk result (λ t. map instance_plain t.items ≡ instances_of (plain_source source.now)) }
{
    let modules = ModuleTable::of(alloc, &source.modules)?;
    let mut table = Vec::new(alloc);
    match modules.named(b"main") {
        None => Ok(table),
        Some(module) => {
            let main = Instance {
                parent: None,
                name: &[],
                path: Name::of(alloc, &[])?,
                module,
                actuals: &[],
            };
            extend(alloc, &modules, modules.len(), main, &mut table)?;
            Ok(table)
        }
    }
}
