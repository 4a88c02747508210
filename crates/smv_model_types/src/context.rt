// The names of a model, to the types and in the flat form.
ghost use Rattle.std.specs.Prelude.{◌≡◌, ◌<◌, ◌^◌, ℕ, List, Option, length, map, IfOk};
ghost use Rattle.std.specs.Coded.{Coded, Coded-set, codes, Π_prop};
ghost use Rattle.smv_text.specs.declared.tree.VarKind.TheVariants as OfVarKind;
ghost use Rattle.smv_meaning.specs.Checks.{Named as Meaning};
ghost use Rattle.smv_instances.specs.View.{instance_plain, found_plain, Declares};
ghost use Rattle.smv_types.specs.View.{named_seen};
ghost use Rattle.smv_items.specs.FlatItems.{origins_of, symbols_of, leaf_found};
ghost use Rattle.smv_items.specs.FlatOrigins.{AreBodies, AreVariables, AreInstanceNumbers, leaf_plain};
ghost use Rattle.smv_model_types.specs.Entries.{AreEnumerations, entries_seen, found_named, HasEach};

use crate::names::{Entries, Enumerations, target_named};
use smv_flat::{Naming, Resolved};
use smv_instances::{Table, Target};
use smv_items::{ItemNumbers, Symbols, leaf_of};
use smv_text::Path;
use std::alloc::Global;
use text_core::NoMemory;

/// A model's instances, the numbers of its items, its symbols, and the properties of its enumerations.
#[derive(Drop)]
pub(crate) struct Model<'s, 'a, 'n> {
    pub(crate) table: &'s Table<'a>,
    pub(crate) numbers: &'s ItemNumbers<'a, 'n>,
    pub(crate) symbols: &'s Symbols,
    pub(crate) enumerations: &'s Enumerations<'a>,
    ghost bodies: { AreBodies (origins_of (map instance_plain table.now)) numbers.now.bodies } by { let number : Coded (Option ℕ) = Prim.hlevel codes in Π_prop (λ i. Π_prop (λ x. Coded-set number _ _)) },
    ghost states: { AreVariables (map instance_plain table.now) OfVarKind.State (origins_of (map instance_plain table.now)) numbers.now.paths.states } by { let number : Coded (Option ℕ) = Prim.hlevel codes in Π_prop (λ x. Coded-set number _ _) },
    ghost inputs: { AreVariables (map instance_plain table.now) OfVarKind.Input (origins_of (map instance_plain table.now)) numbers.now.paths.inputs } by { let number : Coded (Option ℕ) = Prim.hlevel codes in Π_prop (λ x. Coded-set number _ _) },
    ghost variables: { AreInstanceNumbers (map instance_plain table.now) numbers.now.paths numbers.now.variables } by { let number : Coded (Option ℕ) = Prim.hlevel codes in Π_prop (λ is_input. Π_prop (λ i. Π_prop (λ x. Coded-set number _ _))) },
    ghost all_symbols: { symbols.now ≡ symbols_of (map instance_plain table.now) } by { let texts : Coded (List (List ℕ)) = Prim.hlevel codes in Coded-set texts _ _ },
    ghost enumerated: { AreEnumerations (map instance_plain table.now) enumerations.now } by { let meaning : Coded Meaning = Prim.hlevel codes in Π_prop (λ i. Π_prop (λ x. Π_prop (λ n. Π_prop (λ there. Π_prop (λ kind. Π_prop (λ d. Π_prop (λ own. Coded-set meaning _ _))))))) },
    ghost few_items: { length (origins_of (map instance_plain table.now)) < 2 ^ 32 },
    ghost few_symbols: { length symbols.now < 2 ^ 32 },
}

/// Returns the properties and the translation of a target.
pub(crate) fn translated<'s, 'a, 'n>(
    alloc: Global,
    model: &Model<'s, 'a, 'n>,
    entries: &Entries,
    target: Target,
) -> Result<Resolved, NoMemory>
    requires declared { Declares (map instance_plain model.now.table.now) target }
    ensures named { IfOk result (λ r. named_seen r.named ≡ found_named (entries_seen model.now.numbers.now.bodies entries.now.items) (found_plain (map instance_plain model.now.table.now) target.entry)) }
    ensures leaf { IfOk result (λ r. leaf_plain r.leaf ≡ leaf_found (map instance_plain model.now.table.now) (found_plain (map instance_plain model.now.table.now) target.entry)) }
{
    let leaf = leaf_of(alloc, model.table, model.numbers, model.symbols, target)?;
    let named = target_named(model, entries, target, leaf);
    Ok(Resolved { named, leaf })
}

/// The names of an instance, by entries that may lack some.
#[derive(Drop)]
pub(crate) struct EnteredNames<'c, 's, 'a, 'n> {
    pub(crate) model: &'c Model<'s, 'a, 'n>,
    pub(crate) entries: &'c Entries,
    pub(crate) instance: usize,
}

impl<'c, 's, 'a, 'n> Naming for EnteredNames<'c, 's, 'a, 'n> {
    ghost use Rattle.std.specs.Prelude.{true, map};
    ghost use Rattle.smv_instances.specs.View.{instance_plain};
    ghost use Rattle.smv_items.specs.FlatItems.{leaf_in};
    ghost use Rattle.smv_model_types.specs.Entries.{entries_seen, entries_names};

    ghost names = { λ s. entries_names (map instance_plain s.model.now.table.now) (entries_seen s.model.now.numbers.now.bodies s.entries.now.items) s.instance };

    ghost leaves = { λ s. leaf_in (map instance_plain s.model.now.table.now) s.instance };

    ghost knows = { λ s path. true };

    fn resolved(&self, alloc: Global, path: &Path) -> Result<Resolved, NoMemory> {
        let target = self.model.table.target(self.instance, path);
        translated(alloc, self.model, self.entries, target)
    }
}

/// A model, and the types of its names.
#[derive(Drop)]
pub(crate) struct Context<'s, 'a, 'n> {
    pub(crate) model: &'s Model<'s, 'a, 'n>,
    pub(crate) entries: &'s Entries,
    ghost right: { HasEach (map instance_plain model.now.table.now) (entries_seen model.now.numbers.now.bodies entries.now.items) } by { let meaning : Coded Meaning = Prim.hlevel codes in Π_prop (λ i. Π_prop (λ path. Coded-set meaning _ _)) },
}

/// The names of an instance of the model.
#[derive(Drop)]
pub(crate) struct InstanceNames<'c, 's, 'a, 'n> {
    pub(crate) context: &'c Context<'s, 'a, 'n>,
    pub(crate) instance: usize,
}

impl<'c, 's, 'a, 'n> Naming for InstanceNames<'c, 's, 'a, 'n> {
    ghost use Rattle.std.specs.Prelude.{true, map};
    ghost use Rattle.smv_meaning.specs.Settled.{types_in};
    ghost use Rattle.smv_instances.specs.View.{instance_plain};
    ghost use Rattle.smv_items.specs.FlatItems.{leaf_in};

    ghost names = { λ s. types_in true (map instance_plain s.context.now.model.now.table.now) s.instance };

    ghost leaves = { λ s. leaf_in (map instance_plain s.context.now.model.now.table.now) s.instance };

    ghost knows = { λ s path. true };

    fn resolved(&self, alloc: Global, path: &Path) -> Result<Resolved, NoMemory> {
        let names = EnteredNames {
            model: self.context.model,
            entries: self.context.entries,
            instance: self.instance,
        };
        names.resolved(alloc, path)
    }
}
