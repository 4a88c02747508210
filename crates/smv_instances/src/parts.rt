// The instances of a model, with the meaning of single names in them.
ghost use Rattle.std.specs.Prelude.{◌≡◌, ◌<◌, ◌-◌, ◌^◌, min, length, map, position, slice_index_or, sum_by, IfOk};
ghost use Rattle.smv_text.specs.View.{plain_element};
ghost use Rattle.smv_meaning.specs.Names.{definitions_in, steps_of, local, is_child, has_symbol};
ghost use Rattle.smv_instances.specs.View.{instance_plain, local_plain};

use crate::children::{Children, children_of};
use crate::instances::Instance;
use crate::known_names::{KnownNames, known_in_all};
use crate::names::Known;
use crate::scanning::{is_small, scanned};
use crate::symbols::{SymbolNames, symbols_of};
use name_maps::{row_value_in, value_under};
use smv_text::{Element, Elements};
use std::alloc::Global;
use std::marker::Model;
use text_core::NoMemory;

/// The instances of a model, numbered in preorder, with the meaning of single names in them.
#[derive(Drop)]
pub struct Parts<'a> {
    parts: Vec<Instance<'a>>,
    known: KnownNames<'a>,
    children: Children<'a>,
    symbols: SymbolNames<'a>,
    steps: usize,
}

impl<'a> Model for Parts<'a> {
    ghost use Rattle.std.specs.Prelude.{List};
    ghost use Rattle.smv_instances.specs.declared.instances.Instance.{Instance as PartOf};
    ghost use Rattle.std.specs.Coded.{codes};
    ghost use Rattle.smv_text.specs.contracts.tree.Expr as expr;
    ghost use Rattle.smv_text.specs.contracts.tree.Shape as shape;

    ghost Value = { List PartOf };

    ghost coded = { Prim.hlevel (codes, expr.the_row.coded, shape.the_row.coded) };

    ghost use Rattle.std.specs.Prelude.{◌≡◌, ◌-◌, ◌^◌, min, map};
    ghost use Rattle.smv_meaning.specs.Names.{steps_of};
    ghost use Rattle.smv_instances.specs.View.{instance_plain};

    ghost view = { λ t. t.parts.items };

    ghost use Rattle.smv_instances.specs.NameMap.{Knows, Bears, Holds};

    ghost invariant = { λ t. (t.steps ≡ min (steps_of (map instance_plain t.parts.items)) (2 ^ 64 - 1)) × Knows t.parts.items t.known × Bears t.parts.items t.children × Holds t.parts.items t.symbols };
}

impl<'a> Parts<'a> {
    /// Creates the value from instances in preorder.
    pub fn over(alloc: Global, parts: Vec<Instance<'a>>) -> Result<Parts<'a>, NoMemory>
        ensures { IfOk result (λ t. t ≡ parts.entry.items) }
    {
        let steps = counted(parts.as_slice());
        let known = known_in_all(alloc, parts.as_slice())?;
        let children = children_of(alloc, parts.as_slice())?;
        let symbols = symbols_of(alloc, parts.as_slice())?;
        Ok(Parts {
            parts,
            known,
            children,
            symbols,
            steps,
        })
    }

    /// Returns the number of instances.
    pub fn len(&self) -> usize
        ensures { result ≡ length self.now }
    {
        self.parts.len()
    }

    /// Returns the instances in order.
    pub fn list(&self) -> &[Instance<'a>]
        ensures { result.now ≡ self.now }
    {
        self.parts.as_slice()
    }

    /// Returns the instance with this number.
    pub fn at(&self, i: usize) -> &Instance<'a>
        requires { i < length self.now }
        ensures { result.now ≡ slice_index_or self.now i result.now }
    {
        &self.parts[i]
    }

    /// Returns the meaning of a single name in its own instance: a parameter, a variable, an instance, a definition, or
    /// nothing.
    pub fn local(&self, i: usize, x: &[u8]) -> Known<'a>
        ensures { local_plain result ≡ local (map instance_plain self.now) i x.now }
    {
        match self.parts.get(i) {
            None => Known::Nothing,
            Some(part) => if is_small(part.module) {
                scanned(i, part, x)
            } else {
                row_value_in(&self.known, i, x).unwrap_or(Known::Nothing)
            },
        }
    }

    /// Returns the first instance with this name in the instance with this number, or None where there is none.
    pub fn child(&self, i: usize, x: &[u8]) -> Option<usize>
        ensures { result ≡ position (is_child i x.now) (map instance_plain self.now) }
    {
        row_value_in(&self.children, i, x)
    }

    /// Returns whether the name is in an enumeration or in CONSTANTS of an instantiated module.
    pub fn has_symbol(&self, x: &[u8]) -> bool
        ensures { result ≡ has_symbol (map instance_plain self.now) x.now }
    {
        value_under(&self.symbols, x).is_some()
    }

    /// Returns the number of definitions and actuals, plus one, saturated at `usize::MAX`.
    ///
    /// Without a cycle, no chain of them is longer.
    pub fn steps(&self) -> usize
        ensures { result ≡ min (steps_of (map instance_plain self.now)) (2 ^ 64 - 1) }
    {
        self.steps
    }
}

// The number of definitions and actuals, plus one, saturated at `usize::MAX`.
#[tactic(auto, using(crate::proofs::TableLemmas::steps_on))]
fn counted<'a>(table: &[Instance<'a>]) -> usize
    ensures { result ≡ min (steps_of (map instance_plain table.now)) (2 ^ 64 - 1) }
{
    let mut count: usize = 1;
    for part in table {
        count = count.saturating_add(definitions(&part.module.elements));
        count = count.saturating_add(part.actuals.len());
    }
    count
}

fn definitions(elements: &Elements) -> usize
    ensures { result ≡ min (sum_by definitions_in (map plain_element elements.now)) (2 ^ 64 - 1) }
{
    let mut count: usize = 0;
    for element in elements {
        if let Element::Defines(list) = element {
            count = count.saturating_add(list.len());
        }
    }
    count
}
