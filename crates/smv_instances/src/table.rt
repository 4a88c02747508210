// The table of a model's instances, with the meaning of their names.
ghost use Rattle.std.specs.Prelude.{◌≡◌, ◌<◌, true, List, length, map, position, slice_index_or, IfOk};
ghost use Rattle.smv_text.specs.View.{plain_source};
ghost use Rattle.smv_meaning.specs.Instances.{Instance as Specified, instances_of};
ghost use Rattle.smv_meaning.specs.Bodies.{instance_within};
ghost use Rattle.smv_meaning.specs.Names.{steps_of, local, is_child, has_symbol, found_in, look, single};
ghost use Rattle.smv_instances.specs.Leads.{until, is_alias};
ghost use Rattle.smv_instances.specs.View.{instance_plain, local_plain, found_plain, Declares};

use crate::aliases::leads_of;
use crate::instances::{Instance, instances};
use crate::leads::{Lead, Leads, Walk, path_walk};
use crate::names::{Known, Target};
use crate::parts::Parts;
use name_maps::row_value_in;
use smv_text::{Path, Source};
use std::alloc::Global;
use std::marker::Model;
use text_core::NoMemory;

/// The instances of a model, numbered in preorder, with the meaning of their names (NuSMV 2.6 User Manual, 2.3).
#[derive(Drop)]
pub struct Table<'a> {
    parts: Parts<'a>,
    leads: Leads<'a>,
}

impl<'a> Model for Table<'a> {
    ghost use Rattle.std.specs.Prelude.{List};
    ghost use Rattle.smv_instances.specs.declared.instances.Instance.{Instance as PartOf};
    ghost use Rattle.std.specs.Coded.{codes};
    ghost use Rattle.smv_text.specs.contracts.tree.Expr as expr;
    ghost use Rattle.smv_text.specs.contracts.tree.Shape as shape;

    ghost Value = { List PartOf };

    ghost coded = { Prim.hlevel (codes, expr.the_row.coded, shape.the_row.coded) };

    ghost use Rattle.std.specs.Prelude.{map};
    ghost use Rattle.smv_instances.specs.Leads.{Right, IsClosed};
    ghost use Rattle.smv_instances.specs.View.{instance_plain};

    ghost view = { λ t. t.parts };

    ghost invariant = { λ t. Right (map instance_plain t.parts) t.leads × IsClosed (map instance_plain t.parts) t.leads };
}

// The target of a lead, or a cycle where the lead needs more steps than the instances allow.
fn reached<'p>(parts: &Parts, lead: Lead<'p>) -> Target<'p>
    ensures found { (t : List Specified) → found_plain t result ≡ until lead.entry.depth (steps_of (map instance_plain parts.now)) (found_plain t lead.entry.target) }
    ensures declared { (t : List Specified) → Declares t lead.entry.target → Declares t result }
{
    if parts.steps() < lead.depth {
        Target::Cyclic
    } else {
        lead.target
    }
}

impl<'a> Table<'a> {
    /// Creates the table of a model's instances.
    ///
    /// The number of instances can be exponential in the size of the model, so an unchecked model may have too many to
    /// store.
    pub fn of(alloc: Global, source: &'a Source) -> Result<Table<'a>, NoMemory>
        ensures { IfOk result (λ t. map instance_plain t ≡ instances_of (plain_source source.now)) }
    {
        Table::over(alloc, instances(alloc, source)?)
    }

    /// Creates a table from instances in preorder.
    pub fn over(alloc: Global, list: Vec<Instance<'a>>) -> Result<Table<'a>, NoMemory>
        ensures { IfOk result (λ t. t ≡ list.entry.items) }
    {
        let parts = Parts::over(alloc, list)?;
        let leads = leads_of(alloc, &parts)?;
        Ok(Table { parts, leads })
    }

    /// Returns the number of instances.
    pub fn len(&self) -> usize
        ensures { result ≡ length self.now }
    {
        self.parts.len()
    }

    /// Returns the instances in order.
    pub fn list(&self) -> &[Instance<'a>]
        ensures { result.now ≡ self.now }
    {
        self.parts.list()
    }

    /// Returns the instance with this number.
    pub fn at(&self, i: usize) -> &Instance<'a>
        requires { i < length self.now }
        ensures { result.now ≡ slice_index_or self.now i result.now }
    {
        self.parts.at(i)
    }

    /// Returns the meaning of a single name in its own instance: a parameter, a variable, an instance, a definition, or
    /// nothing.
    pub fn local(&self, i: usize, x: &[u8]) -> Known<'a>
        ensures { local_plain result ≡ local (map instance_plain self.now) i x.now }
    {
        self.parts.local(i, x)
    }

    /// Returns the first instance with this name in the instance with this number, or None where there is none.
    pub fn child(&self, i: usize, x: &[u8]) -> Option<usize>
        ensures { result ≡ position (is_child i x.now) (map instance_plain self.now) }
    {
        self.parts.child(i, x)
    }

    /// Returns whether the name is in an enumeration or in CONSTANTS of an instantiated module.
    pub fn has_symbol(&self, x: &[u8]) -> bool
        ensures { result ≡ has_symbol (map instance_plain self.now) x.now }
    {
        self.parts.has_symbol(x)
    }

    // The target of a name that is an alias, without a walk along its path.
    fn target_of_alias(&self, i: usize, x: &[u8]) -> Target<'a>
        requires alias { is_alias (local (map instance_plain self.now) i x.now) ≡ true }
        ensures found { found_plain (map instance_plain self.now) result ≡ look (map instance_plain self.now) (steps_of (map instance_plain self.now)) i x.now }
        ensures declared { Declares (map instance_plain self.now) result }
    {
        match row_value_in(&self.leads, i, x) {
            Some(lead) => reached(&self.parts, lead),
            None => Target::Cyclic,
        }
    }

    // The target of a path of one name, given the meaning of the name in its own instance.
    fn target_of_single<'p>(&self, i: usize, x: &'p [u8], known: Known<'a>) -> Target<'p>
    where
        'a: 'p,
        requires known { local_plain known ≡ local (map instance_plain self.now) i x.now }
        ensures found { found_plain (map instance_plain self.now) result ≡ single (map instance_plain self.now) (look (map instance_plain self.now) (steps_of (map instance_plain self.now))) i x.now (local_plain known.entry) }
        ensures declared { Declares (map instance_plain self.now) result }
    {
        match known {
            Known::Alias(_, _) => self.target_of_alias(i, x),
            Known::Body(j, e) => Target::Body(i, x, j, e),
            Known::Variable(kind, d) => Target::Variable(i, x, kind, d),
            Known::Instance => match self.child(i, x) {
                None => Target::Missing,
                Some(c) => Target::Instance(c),
            },
            Known::Nothing => if self.has_symbol(x) {
                Target::Symbol(x)
            } else {
                Target::Missing
            },
        }
    }

    /// Returns the target of a path in the instance with this number.
    pub fn target<'p>(&self, i: usize, path: &'p Path) -> Target<'p>
    where
        'a: 'p,
        ensures found { found_plain (map instance_plain self.now) result ≡ found_in (map instance_plain self.now) i path.now }
        ensures declared { Declares (map instance_plain self.now) result }
    {
        if !path.from_self && path.names.len() == 1 {
            let x = path.names.at(0).bytes();
            return self.target_of_single(i, x, self.local(i, x));
        }
        match path_walk(&self.parts, &self.leads, i, path) {
            Walk::Ends(lead) => reached(&self.parts, lead),
            Walk::Waits(_) => Target::Cyclic,
        }
    }

    /// Returns the instance to which a name leads, or None where it leads to no instance.
    ///
    /// `known` is the meaning of the name in its own instance.
    pub fn instance_of_name(&self, i: usize, x: &[u8], known: Known<'a>) -> Option<usize>
        requires known { local_plain known ≡ local (map instance_plain self.now) i x.now }
        ensures { result ≡ instance_within (look (map instance_plain self.now) (steps_of (map instance_plain self.now)) i x.now) }
    {
        match known {
            Known::Alias(_, _) => match self.target_of_alias(i, x) {
                Target::Instance(c) => Some(c),
                Target::Variable(_, _, _, _) => None,
                Target::Body(_, _, _, _) => None,
                Target::Symbol(_) => None,
                Target::Cyclic => None,
                Target::Missing => None,
            },
            Known::Body(_, _) => None,
            Known::Variable(_, _) => None,
            Known::Instance => self.child(i, x),
            Known::Nothing => None,
        }
    }
}
