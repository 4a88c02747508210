// The targets of aliases, each resolved once.
ghost use Rattle.std.specs.Prelude.{◌≡◌, ◌∷◌, [], ℕ, map, IfSome};
ghost use Rattle.smv_meaning.specs.Names.{instance_at, look, walk, resolved, local};
ghost use Rattle.smv_instances.specs.Leads.{until, Right, LeadAt, WalkOf};
ghost use Rattle.smv_instances.specs.View.{instance_plain, local_plain};

use crate::names::{Known, Target, last};
use crate::parts::Parts;
use name_maps::{InstanceRows, row_value_in};
use smv_text::Path;
use text_core::Names;

/// The target of an alias, and the depth of the chain of aliases on its way, itself included.
#[derive(Clone, Copy)]
pub struct Lead<'a> {
    pub depth: usize,
    pub target: Target<'a>,
}

/// A parameter: its instance, and its name there.
#[derive(Clone, Copy)]
pub struct Key<'a> {
    pub instance: usize,
    pub name: &'a [u8],
}

/// The end of a walk along a path: the path's target, or the first alias on it without a stored lead.
#[derive(Clone, Copy)]
pub enum Walk<'a> {
    Ends(Lead<'a>),
    Waits(Key<'a>),
}

/// The leads of aliases, by instance and name.
pub type Leads<'a> = InstanceRows<'a, Lead<'a>>;

/// Returns the lead of a name in instance i, or None where the name is an alias without a stored lead.
///
/// `known` is the meaning of the name in its own instance.
pub fn lead_of<'a: 'p, 'p>(
    parts: &Parts<'a>,
    leads: &Leads<'a>,
    i: usize,
    x: &'p [u8],
    known: Known<'a>,
) -> Option<Lead<'p>>
    requires right { Right (map instance_plain parts.now) leads.now }
    requires known { local_plain known ≡ local (map instance_plain parts.now) i x.now }
    ensures { LeadAt (map instance_plain parts.now) leads.now i x.now result }
{
    match known {
        Known::Alias(_, _) => row_value_in(leads, i, x),
        Known::Body(j, e) => Some(Lead {
            depth: 1,
            target: Target::Body(i, x, j, e),
        }),
        Known::Variable(kind, d) => Some(Lead {
            depth: 1,
            target: Target::Variable(i, x, kind, d),
        }),
        Known::Instance => match parts.child(i, x) {
            None => Some(Lead {
                depth: 1,
                target: Target::Missing,
            }),
            Some(c) => Some(Lead {
                depth: 1,
                target: Target::Instance(c),
            }),
        },
        Known::Nothing => Some(Lead {
            depth: 1,
            target: Target::Missing,
        }),
    }
}

// The instance that a name denotes in its own instance.
fn instance_named<'a>(parts: &Parts<'a>, i: usize, x: &[u8], known: Known<'a>) -> Option<usize>
    requires known { local_plain known ≡ local (map instance_plain parts.now) i x.now }
    ensures { IfSome result (λ c. (n : ℕ) → look (map instance_plain parts.now) n i x.now ≡ until 1 n (instance_at c)) }
{
    match known {
        Known::Instance => parts.child(i, x),
        Known::Alias(_, _) => None,
        Known::Body(_, _) => None,
        Known::Variable(_, _) => None,
        Known::Nothing => None,
    }
}

// The walk along a path of one name.
fn name_walk<'a: 'p, 'p>(
    parts: &Parts<'a>,
    leads: &Leads<'a>,
    i: usize,
    x: &'p [u8],
    known: Known<'a>,
) -> Walk<'p>
    requires right { Right (map instance_plain parts.now) leads.now }
    requires known { local_plain known ≡ local (map instance_plain parts.now) i x.now }
    ensures { WalkOf (map instance_plain parts.now) leads.now (λ n. walk (look (map instance_plain parts.now) n) i (x.now ∷ [])) result }
{
    match lead_of(parts, leads, i, x, known) {
        Some(lead) => Walk::Ends(lead),
        None => Walk::Waits(Key {
            instance: i,
            name: x,
        }),
    }
}

fn names_walk<'a: 'p, 'p>(
    parts: &Parts<'a>,
    leads: &Leads<'a>,
    i: usize,
    names: &'p Names,
) -> Walk<'p>
    requires right { Right (map instance_plain parts.now) leads.now }
    ensures { WalkOf (map instance_plain parts.now) leads.now (λ n. walk (look (map instance_plain parts.now) n) i names.now) result }
{
    let mut at = i;
    let mut depth = 0;
    for (k, name) in names.as_slice().iter().enumerate() {
        let name = name.bytes();
        let known = parts.local(at, name);
        // Most names before the last one are instances.
        if let Some(c) = instance_named(parts, at, name, known) {
            if depth < 1 {
                depth = 1;
            }
            at = c;
            continue;
        }
        let Some(lead) = lead_of(parts, leads, at, name, known) else {
            return Walk::Waits(Key { instance: at, name });
        };
        if lead.depth > depth {
            depth = lead.depth;
        }
        match lead.target {
            Target::Instance(c) => at = c,
            found => {
                let target = last(found, k + 1 == names.len());
                return Walk::Ends(Lead { depth, target });
            }
        }
    }
    Walk::Ends(Lead {
        depth,
        target: Target::Instance(at),
    })
}

/// Returns the walk along a path in the instance with this number.
pub fn path_walk<'a: 'p, 'p>(
    parts: &Parts<'a>,
    leads: &Leads<'a>,
    i: usize,
    path: &'p Path,
) -> Walk<'p>
    requires right { Right (map instance_plain parts.now) leads.now }
    ensures { WalkOf (map instance_plain parts.now) leads.now (λ n. resolved (map instance_plain parts.now) (look (map instance_plain parts.now) n) i path.now) result }
{
    if !path.from_self && path.names.len() == 1 {
        let x = path.names.at(0).bytes();
        let known = parts.local(i, x);
        if let Known::Nothing = known {
            let target = if parts.has_symbol(x) {
                Target::Symbol(x)
            } else {
                Target::Missing
            };
            return Walk::Ends(Lead { depth: 0, target });
        }
        return name_walk(parts, leads, i, x, known);
    }
    names_walk(parts, leads, i, &path.names)
}
