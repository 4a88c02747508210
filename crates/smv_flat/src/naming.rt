// The meanings of names, to the types and in the flat form.
ghost use Rattle.std.specs.Prelude.{◌≡◌, Bool, IfOk, IsTrue};
ghost use Rattle.smv_text.specs.declared.tree.Path.{Path as PlainPath};
ghost use Rattle.smv_meaning.specs.Checks.{Named as Meaning};
ghost use Rattle.smv_types.specs.View.{named_seen};
ghost use Rattle.smv_items.specs.FlatItems.{Leaf as PlainLeaf};
ghost use Rattle.smv_items.specs.FlatOrigins.{leaf_plain};

use smv_items::Leaf;
use smv_text::Path;
use smv_types::{Named, Scope};
use std::alloc::Global;
use text_core::NoMemory;

/// What a path leads to: its properties, and its translation.
#[derive(Clone, Copy)]
pub struct Resolved {
    pub named: Named,
    pub leaf: Leaf,
}

/// A source of names, with one meaning for each path that it knows.
pub trait Naming {
    /// The properties of a known path.
    ghost names: { Self → PlainPath → Meaning };

    /// The translation of a known path.
    ghost leaves: { Self → PlainPath → PlainLeaf };

    /// Whether a path is known.
    ghost knows: { Self → PlainPath → Bool };

    /// Returns what a known path leads to.
    fn resolved(&self, alloc: Global, path: &Path) -> Result<Resolved, NoMemory>
        requires { IsTrue (knows self.now path.now) }
        ensures named { IfOk result (λ r. named_seen r.named ≡ names self.now path.now) }
        ensures leaf { IfOk result (λ r. leaf_plain r.leaf ≡ leaves self.now path.now) };
}

/// A scope whose names have no translation.
#[derive(Drop)]
pub(crate) struct Untranslated<'s, C> {
    pub(crate) scope: &'s C,
}

impl<'s, C: Scope> Naming for Untranslated<'s, C> {
    ghost use Rattle.smv_items.specs.FlatItems.{of_nothing};

    ghost names = { λ s. C.names s.scope.now };

    ghost leaves = { λ s path. of_nothing };

    ghost knows = { λ s. C.knows s.scope.now };

    fn resolved(&self, _: Global, path: &Path) -> Result<Resolved, NoMemory> {
        Ok(Resolved {
            named: self.scope.named(path),
            leaf: Leaf::Nothing,
        })
    }
}
