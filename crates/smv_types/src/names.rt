// The properties of names that the checks need.
ghost use Rattle.std.specs.Prelude.{◌≡◌, Bool, IsTrue};
ghost use Rattle.smv_text.specs.declared.tree.Path.{Path as PlainPath};
ghost use Rattle.smv_meaning.specs.Checks.{Named as Meaning};
ghost use Rattle.smv_types.specs.View.{named_seen};

use smv_intervals::Ty;
use smv_text::Path;

/// The properties of a name (NuSMV 2.6 User Manual, 2.3).
#[derive(Clone, Copy, PartialEq, Eq)]
pub struct Named {
    /// Its type.
    ///
    /// None for an instance, and for a variable whose declared type fails a check. Also None for a definition or an
    /// actual parameter whose own check fails or that has no type.
    pub ty: Option<Ty>,
    /// Whether it is an instance of a module.
    pub is_instance: bool,
    /// Whether it is an input, or a definition or an actual parameter that depends on one.
    pub reaches_input: bool,
}

/// A scope of names, with one meaning for each path that it knows.
pub trait Scope {
    /// The meaning of a known path.
    ghost names: { Self → PlainPath → Meaning };

    /// Whether a path is known.
    ghost knows: { Self → PlainPath → Bool };

    /// Returns the properties of a known path.
    fn named(&self, path: &Path) -> Named
        requires { IsTrue (knows self.now path.now) }
        ensures { named_seen result ≡ names self.now path.now };
}
