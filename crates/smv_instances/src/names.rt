// The meaning of names, and the targets of paths.
ghost use Rattle.std.specs.Prelude.{◌≡◌, List};
ghost use Rattle.smv_text.specs.View.{plain, plain_domain};
ghost use Rattle.smv_meaning.specs.Instances.{Instance as Specified};
ghost use Rattle.smv_meaning.specs.Names.{of_actual, of_domain, ended};
ghost use Rattle.smv_instances.specs.View.{local_plain, found_plain, Declares};

use smv_text::{Domain, Expr, Path, Shape, VarKind};

/// The meaning of a single name in its own instance.
#[derive(Clone, Copy)]
pub enum Known<'a> {
    /// A parameter whose actual is a path, with the number of the instance in which the path is read.
    Alias(usize, &'a Path),
    /// A definition, or a parameter with any other actual, with the number of the instance in which it is read.
    Body(usize, &'a Expr),
    Variable(VarKind, &'a Domain),
    /// An instance.
    Instance,
    Nothing,
}

/// The target of a path.
#[derive(Clone, Copy)]
pub enum Target<'a> {
    /// A variable: the number of its instance, its name there, its kind and its type.
    Variable(usize, &'a [u8], VarKind, &'a Domain),
    /// A definition or an actual: its instance, its name there, the instance in which its body is read, and the body.
    Body(usize, &'a [u8], usize, &'a Expr),
    /// An instance, by its number.
    Instance(usize),
    Symbol(&'a [u8]),
    Cyclic,
    Missing,
}

/// Returns the meaning of a parameter with this actual: an alias where the actual is a path.
///
/// `parent` is the number of the instance in which the actual is read.
pub fn actual<'a>(parent: usize, e: &'a Expr) -> Known<'a>
    ensures { local_plain result ≡ of_actual parent (plain e.now) }
{
    match &e.shape {
        Shape::Name(path) => Known::Alias(parent, path),
        _ => Known::Body(parent, e),
    }
}

/// Returns the meaning of a declared name: a variable or an instance.
pub fn domain<'a>(kind: VarKind, d: &'a Domain) -> Known<'a>
    ensures { local_plain result ≡ of_domain kind (plain_domain d.now) }
{
    match d {
        Domain::Boolean => Known::Variable(kind, d),
        Domain::Members(_) => Known::Variable(kind, d),
        Domain::Between(_, _) => Known::Variable(kind, d),
        Domain::Bits(_) => Known::Variable(kind, d),
        Domain::Instance(_, _) => Known::Instance,
    }
}

/// Returns the target, or `Missing` where the path continues after something other than an instance.
pub fn last<'a>(found: Target<'a>, at_end: bool) -> Target<'a>
    ensures found { (t : List Specified) → found_plain t result ≡ ended (found_plain t found.entry) at_end }
    ensures declared { (t : List Specified) → Declares t found.entry → Declares t result }
{
    match found {
        Target::Cyclic => Target::Cyclic,
        Target::Instance(c) => Target::Instance(c),
        Target::Missing => Target::Missing,
        found => if at_end { found } else { Target::Missing },
    }
}
