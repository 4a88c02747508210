// The items of a model.

use smv_intervals::Ty;
use smv_text::Members;
use text_core::Name;

/// The kind of an item.
#[derive(Clone, Copy, PartialEq, Eq)]
pub enum ItemKind {
    /// A variable of `VAR`.
    State,
    /// A variable of `FROZENVAR`.
    Frozen,
    /// A variable of `IVAR`.
    Input,
    /// A definition.
    Define,
    /// An actual parameter that is not a path.
    Actual,
}

/// A variable, a definition or an actual, with its dotted path, the number of its instance in preorder, its kind and
/// its type.
///
/// `members` holds the members of an enumeration in the order of the text, and is empty for any other type.
#[derive(Drop)]
pub struct FlatItem {
    pub name: Name,
    pub instance: u32,
    pub kind: ItemKind,
    pub ty: Ty,
    pub members: Members,
}
