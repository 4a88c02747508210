// The headings under which values are stated.
ghost use Rattle.std.specs.Prelude.{◌≡◌};
ghost use Rattle.smv_numbered.specs.Values.{picks};

use smv_items::ItemKind;

/// A heading under which values are stated.
///
/// Under it are the values of a state, or of the label that leads to the next state.
#[derive(Clone, Copy)]
pub enum Heading {
    State,
    Input,
}

impl Heading {
    /// Returns whether an item of this kind has a value under the heading.
    ///
    /// A state has the values of state and frozen variables, a label those of inputs.
    pub fn picks(self, kind: ItemKind) -> bool
        ensures { result ≡ picks self kind }
    {
        match kind {
            ItemKind::State | ItemKind::Frozen => matches!(self, Heading::State),
            ItemKind::Input => matches!(self, Heading::Input),
            ItemKind::Define | ItemKind::Actual => false,
        }
    }
}
