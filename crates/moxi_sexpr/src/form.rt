// Atoms and forms.

use text_core::{Name, Place};

/// An atom.
///
/// The name leaves out what the spelling adds: a symbol's bars and prime, a keyword's colon, the `#b` or `#x` of a
/// literal, and a string's quotes. Each doubled quote in a string is stored as one. The truth value of a symbol is true
/// where the symbol is primed.
#[derive(Drop)]
pub enum Atom {
    Symbol(Name, bool),
    Keyword(Name),
    Numeral(Name),
    Binary(Name),
    Hex(Name),
    Quote(Name),
}

/// A form, with the place of its first byte.
#[cycle(form)]
#[derive(Drop)]
pub struct Form {
    pub place: Place,
    pub shape: FormShape,
}

/// An atom, or a list of forms in brackets.
#[cycle(form)]
#[derive(Drop)]
pub enum FormShape {
    Atom(Atom),
    List(Forms),
}

/// A sequence of forms.
pub type Forms = Vec<Form>;
