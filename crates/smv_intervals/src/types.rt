// The types of expressions.
ghost use Rattle.std.specs.Prelude.{◌≡◌};
ghost use Rattle.smv_meaning.specs.Types.{is_truth_type, is_integer_type, is_word_type, type_width, type_same, widths_same, symbol_type};
ghost use Rattle.smv_intervals.specs.View.{seen};

/// The type of an expression (NuSMV 2.6 User Manual, 2.1). All symbols share one type.
#[derive(Clone, Copy, PartialEq, Eq)]
pub enum Ty {
    /// `boolean`
    Truth,
    /// An integer, with its least and its greatest possible value, both from -2^62 to 2^62 - 1.
    Integer(i64, i64),
    /// A symbol of an enumeration.
    Symbol,
    /// `unsigned word[n]`, with its width from 1 to `WIDEST`.
    Bits(u32),
}

impl Ty {
    /// Returns whether the type is `boolean`.
    pub fn is_truth(self) -> bool
        ensures { result ≡ is_truth_type (seen self) }
    {
        match self {
            Ty::Truth => true,
            Ty::Integer(_, _) | Ty::Symbol | Ty::Bits(_) => false,
        }
    }

    /// Returns whether the type is an interval of integers.
    pub fn is_integer(self) -> bool
        ensures { result ≡ is_integer_type (seen self) }
    {
        match self {
            Ty::Integer(_, _) => true,
            Ty::Truth | Ty::Symbol | Ty::Bits(_) => false,
        }
    }

    /// Returns whether the type is a word type.
    pub fn is_word(self) -> bool
        ensures { result ≡ is_word_type (seen self) }
    {
        match self {
            Ty::Bits(_) => true,
            Ty::Truth | Ty::Integer(_, _) | Ty::Symbol => false,
        }
    }

    /// Returns the width of a word type, or 0 for any other type.
    pub fn width(self) -> u32
        ensures { result ≡ type_width (seen self) }
    {
        match self {
            Ty::Bits(width) => width,
            Ty::Truth | Ty::Integer(_, _) | Ty::Symbol => 0,
        }
    }

    /// Returns whether both types are word types of the same width.
    pub fn is_as_wide(self, other: Ty) -> bool
        ensures { result ≡ widths_same (seen self) (seen other) }
    {
        self.is_word() && other.is_word() && self.width() == other.width()
    }

    /// Returns whether both types are the same, regardless of intervals.
    pub fn is_same(self, other: Ty) -> bool
        ensures { result ≡ type_same (seen self) (seen other) }
    {
        match self {
            Ty::Truth => other.is_truth(),
            Ty::Integer(_, _) => other.is_integer(),
            Ty::Symbol => other.is_symbol(),
            Ty::Bits(width) => other.is_word() && width == other.width(),
        }
    }

    fn is_symbol(self) -> bool
        ensures { result ≡ type_same symbol_type (seen self) }
    {
        match self {
            Ty::Symbol => true,
            Ty::Truth | Ty::Integer(_, _) | Ty::Bits(_) => false,
        }
    }
}
