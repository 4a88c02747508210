// Places in a text, kinds of refusal, and refusals.
ghost use Rattle.std.specs.Prelude.{◌≡◌, ◌+◌, ◌<◌, ◌^◌, length};
ghost use Rattle.text_core.specs.Places.{next_place, after, along, Reaches};

/// A place in a text, in bytes: line and column count from 1, the offset from 0.
///
/// A line ends after byte 10.
#[derive(Clone, Copy, Debug, PartialEq, Eq)]
pub struct Place {
    pub line: u32,
    pub column: u32,
    pub offset: u32,
}

/// The place of a text's first byte.
pub const FIRST_PLACE: Place = Place {
    line: 1,
    column: 1,
    offset: 0,
};

impl Place {
    /// Returns the place after the byte `b`.
    pub fn next(self, b: u8) -> Place
        requires { Reaches self 1 }
        ensures { result ≡ next_place self b }
    {
        if b == b'\n' {
            Place {
                line: self.line + 1,
                column: 1,
                offset: self.offset + 1,
            }
        } else {
            Place {
                line: self.line,
                column: self.column + 1,
                offset: self.offset + 1,
            }
        }
    }

    /// Returns the place `count` bytes further along the same line.
    pub fn along(self, count: usize) -> Place
        requires { Reaches self count }
        ensures { result ≡ along self count }
    {
        let count = count as u32;
        Place {
            line: self.line,
            column: self.column + count,
            offset: self.offset + count,
        }
    }

    /// Returns the place after these bytes.
    pub fn after(self, bytes: &[u8]) -> Place
        requires line { self.line + length bytes.now < 2 ^ 32 }
        requires column { self.column + length bytes.now + 1 < 2 ^ 32 }
        requires offset { self.offset + length bytes.now < 2 ^ 32 }
        ensures { result ≡ after self bytes.now }
    {
        let mut place = self;
        for b in bytes {
            if *b == b'\n' {
                place.line += 1;
                place.column = 1;
            } else {
                place.column += 1;
            }
            place.offset += 1;
        }
        place
    }
}

/// The kind of a refusal: a letter for the language of the text, and a number.
///
/// S is an SMV model, M a MoXI script, B a BTOR2 text, X a witness, and Y a trace or a response.
#[derive(Clone, Copy, Debug, PartialEq, Eq)]
pub enum Kind {
    S(u8),
    M(u8),
    B(u8),
    X(u8),
    Y(u8),
}

/// The reason why a text is refused, and the place.
#[derive(Clone, Copy, Debug, PartialEq, Eq)]
pub struct Refusal {
    pub kind: Kind,
    pub place: Place,
}
