// The parts of a line, read byte by byte.
ghost use Rattle.std.specs.Prelude.{◌≡◌, ℕ, List, []};
ghost use Rattle.btor_tree.specs.Parts.{is_blank, parts, numeral};
ghost use Rattle.btor_witness.specs.Shapes.{is_passed, shape_of, assignment_shape};
ghost use Rattle.btor_judge.specs.Firsts.{first_of};
ghost use Rattle.btor_judge.specs.Digit.{digits_of, assigned};
ghost use Rattle.btor_judge.specs.Scanning.{scan_of, scan_next, entered, kept};

use crate::digits::Digits;
use crate::first::First;
use btor_witness::Shape;
use word_core::Word;

/// The state of reading the parts of a line.
///
/// It has the number of parts that have begun, up to four, and whether the last byte belongs to a part. It also has
/// the states of the first and the second part.
#[derive(Clone, Copy)]
pub struct Scan {
    count: u8,
    inside: bool,
    first: First,
    digits: Digits,
}

fn is_blank(b: u8) -> bool
    ensures { result ≡ is_blank b }
{
    b == 9 || b == b' '
}

impl Scan {
    /// Returns the state of an empty line.
    pub fn new() -> Scan
        ensures { result ≡ scan_of [] }
    {
        Scan {
            count: 0,
            inside: false,
            first: First::Empty,
            digits: Digits::Bits(0, 0),
        }
    }

    /// Reads one more byte.
    pub fn put(&mut self, b: u8)
        ensures { self.new ≡ scan_next self.old b }
    {
        if is_blank(b) {
            self.inside = false;
        } else {
            self.enter();
            self.keep(b);
        }
    }

    // Begins a part, where none is open.
    fn enter(&mut self)
        ensures { self.new ≡ entered self.old }
    {
        if !self.inside && self.count < 4 {
            self.count += 1;
        }
        self.inside = true;
    }

    // Adds one byte to the current part.
    fn keep(&mut self, b: u8)
        ensures { self.new ≡ kept self.old b }
    {
        if self.count == 1 {
            self.first = self.first.next(b);
        } else if self.count == 2 {
            self.digits = self.digits.next(b);
        }
    }

    /// Returns whether the line is skipped.
    pub fn is_passed(&self) -> bool
        ensures { (bs : List ℕ) → self.now ≡ scan_of bs → result ≡ is_passed (parts bs) }
    {
        if self.count == 0 {
            true
        } else {
            self.first.is_comment()
        }
    }

    /// Returns the shape of the line, or None where it has none.
    pub fn shape(&self) -> Option<Shape>
        ensures { (bs : List ℕ) → self.now ≡ scan_of bs → result ≡ shape_of (parts bs) }
    {
        if self.count == 1 {
            self.first.shape()
        } else if self.count == 2 {
            assignment(self.first, self.digits)
        } else if self.count == 3 {
            assignment(self.first, self.digits)
        } else {
            None
        }
    }
}

// A number and binary digits.
fn assignment(first: First, digits: Digits) -> Option<Shape>
    ensures { (p q : List ℕ) → first ≡ first_of p → digits ≡ digits_of q → result ≡ assignment_shape (numeral p) q }
{
    match first.number() {
        Some(index) => with_word(index, digits.word()),
        None => None,
    }
}

fn with_word(index: u32, word: Option<Option<Word>>) -> Option<Shape>
    ensures { result ≡ assigned (Some index) word }
{
    match word {
        Some(word) => Some(Shape::Assignment(index, word)),
        None => None,
    }
}
