// A line without a trailing carriage return, read byte by byte.
ghost use Rattle.std.specs.Prelude.{◌≡◌, ℕ, List, []};
ghost use Rattle.btor_witness.specs.Bytes.{line_parts};
ghost use Rattle.btor_witness.specs.Shapes.{is_passed, shape_of};
ghost use Rattle.btor_judge.specs.Scanning.{line_of, line_next};

use crate::scan::Scan;
use btor_witness::Shape;

/// The state of reading a line.
///
/// A carriage return is held back until the next byte, since it is skipped at the line's end.
#[derive(Clone, Copy)]
pub struct Line {
    scan: Scan,
    returned: bool,
}

impl Line {
    /// Returns the state of an empty line.
    pub fn new() -> Line
        ensures { result ≡ line_of [] }
    {
        Line {
            scan: Scan::new(),
            returned: false,
        }
    }

    /// Reads one more byte.
    pub fn put(&mut self, b: u8)
        ensures { self.new ≡ line_next self.old b }
    {
        if self.returned {
            self.scan.put(b'\r');
        }
        self.returned = b == b'\r';
        if b != b'\r' {
            self.scan.put(b);
        }
    }

    /// Returns whether the line is skipped.
    pub fn is_passed(&self) -> bool
        ensures { (raw : List ℕ) → self.now ≡ line_of raw → result ≡ is_passed (line_parts raw) }
    {
        self.scan.is_passed()
    }

    /// Returns the shape of the line, or None where it has none.
    pub fn shape(&self) -> Option<Shape>
        ensures { (raw : List ℕ) → self.now ≡ line_of raw → result ≡ shape_of (line_parts raw) }
    {
        self.scan.shape()
    }
}
