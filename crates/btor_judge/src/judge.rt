// The judge of a text that comes in pieces.
ghost use Rattle.std.specs.Prelude.{◌≡◌, ◌<◌, ℕ, List, [], ◌∷◌, ◌++◌, length, true, false, IfOk, IsTrue};
ghost use Rattle.btor_tree.specs.declared.lines.Line.{Line as TreeLine};
ghost use Rattle.btor_witness.specs.Sizes.{most_bytes};
ghost use Rattle.btor_judge.specs.Judging.{RepresentsSome, Represents, IsReading, BeginsLine, is_one_line, counted, closed, has_ended, Answers};

use crate::line::Line;
use crate::reader::{Reader, Stage};
use btor_tree::{Nodes, line_length};
use btor_witness::MOST_BYTES;
use std::alloc::Global;
use text_core::kinds::witness;
use text_core::{FIRST_PLACE, NoMemory, Place, Refusal, Verdict};

/// The result of a judge: the bad line, the last step and the verdict, or the text's refusal.
#[derive(Clone, Copy, Debug, PartialEq, Eq)]
pub enum JudgeEnd {
    Judged(u32, u32, Verdict),
    Bad(Refusal),
}

/// A judge of a witness whose text comes in pieces.
///
/// `new` allocates all its memory, and the amount is independent of the text's length. The lines stay with the
/// caller, who passes the same ones to each call.
#[derive(Drop)]
pub struct Judge {
    reader: Reader,
    line: Line,
    stage: Stage,
    ended: bool,
    bytes: u32,
    lines: u32,
    offset: u32,
}

impl Judge {
    /// Returns a judge that has read the empty text.
    pub fn new(alloc: Global, nodes: &Nodes) -> Result<Judge, NoMemory>
        ensures represents { IfOk result (λ judge. Represents nodes.now judge []) }
        ensures unended { IfOk result (λ judge. has_ended judge ≡ false) }
        ensures some { IfOk result (λ judge. RepresentsSome nodes.now judge) }
    {
        Ok(Judge {
            reader: Reader::new(alloc, nodes)?,
            line: Line::new(),
            stage: Stage::Going,
            ended: false,
            bytes: 0,
            lines: 0,
            offset: 0,
        })
    }

    /// Reads the next piece of the text.
    ///
    /// It allocates nothing. Once the judge has ended, nothing changes.
    pub fn feed(&mut self, nodes: &Nodes, piece: &[u8])
        requires { RepresentsSome nodes.now self.old }
        ensures represents { (text : List ℕ) → has_ended self.old ≡ false → Represents nodes.now self.old text → Represents nodes.now self.new (text ++ piece.now) }
        ensures some { RepresentsSome nodes.now self.new }
        ensures unchanged { has_ended self.new ≡ has_ended self.old }
        ensures ended { has_ended self.old ≡ true → self.new ≡ self.old }
    {
        if self.ended {
            return;
        }
        let mut rest = piece;
        'lines: loop {
            let (raw, more) = rest.split_at(line_length(rest));
            let Some((_, last)) = more.split_first() else {
                self.take_bytes(nodes, raw);
                return;
            };
            self.take_line(nodes, raw);
            rest = last;
        }
    }

    // Takes the bytes of one line, and the byte at its end.
    fn take_line(&mut self, nodes: &Nodes, raw: &[u8])
        requires some { RepresentsSome nodes.now self.old }
        requires unended { has_ended self.old ≡ false }
        requires line { is_one_line raw.now ≡ true }
        ensures represents { (text : List ℕ) → Represents nodes.now self.old text → Represents nodes.now self.new (text ++ (raw.now ++ 10 ∷ [])) }
        ensures unchanged { has_ended self.new ≡ has_ended self.old }
    {
        if self.begins_line(raw) {
            self.read_whole(nodes, raw);
            self.bytes += 1;
        } else {
            self.take_bytes(nodes, raw);
            self.take(nodes, b'\n');
        }
    }

    // Has nothing of the current line come, and is the text within the limit behind this line and its end?
    fn begins_line(&self, raw: &[u8]) -> bool
        ensures { IsTrue result → BeginsLine self.now raw.now }
    {
        match self.stage {
            Stage::Going => {
                self.offset == self.bytes
                    && raw.len() < MOST_BYTES.saturating_sub(self.bytes as usize)
            }
            _ => false,
        }
    }

    // Reads one line whose bytes are all at hand. The byte at its end is counted behind it.
    fn read_whole(&mut self, nodes: &Nodes, raw: &[u8])
        requires some { RepresentsSome nodes.now self.old }
        requires unended { has_ended self.old ≡ false }
        requires line { is_one_line raw.now ≡ true }
        requires begins { BeginsLine self.old raw.now }
        ensures represents { (text : List ℕ) → Represents nodes.now self.old text → Represents nodes.now (counted self.new) (text ++ (raw.now ++ 10 ∷ [])) }
        ensures unchanged { has_ended self.new ≡ has_ended self.old }
        ensures bytes { self.new.bytes < most_bytes }
    {
        self.stage = self.reader.take_whole(nodes, raw);
        self.bytes += raw.len() as u32;
        match self.stage {
            Stage::Going => {
                self.lines += 1;
                self.offset = self.bytes + 1;
            }
            _ => {}
        }
    }

    // Takes bytes one by one.
    fn take_bytes(&mut self, nodes: &Nodes, piece: &[u8])
        requires some { RepresentsSome nodes.now self.old }
        requires unended { has_ended self.old ≡ false }
        ensures represents { (text : List ℕ) → Represents nodes.now self.old text → Represents nodes.now self.new (text ++ piece.now) }
        ensures unchanged { has_ended self.new ≡ has_ended self.old }
    {
        for b in piece {
            self.take(nodes, *b);
        }
    }

    // Reads one byte.
    fn take(&mut self, nodes: &Nodes, b: u8)
        requires some { RepresentsSome nodes.now self.old }
        requires unended { has_ended self.old ≡ false }
        ensures represents { (text : List ℕ) → Represents nodes.now self.old text → Represents nodes.now self.new (text ++ b ∷ []) }
        ensures unchanged { has_ended self.new ≡ has_ended self.old }
    {
        if self.bytes as usize >= MOST_BYTES {
            self.stage = Stage::TooLong;
            return;
        }
        match self.stage {
            Stage::Going => {
                self.read(nodes, b);
                self.bytes += 1;
            }
            _ => self.bytes += 1,
        }
    }

    // Reads one byte, which the caller then counts.
    fn read(&mut self, nodes: &Nodes, b: u8)
        requires { (text : List ℕ) × IsReading nodes.now self.old text × (length text < most_bytes) }
        ensures represents { (text : List ℕ) → IsReading nodes.now self.old text → length text < most_bytes → Represents nodes.now (counted self.new) (text ++ b ∷ []) }
        ensures unchanged { has_ended self.new ≡ has_ended self.old }
        ensures bytes { self.new.bytes ≡ self.old.bytes }
    {
        if b == b'\n' {
            self.end_line(nodes);
        } else {
            self.line.put(b);
        }
    }

    fn end_line(&mut self, nodes: &Nodes)
        requires { (text : List ℕ) × IsReading nodes.now self.old text × (length text < most_bytes) }
        ensures represents { (text : List ℕ) → IsReading nodes.now self.old text → length text < most_bytes → Represents nodes.now (counted self.new) (text ++ 10 ∷ []) }
        ensures unchanged { has_ended self.new ≡ has_ended self.old }
        ensures bytes { self.new.bytes ≡ self.old.bytes }
    {
        self.stage = self.reader.take_line(nodes, &self.line);
        match self.stage {
            Stage::Going => {
                self.lines += 1;
                self.offset = self.bytes + 1;
                self.line = Line::new();
            }
            _ => {}
        }
    }

    /// Ends the text and returns the result: the first refusal, as `read_witness` reports it, or else the verdict
    /// of `judge_btor`.
    ///
    /// It allocates nothing. Further calls return the same result.
    pub fn end(&mut self, nodes: &Nodes) -> JudgeEnd
        requires { RepresentsSome nodes.now self.old }
        ensures answers { (text : List ℕ) → Represents nodes.now self.old text → Answers nodes.now text result }
        ensures only { (text : List ℕ) (other : JudgeEnd) → Represents nodes.now self.old text → Answers nodes.now text other → result ≡ other }
        ensures represents { (text : List ℕ) → Represents nodes.now self.old text → Represents nodes.now self.new text }
        ensures some { RepresentsSome nodes.now self.new }
        ensures ended { has_ended self.new ≡ true }
        ensures same { has_ended self.old ≡ true → self.new ≡ self.old }
    {
        nodes.are_well_formed();
        if self.ended {
            return self.answer();
        }
        self.close(nodes);
        self.answer()
    }

    // Ends the text.
    fn close(&mut self, nodes: &Nodes)
        requires some { RepresentsSome nodes.now self.old }
        requires unended { has_ended self.old ≡ false }
        ensures represents { (text : List ℕ) → Represents nodes.now self.old text → Represents nodes.now self.new text }
        ensures ended { has_ended self.new ≡ true }
    {
        match self.stage {
            Stage::Going => {
                self.close_line(nodes);
                self.ended = true;
            }
            _ => self.ended = true,
        }
    }

    // Ends the last line, which may lack its line feed. A text that ends before the witness does is refused there.
    fn close_line(&mut self, nodes: &Nodes)
        requires { (text : List ℕ) × IsReading nodes.now self.old text }
        ensures { (text : List ℕ) → IsReading nodes.now self.old text → Represents nodes.now (closed self.new) text }
    {
        self.stage = self.reader.take_line(nodes, &self.line);
        match self.stage {
            Stage::Going => self.stage = Stage::Refused(witness::UNENDED),
            _ => {}
        }
    }

    fn answer(&self) -> JudgeEnd
        requires { (lines : List TreeLine) × RepresentsSome lines self.now }
        ensures { (lines : List TreeLine) (text : List ℕ) → has_ended self.now ≡ true → Represents lines self.now text → Answers lines text result }
    {
        match self.stage {
            Stage::Done => {
                JudgeEnd::Judged(
                    self.reader.bad(),
                    self.reader.count(),
                    self.reader.verdict(),
                )
            }
            Stage::Refused(kind) => JudgeEnd::Bad(Refusal {
                kind,
                place: Place {
                    line: self.lines + 1,
                    column: 1,
                    offset: self.offset,
                },
            }),
            _ => JudgeEnd::Bad(Refusal {
                kind: witness::TOO_LONG,
                place: FIRST_PLACE,
            }),
        }
    }
}
