// The stated words in one part of a frame.
ghost use Rattle.std.specs.Prelude.{◌≡◌, ◌<◌, ◌+◌, [], List, false, length, get_or, IfOk};
ghost use Rattle.btor_witness.specs.declared.witness.Stated.{Stated};
ghost use Rattle.btor_witness.specs.Parts.{stating};
ghost use Rattle.btor_witness.specs.Room.{AreWidths};
ghost use Rattle.btor_judge.specs.Kept.{kept, Holds, IsStating, IsClearing};

use btor_frames::Words;
use btor_witness::{zero_of, zeros};
use std::alloc::Global;
use std::marker::Model;
use text_core::kinds::witness;
use text_core::{Kind, List, NoMemory};
use word_core::Word;

/// The widths of the states or of the inputs, a mark for each that is stated, and the stated words, else zeros.
#[derive(Drop)]
pub struct Part {
    widths: List<u32>,
    marks: Vec<bool>,
    words: Words,
}

impl Model for Part {
    ghost use Rattle.std.specs.Prelude.{◌≡◌, length};
    ghost use Rattle.btor_judge.specs.Kept.{StatedPart, IsStatedPart};

    ghost Value = { StatedPart };

    ghost view = { λ p. record { widths = p.widths; marks = p.marks.items; words = p.words } };

    ghost invariant = { λ p. IsStatedPart (record { widths = p.widths; marks = p.marks.items; words = p.words }) };
}

impl Part {
    /// Returns the part with no statement yet, for lines of these widths.
    pub fn new(alloc: Global, widths: List<u32>) -> Result<Part, NoMemory>
        requires { AreWidths widths }
        ensures widths { IfOk result (λ part. part.widths ≡ widths) }
        ensures none { IfOk result (λ part. Holds part []) }
    {
        let marks = vec![in alloc; false; widths.len()]?;
        let words = zeros(alloc, &widths)?;
        Ok(Part {
            widths,
            marks,
            words,
        })
    }

    /// Returns the number of lines that may be stated.
    pub fn len(&self) -> usize
        ensures { result ≡ length self.now.widths }
    {
        self.widths.len()
    }

    /// Returns for each line the stated word, or zero.
    pub fn words(&self) -> &Words
        ensures { result.now ≡ self.now.words }
    {
        &self.words
    }

    /// Returns whether the line at index `place` is stated.
    pub fn is_marked(&self, place: usize) -> bool
        requires { place < length self.now.widths }
        ensures { result ≡ get_or self.now.marks place false }
    {
        self.marks[place]
    }

    /// Adds a statement: the word of the line with this index.
    ///
    /// Returns the kind of refusal where there is no such line, it is stated already, or the word does not have the
    /// line's width. `None` is a word wider than any line.
    pub fn state(&mut self, index: u32, word: Option<Word>) -> Result<(), Kind>
        ensures widths { self.new.widths ≡ self.old.widths }
        ensures stated { (stated : List Stated) → Holds self.old stated → IsStating (stating self.old.widths stated index word) self.new result }
    {
        let place = index as usize;
        if place >= self.widths.len() || self.marks[place] {
            return Err(witness::INDEX);
        }
        let Some(value) = word else {
            return Err(witness::WIDTH);
        };
        if value.width() != *self.widths.at(place) {
            return Err(witness::WIDTH);
        }
        self.words.set(place, value);
        self.marks[place] = true;
        Ok(())
    }

    /// Removes all statements.
    pub fn clear(&mut self)
        ensures widths { self.new.widths ≡ self.old.widths }
        ensures none { (stated : List Stated) → Holds self.old stated → Holds self.new [] }
    {
        clear(&self.widths, &mut self.marks, &mut self.words);
    }
}

// Removes all marks, and writes zeros in place of the marked words.
fn clear(widths: &List<u32>, marks: &mut [bool], words: &mut Words)
    requires marked { length marks.old ≡ length widths.now }
    requires worded { length words.old ≡ length widths.now }
    requires widths { AreWidths widths.now }
    ensures marked { length marks.new ≡ length widths.now }
    ensures worded { length words.new ≡ length widths.now }
    ensures none { (stated : List Stated) → Holds (kept widths.now marks.old words.old) stated → Holds (kept widths.now marks.new words.new) [] }
{
    for place in 0..widths.len() {
        clear_at(widths, marks, words, place);
    }
}

// The same for one line.
fn clear_at(widths: &List<u32>, marks: &mut [bool], words: &mut Words, place: usize)
    requires inside { place < length widths.now }
    requires marked { length marks.old ≡ length widths.now }
    requires worded { length words.old ≡ length widths.now }
    requires widths { AreWidths widths.now }
    ensures marked { length marks.new ≡ length widths.now }
    ensures worded { length words.new ≡ length widths.now }
    ensures clearing { IsClearing place (kept widths.now marks.old words.old) → IsClearing (place + 1) (kept widths.now marks.new words.new) }
{
    if marks[place] {
        marks[place] = false;
        words.set(place, zero_of(*widths.at(place)));
    }
}
