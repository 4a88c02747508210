// The statements in one part of a frame.
ghost use Rattle.std.specs.Prelude.{◌≡◌, ◌<◌, [], List, length, IfOk, OnOk, Ok, false};
ghost use Rattle.btor_witness.specs.Parts.{PartState, stating};
ghost use Rattle.btor_witness.specs.Held.{IsCleared, AreStatedAt, AreMarked};
ghost use Rattle.btor_witness.specs.Answer.{Added};

use crate::ends::LineEnd;
use crate::witness::{Stated, Stateds};
use std::alloc::Global;
use std::marker::Model;
use text_core::kinds::witness;
use text_core::{List, NoMemory};
use word_core::Word;

/// The statements so far in one part of a frame, with the widths of its lines and a mark for each stated line.
#[derive(Drop)]
pub struct Part {
    widths: List<u32>,
    marks: Vec<bool>,
    stated: Stateds,
}

impl Model for Part {
    ghost use Rattle.btor_witness.specs.Parts.{PartState};
    ghost use Rattle.btor_witness.specs.Held.{AreMarked};

    ghost Value = { PartState };

    ghost view = { λ p. record { widths = p.widths; stated = p.stated } };

    ghost invariant = { λ p. AreMarked p.widths p.marks.items p.stated };
}

impl Part {
    /// Returns the part with no statement yet, for lines of these widths.
    pub fn new(alloc: Global, widths: List<u32>) -> Result<Part, NoMemory>
        ensures { IfOk result (λ p. p ≡ record { widths = widths; stated = [] }) }
    {
        let marks = vec![in alloc; false; widths.len()]?;
        Ok(Part {
            widths,
            marks,
            stated: Stateds::new(alloc),
        })
    }

    /// Returns the number of lines that may be stated.
    pub fn len(&self) -> usize
        ensures { result ≡ length self.now.widths }
    {
        self.widths.len()
    }

    /// Adds a statement: the word of the line with this index.
    ///
    /// Returns `Bad` where there is no such line, it is stated already, or the word does not have the line's width.
    /// `None` is a word wider than any line.
    pub fn state(&mut self, index: u32, word: Option<Word>) -> Result<(), LineEnd>
        ensures widths { self.new.widths ≡ self.old.widths }
        ensures added { Added (stating self.old.widths self.old.stated index word) self.new.stated result }
    {
        let place = index as usize;
        if place >= self.widths.len() || self.marks[place] {
            return Err(LineEnd::Bad(witness::INDEX));
        }
        let Some(value) = word else {
            return Err(LineEnd::Bad(witness::WIDTH));
        };
        if value.width() != *self.widths.at(place) {
            return Err(LineEnd::Bad(witness::WIDTH));
        }
        self.stated.push(Stated { index, value })?;
        self.marks[place] = true;
        Ok(())
    }

    /// Takes the statements so far, in a list without spare room, and leaves none.
    pub fn take(&mut self, alloc: Global) -> Result<Stateds, NoMemory>
        ensures widths { self.new.widths ≡ self.old.widths }
        ensures stated { IfOk result (λ stated. stated ≡ self.old.stated) }
        ensures none { OnOk result (self.new.stated ≡ []) }
    {
        let exact = without_spare(alloc, &self.stated)?;
        clear(&mut self.marks, &self.stated);
        self.stated = Stateds::new(alloc);
        Ok(exact)
    }
}

// The same statements in a list without spare room. A witness has many frames, and a list that grew may be half empty.
fn without_spare(alloc: Global, stated: &Stateds) -> Result<Stateds, NoMemory>
    ensures { IfOk result (λ exact. exact ≡ stated.now) }
{
    let mut exact = Stateds::with_capacity(alloc, stated.len())?;
    for one in stated {
        exact.push(Stated {
            index: one.index,
            value: one.value,
        })?;
    }
    Ok(exact)
}

// Removes the marks of the stated lines.
fn clear(marks: &mut [bool], stated: &Stateds)
    requires { AreStatedAt marks.old stated.now }
    ensures size { length marks.new ≡ length marks.old }
    ensures cleared { IsCleared marks.new }
{
    for one in stated.as_slice() {
        marks[one.index as usize] = false;
    }
}
