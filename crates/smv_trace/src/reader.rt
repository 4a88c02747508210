// The reader of a trace, line by line.
ghost use Rattle.std.specs.Prelude.{◌≡◌, ◌<◌, ◌≤◌, ◌+◌, ◌^◌, ◌&&◌, not, codes, length, replicate, false, decimal, ℕ, List, None, Some, is_some, IfOk, OnOk};
ghost use Rattle.std.specs.Str.{bytes_eq};
ghost use Rattle.text_core.specs.declared.end.End.TheVariants as end;
ghost use Rattle.text_core.specs.Places.{start, after};
ghost use Rattle.smv_numbered.specs.declared.heading.Heading.TheVariants as heading;
ghost use Rattle.smv_numbered.specs.Values.{picks};
ghost use Rattle.smv_numbered.specs.Runs.{IsNumbered};
ghost use Rattle.smv_trace_text.specs.Lines.{heading_numbers, value_parts};
ghost use Rattle.smv_trace.specs.Numbering.{begun_with, lacks_known, reading_of, stated_in};
ghost use Rattle.smv_trace.specs.Reading.{lacks, lacks_state, with_state, ended, is_within, is_numbered, is_allowed, begun, heading_line, is_define, with_value, placed_line, value_line, value_step, other_step, state_step, step, finished};
ghost use Rattle.smv_trace.specs.Answer.{Finishes, Takes};
ghost use Rattle.text_core.specs.Bytes.{is_empty};
ghost use Rattle.text_core.specs.Answers.{Leaves};

use crate::fault::ValueFault;
use crate::table::Table;
use crate::values::value_of;
use itoa::Buffer;
use name_maps::Successors;
use smv_flatten::{FlatItem, ItemKind};
use smv_meaning::Value;
use smv_numbered::{Change, Heading, NumberedRun};
use smv_trace_text::{begins_with_dash, heading_numbers, is_passed, value_parts};
use std::alloc::Global;
use std::marker::Model;
use text_core::kinds::trace;
use text_core::{End, FIRST_PLACE, Kind, List, Name, NoMemory, Place, Refusal};

/// The most bytes of a trace.
pub const MOST_BYTES: usize = 67108864;
/// The most states of a trace.
pub const MOST_STATES: u64 = 100000;
/// The most values of a trace: its states times its variables, including inputs.
pub const MOST_VALUES: u64 = 4000000;

/// The state of the reader of a trace.
///
/// `known` says for each item whether it has a value yet.
#[derive(Drop)]
pub struct Reader<'a> {
    table: &'a Table<'a>,
    heading: Option<Heading>,
    place: Place,
    first: Name,
    known: Vec<bool>,
    changes: List<Change>,
    ends: List<usize>,
    successors: Successors,
}

impl<'a> Model for Reader<'a> {
    ghost use Rattle.smv_trace.specs.Numbering.{Numbering, IsKept};

    ghost Value = { Numbering };

    ghost view = { λ r. record { table = r.table.now; heading = r.heading; place = r.place; first = r.first; changes = r.changes; ends = r.ends } };

    ghost invariant = { λ r. IsKept r.table.now.items r.known.items r.changes r.ends };
}

// The refusal at this place.
pub(crate) fn refused(kind: Kind, place: Place) -> End
    ensures { result ≡ end.Bad (record { kind = kind; place = place }) }
{
    End::Bad(Refusal { kind, place })
}

// Whether an item is a variable of the heading without a value.
fn is_missing(heading: Heading, item: &FlatItem, known: bool) -> bool
    ensures { result ≡ (picks heading item.now.kind && not known) }
{
    heading.picks(item.kind) && !known
}

// Whether a variable of the heading has no value yet, by the items that have one.
#[tactic(auto, using(crate::proofs::Lists::lacks_end))]
fn lacks_known(table: &Table, heading: Heading, known: &[bool]) -> bool
    requires { length known.now ≡ length table.now.items }
    ensures { result ≡ lacks_known heading table.now.items known.now }
{
    for k in 0..table.len() {
        if is_missing(heading, table.item(k), known[k]) {
            return true;
        }
    }
    false
}

// For each item, that it has no value.
fn none_known(alloc: Global, table: &Table) -> Result<Vec<bool>, NoMemory>
    ensures { IfOk result (λ known. known.items ≡ replicate (length table.now.items) false) }
{
    let mut known = Vec::new(alloc);
    for _k in 0..table.len() {
        known.push(false)?;
    }
    Ok(known)
}

// Whether the digits are those of the number.
fn is_decimal(digits: &[u8], number: u128) -> bool
    ensures { result ≡ bytes_eq digits.now (decimal number) }
{
    let mut buffer = Buffer::new();
    digits == buffer.format(number).as_bytes()
}

// Whether a trace may have this number of states.
fn is_within(table: &Table, states: u128) -> bool
    requires { states < 2 ^ 64 + 1 }
    ensures { result ≡ is_within table.now states }
{
    states <= u128::from(MOST_STATES)
        && states * (table.variables() as u128) <= u128::from(MOST_VALUES)
}

fn is_define(kind: ItemKind) -> bool
    ensures { result ≡ is_define kind }
{
    matches!(kind, ItemKind::Define)
}

impl<'a> Reader<'a> {
    /// Creates a reader that has read nothing.
    pub fn new(alloc: Global, table: &'a Table<'a>) -> Result<Reader<'a>, NoMemory>
        ensures { IfOk result (λ r. r ≡ begun_with table.now) }
    {
        let known = none_known(alloc, table)?;
        let first = Name::of(alloc, b"")?;
        let mut successors = Successors::new(alloc);
        successors.cover(table.names())?;
        Ok(Reader {
            table,
            heading: None,
            place: FIRST_PLACE,
            first,
            known,
            changes: List::new(alloc),
            ends: List::new(alloc),
            successors,
        })
    }

    /// Returns the run that was read.
    pub fn run(self) -> NumberedRun
        ensures run { result ≡ record { changes = self.entry.changes; ends = self.entry.ends } }
        ensures numbered { IsNumbered result }
    {
        NumberedRun {
            changes: self.changes,
            ends: self.ends,
        }
    }

    // What the text is read against.
    fn table(&self) -> &'a Table<'a>
        ensures { result.now ≡ self.now.table }
    {
        self.table
    }

    // Whether a heading has been read.
    fn has_begun(&self) -> bool
        ensures { result ≡ is_some self.now.heading }
    {
        self.heading.is_some()
    }

    // The number of the next state, counted from 1.
    fn number(&self) -> u128
        ensures value { result ≡ length (reading_of self.now).states + 1 }
        ensures small { result < 2 ^ 64 + 1 }
    {
        self.ends.len() as u128 + 1
    }

    // Whether a variable of the heading has no value yet.
    fn lacks(&self, heading: Heading) -> bool
        ensures { result ≡ lacks heading self.now.table.items (stated_in self.now) }
    {
        lacks_known(self.table, heading, self.known.as_slice())
    }

    // Whether there is no state yet.
    fn is_first(&self) -> bool
        ensures { result ≡ is_empty (reading_of self.now).states }
    {
        self.ends.len() == 0
    }

    fn lacks_state(&self) -> bool
        ensures { result ≡ lacks_state self.now.table (reading_of self.now) }
    {
        self.lacks(Heading::State) || (!self.is_first() && self.lacks(Heading::Input))
    }

    // Adds the state, with the label that leads to it unless it is the first one.
    fn add_state(&mut self) -> Result<(), NoMemory>
        ensures table { self.new.table ≡ self.old.table }
        ensures step { OnOk result (reading_of self.new ≡ with_state self.old.table (reading_of self.old)) }
    {
        let end = self.changes.len();
        self.ends.push(end)?;
        Ok(())
    }

    // Ends the lines of the last heading, before the end of the text or a heading of kind `next`.
    fn end(&mut self, next: Heading) -> Result<(), End>
        ensures table { self.new.table ≡ self.old.table }
        ensures step { Leaves (ended self.old.table next self.old.heading (reading_of self.old)) (reading_of self.new) result }
    {
        match self.heading {
            None => Ok(()),
            Some(Heading::State) => {
                if self.lacks_state() {
                    return Err(refused(trace::MISSING, self.place));
                }
                self.add_state()?;
                Ok(())
            }
            Some(Heading::Input) => self.end_label(next),
        }
    }

    fn end_label(&self, next: Heading) -> Result<(), End>
        ensures { Leaves (ended self.now.table next (Some heading.Input) (reading_of self.now)) (reading_of self.now) result }
    {
        match next {
            Heading::Input => Ok(()),
            Heading::State => {
                if self.lacks(Heading::Input) {
                    return Err(refused(trace::MISSING, self.place));
                }
                Ok(())
            }
        }
    }

    fn is_numbered(&self, first: &[u8], second: &[u8]) -> bool
        ensures { result ≡ is_numbered (reading_of self.now) (first.now, second.now) }
    {
        (self.heading.is_none() || first == self.first.bytes()) && is_decimal(second, self.number())
    }

    fn is_allowed(&self, next: Heading) -> bool
        ensures { result ≡ is_allowed self.now.table next (reading_of self.now) }
    {
        match next {
            Heading::State => is_within(self.table(), self.number()),
            Heading::Input => true,
        }
    }

    fn begin(
        &mut self,
        alloc: Global,
        next: Heading,
        at: Place,
        first: &[u8],
        second: &[u8],
    ) -> Result<(), End>
        ensures table { self.new.table ≡ self.old.table }
        ensures step { Leaves (begun self.old.table next at (first.now, second.now) (reading_of self.old)) (reading_of self.new) result }
    {
        if !self.is_numbered(first, second) {
            return Err(refused(trace::LINE, at));
        }
        if !self.is_allowed(next) {
            return Err(refused(trace::TOO_LONG, at));
        }
        self.first = Name::of(alloc, first)?;
        self.heading = Some(next);
        self.place = at;
        Ok(())
    }

    fn heading_line(
        &mut self,
        alloc: Global,
        next: Heading,
        at: Place,
        first: &[u8],
        second: &[u8],
    ) -> Result<(), End>
        ensures table { self.new.table ≡ self.old.table }
        ensures step { Leaves (heading_line self.old.table next at (first.now, second.now) (reading_of self.old)) (reading_of self.new) result }
    {
        match self.end(next) {
            Ok(()) => self.begin(alloc, next, at, first, second),
            Err(end) => Err(end),
        }
    }

    // Notes that the item with this number has a value.
    fn state_value(&mut self, k: usize, value: Option<Value>) -> Result<(), ValueFault>
        requires { k < length self.old.table.items }
        ensures table { self.new.table ≡ self.old.table }
        ensures step { (at : Place) → Takes at (with_value at k (reading_of self.old) value) (reading_of self.new) result }
    {
        match value {
            Some(value) => match self.changes.push(Change { item: k, value }) {
                Ok(()) => {
                    self.known[k] = true;
                    Ok(())
                }
                Err(_) => Err(ValueFault::NoMemory),
            },
            None => Err(ValueFault::Value),
        }
    }

    fn item_line(
        &mut self,
        alloc: Global,
        heading: Heading,
        text: &[u8],
        k: usize,
    ) -> Result<(), ValueFault>
        requires { k < length self.old.table.items }
        ensures table { self.new.table ≡ self.old.table }
        ensures step { (at : Place) → Takes at (placed_line self.old.table heading at text.now (reading_of self.old) (Some k)) (reading_of self.new) result }
    {
        let table = self.table();
        let item = table.item(k);
        if is_define(item.kind) {
            return Ok(());
        }
        if !heading.picks(item.kind) {
            return Err(ValueFault::Name);
        }
        match value_of(alloc, table, item.ty, text) {
            Ok(value) => self.state_value(k, value),
            Err(_) => Err(ValueFault::NoMemory),
        }
    }

    fn value_line(
        &mut self,
        alloc: Global,
        heading: Heading,
        name: &[u8],
        text: &[u8],
    ) -> Result<(), ValueFault>
        ensures table { self.new.table ≡ self.old.table }
        ensures step { (at : Place) → Takes at (value_line self.old.table heading at (name.now, text.now) (reading_of self.old)) (reading_of self.new) result }
    {
        match self.table.place(&mut self.successors, name) {
            Some(k) => self.item_line(alloc, heading, text, k),
            None => Err(ValueFault::Name),
        }
    }

    fn value_step(&mut self, alloc: Global, heading: Heading, line: &[u8]) -> Result<(), ValueFault>
        ensures table { self.new.table ≡ self.old.table }
        ensures step { (at : Place) → Takes at (value_step self.old.table heading at (reading_of self.old) (value_parts line.now)) (reading_of self.new) result }
    {
        match value_parts(line) {
            Some((name, text)) => self.value_line(alloc, heading, name, text),
            None => Err(ValueFault::Shape),
        }
    }

    // A line that does not begin like a heading.
    fn plain_line(&mut self, alloc: Global, at: Place, line: &[u8]) -> Result<(), End>
        requires { (word : List ℕ) → heading_numbers word line.now ≡ None }
        ensures table { self.new.table ≡ self.old.table }
        ensures step { Leaves (other_step self.old.table at line.now (reading_of self.old) self.old.heading) (reading_of self.new) result }
    {
        let Some(heading) = self.heading else {
            return Ok(())
        };
        match self.value_step(alloc, heading, line) {
            Ok(()) => Ok(()),
            Err(fault) => Err(fault.at(at)),
        }
    }

    // A line that is not the heading of a state.
    fn other_line(&mut self, alloc: Global, at: Place, line: &[u8]) -> Result<(), End>
        ensures table { self.new.table ≡ self.old.table }
        ensures step { Leaves (other_step self.old.table at line.now (reading_of self.old) self.old.heading) (reading_of self.new) result }
    {
        let Some(heading) = self.heading else {
            return Ok(())
        };
        match heading_numbers(b"Input:", line) {
            Some((first, second)) => self.heading_line(alloc, Heading::Input, at, first, second),
            None => match self.value_step(alloc, heading, line) {
                Ok(()) => Ok(()),
                Err(fault) => Err(fault.at(at)),
            },
        }
    }

    // A line that begins like a heading.
    fn marked_line(&mut self, alloc: Global, at: Place, line: &[u8]) -> Result<(), End>
        ensures table { self.new.table ≡ self.old.table }
        ensures step { Leaves (state_step self.old.table at line.now (reading_of self.old) (heading_numbers (codes "State:") line.now)) (reading_of self.new) result }
    {
        match heading_numbers(b"State:", line) {
            Some((first, second)) => self.heading_line(alloc, Heading::State, at, first, second),
            None => self.other_line(alloc, at, line),
        }
    }

    /// Reads one line at this place, without blanks around it.
    pub fn take_line(&mut self, alloc: Global, at: Place, line: &[u8]) -> Result<(), End>
        ensures table { self.new.table ≡ self.old.table }
        ensures step { Leaves (step self.old.table at line.now (reading_of self.old)) (reading_of self.new) result }
    {
        if is_passed(line) {
            return Ok(());
        }
        if begins_with_dash(line) {
            self.marked_line(alloc, at, line)
        } else {
            self.plain_line(alloc, at, line)
        }
    }

    /// Ends the text.
    pub fn finish(&mut self, text: &[u8]) -> Result<(), End>
        requires { length text.now ≤ MOST_BYTES }
        ensures table { self.new.table ≡ self.old.table }
        ensures step { Finishes (finished self.old.table (after start text.now) (reading_of self.old)) (reading_of self.new) result }
    {
        if !self.has_begun() {
            return Err(refused(trace::LINE, FIRST_PLACE.after(text)));
        }
        self.end(Heading::Input)
    }
}
