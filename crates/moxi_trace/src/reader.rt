// The reader of a response, token by token.
ghost use Rattle.std.specs.Prelude.{◌≡◌, ◌<◌, ◌+◌, ◌-◌, ◌^◌, ◌&&◌, length, replicate, Some, None, is_some, is_none, Ok, Err, IfOk, OnOk};
ghost use Rattle.text_core.specs.declared.end.End.TheVariants as end;
ghost use Rattle.text_core.specs.declared.place.Kind.TheVariants as kind;
ghost use Rattle.name_maps.specs.Names.{place_of};
ghost use Rattle.moxi_trace.specs.declared.point.Point.TheVariants as point;
ghost use Rattle.moxi_trace.specs.declared.tokens.Shape.TheVariants as shape;
ghost use Rattle.moxi_trace.specs.Reading.{at_point, order, first_of, with_failing, settled_by, on_line, is_head_symbol, is_head_keyword, is_head_token, past_head, head_step, is_symbol, system_named, query_named, close_step, step_begun, steps_step, is_number, is_numeral, number_step, nothing_stated, lacks, values_of, tested, with_step, statements_step, is_stated, variable_named, variable_step, is_bracket, with_value, value_read, value_step, any_step, point_step, token_step, step, stray, is_whole, ended, finished, begin};
ghost use Rattle.text_core.specs.Bytes.{without_zeros};
ghost use Rattle.text_core.specs.Answers.{Leaves};

use crate::point::{Answered, Failing, Point};
use crate::print::Steps;
use crate::table::Table;
use crate::tokens::Shape;
use itoa::Buffer;
use moxi_terms::{Datum, Env};
use name_maps::Successors;
use std::alloc::Global;
use std::marker::Model;
use text_core::{End, FIRST_PLACE, Kind, NoMemory, Place, Refusal};

/// The state of reading a response.
#[derive(Drop)]
pub struct Reader {
    point: Point,
    line: u32,
    failing: Option<Failing>,
    query: u32,
    step: Place,
    stated: Vec<Option<Datum>>,
    steps: Steps,
    successors: Successors,
}

impl Model for Reader {
    ghost use Rattle.moxi_trace.specs.Reading.{Reading};

    ghost Value = { Reading };

    ghost view = { λ r. record { point = r.point; line = r.line; failing = r.failing; query = r.query; step = r.step; stated = r.stated.items; steps = r.steps } };
}

const LINE: u8 = 1;

const UNKNOWN: u8 = 2;

const VALUE: u8 = 3;

const MISSING: u8 = 4;

const TOO_LONG: u8 = 5;

// The refusal of kind `Y` with this number, at this place.
pub(crate) fn refused(number: u8, place: Place) -> End
    ensures { result ≡ end.Bad (record { kind = kind.Y number; place = place }) }
{
    End::Bad(Refusal {
        kind: Kind::Y(number),
        place,
    })
}

fn order(number: u8) -> u8
    ensures { result ≡ order number }
{
    if number == TOO_LONG { 0 } else { number }
}

fn first_of(failing: Failing, before: Option<Failing>) -> Failing
    ensures { result ≡ first_of failing before }
{
    match before {
        None => failing,
        Some(other) => {
            if order(failing.number) < order(other.number) {
                failing
            } else {
                other
            }
        }
    }
}

fn is_head_symbol(n: u8, name: &[u8]) -> bool
    ensures { result ≡ is_head_symbol n name.now }
{
    if n == 1 {
        name == b"check-system-response".as_slice()
    } else if n == 5 {
        name == b"sat".as_slice()
    } else if n == 7 || n == 11 {
        name == b"t".as_slice()
    } else {
        (n == 13 || n == 17) && name == b"p".as_slice()
    }
}

fn is_head_keyword(n: u8, name: &[u8]) -> bool
    ensures { result ≡ is_head_keyword n name.now }
{
    if n == 2 {
        name == b"query".as_slice()
    } else if n == 4 {
        name == b"result".as_slice()
    } else if n == 6 || n == 9 {
        name == b"trace".as_slice()
    } else if n == 12 {
        name == b"prefix".as_slice()
    } else {
        n == 15 && name == b"trail".as_slice()
    }
}

fn is_head_token(n: u8, shape: Shape, bytes: &[u8]) -> bool
    ensures { result ≡ is_head_token n shape bytes.now }
{
    match shape {
        Shape::Open => n == 0 || n == 3 || n == 10 || n == 16,
        Shape::Close => n == 8 || n == 14,
        Shape::Symbol => is_head_symbol(n, bytes),
        Shape::Keyword => is_head_keyword(n, bytes),
        Shape::Numeral => false,
        Shape::Binary => false,
        Shape::Other => false,
    }
}

fn past_head(n: u8) -> Point
    ensures { result ≡ past_head n }
{
    if n == 1 {
        Point::System
    } else if n == 3 {
        Point::Query
    } else if n >= 17 {
        Point::Steps
    } else {
        Point::Head(n + 1)
    }
}

fn without_zeros(digits: &[u8]) -> &[u8]
    ensures { result.now ≡ without_zeros digits.now }
{
    let mut rest = digits;
    while let Some((b, more)) = rest.split_first() {
        if *b != b'0' {
            return rest;
        }
        rest = more;
    }
    rest
}

// Whether the digits spell the number. Leading zeros are allowed.
fn is_number(number: u128, digits: &[u8]) -> bool
    ensures { result ≡ is_number number digits.now }
{
    let mut buffer = Buffer::new();
    without_zeros(digits) == without_zeros(buffer.format(number).as_bytes())
}

fn is_bracket(shape: Shape) -> bool
    ensures { result ≡ is_bracket shape }
{
    matches!(shape, Shape::Open | Shape::Close)
}

fn is_symbol(shape: Shape) -> bool
    ensures { result ≡ is_symbol shape }
{
    matches!(shape, Shape::Symbol)
}

fn is_numeral(shape: Shape) -> bool
    ensures { result ≡ is_numeral shape }
{
    matches!(shape, Shape::Numeral)
}

fn is_whole(point: Point) -> bool
    ensures { result ≡ is_whole point }
{
    matches!(point, Point::Whole)
}

// A list of this many variables without values.
fn nothing_stated(alloc: Global, count: usize) -> Result<Vec<Option<Datum>>, NoMemory>
    ensures { IfOk result (λ stated. stated.items ≡ replicate count None) }
{
    let mut stated = Vec::with_capacity(alloc, count)?;
    for _k in 0..count {
        stated.push(None)?;
    }
    Ok(stated)
}

fn lacks(stated: &[Option<Datum>]) -> bool
    ensures { result ≡ lacks stated.now }
{
    for value in stated {
        if value.is_none() {
            return true;
        }
    }
    false
}

// The stated values.
fn values_of(alloc: Global, stated: &[Option<Datum>]) -> Result<Env, NoMemory>
    ensures { IfOk result (λ values. values ≡ values_of stated.now) }
{
    let mut values = Env::new(alloc);
    for value in stated {
        if let Some(x) = value {
            values.push(*x)?;
        }
    }
    Ok(values)
}

impl Reader {
    /// Returns a reader that has read nothing yet.
    pub fn new(alloc: Global, table: &Table) -> Result<Reader, NoMemory>
        ensures { IfOk result (λ r. r ≡ begin table.now) }
    {
        let stated = nothing_stated(alloc, table.len())?;
        let mut successors = Successors::new(alloc);
        successors.cover(table.names())?;
        Ok(Reader {
            point: Point::Head(0),
            line: 0,
            failing: None,
            query: 0,
            step: FIRST_PLACE,
            stated,
            steps: Steps::new(alloc),
            successors,
        })
    }

    /// Returns the response that was read.
    pub fn answer(self) -> Answered
        ensures { result ≡ record { query = self.query; trace = self.steps } }
    {
        Answered {
            query: self.query,
            trace: self.steps,
        }
    }

    fn fail(&mut self, number: u8, place: Place)
        ensures { self.new ≡ with_failing number place self.old }
    {
        self.failing = Some(first_of(Failing { number, place }, self.failing));
    }

    fn settle(&self) -> Result<(), End>
        ensures { Leaves (settled_by self.now.failing self.now) self.now result }
    {
        match self.failing {
            None => Ok(()),
            Some(failing) => Err(refused(failing.number, failing.place)),
        }
    }

    // Moves to the line of a token or of the end. On a new line, a failing test of the lines before is refused.
    fn on_line(&mut self, line: u32) -> Result<(), End>
        ensures { Leaves (on_line line self.old) self.new result }
    {
        if line == self.line {
            return Ok(());
        }
        self.line = line;
        self.settle()
    }

    fn head_step(&mut self, n: u8, shape: Shape, bytes: &[u8], at: Place) -> Result<(), End>
        ensures { Leaves (head_step n shape bytes.now at self.old) self.new result }
    {
        if !is_head_token(n, shape, bytes) {
            return Err(refused(LINE, at));
        }
        self.point = past_head(n);
        Ok(())
    }

    fn name_system(&mut self, table: &Table, name: &[u8], at: Place)
        ensures { self.new ≡ system_named table.now name.now at (at_point (point.Head 2) self.old) }
    {
        self.point = Point::Head(2);
        if name != table.system() {
            self.fail(UNKNOWN, at);
        }
    }

    fn name_query(&mut self, table: &Table, name: &[u8], at: Place)
        ensures { self.new ≡ query_named (place_of table.now.queries name.now) at (at_point (point.Head 4) self.old) }
    {
        self.point = Point::Head(4);
        match table.query(name) {
            Some(query) => self.query = query,
            None => self.fail(UNKNOWN, at),
        }
    }

    fn system_step(
        &mut self,
        table: &Table,
        shape: Shape,
        name: &[u8],
        at: Place,
    ) -> Result<(), End>
        ensures { Leaves (point_step table.now point.System shape name.now at self.old) self.new result }
    {
        if !is_symbol(shape) {
            return Err(refused(LINE, at));
        }
        self.name_system(table, name, at);
        Ok(())
    }

    fn query_step(&mut self, table: &Table, shape: Shape, name: &[u8], at: Place) -> Result<(), End>
        ensures { Leaves (point_step table.now point.Query shape name.now at self.old) self.new result }
    {
        if !is_symbol(shape) {
            return Err(refused(LINE, at));
        }
        self.name_query(table, name, at);
        Ok(())
    }

    fn close_step(&mut self, next: Point, shape: Shape, at: Place) -> Result<(), End>
        ensures { Leaves (close_step next shape at self.old) self.new result }
    {
        match shape {
            Shape::Close => {
                self.point = next;
                Ok(())
            }
            Shape::Open
            | Shape::Symbol
            | Shape::Keyword
            | Shape::Numeral
            | Shape::Binary
            | Shape::Other => Err(refused(LINE, at)),
        }
    }

    // The number of the next step, from 0.
    fn number(&self) -> u128
        ensures value { result ≡ length self.now.steps }
        ensures small { result < 2 ^ 64 }
    {
        self.steps.len() as u128
    }

    fn begin_step(&mut self, table: &Table, at: Place)
        ensures { self.new ≡ step_begun table.now at self.old }
    {
        self.point = Point::Number;
        self.step = at;
        if !table.is_within(self.number() + 1) {
            self.fail(TOO_LONG, at);
        }
    }

    fn steps_step(&mut self, table: &Table, shape: Shape, at: Place) -> Result<(), End>
        ensures { Leaves (steps_step table.now shape at self.old) self.new result }
    {
        match shape {
            Shape::Open => {
                self.begin_step(table, at);
                Ok(())
            }
            Shape::Close => {
                self.point = Point::Last;
                Ok(())
            }
            Shape::Symbol | Shape::Keyword | Shape::Numeral | Shape::Binary | Shape::Other => {
                Err(refused(LINE, at))
            }
        }
    }

    fn number_step(&mut self, shape: Shape, digits: &[u8], at: Place) -> Result<(), End>
        ensures { Leaves (number_step shape digits.now at self.old) self.new result }
    {
        if !is_numeral(shape) || !is_number(self.number(), digits) {
            return Err(refused(LINE, at));
        }
        self.point = Point::Statements;
        Ok(())
    }

    // Tests whether each variable has a value.
    fn test(&mut self)
        ensures { self.new ≡ tested self.old }
    {
        if lacks(&self.stated) {
            self.fail(MISSING, self.step);
        }
    }

    fn add_step(&mut self, alloc: Global, table: &Table) -> Result<(), NoMemory>
        ensures { OnOk result (self.new ≡ with_step table.now self.old) }
    {
        let values = values_of(alloc, &self.stated)?;
        self.stated = nothing_stated(alloc, table.len())?;
        self.point = Point::Steps;
        self.steps.push(values)
    }

    fn end_step(&mut self, alloc: Global, table: &Table) -> Result<(), End>
        ensures { Leaves (Ok (with_step table.now (tested self.old))) self.new result }
    {
        self.test();
        self.add_step(alloc, table)?;
        Ok(())
    }

    fn statements_step(
        &mut self,
        alloc: Global,
        table: &Table,
        shape: Shape,
        at: Place,
    ) -> Result<(), End>
        ensures { Leaves (statements_step table.now shape at self.old) self.new result }
    {
        match shape {
            Shape::Open => {
                self.point = Point::Variable;
                Ok(())
            }
            Shape::Close => self.end_step(alloc, table),
            Shape::Symbol | Shape::Keyword | Shape::Numeral | Shape::Binary | Shape::Other => {
                Err(refused(LINE, at))
            }
        }
    }

    fn is_stated(&self, k: usize) -> bool
        ensures { result ≡ is_stated self.now.stated k }
    {
        k < self.stated.len() && self.stated[k].is_some()
    }

    fn name_variable(&mut self, variable: Option<usize>, at: Place) -> Result<(), End>
        ensures { Leaves (variable_named variable at self.old) self.new result }
    {
        match variable {
            None => {
                self.point = Point::AnyValue;
                self.fail(UNKNOWN, at);
                Ok(())
            }
            Some(k) => {
                if self.is_stated(k) {
                    return Err(refused(LINE, at));
                }
                self.point = Point::Value(k);
                Ok(())
            }
        }
    }

    fn variable_step(
        &mut self,
        table: &Table,
        shape: Shape,
        name: &[u8],
        at: Place,
    ) -> Result<(), End>
        ensures { Leaves (variable_step table.now shape name.now at self.old) self.new result }
    {
        if !is_symbol(shape) {
            return Err(refused(LINE, at));
        }
        let variable = table.variable(&mut self.successors, name);
        self.name_variable(variable, at)
    }

    fn state(&mut self, k: usize, value: Datum)
        ensures { self.new ≡ with_value k value self.old }
    {
        self.point = Point::Stated;
        if k < self.stated.len() {
            self.stated[k] = Some(value);
        }
    }

    fn take_value(&mut self, k: usize, value: Option<Datum>, at: Place)
        ensures { self.new ≡ value_read k value at self.old }
    {
        match value {
            Some(value) => self.state(k, value),
            None => {
                self.state(k, Datum::Truth(false));
                self.fail(VALUE, at);
            }
        }
    }

    fn value_step(
        &mut self,
        table: &Table,
        k: usize,
        shape: Shape,
        bytes: &[u8],
        at: Place,
    ) -> Result<(), End>
        ensures { Leaves (value_step table.now k shape bytes.now at self.old) self.new result }
    {
        if is_bracket(shape) {
            return Err(refused(LINE, at));
        }
        self.take_value(k, table.value(k, shape, bytes), at);
        Ok(())
    }

    fn any_step(&mut self, shape: Shape, at: Place) -> Result<(), End>
        ensures { Leaves (any_step shape at self.old) self.new result }
    {
        if is_bracket(shape) {
            return Err(refused(LINE, at));
        }
        self.point = Point::Stated;
        Ok(())
    }

    fn token_step(
        &mut self,
        alloc: Global,
        table: &Table,
        shape: Shape,
        bytes: &[u8],
        at: Place,
    ) -> Result<(), End>
        ensures { Leaves (token_step table.now shape bytes.now at self.old) self.new result }
    {
        match self.point {
            Point::Head(n) => self.head_step(n, shape, bytes, at),
            Point::System => self.system_step(table, shape, bytes, at),
            Point::Query => self.query_step(table, shape, bytes, at),
            Point::Steps => self.steps_step(table, shape, at),
            Point::Number => self.number_step(shape, bytes, at),
            Point::Statements => self.statements_step(alloc, table, shape, at),
            Point::Variable => self.variable_step(table, shape, bytes, at),
            Point::Value(k) => self.value_step(table, k, shape, bytes, at),
            Point::AnyValue => self.any_step(shape, at),
            Point::Stated => self.close_step(Point::Statements, shape, at),
            Point::Last => self.close_step(Point::Whole, shape, at),
            Point::Whole => Err(refused(LINE, at)),
        }
    }

    /// Reads one token, whose first byte is at this place.
    pub fn take(
        &mut self,
        alloc: Global,
        table: &Table,
        shape: Shape,
        bytes: &[u8],
        at: Place,
    ) -> Result<(), End>
        ensures { Leaves (step table.now shape bytes.now at self.old) self.new result }
    {
        match self.on_line(at.line) {
            Ok(()) => self.token_step(alloc, table, shape, bytes, at),
            Err(end) => Err(end),
        }
    }

    /// Returns the refusal at a byte that begins no token.
    ///
    /// A failing test of an earlier line comes first.
    pub fn refuse(&mut self, at: Place) -> End
        ensures { Leaves {B = Unit {0}} (stray at self.old) self.new (Err result) }
    {
        match self.on_line(at.line) {
            Ok(()) => refused(LINE, at),
            Err(end) => end,
        }
    }

    fn end(&self, end: Place) -> Result<(), End>
        ensures { Leaves (ended end self.now) self.now result }
    {
        if is_whole(self.point) && self.steps.len() != 0 {
            self.settle()
        } else {
            Err(refused(LINE, end))
        }
    }

    /// Ends the text at this place.
    pub fn finish(&mut self, end: Place) -> Result<(), End>
        ensures { Leaves (finished end self.old) self.new result }
    {
        match self.on_line(end.line) {
            Ok(()) => self.end(end),
            Err(end) => Err(end),
        }
    }
}
