// The reader.
ghost use Rattle.std.specs.Prelude.{◌≡◌, ◌≤◌, ◌^◌, ℕ, List, length, IfOk, IfErr, IfSome};
ghost use Rattle.btor_tree.specs.declared.lines.Line as node;
ghost use Rattle.btor_tree.specs.Parts.{parts, line_parts};
ghost use Rattle.btor_tree.specs.Fits.{Fits};
ghost use Rattle.btor_tree.specs.Resolving as rules;
ghost use Rattle.btor_tree.specs.Reading.{next_of};
ghost use Rattle.btor_tree.specs.Texts.{SpellsLines, RefusesText};
ghost use Rattle.btor_text.specs.Seen.{seen_fault, seen_shape, seen_symbol};
ghost use Rattle.btor_text.specs.Answer.{Answers, Fails, Gives, IsRefused, IsResolved, Stops, Takes, kind_of};

use crate::bytes::clean;
use crate::progress::Progress;
use crate::resolve::{Body, Fault, resolve};
use crate::shape::{Shape, shape_of};
use btor_tree::{Line, Nodes, first_part, line_length};
use std::alloc::Global;
use text_core::kinds::btor;
use text_core::{End, Kind, Name, NoMemory, Place, Refusal};

/// The reason why a text parses to no lines: a refusal of the first line that does not fit, or out of memory.
///
/// The place of a refusal is the start of that line.
pub type BtorEnd = End;

/// The reason why a line is not accepted.
#[derive(Drop)]
pub enum LineEnd {
    Bad(Fault),
    NoMemory,
}

impl From<NoMemory> for LineEnd {
    ghost use Rattle.std.specs.Prelude.{◌≡◌};
    ghost use Rattle.btor_text.specs.declared.read.LineEnd.TheVariants.{NoMemory};

    ghost from_gives = { λ _ e. e ≡ NoMemory };

    fn from(_: NoMemory) -> LineEnd {
        LineEnd::NoMemory
    }
}

fn symbol_of(alloc: Global, symbol: Option<&[u8]>) -> Result<Option<Name>, NoMemory>
    ensures { IfOk result (λ name. name ≡ seen_symbol symbol.entry) }
{
    match symbol {
        None => Ok(None),
        Some(bytes) => {
            let name = Name::of(alloc, bytes)?;
            Ok(Some(name))
        }
    }
}

// The line of a shape, with the resolved sort and arguments.
fn built(alloc: Global, shape: &Shape<'_>, body: Body) -> Result<Line, NoMemory>
    ensures { IfOk result (λ line. line ≡ rules.filled (seen_shape shape.now) body.op body.sort body.args) }
{
    let Body { op, sort, args } = body;
    let symbol = symbol_of(alloc, shape.symbol)?;
    Ok(Line {
        id: shape.id,
        op,
        sort,
        args,
        symbol,
    })
}

// The line of a shape after the lines so far.
fn shaped_line(alloc: Global, progress: &Progress, shape: &Shape<'_>) -> Result<Line, LineEnd>
    ensures { IsResolved result (rules.resolve progress.now (seen_shape shape.now)) }
{
    match resolve(progress, shape) {
        Ok(body) => {
            let line = built(alloc, shape, body)?;
            Ok(line)
        }
        Err(fault) => Err(LineEnd::Bad(fault)),
    }
}

// The line that the parts of a text line give after the lines so far. None for a blank line.
fn next_line(alloc: Global, progress: &Progress, line: &[u8]) -> Result<Option<Line>, LineEnd>
    ensures next { Answers result (next_of progress.now (parts line.now)) }
    ensures fits { IfOk result (λ o. IfSome o (λ l. Fits progress.now l)) }
{
    let Some(_) = first_part(line) else {
        return Ok(None)
    };
    let Some(shape) = shape_of(line) else {
        return Err(LineEnd::Bad(Fault::NoShape))
    };
    let line = shaped_line(alloc, progress, &shape)?;
    Ok(Some(line))
}

// Reads one line of a text, with a reusable buffer.
fn take_line(
    alloc: Global,
    progress: Progress,
    buffer: &mut Vec<u8>,
    raw: &[u8],
) -> Result<Progress, LineEnd>
    ensures takes { IfOk result (λ new. Takes (next_of progress (line_parts raw.now)) progress new) }
    ensures fails { IfErr result (Fails (next_of progress (line_parts raw.now))) }
{
    clean(buffer, raw)?;
    match next_line(alloc, &progress, buffer.as_slice())? {
        Some(line) => {
            let more = progress.add(line)?;
            Ok(more)
        }
        None => Ok(progress),
    }
}

fn kind_of(fault: Fault) -> Kind
    ensures { result ≡ kind_of (seen_fault fault) }
{
    match fault {
        Fault::NoShape => btor::LINE,
        Fault::IdOrder => btor::ID_ORDER,
        Fault::NoSuchNode => btor::NO_SUCH_NODE,
        Fault::SortClash => btor::SORT_CLASH,
        Fault::NotSupported => btor::NOT_SUPPORTED,
        Fault::WideSort => btor::WIDTH,
        Fault::Twice => btor::TWICE,
        Fault::InitLate => btor::INIT_LATE,
    }
}

// The refusal of the line with this number, which begins at the offset.
fn refusal(fault: Fault, line: u32, offset: u32) -> Refusal
    ensures { result ≡ record { kind = kind_of (seen_fault fault); place = record { line = line; column = 1; offset = offset } } }
{
    Refusal {
        kind: kind_of(fault),
        place: Place {
            line,
            column: 1,
            offset,
        },
    }
}

// The lines of a text, or the refusal of the first line that does not fit.
fn nodes_of(alloc: Global, text: &[u8]) -> Result<Nodes, BtorEnd>
    requires { length text.now ≤ 2 ^ 31 }
    ensures spelled { IfOk result (λ nodes. SpellsLines text.now nodes) }
    ensures refused { IfErr result (IsRefused text.now) }
{
    let mut progress = Progress::new(alloc);
    let mut buffer = Vec::new(alloc);
    let mut rest = text;
    let mut number = 1;
    'lines: loop {
        let (raw, more) = rest.split_at(line_length(rest));
        match take_line(alloc, progress, &mut buffer, raw) {
            Ok(taken) => progress = taken,
            Err(LineEnd::Bad(fault)) => {
                let offset = (text.len() - rest.len()) as u32;
                return Err(End::Bad(refusal(fault, number, offset)));
            }
            Err(LineEnd::NoMemory) => return Err(End::NoMemory),
        }
        let Some((_, last)) = more.split_first() else {
            return Ok(progress.done())
        };
        rest = last;
        number += 1;
    }
}

/// Parses a BTOR2 text to its lines.
///
/// The error is the first refusal, at the start of the line that does not fit the lines before it, or out of
/// memory.
pub fn read_btor(alloc: Global, text: &[u8]) -> Result<Nodes, BtorEnd>
    requires { length text.now ≤ 2 ^ 31 }
    // The text parses to the lines.
    ensures spelled { IfOk result (λ nodes. SpellsLines text.now nodes) }
    // The lines that the text parses to are returned, unless out of memory.
    ensures exact { (lines : List node.Line) → SpellsLines text.now lines → Gives lines result }
    // The text is refused at the start of this line.
    ensures refused { IfErr result (IsRefused text.now) }
    // A refusal of the text is returned, unless out of memory.
    ensures stops { (fault : rules.Fault) (at : ℕ) → RefusesText text.now fault at → Stops text.now fault at result }
{
    nodes_of(alloc, text)
}
