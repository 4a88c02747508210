// Models from texts.
ghost use Rattle.std.specs.Prelude.{◌<◌, ◌^◌, length, IfOk};
ghost use Rattle.smv_text.specs.Lexing.{Lexes};
ghost use Rattle.smv_text.specs.View.{plain_source};
ghost use Rattle.library_cases.specs.Spelled.{IsSpelled};

use case_text::{Answer, Fault, Piece, piece_bytes};
use smv_lex::lex;
use smv_parse::parse;
use smv_print::print;
use smv_text::{Element, Expr, Source, Tokens};
use std::alloc::Global;
use text_core::{NoMemory, Text};

const MOST_BYTES: usize = 1 << 31;

fn tokens_of(alloc: Global, text: &[u8]) -> Result<Tokens, Fault>
    ensures few { IfOk result (λ tokens. length tokens.items < 2 ^ 32) }
    ensures lexed { IfOk result (λ tokens. Lexes text.now tokens.items) }
{
    if text.len() > MOST_BYTES {
        return Err(Fault::from("too long a text"));
    }
    Ok(lex(alloc, text)?)
}

/// Parses a text to a model.
pub fn source_of(alloc: Global, text: &[u8]) -> Result<Source, Fault>
    ensures { IfOk result (λ s. IsSpelled text.now (plain_source s)) }
{
    let tokens = tokens_of(alloc, text)?;
    Ok(parse(alloc, &tokens)?)
}

/// Appends the printed form of the model.
pub fn put_model(alloc: Global, out: &mut Answer, pieces: &[Piece]) -> Result<(), Fault> {
    let source = source_of(alloc, piece_bytes(pieces, "text")?)?;
    out.put_text(print(alloc, &source));
    Ok(())
}

/// Returns the model that has this expression as its only invariant.
pub fn expression_source(alloc: Global, text: &[u8]) -> Result<Source, Fault> {
    let whole = model_around(alloc, text)?;
    source_of(alloc, whole.bytes())
}

fn model_around(alloc: Global, expression: &[u8]) -> Result<Text, NoMemory> {
    let mut out = Answer::new(alloc);
    out.put(b"MODULE main INVARSPEC ");
    out.put(expression);
    out.done()
}

/// Returns the expression that is the only invariant of a model.
pub fn expression_of(source: &Source) -> Result<&Expr, Fault> {
    if source.modules.len() != 1 || source.modules.at(0).elements.len() != 1 {
        return Err(Fault::Unreadable("more than an expression"));
    }
    match source.modules.at(0).elements.at(0) {
        Element::Spec(_, expression) => Ok(expression),
        _ => Err(Fault::Unreadable("no expression")),
    }
}
