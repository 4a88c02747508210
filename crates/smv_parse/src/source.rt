// The parser of models.

ghost use Rattle.std.specs.Prelude.{◌≡◌, ◌<◌, ◌^◌, None, length, IfOk, IfErr};
ghost use Rattle.text_core.specs.declared.place.Place.{Place};
ghost use Rattle.smv_text.specs.declared.token.Token.{Token};
ghost use Rattle.smv_text.specs.Heights.{first_high, of_modules};
ghost use Rattle.smv_text.specs.Sources.{SpellsSource};
ghost use Rattle.smv_text.specs.Tree.{PlainSource};
ghost use Rattle.smv_text.specs.View.{plain_source};
ghost use Rattle.smv_parse.specs.Parsing.{ReadsOrHigh, number_at, dead_refusal, IsRefused};

use crate::module_sections::modules;
use smv_expressions::Stop;
use smv_text::{Source, Token, TokenKind, Tokens};
use std::alloc::Global;
use text_core::kinds::smv;
use text_core::{End, Kind, Place, Refusal};

/// The failure of the parser: a refusal, or out of memory.
///
/// `S5` is the first token at which no model can continue, or the end of the text where it ends too early. `S6` is the
/// same where that token is a word of NuSMV that is not supported. `S7` is the first token of the first expression that
/// is more than 380 levels high, where the tokens spell a model.
pub type ParseEnd = End;

/// Parses the tokens to the model that they spell (NuSMV 2.6 User Manual, 2.3).
///
/// Each module stores the number of tokens of its body. `Err` is the first refusal, `S5`, `S6` or `S7`, or out of
/// memory.
pub fn parse(alloc: Global, tokens: &Tokens) -> Result<Source, ParseEnd>
    requires { length tokens.now.items < 2 ^ 32 }
    // The tokens spell the model, and no expression of it is too high.
    ensures spelled { IfOk result (λ s. SpellsSource (plain_source s) tokens.now.end tokens.now.items × (first_high (of_modules (plain_source s).modules) ≡ None)) }
    // The model that they spell is returned, unless an expression is too high or memory runs out.
    ensures exact { (s : PlainSource) → SpellsSource s tokens.now.end tokens.now.items → ReadsOrHigh s result }
    // A refusal has its cause: an expression that is too high, or the token at which no model can continue.
    ensures refused { IfErr result (IsRefused tokens.now) }
{
    let all = tokens.as_slice();
    let end = tokens.end();
    match modules(alloc, None, all) {
        Ok((modules, high, rest)) => {
            if !rest.is_empty() {
                return Err(ParseEnd::Bad(dead_refusal(end, rest)));
            }
            match high {
                None => Ok(Source { modules, end }),
                Some(place) => Err(ParseEnd::Bad(Refusal {
                    kind: smv::TOO_TALL,
                    place,
                })),
            }
        }
        Err(Stop::Dead(left)) => {
            let (_, rest) = all.split_at(all.len() - left);
            Err(ParseEnd::Bad(dead_refusal(end, rest)))
        }
        Err(Stop::NoMemory) => Err(ParseEnd::NoMemory),
    }
}

// The refusal at the first token, at which no model can continue, or at the end.
fn dead_refusal(end: Place, tokens: &[Token]) -> Refusal
    ensures { result ≡ dead_refusal end tokens.now }
{
    match tokens.first() {
        None => Refusal {
            kind: smv::DEAD,
            place: end,
        },
        Some(token) => Refusal {
            kind: dead_kind(&token.kind),
            place: token.place,
        },
    }
}

// The kind of refusal for a token at which no model can continue.
fn dead_kind(kind: &TokenKind) -> Kind
    ensures { result ≡ Kind.S (number_at kind.now) }
{
    match kind {
        TokenKind::Refused => smv::NOT_SUPPORTED,
        _ => smv::DEAD,
    }
}
