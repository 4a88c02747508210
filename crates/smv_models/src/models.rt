// SMV models, parsed from bytes.
ghost use Rattle.std.specs.Prelude.{◌≤◌, length, IfOk, IfErr};
ghost use Rattle.smv_text.specs.View.{plain_source};
ghost use Rattle.smv_models.specs.Limits.{most_smv_bytes};
ghost use Rattle.smv_models.specs.Models.{IsFormIn, IsModel, IsModelEnd, IsTextEnd};

use smv_flatten::{Flat, flatten};
use smv_lex::lex;
use smv_parse::parse;
use smv_text::Source;
use std::alloc::Global;
use std::mem::drop;
use text_core::End;

/// The most bytes of an SMV model.
pub const SMV_LIMIT: usize = 1_048_576;

// Parses the bytes to a model. `Err` is the first refusal of the lexer or the parser, or out of memory.
fn model_of(alloc: Global, bytes: &[u8]) -> Result<Source, End>
    requires { length bytes.now ≤ most_smv_bytes }
    ensures model { IfOk result (λ model. IsModel bytes.now (plain_source model)) }
    ensures refused { IfErr result (IsTextEnd bytes.now) }
{
    let tokens = lex(alloc, bytes)?;
    parse(alloc, &tokens)
}

/// Returns the flat form of the model to which the bytes parse.
///
/// `needed` is the number of the invariant that the model must have, 0 where any will do. The model is dropped before
/// it returns. `Err` is the first refusal, or out of memory.
#[tactic(auto, using(crate::proofs::Forms::read_of, crate::proofs::Forms::form_in, crate::proofs::Forms::flat_ends, crate::proofs::Forms::text_ends))]
pub fn flat_in(alloc: Global, bytes: &[u8], needed: u32) -> Result<Flat, End>
    requires { length bytes.now ≤ most_smv_bytes }
    ensures form { IfOk result (IsFormIn bytes.now needed) }
    ensures refused { IfErr result (IsModelEnd bytes.now needed) }
{
    let model = model_of(alloc, bytes)?;
    let flat = flatten(alloc, &model, needed);
    drop(model);
    flat
}
