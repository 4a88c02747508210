// The generated model and the generated witness, taken through all steps.
ghost use Rattle.std.specs.Prelude.{◌≡◌, ◌≤◌, IfOk, IfErr};
ghost use Rattle.smv_models.specs.Models.{IsFormIn, IsModelEnd};
ghost use Rattle.generate.specs.Made.{made_model};
ghost use Rattle.command_core.specs.declared.answer.Stop.TheVariants as Stop;
ghost use Rattle.generate.specs.Generating.{IsGenerated};

use crate::chain::chain_answer;
use crate::texts::made_model;
use command_core::{Answer, Stop};
use smv_models::flat_in;
use std::alloc::Global;
use text_core::End;
use witness_lift::SmvChain;

// The chain of the generated model of n cells. The model's text is freed before the return.
fn chain_of(alloc: Global, n: u32) -> Result<SmvChain, End>
    requires some { 1 ≤ n }
    requires most { n ≤ 1000 }
    ensures form { IfOk result (IsFormIn (made_model n) 0) }
    ensures refused { IfErr result (IsModelEnd (made_model n) 0) }
{
    let text = made_model(alloc, n)?;
    let flat = flat_in(alloc, text.bytes(), 0)?;
    Ok(SmvChain::over(alloc, flat)?)
}

/// Generates the model of `n` cells and its witness, `n` from 1 to 1,000, and takes them through all steps.
///
/// The model is translated to BTOR2 lines. The witness is read for these lines, judged and lifted, and the lifted
/// run is judged against the model. The answer is that of a lift of the witness for the model, with six lines in
/// place of the trace. These lines are the cells, the variables of the flat system, the model's weight, the lines,
/// the frames, and the verdict.
#[tactic(auto, using(crate::proofs::Answering::has_form, crate::proofs::Answering::model_refused))]
pub fn generate(alloc: Global, n: u32) -> Result<Answer, Stop>
    requires some { 1 ≤ n }
    requires most { n ≤ 1000 }
    ensures answer { IfOk result (IsGenerated n) }
    ensures stop { IfErr result (λ stop. stop ≡ Stop.NoMemory) }
{
    match chain_of(alloc, n) {
        Ok(chain) => chain_answer(alloc, n, &chain),
        Err(End::Bad(refusal)) => Ok(Answer::Refused(refusal)),
        Err(End::NoMemory) => Err(Stop::NoMemory),
    }
}
