// A law of the results of a judge.
ghost use Rattle.std.specs.Prelude.{◌≡◌, ℕ, List};
ghost use Rattle.btor_tree.specs.declared.lines.Line.{Line};
ghost use Rattle.btor_tree.specs.Fits.{IsWellFormed};
ghost use Rattle.btor_judge.specs.declared.judge.JudgeEnd.{JudgeEnd};
ghost use Rattle.btor_judge.specs.Judging.{Answers};

/// Proves that a text has at most one result.
#[tactic(auto, using(crate::proofs::Ending::one_answer))]
pub fn one_answer()
    ensures { (lines : List Line) (text : List ℕ) (a b : JudgeEnd) → IsWellFormed lines → Answers lines text a → Answers lines text b → a ≡ b }
{}
