// Laws of the rules.
ghost use Rattle.std.specs.Prelude.{ℕ, List};
ghost use Rattle.word_core.specs.Words.{BitVector};
ghost use Rattle.btor_tree.specs.declared.lines.Line.{Line};
ghost use Rattle.btor_tree.specs.declared.lines.LineOp.{LineOp};
ghost use Rattle.btor_tree.specs.Frame.{Equation};
ghost use Rattle.btor_rules.specs.declared.operand.Operands.{Operands};
ghost use Rattle.btor_rules.specs.Rules.{OperandsFit, args_of, outcome};
ghost use Rattle.btor_rules.specs.Words.{AreRead, Gives, GivesWidth, OutcomeFits};

/// Proves that the rules are sound: in each row, the word of an operator line is the word of its outcome.

#[tactic(auto, using(crate::proofs::Holds::rules_hold))]
pub fn rules_hold()
    ensures { (before : List Line) (row : List BitVector) (sort : ℕ) (op : LineOp) (operands : Operands) (word : BitVector) → OperandsFit op operands → AreRead row operands → Equation before row sort op (args_of operands) word → Gives (outcome op operands) row word }
{}

/// Proves that the outcome of an operator line has the width of the line's word.
///
/// It is a word of this width, or an operand of this width.
#[tactic(auto, using(crate::proofs::Widths::rules_fit))]
pub fn rules_fit()
    ensures { (op : LineOp) (operands : Operands) (width : ℕ) → OperandsFit op operands → GivesWidth op operands width → OutcomeFits (outcome op operands) operands width }
{}
