// Laws: the expression parser, a state machine, agrees with the grammar. These functions do nothing.
ghost use Rattle.std.specs.Prelude.{◌≡◌, ◌++◌, [], ℕ, List};
ghost use Rattle.smv_text.specs.declared.token.Token.{Token};
ghost use Rattle.smv_text.specs.Levels.{all_levels};
ghost use Rattle.smv_text.specs.Grammar.{Spells};
ghost use Rattle.smv_text.specs.Tree.{Tree};
ghost use Rattle.smv_grammar.specs.Kept.{Read, cap};
ghost use Rattle.smv_grammar.specs.Machine.{ask, run, took, dead, Ends};
ghost use Rattle.smv_grammar.specs.Taken.{IsTaken, IsBegun};

/// Proves that the expression grammar is unambiguous: no token list spells two different trees.
pub fn one_tree()
    ensures { (xs : List Token) (t u : Tree) → Spells all_levels t xs → Spells all_levels u xs → t ≡ u }
{}

/// Proves that the expression parser takes exactly the expression that the grammar spells at the front of a token list.
///
/// Where the parser fails at a token, the tokens before it begin an expression.
pub fn machine_is_exact()
    // What the parser takes is spelled by the grammar.
    ensures sound { (xs rest : List Token) (r : Read) → run xs (ask all_levels []) ≡ took r rest → IsTaken xs r rest }
    // The parser takes what the grammar spells, unless the following token would continue the expression.
    ensures complete { (t : Tree) (ys rest : List Token) → Spells all_levels t ys → Ends rest → run (ys ++ rest) (ask all_levels []) ≡ took (cap t) rest }
    // The tokens before the failing token begin an expression.
    ensures begins { (xs : List Token) (n : ℕ) → run xs (ask all_levels []) ≡ dead n → IsBegun xs n }
{}
