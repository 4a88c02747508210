// Laws of the refusals of texts.
ghost use Rattle.std.specs.Prelude.{◌≡◌, List, ℕ};
ghost use Rattle.text_core.specs.declared.place.Refusal.{Refusal};
ghost use Rattle.text_core.specs.declared.end.End.TheVariants.{Bad};
ghost use Rattle.btor_tree.specs.declared.lines.Line.{Line};
ghost use Rattle.btor_tree.specs.Texts.{SpellsLines};
ghost use Rattle.btor_text.specs.Answer.{IsRefused};

/// Proves that a text has at most one refusal, of one kind at one place.
pub fn one_refusal()
    ensures { (text : List ℕ) (r s : Refusal) → IsRefused text (Bad r) → IsRefused text (Bad s) → r ≡ s }
{}

/// Proves that no text that parses to lines is refused.
pub fn not_both()
    ensures { (text : List ℕ) (lines : List Line) (r : Refusal) → SpellsLines text lines → IsRefused text (Bad r) → ⊥ }
{}
