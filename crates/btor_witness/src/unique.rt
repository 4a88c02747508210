// Laws of witness texts and their refusals.
ghost use Rattle.std.specs.Prelude.{◌≡◌, ◌≢◌, ◌⊎◌, ◌↔◌, ℕ, List, [], false};
ghost use Rattle.text_core.specs.declared.place.Kind.{Kind};
ghost use Rattle.text_core.specs.declared.place.Refusal.{Refusal};
ghost use Rattle.text_core.specs.declared.end.End.TheVariants.{Bad};
ghost use Rattle.text_core.specs.declared.verdict.Verdict.{Verdict};
ghost use Rattle.text_core.specs.declared.verdict.Verdict.TheVariants.{Yes};
ghost use Rattle.btor_tree.specs.declared.lines.Line.{Line};
ghost use Rattle.btor_tree.specs.Fits.{IsWellFormed};
ghost use Rattle.word_core.specs.Words.{BitVector};
ghost use Rattle.btor_frames.specs.Judged.{PassAfter};
ghost use Rattle.btor_witness.specs.declared.witness.Witness.{Witness};
ghost use Rattle.btor_witness.specs.Sizes.{sizes_of};
ghost use Rattle.btor_witness.specs.Printing.{IsWitness, IsWithinLimits, printed, rising_witness};
ghost use Rattle.btor_witness.specs.Judging.{statements_of, stated_frames, judged_btor};
ghost use Rattle.btor_witness.specs.Texts.{SpellsWitness, RefusesWitness};
ghost use Rattle.btor_witness.specs.Answer.{IsRefused};

/// Proves that a text parses to at most one witness.
pub fn one_witness()
    ensures { (lines : List Line) (text : List ℕ) (w v : Witness) → SpellsWitness lines text w → SpellsWitness lines text v → w ≡ v }
{}

/// Proves that a text has at most one kind of refusal, at one line.
pub fn one_refusal()
    ensures { (lines : List Line) (text : List ℕ) (j k : Kind) (at to : ℕ) → RefusesWitness lines text j at → RefusesWitness lines text k to → (j ≡ k) × (at ≡ to) }
{}

/// Proves that a text has at most one refusal, of one kind at one place.
pub fn same_refusal()
    ensures { (lines : List Line) (text : List ℕ) (r s : Refusal) → IsRefused lines text (Bad r) → IsRefused lines text (Bad s) → r ≡ s }
{}

/// Proves that no text that parses to a witness is refused.
pub fn not_both()
    ensures { (lines : List Line) (text : List ℕ) (w : Witness) (k : Kind) (at : ℕ) → SpellsWitness lines text w → RefusesWitness lines text k at → ⊥ }
{}

/// Proves that each text parses to a witness or is refused.
pub fn one_of_both()
    ensures { (lines : List Line) (text : List ℕ) → ((w : Witness) × SpellsWitness lines text w) ⊎ ((k : Kind) × (at : ℕ) × RefusesWitness lines text k at) }
{}

/// Proves that a printed witness within the limits parses to the same statements, in rising order.
pub fn printed_is_read()
    ensures { (lines : List Line) (w : Witness) → IsWellFormed lines → IsWitness (sizes_of lines) w → IsWithinLimits lines w → SpellsWitness lines (printed lines w) (rising_witness (sizes_of lines) w) }
{}

/// Proves that a witness has at most one verdict.
#[tactic(auto, using(crate::specs::laws::Verdicts::one_verdict))]
pub fn one_verdict()
    ensures { (lines : List Line) (w : Witness) (v u : Verdict) → IsWellFormed lines → judged_btor lines w v → judged_btor lines w u → v ≡ u }
{}

/// Proves that the verdict is `Yes` exactly where the frames that the witness states pass.
#[tactic(auto, using(crate::specs::laws::Verdicts::yes_where_accepted))]
pub fn yes_where_accepted()
    ensures { (lines : List Line) (w : Witness) → w.frames ≢ [] → judged_btor lines w Yes ↔ ((rows : List (List BitVector)) × stated_frames lines w rows × PassAfter lines w.bad false (statements_of w) rows) }
{}
