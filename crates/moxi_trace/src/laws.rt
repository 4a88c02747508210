// Laws about the response that a text states, and about its refusal.
ghost use Rattle.std.specs.Prelude.{◌≡◌, ◌⊎◌, ◌≤◌, ◌<◌, ℕ, true, List, length};
ghost use Rattle.text_core.specs.declared.place.Refusal.{Refusal};
ghost use Rattle.moxi_trace.specs.declared.point.Answered.{Answered};
ghost use Rattle.moxi_terms.specs.declared.data.Datum.{Datum};
ghost use Rattle.moxi_trace.specs.Traces.{Declared, IsStatedTrace, is_within, most_bytes};
ghost use Rattle.moxi_trace.specs.Texts.{response_text};
ghost use Rattle.moxi_trace.specs.ReadBack.{CanBeReadBack};
ghost use Rattle.moxi_trace.specs.Responses.{ReadsResponse, RefusesResponse};

/// Proves that a text states at most one response.
pub fn one_response()
    ensures { (d : Declared) (text : List ℕ) (answer other : Answered) → ReadsResponse d text answer → ReadsResponse d text other → answer ≡ other }
{}

/// Proves that a text has at most one refusal, with one kind and one place.
pub fn one_refusal()
    ensures { (d : Declared) (text : List ℕ) (why other : Refusal) → RefusesResponse d text why → RefusesResponse d text other → why ≡ other }
{}

/// Proves that a text that states a response is not refused.
pub fn not_both()
    ensures { (d : Declared) (text : List ℕ) (answer : Answered) (why : Refusal) → ReadsResponse d text answer → RefusesResponse d text why → ⊥ }
{}

/// Proves that each text states a response or is refused.
pub fn one_of_both()
    ensures { (d : Declared) (text : List ℕ) → ((answer : Answered) × ReadsResponse d text answer) ⊎ ((why : Refusal) × RefusesResponse d text why) }
{}

/// Proves that a printed response within the limits reads back to the same query and trace.
pub fn printed_is_read()
    ensures { (d : Declared) (q : ℕ) (steps : List (List Datum)) → CanBeReadBack d → q < length d.queries → IsStatedTrace d steps
        → is_within d (length steps) ≡ true → length (response_text d q steps) ≤ most_bytes → ReadsResponse d (response_text d q steps) (record { query = q; trace = steps }) }
{}
