// Failures of the checks of an expression.
ghost use Rattle.std.specs.Prelude.{◌≡◌, true, false, Ok, Err, MatchResult};
ghost use Rattle.text_core.specs.declared.end.End.TheVariants as OfEnd;
ghost use Rattle.text_core.specs.declared.place.Refusal.{Refusal as RefusalOf};
ghost use Rattle.smv_meaning.specs.Checks.{Typing};
ghost use Rattle.smv_types.specs.Outcome.{Answers, Ends};

use smv_intervals::Ty;
use text_core::{End, Kind, Place, Refusal};

/// The failure of an expression's checks: the refusal of the first failing check, or out of memory.
pub type CheckEnd = End;

pub(crate) fn refusal(kind: Kind, place: Place) -> Refusal
    ensures { result ≡ record { kind = kind; place = place } }
{
    Refusal { kind, place }
}

// A check: returns the refusal where the test fails.
pub(crate) fn check(kind: Kind, place: Place, test: bool) -> Result<(), Refusal>
    ensures { MatchResult result (λ _. test ≡ true) (λ why. (test ≡ false) × (why ≡ record { kind = kind; place = place })) }
{
    if test {
        Ok(())
    } else {
        Err(refusal(kind, place))
    }
}

/// Converts the result of a node's checks.
pub fn answered(answer: Result<Option<Ty>, Refusal>) -> Result<Option<Ty>, CheckEnd>
    ensures typing { (t : Typing) → Answers answer t → Ends result t }
    ensures same { MatchResult result (λ t. answer ≡ Ok t) (λ e. (why : RefusalOf) × (answer ≡ Err why) × (e ≡ OfEnd.Bad why)) }
{
    match answer {
        Ok(t) => Ok(t),
        Err(why) => Err(CheckEnd::Bad(why)),
    }
}
