// The least failing test, which the tests record in `found`.
ghost use Rattle.std.specs.Prelude.{◌≡◌, ◌∷◌, [], List, is_none};
ghost use Rattle.text_core.specs.declared.place.Refusal.{Refusal};
ghost use Rattle.moxi_term_reading.specs.Failures.{least};
ghost use Rattle.moxi_term_reading.specs.Reading.{prime_failures};
ghost use Rattle.moxi_scripts.specs.Collecting.{also, fails_with};

use moxi_term_reading::{minimum, prime};
use text_core::{Kind, Place, Refusal};

/// Records tests, given their least failing test.
#[tactic(auto, using(crate::specs::laws::Collecting::also_least), unfolding(moxi_scripts::specs::Collecting::also))]
pub fn note(found: &mut Option<Refusal>, failure: Option<Refusal>)
    ensures { (fs : List Refusal) → failure ≡ least fs → found.new ≡ also found.old fs }
{
    *found = minimum(*found, failure);
}

/// Tests that there is no prime where none is allowed.
pub fn fail_primed(found: &mut Option<Refusal>, primed: bool, place: Place)
    ensures { found.new ≡ also found.old (prime_failures primed place) }
{
    note(found, prime(primed, place));
}

/// Records this failing test.
pub fn refuse(found: &mut Option<Refusal>, failure: Refusal)
    ensures { found.new ≡ also found.old (failure ∷ []) }
{
    note(found, Some(failure));
}

/// Records a failing test of this kind.
pub fn fail(found: &mut Option<Refusal>, kind: Kind, place: Place)
    ensures { found.new ≡ also found.old (record { kind = kind; place = place } ∷ []) }
{
    refuse(found, Refusal { kind, place });
}

/// Records a test that fails with this kind if `fails` is true.
#[tactic(auto, using(crate::specs::laws::Collecting::also_none))]
pub fn fail_if(found: &mut Option<Refusal>, fails: bool, kind: Kind, place: Place)
    ensures { found.new ≡ also found.old (fails_with fails kind place) }
{
    if fails {
        fail(found, kind, place);
    }
}

/// Returns whether no test fails.
pub fn is_nothing(found: Option<Refusal>) -> bool
    ensures { result ≡ is_none found }
{
    match found {
        None => true,
        Some(_) => false,
    }
}
