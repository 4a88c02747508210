// The count of a model's invariants.
ghost use Rattle.std.specs.Prelude.{◌≡◌, ◌<◌, ◌+◌, ◌^◌, ◌∷◌, [], ℕ, map, flat_map, length, nat_lt, IfOk};
ghost use Rattle.smv_text.specs.View.{plain_element};
ghost use Rattle.smv_meaning.specs.Checks.{check};
ghost use Rattle.smv_meaning.specs.Phases.{element_invariants, invariants_in};
ghost use Rattle.smv_instances.specs.View.{instance_plain};
ghost use Rattle.smv_names.specs.Outcome.{Settles};

use crate::ends::NamesEnd;
use smv_instances::Table;
use smv_text::{Element, Elements};
use text_core::kinds::smv;
use text_core::{Place, Refusal};

// The count, incremented if the element is an invariant.
fn counted(count: u32, element: &Element) -> u32
    requires { count + length (element_invariants 0 (plain_element element.now)) < 2 ^ 32 }
    ensures { (i : ℕ) → result ≡ count + length (element_invariants i (plain_element element.now)) }
{
    match element {
        Element::Vars(_, _) => count,
        Element::Defines(_) => count,
        Element::Constants(_) => count,
        Element::Assigns(_) => count,
        Element::Init(_) => count,
        Element::Trans(_) => count,
        Element::Invar(_) => count,
        Element::Spec(_, _) => count + 1,
    }
}

// The count with the invariants among these elements.
fn counted_all(count: u32, elements: &Elements) -> u32
    requires { count + length (flat_map (element_invariants 0) (map plain_element elements.now)) < 2 ^ 32 }
    ensures { (i : ℕ) → result ≡ count + length (flat_map (element_invariants i) (map plain_element elements.now)) }
{
    let mut all = count;
    for element in elements.as_slice() {
        all = counted(all, element);
    }
    all
}

/// Checks that the model, over all its instances, has an invariant with this number, and returns how many it has.
///
/// Otherwise `Err` is S27 at the end of the text.
pub fn invariants_checked(table: &Table, end: Place, needed: u32) -> Result<u32, NamesEnd>
    requires { length (invariants_in (map instance_plain table.now)) < 2 ^ 32 }
    ensures checks { Settles result (check 27 end (nat_lt needed (length (invariants_in (map instance_plain table.now)))) ∷ []) }
    ensures count { IfOk result (λ n. n ≡ length (invariants_in (map instance_plain table.now))) }
{
    let mut count: u32 = 0;
    for part in table.list() {
        count = counted_all(count, &part.module.elements);
    }
    if needed < count {
        Ok(count)
    } else {
        Err(NamesEnd::Bad(Refusal {
            kind: smv::NO_INVARSPEC,
            place: end,
        }))
    }
}
