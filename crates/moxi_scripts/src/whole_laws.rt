// Laws about scripts that forms spell.
ghost use Rattle.text_core.specs.declared.place.Place.{Place};
ghost use Rattle.moxi_sexpr.specs.Tree.{Trees};
ghost use Rattle.moxi_scripts.specs.Script.{PlainScript};
ghost use Rattle.moxi_scripts.specs.Spelling.{SpellsScript};
ghost use Rattle.moxi_scripts.specs.Valid.{HasRanks, IsValid};

use moxi_term_print::{read_terms_are_well_scoped, terms_stay_well_scoped};
use moxi_term_reading::{read_sorts_are_of_the_scope, read_terms_have_sorts};

/// Proves that a script that forms spell is valid.
///
/// Names are distinct and unambiguous, terms have their sorts and may appear in their places, numbers are in range, and no
/// system contains itself.
pub fn spelled_scripts_are_valid()
    ensures { (ts : Trees) (end : Place) (s : PlainScript) → SpellsScript ts end s → IsValid s }
{
    read_sorts_are_of_the_scope();
    read_terms_have_sorts();
    read_terms_are_well_scoped();
    terms_stay_well_scoped();
}

/// Proves that the systems of a valid script have ranks: each system ranks above the systems that it contains.
pub fn valid_systems_have_ranks()
    ensures { (s : PlainScript) → IsValid s → HasRanks s.systems }
{}
