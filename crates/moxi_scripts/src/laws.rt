// Laws about scripts.
ghost use Rattle.std.specs.Prelude.{◌≡◌, [], List, None, Some};
ghost use Rattle.std.specs.List.{AllByRecursion};
ghost use Rattle.text_core.specs.declared.place.Place.{Place};
ghost use Rattle.text_core.specs.declared.place.Refusal.{Refusal};
ghost use Rattle.moxi_sexpr.specs.Tree.{Trees};
ghost use Rattle.moxi_term_reading.specs.Failures.{least};
ghost use Rattle.moxi_scripts.specs.Kinds.{HasByte, HasScriptKind, IsFirst};
ghost use Rattle.moxi_scripts.specs.Script.{PlainScript};
ghost use Rattle.moxi_scripts.specs.Spelling.{SpellsScript, script_failures};

/// Proves that `least` returns the failing test with the least place, and of those at one place the one with the least
/// number.
///
/// It returns None only where no test fails.
pub fn least_is_least()
    ensures first { (fs : List Refusal) (r : Refusal) → AllByRecursion HasByte fs → least fs ≡ Some r → IsFirst r fs }
    ensures none { (fs : List Refusal) → least fs ≡ None → fs ≡ [] }
{}

/// Proves that the failing tests of a script are of the kinds M4 to M14.
pub fn failures_have_kinds()
    ensures { (ts : Trees) (end : Place) → AllByRecursion HasScriptKind (script_failures ts end) }
{}

/// Proves that forms spell at most one script.
pub fn one_script()
    ensures { (ts : Trees) (end : Place) (a b : PlainScript) → SpellsScript ts end a → SpellsScript ts end b → a ≡ b }
{}
