// The variables of a system or a check, as an index by name.
ghost use Rattle.std.specs.Prelude.{◌≡◌, ◌<◌, ◌^◌, [], true, length, IfOk, IfSome, OnOk};
ghost use Rattle.moxi_sexpr.specs.Tree.{all_nodes, plain_forms};
ghost use Rattle.moxi_scripts.specs.Attributes.{shape_holds};
ghost use Rattle.moxi_scripts.specs.Collecting.{also};
ghost use Rattle.moxi_scripts.specs.declared.parts.Turn.TheVariants as turns;
ghost use Rattle.moxi_scripts.specs.Entries.{locals_among, names_after, twice_failures};
ghost use Rattle.moxi_scripts.specs.Lists.{all_entries, lists_in, text_entries};
ghost use Rattle.moxi_declarations.specs.Once.{locals_listed};

use moxi_attributes::{
    all_entries, are_shaped, is_in_order, possible_locals, test_twice, text_entries,
};
use moxi_scripts::{Command, Declared, Lists};
use moxi_sexpr::Form;
use moxi_term_reading::Locals;
use moxi_terms::Scope;
use name_maps::NameSet;
use std::alloc::Global;
use text_core::{Name, NoMemory, Refusal};

// The variables of a list as an index by name, or None where a name occurs twice.
fn locals_once(alloc: Global, entries: &[Declared]) -> Result<Option<Locals>, NoMemory>
    requires few { length entries.now < 2 ^ 32 }
    ensures locals { IfOk result (λ o. IfSome o (λ l. l ≡ locals_among entries.now)) }
    ensures once { IfOk result (λ o. IfSome o (λ l. length (names_after [] entries.now) ≡ length entries.now)) }
{
    let mut locals = Locals::new(alloc);
    for entry in entries {
        if !locals.add(Name::of(alloc, entry.name.bytes())?, entry.sort)? {
            return Ok(None);
        }
    }
    Ok(Some(locals))
}

// The variables of any lists.
fn mixed_locals(
    alloc: Global,
    scope: &Scope,
    lists: &Lists,
    command: Command,
    forms: &[Form],
    found: &mut Option<Refusal>,
) -> Result<Locals, NoMemory>
    requires lists { lists.now ≡ lists_in scope.now command (plain_forms forms.now) }
    requires shape { shape_holds command (plain_forms forms.now) ≡ true }
    requires few { all_nodes (plain_forms forms.now) < 2 ^ 32 }
    ensures locals { IfOk result (λ l. l ≡ locals_listed scope.now lists.now command (plain_forms forms.now)) }
    ensures finds { OnOk result (found.new ≡ also found.old (twice_failures [] (text_entries lists.now command turns.AtKeyword (plain_forms forms.now)))) }
{
    let mut text = text_entries(alloc, lists, command, forms)?;
    let mut names = NameSet::new(alloc);
    test_twice(alloc, &mut names, &text, found)?;
    let mut all = all_entries(alloc, lists)?;
    possible_locals(alloc, scope, are_shaped(lists), forms, &mut text, &mut all)
}

/// Returns the variables of the lists as an index by name, and tests that no name is declared twice.
///
/// `all` holds the variables in the order of their numbers, which have 32 bits. Of two variables with the same name, the
/// second fails.
pub fn read_locals(
    alloc: Global,
    scope: &Scope,
    lists: &Lists,
    command: Command,
    forms: &[Form],
    all: &[Declared],
    found: &mut Option<Refusal>,
) -> Result<Locals, NoMemory>
    requires all { all.now ≡ all_entries lists.now }
    requires lists { lists.now ≡ lists_in scope.now command (plain_forms forms.now) }
    requires shape { shape_holds command (plain_forms forms.now) ≡ true }
    requires few { all_nodes (plain_forms forms.now) < 2 ^ 32 }
    ensures locals { IfOk result (λ l. l ≡ locals_listed scope.now lists.now command (plain_forms forms.now)) }
    ensures finds { OnOk result (found.new ≡ also found.old (twice_failures [] (text_entries lists.now command turns.AtKeyword (plain_forms forms.now)))) }
{
    // Most texts declare variables in the order of their numbers. Then one list serves for both orders.
    if are_shaped(lists) && is_in_order(lists, command, forms) {
        if let Some(locals) = locals_once(alloc, all)? {
            return Ok(locals);
        }
    }
    mixed_locals(alloc, scope, lists, command, forms, found)
}
