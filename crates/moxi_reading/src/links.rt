// The tests that need the whole script.
ghost use Rattle.std.specs.Prelude.{◌≡◌, ◌==◌, ◌+◌, Some, length, map};
ghost use Rattle.std.specs.Option.{option_map};
ghost use Rattle.moxi_declarations.specs.Views.{plain_check_reading, plain_draft, plain_reading};
ghost use Rattle.moxi_scripts.specs.Collecting.{also};
ghost use Rattle.moxi_scripts.specs.Declarations.{is_taken};
ghost use Rattle.moxi_scripts.specs.Links.{actuals_clash, all_systems_failures, actuals_failures, check_failures, entries_fit};
ghost use Rattle.moxi_scripts.specs.Links.{links_failures, list_failures, lists_at, lists_failures};
ghost use Rattle.moxi_scripts.specs.Links.{same_known, sort_at, systems_failures, taken_failures, use_failures};
ghost use Rattle.moxi_scripts.specs.Links.{uses_failures};
ghost use Rattle.moxi_reading.specs.Views.{lists_now};

use moxi_attributes::{fail, fail_if, test_clash};
use moxi_declarations::{Draft, ReadCheck, ReadSystem};
use moxi_scripts::{Actual, DeclaredList, Entries, ListPlaces, Lists, Use};
use moxi_terms::{Scope, Sort};
use name_maps::NameSet;
use text_core::kinds::moxi;
use text_core::{List, Place, Refusal};

fn is_taken(scope: &Scope, names: &NameSet, name: &[u8]) -> bool
    ensures { result ≡ is_taken scope.now names.now name.now }
{
    scope.is_term_name(name) || names.place(name).is_some()
}

// Tests that no variable has the name of a constant or a function.
#[tactic(auto, using(moxi_attributes::specs::laws::Collecting::also_append))]
fn test_taken(scope: &Scope, names: &NameSet, variables: &Entries, found: &mut Option<Refusal>)
    ensures { found.new ≡ also found.old (taken_failures scope.now names.now variables.now) }
{
    for d in variables {
        fail_if(
            found,
            is_taken(scope, names, d.name.bytes()),
            moxi::NAME_TWICE,
            d.place,
        );
    }
}

// The lists of the system with this number.
#[tactic(auto, using(crate::proofs::LinkLaws::lists_there, crate::proofs::LinkLaws::lists_missing))]
fn lists_at<'a>(systems: &'a [ReadSystem], j: usize) -> Option<&'a Lists>
    ensures { lists_now result ≡ lists_at (map plain_reading systems.now) j }
{
    if j < systems.len() {
        Some(&systems[j].lists)
    } else {
        None
    }
}

// The sort of an input or an output.
#[tactic(auto, using(moxi_scripts::specs::laws::ListLaws::get_left, moxi_scripts::specs::laws::ListLaws::get_right, moxi_scripts::specs::laws::ListLaws::get_at))]
fn sort_at(l: &Lists, i: usize) -> Option<Sort>
    ensures { result ≡ sort_at l.now i }
{
    let inputs = l.inputs.entries.len();
    if i < inputs {
        return l.inputs.entries.at(i).sort;
    }
    if i - inputs < l.outputs.entries.len() {
        return l.outputs.entries.at(i - inputs).sort;
    }
    None
}

// Tests the sorts of actuals.
fn test_actuals(lists: &Lists, actuals: &List<Actual>, found: &mut Option<Refusal>)
    ensures { found.new ≡ also found.old (actuals_clash lists.now 0 actuals.now) }
{
    for i in 0..actuals.len() {
        let a = actuals.at(i);
        test_clash(found, a.sort, sort_at(lists, i), a.place);
    }
}

fn count_fits(l: &Lists, count: usize) -> bool
    ensures { result ≡ (count == length l.now.inputs.entries + length l.now.outputs.entries) }
{
    let inputs = l.inputs.entries.len();
    inputs <= count && count - inputs == l.outputs.entries.len()
}

// Tests the actuals of a subsystem.
#[tactic(auto, using(moxi_attributes::specs::laws::Collecting::also_none))]
fn test_fit(u: &Use, lists: Option<&Lists>, found: &mut Option<Refusal>)
    ensures { found.new ≡ also found.old (actuals_failures u.now (lists_now lists.entry)) }
{
    match lists {
        None => {}
        Some(l) => {
            if l.inputs.shaped && l.outputs.shaped {
                if count_fits(l, u.actuals.len()) {
                    test_actuals(l, &u.actuals, found);
                    return;
                }
                fail(found, moxi::ARITY, u.list);
                return;
            }
        }
    }
}

// Tests a subsystem.
fn test_use(systems: &[ReadSystem], names: &NameSet, u: &Use, found: &mut Option<Refusal>)
    ensures { found.new ≡ also found.old (use_failures (map plain_reading systems.now) names.now u.now) }
{
    match names.place(u.target.bytes()) {
        None => fail(found, moxi::NO_SUCH_SYSTEM, u.place),
        Some(j) => test_fit(u, lists_at(systems, j), found),
    }
}

// Tests the subsystems of a system.
#[tactic(auto, using(moxi_attributes::specs::laws::Collecting::also_append))]
fn test_uses(systems: &[ReadSystem], names: &NameSet, uses: &List<Use>, found: &mut Option<Refusal>)
    ensures { found.new ≡ also found.old (uses_failures (map plain_reading systems.now) names.now uses.now) }
{
    for u in uses {
        test_use(systems, names, u, found);
    }
}

// Tests the subsystems of these systems, among all systems.
fn test_systems(
    systems: &[ReadSystem],
    names: &NameSet,
    tested: &[ReadSystem],
    found: &mut Option<Refusal>,
)
    ensures { found.new ≡ also found.old (systems_failures (map plain_reading systems.now) names.now (map plain_reading tested.now)) }
{
    for r in tested {
        test_uses(systems, names, &r.uses, found);
    }
}

// Tests the subsystems of all systems, including those whose names were already in use.
#[tactic(auto, using(moxi_attributes::specs::laws::Collecting::also_append))]
fn test_all_systems(draft: &Draft, found: &mut Option<Refusal>)
    ensures { found.new ≡ also found.old (all_systems_failures (plain_draft draft.now)) }
{
    test_systems(&draft.systems, &draft.system_names, &draft.systems, found);
    test_systems(&draft.systems, &draft.system_names, &draft.repeated, found);
}

fn same_known(a: Option<Sort>, b: Option<Sort>) -> bool
    ensures { result ≡ same_known a b }
{
    match a {
        None => false,
        Some(s) => match b {
            None => false,
            Some(t) => s == t,
        },
    }
}

// Whether there are as many entries in both, with the same sorts.
#[tactic(auto, using(crate::proofs::LinkLaws::fit_lengths))]
fn entries_fit(a: &Entries, b: &Entries) -> bool
    ensures { result ≡ entries_fit a.now b.now }
{
    if a.len() != b.len() {
        return false;
    }
    for (x, y) in a.iter().zip(b) {
        if !same_known(x.sort, y.sort) {
            return false;
        }
    }
    true
}

// Tests a list of a check.
fn test_list(a: &DeclaredList, b: &DeclaredList, p: Place, found: &mut Option<Refusal>)
    ensures { found.new ≡ also found.old (list_failures a.now b.now p) }
{
    let clash = a.whole && b.whole && !entries_fit(&a.entries, &b.entries);
    fail_if(found, clash, moxi::CHECK_COUNT, p);
}

// Tests the lists of a check.
#[tactic(auto, using(moxi_attributes::specs::laws::Collecting::also_append, moxi_attributes::specs::laws::Collecting::also_none))]
fn test_lists(lists: Option<&Lists>, c: &Lists, p: ListPlaces, found: &mut Option<Refusal>)
    ensures { found.new ≡ also found.old (lists_failures (lists_now lists.entry) c.now p) }
{
    match lists {
        None => {}
        Some(l) => {
            test_list(&l.inputs, &c.inputs, p.inputs, found);
            test_list(&l.outputs, &c.outputs, p.outputs, found);
            test_list(&l.locals, &c.locals, p.locals, found);
        }
    }
}

// Tests a check.
fn test_check(systems: &[ReadSystem], names: &NameSet, c: &ReadCheck, found: &mut Option<Refusal>)
    ensures { found.new ≡ also found.old (check_failures (map plain_reading systems.now) names.now (Some (plain_check_reading c.now))) }
{
    match names.place(c.target.bytes()) {
        None => fail(found, moxi::NO_SUCH_SYSTEM, c.target_place),
        Some(j) => test_lists(lists_at(systems, j), &c.lists, c.places, found),
    }
}

#[tactic(auto, using(moxi_attributes::specs::laws::Collecting::also_none))]
fn test_check_of(
    systems: &[ReadSystem],
    names: &NameSet,
    check: &Option<ReadCheck>,
    found: &mut Option<Refusal>,
)
    ensures { found.new ≡ also found.old (check_failures (map plain_reading systems.now) names.now (option_map plain_check_reading check.now)) }
{
    match check {
        None => {}
        Some(c) => test_check(systems, names, c, found),
    }
}

/// Performs the tests that need the whole script, whose text ends at `end`.
///
/// The tests of cycles of subsystems are not among them.
#[tactic(auto, using(moxi_attributes::specs::laws::Collecting::also_append))]
pub fn test_links(draft: &Draft, end: Place, found: &mut Option<Refusal>)
    ensures { found.new ≡ also found.old (links_failures (plain_draft draft.now) end) }
{
    test_taken(&draft.scope, &draft.term_names, &draft.variables, found);
    test_all_systems(draft, found);
    test_check_of(&draft.systems, &draft.system_names, &draft.check, found);
    fail_if(found, !draft.checked, moxi::CHECK_COUNT, end);
}
