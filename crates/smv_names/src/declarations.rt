// Checks of the declarations of an instance.
ghost use Rattle.std.specs.Prelude.{◌≡◌, ◌<◌, ℕ, true, List, [], length, map, nat_le, Some, None};
ghost use Rattle.smv_text.specs.View.{plain_item, plain_module, plain_source};
ghost use Rattle.smv_meaning.specs.Instances.{dotted, is_one_of, instances_of};
ghost use Rattle.smv_meaning.specs.Checks.{first_failing};
ghost use Rattle.smv_meaning.specs.Phases.{item_checks, declared_in, declares_instance, longest_path, most_instances, declared_checks, counted_all, declaration_checks};
ghost use Rattle.smv_names.specs.Outcome.{Settles, Counts};
ghost use Rattle.smv_names.specs.View.{declared_plain, names_above};
ghost use Rattle.smv_names.specs.Visits.{checks_behind_name, IsLength};
ghost use Rattle.smv_names.specs.Declaring.{is_place};

use crate::declared::Declaration;
use crate::declaring::{DeclaredModule, DeclaredModules};
use crate::ends::NamesEnd;
use crate::visits::visited;
use smv_text::{Domain, Item, Source};
use std::alloc::Global;
use text_core::kinds::smv;
use text_core::{Refusal, is_same};

/// The most bytes of a dotted path.
const LONGEST_PATH: usize = 1000;
/// The most instances of a model, including main.
const MOST_INSTANCES: usize = 4096;

fn is_among(names: &[&[u8]], name: &[u8]) -> bool
    ensures { result ≡ is_one_of (map (λ m. m.now) names.now) name.now }
{
    for other in names {
        if is_same(*other, name) {
            return true;
        }
    }
    false
}

#[tactic(auto, using(crate::proofs::Above::named_above))]
fn is_above(above: &[&[u8]], name: &[u8]) -> bool
    ensures { result ≡ is_one_of (names_above above.now) name.now }
{
    is_among(above, name)
}

// The module of an instance must exist, must not contain itself, and must take as many actuals as are given.
#[tactic(auto, using(smv_instances::specs::laws::NameLemmas::trees_length))]
fn item_failing(modules: &DeclaredModules, above: &[&[u8]], item: &Item) -> Option<Refusal>
    ensures { result ≡ first_failing (item_checks (map plain_module modules.now) (names_above above.now) (Some (plain_item item.now))) }
{
    match &item.domain {
        Domain::Boolean => None,
        Domain::Members(_) => None,
        Domain::Between(_, _) => None,
        Domain::Bits(_) => None,
        Domain::Instance(name, actuals) => match modules.named(name.bytes()) {
            None => Some(Refusal {
                kind: smv::NO_SUCH_MODULE,
                place: item.domain_place,
            }),
            Some(own) => if is_above(above, name.bytes()) {
                Some(Refusal {
                    kind: smv::MODULE_CYCLE,
                    place: item.domain_place,
                })
            } else if own.module().parameters.len() != actuals.len() {
                Some(Refusal {
                    kind: smv::ARG_COUNT,
                    place: item.domain_place,
                })
            } else {
                None
            },
        },
    }
}

/// Returns the length of the dotted path of a name in the instance whose path has this length.
///
/// Both lengths are exact up to the limit; above it they are one more than the limit.
pub(crate) fn length_below(path_length: usize, name: &[u8]) -> usize
    ensures { (path : List ℕ) → IsLength path_length path → IsLength result (dotted path name.now) }
{
    let before = if path_length == 0 {
        0
    } else {
        path_length.saturating_add(1)
    };
    before.saturating_add(name.len()).min(LONGEST_PATH + 1)
}

// Whether the dotted path of the name is within the limit.
fn is_short(path_length: usize, name: &[u8]) -> bool
    ensures { (path : List ℕ) → IsLength path_length path → result ≡ nat_le (length (dotted path name.now)) longest_path }
{
    length_below(path_length, name) <= LONGEST_PATH
}

fn is_instance(declaration: &Declaration) -> bool
    ensures { result ≡ declares_instance (declared_plain declaration.now).item }
{
    match declaration.item {
        None => false,
        Some(item) => match &item.domain {
            Domain::Boolean => false,
            Domain::Members(_) => false,
            Domain::Between(_, _) => false,
            Domain::Bits(_) => false,
            Domain::Instance(_, _) => true,
        },
    }
}

// The checks of a declaration except of its name, given the enclosing modules and the number of instances so far.
fn declaration_failing(
    modules: &DeclaredModules,
    above: &[&[u8]],
    path_length: usize,
    met: usize,
    declaration: &Declaration,
) -> Option<Refusal>
    ensures checks { (path : List ℕ) → IsLength path_length path → result ≡ first_failing (checks_behind_name (map plain_module modules.now) (names_above above.now) path met (declared_plain declaration.now)) }
    ensures few { result ≡ None → declares_instance (declared_plain declaration.now).item ≡ true → met < most_instances }
{
    if let Some(item) = declaration.item {
        if let Some(why) = item_failing(modules, above, item) {
            return Some(why);
        }
    }
    let fits = !is_instance(declaration) || met < MOST_INSTANCES;
    if is_short(path_length, declaration.name) && fits {
        None
    } else {
        Some(Refusal {
            kind: smv::TOO_LARGE,
            place: declaration.place,
        })
    }
}

fn stands_at(place: Option<usize>, k: usize) -> bool
    ensures { result ≡ is_place place k }
{
    match place {
        None => false,
        Some(other) => other == k,
    }
}

/// Checks the declarations of an instance, and returns the number of instances after them.
///
/// `above` are the names of the enclosing modules, `path_length` is the length of the path of the instance, up to one
/// above the limit, and `met` is the number of instances before.
#[tactic(auto, using(smv_meaning::specs::laws::Lists::front_is, smv_meaning::specs::laws::Lists::end_is))]
pub(crate) fn declared_checked<'a>(
    modules: &DeclaredModules<'a>,
    above: &[&'a [u8]],
    path_length: usize,
    met: usize,
    own: &DeclaredModule<'a>,
) -> Result<usize, NamesEnd>
    ensures { (path : List ℕ) → IsLength path_length path → Counts result (declared_checks (map plain_module modules.now) (names_above above.now) path [] met (declared_in (plain_module own.now))) (counted_all met (declared_in (plain_module own.now))) }
{
    let list = own.declarations();
    let twice = own.twice();
    let mut count = met;
    for (k, declaration) in list.iter().enumerate() {
        if stands_at(twice, k) {
            return Err(NamesEnd::Bad(Refusal {
                kind: smv::NAME_TWICE,
                place: declaration.place,
            }));
        }
        if let Some(why) = declaration_failing(modules, above, path_length, count, declaration) {
            return Err(NamesEnd::Bad(why));
        }
        if is_instance(declaration) {
            count += 1;
        }
    }
    Ok(count)
}

/// Checks the declarations of a model that passes the first phase.
///
/// Instances are visited in preorder. The checks are S10 to S13, and S28 for paths and instances. No instance after the
/// first failing check is visited.
pub fn declarations_checked(alloc: Global, source: &Source) -> Result<(), NamesEnd>
    ensures { Settles result (declaration_checks (plain_source source.now).modules (instances_of (plain_source source.now)) 0 1 (instances_of (plain_source source.now))) }
{
    let modules = DeclaredModules::of(alloc, &source.modules)?;
    let Some(own) = modules.named(b"main") else {
        return Ok(());
    };
    let mut above = Vec::new(alloc);
    match visited(&modules, modules.len(), &mut above, 0, own, 1) {
        Ok(_) => Ok(()),
        Err(end) => Err(end),
    }
}
