// The items and formulas of a model, made as its types are checked.
ghost use Rattle.std.specs.Prelude.{◌≡◌, ◌<◌, ◌^◌, ◌++◌, [], None, length, map, option_map, IfOk, IfErr};
ghost use Rattle.std.specs.List.{AllByRecursion};
ghost use Rattle.smv_meaning.specs.Checked.{path_checks_of, type_checks_of};
ghost use Rattle.smv_meaning.specs.Checks.{first_failing, IsBad};
ghost use Rattle.smv_meaning.specs.Names.{found_in};
ghost use Rattle.smv_meaning.specs.Phases.{assignment_checks};
ghost use Rattle.smv_meaning.specs.Bodies.{placed_bodies, IsBodyOrder};
ghost use Rattle.smv_instances.specs.View.{instance_plain};
ghost use Rattle.smv_intervals.specs.View.{seen};
ghost use Rattle.smv_items.specs.Counts.{AreFew};
ghost use Rattle.smv_items.specs.FlatItems.{content_type, flat_item_of, origins_of, path_of, symbols_of};
ghost use Rattle.smv_items.specs.FlatItemView.{item_plain};
ghost use Rattle.smv_items.specs.FlatOrigins.{AreNumbers, origin_plain};
ghost use Rattle.smv_items.specs.laws.Declarations.{DiffersInside};
ghost use Rattle.smv_flat.specs.FlatForms.{forms_of};
ghost use Rattle.smv_flat.specs.FlatFormulas.{form_plain};
ghost use Rattle.smv_flat_laws.specs.FlatOrders.{item_order};
ghost use Rattle.smv_names.specs.Assigning.{numbered_checks};
ghost use Rattle.smv_references.specs.View.{body_plain};

use crate::item_list::flat_items;
use crate::ordering::item_order;
use name_maps::NameSet;
use smv_flat::FlatFormula;
use smv_instances::Table;
use smv_intervals::Ty;
use smv_items::{
    FlatItem, ItemNumbers, Origin, Origins, Symbols, dotted_paths, numbers_of, origins_in,
    symbols_in,
};
use smv_model_types::{Built, types_checked};
use smv_names::{NamesEnd, NumberedAssignment, paths_checked};
use smv_references::Body;
use std::alloc::Global;
use text_core::{List, Name, NoMemory};

// The origins of a model's items with their dotted paths, and the symbols.
#[derive(Drop)]
struct Sources<'a> {
    origins: Origins<'a>,
    paths: Vec<Name>,
    symbols: Symbols,
}

fn sources_in<'a>(alloc: Global, table: &Table<'a>) -> Result<Sources<'a>, NoMemory>
    requires few { length table.now < 2 ^ 32 }
    ensures origins { IfOk result (λ s. map origin_plain s.origins.items ≡ origins_of (map instance_plain table.now)) }
    ensures paths { IfOk result (λ s. s.paths.items ≡ map (path_of (map instance_plain table.now)) (origins_of (map instance_plain table.now))) }
    ensures symbols { IfOk result (λ s. s.symbols ≡ symbols_of (map instance_plain table.now)) }
{
    let symbols = symbols_in(alloc, table)?;
    let origins = origins_in(alloc, table)?;
    let paths = dotted_paths(alloc, table, origins.as_slice())?;
    Ok(Sources {
        origins,
        paths,
        symbols,
    })
}

// The formulas, the assignments among them, the types of the items, and the order of the items with bodies.
#[derive(Drop)]
struct Formed {
    formulas: Vec<FlatFormula>,
    assigned: Vec<NumberedAssignment>,
    types: Vec<Option<Ty>>,
    order: List<usize>,
}

// Checks the types and the paths, and makes the formulas over the numbers of items.
//
// The types of most models tell that each path has a target. Only where they don't, or refuse, are the paths checked for
// themselves, since their refusal comes first.
#[tactic(auto, using(crate::specs::laws::Composing::ends, crate::specs::laws::Composing::ends_behind))]
fn checked_in<'a, 'n>(
    alloc: Global,
    table: &Table<'a>,
    bodies: &[Body<'a>],
    order: &List<usize>,
    origins: &[Origin<'a>],
    numbers: &ItemNumbers<'a, 'n>,
    symbols: &Symbols,
) -> Result<Built, NamesEnd>
    requires bodies { map body_plain bodies.now ≡ placed_bodies (map instance_plain table.now) }
    requires order { IsBodyOrder (map instance_plain table.now) order.now }
    requires numbers { AreNumbers (map instance_plain table.now) (origins_of (map instance_plain table.now)) numbers.now }
    requires symbols { symbols.now ≡ symbols_of (map instance_plain table.now) }
    requires differ { AllByRecursion DiffersInside (map instance_plain table.now) }
    requires few { AreFew (map instance_plain table.now) }
    ensures found { IfOk result (λ b. first_failing (path_checks_of (map instance_plain table.now)) ≡ None) }
    ensures typed { IfOk result (λ b. first_failing (type_checks_of (map instance_plain table.now)) ≡ None) }
    ensures refused { IfErr result (λ e. IsBad e (first_failing (path_checks_of (map instance_plain table.now) ++ type_checks_of (map instance_plain table.now)))) }
    ensures types { IfOk result (λ b. map (option_map seen) b.types.items ≡ map (λ m. content_type (map instance_plain table.now) m.content) (origins_of (map instance_plain table.now))) }
    ensures forms { IfOk result (λ b. map form_plain b.forms.items ≡ forms_of (map instance_plain table.now)) }
    ensures assigned { IfOk result (λ b. first_failing (numbered_checks [] b.assigned.items) ≡ first_failing (assignment_checks (found_in (map instance_plain table.now)) (map instance_plain table.now))) }
{
    let built = match types_checked(alloc, table, bodies, order, origins, numbers, symbols) {
        Ok(built) => built,
        Err(end) => {
            paths_checked(alloc, table)?;
            return Err(end);
        }
    };
    if !built.all_found {
        paths_checked(alloc, table)?;
    }
    Ok(built)
}

// Makes the formulas and the order over these numbers of items.
#[tactic(auto, using(crate::specs::laws::Composing::ends, crate::specs::laws::Composing::ends_behind))]
fn formed_on<'a, 'n>(
    alloc: Global,
    table: &Table<'a>,
    bodies: &[Body<'a>],
    order: &List<usize>,
    origins: &[Origin<'a>],
    numbers: &ItemNumbers<'a, 'n>,
    symbols: &Symbols,
) -> Result<Formed, NamesEnd>
    requires bodies { map body_plain bodies.now ≡ placed_bodies (map instance_plain table.now) }
    requires order { IsBodyOrder (map instance_plain table.now) order.now }
    requires numbers { AreNumbers (map instance_plain table.now) (origins_of (map instance_plain table.now)) numbers.now }
    requires symbols { symbols.now ≡ symbols_of (map instance_plain table.now) }
    requires differ { AllByRecursion DiffersInside (map instance_plain table.now) }
    requires few { AreFew (map instance_plain table.now) }
    ensures found { IfOk result (λ f. first_failing (path_checks_of (map instance_plain table.now)) ≡ None) }
    ensures typed { IfOk result (λ f. first_failing (type_checks_of (map instance_plain table.now)) ≡ None) }
    ensures refused { IfErr result (λ e. IsBad e (first_failing (path_checks_of (map instance_plain table.now) ++ type_checks_of (map instance_plain table.now)))) }
    ensures types { IfOk result (λ f. map (option_map seen) f.types.items ≡ map (λ m. content_type (map instance_plain table.now) m.content) (origins_of (map instance_plain table.now))) }
    ensures formulas { IfOk result (λ f. map form_plain f.formulas.items ≡ forms_of (map instance_plain table.now)) }
    ensures assigned { IfOk result (λ f. first_failing (numbered_checks [] f.assigned.items) ≡ first_failing (assignment_checks (found_in (map instance_plain table.now)) (map instance_plain table.now))) }
    ensures order { IfOk result (λ f. f.order ≡ item_order (map instance_plain table.now) order.now) }
{
    let built = checked_in(alloc, table, bodies, order, origins, numbers, symbols)?;
    let order = item_order(alloc, bodies, order.as_slice(), &numbers.bodies)?;
    Ok(Formed {
        formulas: built.forms,
        assigned: built.assigned,
        types: built.types,
        order,
    })
}

// Checks the types and the paths, and makes the formulas and the order over the numbers of items.
#[tactic(auto, using(crate::specs::laws::Composing::ends, crate::specs::laws::Composing::ends_behind))]
fn formed_in<'a>(
    alloc: Global,
    table: &Table<'a>,
    bodies: &[Body<'a>],
    order: &List<usize>,
    sources: &Sources<'a>,
) -> Result<Formed, NamesEnd>
    requires bodies { map body_plain bodies.now ≡ placed_bodies (map instance_plain table.now) }
    requires order { IsBodyOrder (map instance_plain table.now) order.now }
    requires differ { AllByRecursion DiffersInside (map instance_plain table.now) }
    requires few { AreFew (map instance_plain table.now) }
    requires origins { map origin_plain sources.now.origins.items ≡ origins_of (map instance_plain table.now) }
    requires paths { sources.now.paths.items ≡ map (path_of (map instance_plain table.now)) (origins_of (map instance_plain table.now)) }
    requires symbols { sources.now.symbols ≡ symbols_of (map instance_plain table.now) }
    ensures found { IfOk result (λ f. first_failing (path_checks_of (map instance_plain table.now)) ≡ None) }
    ensures typed { IfOk result (λ f. first_failing (type_checks_of (map instance_plain table.now)) ≡ None) }
    ensures refused { IfErr result (λ e. IsBad e (first_failing (path_checks_of (map instance_plain table.now) ++ type_checks_of (map instance_plain table.now)))) }
    ensures types { IfOk result (λ f. map (option_map seen) f.types.items ≡ map (λ m. content_type (map instance_plain table.now) m.content) (origins_of (map instance_plain table.now))) }
    ensures formulas { IfOk result (λ f. map form_plain f.formulas.items ≡ forms_of (map instance_plain table.now)) }
    ensures assigned { IfOk result (λ f. first_failing (numbered_checks [] f.assigned.items) ≡ first_failing (assignment_checks (found_in (map instance_plain table.now)) (map instance_plain table.now))) }
    ensures order { IfOk result (λ f. f.order ≡ item_order (map instance_plain table.now) order.now) }
{
    let origins = sources.origins.as_slice();
    let numbers = numbers_of(alloc, origins, sources.paths.as_slice())?;
    formed_on(
        alloc,
        table,
        bodies,
        order,
        origins,
        &numbers,
        &sources.symbols,
    )
}

/// The items, symbols and formulas of a model, the assignments among the formulas, and the order of the items with
/// bodies.
#[derive(Drop)]
pub(crate) struct Contents {
    pub(crate) items: Vec<FlatItem>,
    pub(crate) symbols: NameSet,
    pub(crate) formulas: Vec<FlatFormula>,
    pub(crate) assigned: Vec<NumberedAssignment>,
    pub(crate) order: List<usize>,
}

/// Checks the paths and the types of a model, and returns its contents.
///
/// `Err` is out of memory or the first refusal, that of a path before that of a type.
pub(crate) fn contents_of<'a>(
    alloc: Global,
    table: &Table<'a>,
    bodies: &[Body<'a>],
    order: &List<usize>,
) -> Result<Contents, NamesEnd>
    requires bodies { map body_plain bodies.now ≡ placed_bodies (map instance_plain table.now) }
    requires order { IsBodyOrder (map instance_plain table.now) order.now }
    requires differ { AllByRecursion DiffersInside (map instance_plain table.now) }
    requires few { AreFew (map instance_plain table.now) }
    ensures found { IfOk result (λ x. first_failing (path_checks_of (map instance_plain table.now)) ≡ None) }
    ensures typed { IfOk result (λ x. first_failing (type_checks_of (map instance_plain table.now)) ≡ None) }
    ensures refused { IfErr result (λ e. IsBad e (first_failing (path_checks_of (map instance_plain table.now) ++ type_checks_of (map instance_plain table.now)))) }
    ensures items { IfOk result (λ x. map item_plain x.items.items ≡ map (flat_item_of (map instance_plain table.now)) (origins_of (map instance_plain table.now))) }
    ensures symbols { IfOk result (λ x. x.symbols ≡ symbols_of (map instance_plain table.now)) }
    ensures formulas { IfOk result (λ x. map form_plain x.formulas.items ≡ forms_of (map instance_plain table.now)) }
    ensures assigned { IfOk result (λ x. first_failing (numbered_checks [] x.assigned.items) ≡ first_failing (assignment_checks (found_in (map instance_plain table.now)) (map instance_plain table.now))) }
    ensures order { IfOk result (λ x. x.order ≡ item_order (map instance_plain table.now) order.now) }
{
    let sources = sources_in(alloc, table)?;
    let formed = formed_in(alloc, table, bodies, order, &sources)?;
    let Sources {
        origins,
        paths,
        symbols,
    } = sources;
    let items = flat_items(alloc, &origins, paths, &formed.types)?;
    Ok(Contents {
        items,
        symbols: symbols.into_names(),
        formulas: formed.formulas,
        assigned: formed.assigned,
        order: formed.order,
    })
}
