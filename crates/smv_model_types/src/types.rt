// The checks of a model's types, and what they build.
ghost use Rattle.std.specs.Prelude.{◌≡◌, [], None, true, map, option_map, IfOk};
ghost use Rattle.std.specs.List.{AllByRecursion};
ghost use Rattle.smv_meaning.specs.Names.{found_in};
ghost use Rattle.smv_meaning.specs.Checks.{first_failing};
ghost use Rattle.smv_meaning.specs.Phases.{assignment_checks};
ghost use Rattle.smv_meaning.specs.Checked.{path_checks_of, type_checks_of};
ghost use Rattle.smv_meaning.specs.Bodies.{placed_bodies, IsBodyOrder};
ghost use Rattle.smv_instances.specs.View.{instance_plain};
ghost use Rattle.smv_intervals.specs.View.{seen};
ghost use Rattle.smv_items.specs.Counts.{AreFew};
ghost use Rattle.smv_items.specs.laws.Declarations.{DiffersInside};
ghost use Rattle.smv_items.specs.FlatItems.{content_type, origins_of, symbols_of};
ghost use Rattle.smv_items.specs.FlatOrigins.{AreNumbers};
ghost use Rattle.smv_flat.specs.FlatForms.{forms_of};
ghost use Rattle.smv_flat.specs.FlatFormulas.{form_plain};
ghost use Rattle.smv_references.specs.View.{body_plain};
ghost use Rattle.smv_names.specs.Outcome.{Settles};
ghost use Rattle.smv_names.specs.Assigning.{numbered_checks};

use crate::bodies::{TypedBodies, bodies_typed};
use crate::building::add_instance;
use crate::built::{Building, Built};
use crate::context::{Context, Model};
use crate::variables::enumerations_of;
use smv_instances::Table;
use smv_items::{ItemNumbers, Origin, Symbols};
use smv_names::NamesEnd;
use smv_references::Body;
use std::alloc::Global;
use text_core::List;

/// Checks all types and positions of a model, and returns the types of its items, the flat form of its formulas, and its
/// assignments with the numbers of their items.
///
/// It also tells whether each path is known to have a target; where it doesn't, that is still to be checked.
/// `origins` are the origins of its items. `Err` is out of memory or the first refusal, one of S16 to S20 and S23 to
/// S26. Instances come in preorder. In each, its actuals come first, then its elements in the order of the text. The
/// assignments are not checked: their checks come after those of all types.
#[tactic(auto, using(smv_meaning::specs::laws::Lists::front_is, smv_meaning::specs::laws::Lists::end_is, smv_meaning::specs::laws::Composing::goes, smv_meaning::specs::laws::Composing::ends, crate::proofs::BuildingLaws::few_origins, crate::proofs::BuildingLaws::few_symbols))]
pub fn types_checked<'a, 'n>(
    alloc: Global,
    table: &Table<'a>,
    bodies: &[Body<'a>],
    order: &List<usize>,
    origins: &[Origin<'a>],
    numbers: &ItemNumbers<'a, 'n>,
    symbols: &Symbols,
) -> Result<Built, NamesEnd>
    requires bodies { map body_plain bodies.now ≡ placed_bodies (map instance_plain table.now) }
    requires order { IsBodyOrder (map instance_plain table.now) order.now }
    requires numbers { AreNumbers (map instance_plain table.now) (origins_of (map instance_plain table.now)) numbers.now }
    requires symbols { symbols.now ≡ symbols_of (map instance_plain table.now) }
    requires differ { AllByRecursion DiffersInside (map instance_plain table.now) }
    requires few { AreFew (map instance_plain table.now) }
    ensures checks { Settles result (type_checks_of (map instance_plain table.now)) }
    ensures types { IfOk result (λ b. map (option_map seen) b.types.items ≡ map (λ m. content_type (map instance_plain table.now) m.content) (origins_of (map instance_plain table.now))) }
    ensures forms { IfOk result (λ b. map form_plain b.forms.items ≡ forms_of (map instance_plain table.now)) }
    ensures found { IfOk result (λ b. b.all_found ≡ true → first_failing (path_checks_of (map instance_plain table.now)) ≡ None) }
    ensures assigned { IfOk result (λ b. first_failing (numbered_checks [] b.assigned.items) ≡ first_failing (assignment_checks (found_in (map instance_plain table.now)) (map instance_plain table.now))) }
{
    let enumerations = enumerations_of(alloc, table, origins)?;
    let model = Model {
        table,
        numbers,
        symbols,
        enumerations: &enumerations,
    };
    let typed = bodies_typed(alloc, &model, bodies, order)?;
    let TypedBodies { entries, kept } = typed;
    let context = Context {
        model: &model,
        entries: &entries,
    };
    let forms = Vec::with_capacity(alloc, origins.len())?;
    let types = Vec::with_capacity(alloc, origins.len())?;
    let mut built = Building {
        forms,
        rest: Vec::new(alloc),
        assigned: Vec::new(alloc),
        types,
        kept,
        all_found: true,
    };
    for (i, part) in table.list().iter().enumerate() {
        add_instance(alloc, &context, &mut built, i as u32, part)?;
    }
    let Building {
        forms,
        assigned,
        types,
        all_found,
        ..
    } = built;
    Ok(Built {
        forms,
        types,
        assigned,
        all_found,
    })
}
