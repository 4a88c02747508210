// Questions about the parts of a model's elements.
ghost use Rattle.std.specs.Prelude.{◌≡◌, List, map, option_map, if◌then◌else◌, Some, None, true};
ghost use Rattle.smv_text.specs.View.{plain, plain_domain};
ghost use Rattle.smv_meaning.specs.Types.{is_truth_type, type_same};
ghost use Rattle.smv_meaning.specs.Checks.{first_failing, on_type, on_types};
ghost use Rattle.smv_meaning.specs.Phases.{domain_declares_instance, in_assignment, is_assignable};
ghost use Rattle.smv_instances.specs.declared.instances.Instance.{Instance as PartOf};
ghost use Rattle.smv_instances.specs.View.{instance_plain, found_plain};
ghost use Rattle.smv_intervals.specs.View.{seen};
ghost use Rattle.smv_types.specs.View.{position_seen};
ghost use Rattle.smv_items.specs.FlatOrigins.{leaf_plain};
ghost use Rattle.smv_flat.specs.FlatForms.{number_or_first};
ghost use Rattle.smv_model_types.specs.Building.{instances_in, expression_paths};
ghost use Rattle.smv_model_types.specs.Outcome.{is_path};

use crate::context::Context;
use smv_instances::Target;
use smv_intervals::Ty;
use smv_items::Leaf;
use smv_names::{is_assignable, is_something};
use smv_text::{Domain, Expr, Shape, When};
use smv_types::Position;

pub(crate) fn is_path(e: &Expr) -> bool
    ensures { result ≡ is_path (plain e.now) }
{
    matches!(e.shape, Shape::Name(_))
}

/// Whether an actual is a path that has a target.
pub(crate) fn is_found<'s, 'a, 'n>(context: &Context<'s, 'a, 'n>, parent: usize, e: &Expr) -> bool
    ensures { result ≡ true → first_failing (expression_paths (instances_in context.now) parent (plain e.now)) ≡ None }
{
    match &e.shape {
        Shape::Name(path) => is_something(context.model.table.target(parent, path)),
        _ => false,
    }
}

pub(crate) fn is_instance(domain: &Domain) -> bool
    ensures { result ≡ domain_declares_instance (plain_domain domain.now) }
{
    matches!(domain, Domain::Instance(_, _))
}

pub(crate) fn is_truth(t: Option<Ty>) -> bool
    ensures { result ≡ on_type (option_map seen t) is_truth_type }
{
    match t {
        None => true,
        Some(t) => t.is_truth(),
    }
}

pub(crate) fn position_of(when: When) -> Position
    ensures { position_seen result ≡ in_assignment when }
{
    match when {
        When::Always => Position::AssignNow,
        When::First => Position::AssignFirst,
        When::Following => Position::AssignFollowing,
    }
}

/// Whether both types are the same, or one is missing.
pub(crate) fn are_same(t: Option<Ty>, u: Option<Ty>) -> bool
    ensures { result ≡ on_types (option_map seen t) (option_map seen u) type_same }
{
    match t {
        None => true,
        Some(t) => match u {
            None => true,
            Some(u) => t.is_same(u),
        },
    }
}

pub(crate) fn number(leaf: Leaf) -> u32
    ensures { result ≡ number_or_first (leaf_plain leaf) }
{
    match leaf {
        Leaf::Item(k) => k,
        Leaf::Symbol(_) => 0,
        Leaf::Nothing => 0,
    }
}

/// The item that is assigned, where the target can be.
pub(crate) fn assigned_item(when: When, target: &Target, item: u32) -> Option<u32>
    ensures { (ts : List PartOf) → result ≡ (if is_assignable when (found_plain (map instance_plain ts) target.now) then Some item else None) }
{
    if is_assignable(when, target) {
        Some(item)
    } else {
        None
    }
}
