// The bodies of a flat form, by item number.
ghost use Rattle.std.specs.Prelude.{◌≡◌, true, ℕ, None, length, map, IfOk};
ghost use Rattle.std.specs.List.{AllByRecursion};
ghost use Rattle.digraph.specs.Graph.{are_distinct};
ghost use Rattle.smv_flat.specs.FlatView.{plain_flat};
ghost use Rattle.smv_flat.specs.FlatFormulas.{form_plain};
ghost use Rattle.smv_flat.specs.declared.forms.Role.TheVariants as OfRole;
ghost use Rattle.smv_flat_laws.specs.FlatOrders.{FormHolds, body_numbers};
ghost use Rattle.smv_rows.specs.Filling.{bodies_in};
ghost use Rattle.smv_rows.specs.RowOrders.{AreItemBodies, CanAdd, Added};

use smv_flat::{FlatExpr, FlatFormula, Role};
use smv_items::FlatItem;
use std::alloc::Global;
use text_core::NoMemory;

/// Returns, for each item, its body or None.
pub(crate) fn bodies_of<'f>(
    alloc: Global,
    items: &[FlatItem],
    formulas: &'f [FlatFormula],
) -> Result<Vec<Option<&'f FlatExpr>>, NoMemory>
    // Only definitions and actuals have bodies, and none has two.
    requires held { AllByRecursion (FormHolds (map (λ m. m.kind) items.now)) (map form_plain formulas.now) }
    requires apart { are_distinct (body_numbers (map form_plain formulas.now)) ≡ true }
    ensures { IfOk result (λ bodies. AreItemBodies items.now (map form_plain formulas.now) bodies.items) }
{
    let mut bodies = no_bodies(alloc, items)?;
    for formula in formulas {
        add_formula(formula, &mut bodies);
    }
    Ok(bodies)
}

fn no_bodies<'f>(alloc: Global, items: &[FlatItem]) -> Result<Vec<Option<&'f FlatExpr>>, NoMemory>
    ensures size { IfOk result (λ bodies. length bodies.items ≡ length items.now) }
    ensures none { IfOk result (λ bodies. (k : ℕ) → bodies_in bodies.items k ≡ None) }
{
    let mut bodies = Vec::new(alloc);
    while bodies.len() < items.len() {
        bodies.push(None)?;
    }
    Ok(bodies)
}

// Adds the formula, if it is a body.
fn add_formula<'f>(formula: &'f FlatFormula, bodies: &mut Vec<Option<&'f FlatExpr>>)
    requires { CanAdd bodies.old.items formula.now.role }
    ensures { Added bodies.old.items bodies.new.items formula.now.role (plain_flat formula.now.body) }
{
    match formula.role {
        Role::Body(k) => add_body(k, &formula.body, bodies),
        Role::Assign(_, _) => {}
        Role::Init => {}
        Role::Trans => {}
        Role::Invar => {}
        Role::Invariant => {}
    }
}

// Sets the body of an item.
fn add_body<'f>(k: u32, body: &'f FlatExpr, bodies: &mut Vec<Option<&'f FlatExpr>>)
    requires { CanAdd bodies.old.items (OfRole.Body k) }
    ensures { Added bodies.old.items bodies.new.items (OfRole.Body k) (plain_flat body.now) }
{
    bodies[k as usize] = Some(body);
}
