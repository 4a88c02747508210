// The number of nodes of forms: their atoms and lists.
ghost use Rattle.std.specs.Prelude.{◌≡◌, ◌+◌, ◌≤◌, ◌^◌, min};
ghost use Rattle.moxi_sexpr.specs.Tree.{all_nodes, nodes, plain, plain_forms};

use crate::form::{Form, FormShape};

/// The number at which a count of nodes stops: 32 bits can't number as many.
pub const MANY_NODES: usize = 1 << 32;

// Adds the nodes of a form to a count.
#[cycle(count)]
#[inline(never)]
fn add_nodes(form: &Form, count: usize) -> usize
    requires { count ≤ 2 ^ 32 }
    ensures { result ≡ min (count + nodes (plain form.now)) (2 ^ 32) }
{
    if count == MANY_NODES {
        return count;
    }
    match &form.shape {
        FormShape::Atom(_) => count + 1,
        FormShape::List(parts) => add_all_nodes(parts, count + 1),
    }
}

// Adds the nodes of forms to a count.
#[cycle(count)]
#[inline(never)]
fn add_all_nodes(forms: &[Form], count: usize) -> usize
    requires { count ≤ 2 ^ 32 }
    ensures { result ≡ min (count + all_nodes (plain_forms forms.now)) (2 ^ 32) }
{
    let mut all = count;
    for form in forms {
        all = add_nodes(form, all);
    }
    all
}

/// Returns the number of nodes of a form, or `MANY_NODES` where there are as many or more.
pub fn count_nodes(form: &Form) -> usize
    ensures { result ≡ min (nodes (plain form.now)) (2 ^ 32) }
{
    add_nodes(form, 0)
}

/// Returns the number of nodes of forms, or `MANY_NODES` where there are as many or more.
pub fn count_all_nodes(forms: &[Form]) -> usize
    ensures { result ≡ min (all_nodes (plain_forms forms.now)) (2 ^ 32) }
{
    add_all_nodes(forms, 0)
}
