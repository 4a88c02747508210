// Printing of checks.
ghost use Rattle.std.specs.Prelude.{◌≡◌, ◌++◌, ◌∷◌, [], map, OnOk, IfOk};
ghost use Rattle.moxi_term_print.specs.Shown.{parts_text, text_of};
ghost use Rattle.moxi_script_print.specs.Printing.{all_queries, attribute, query_names, shown_query, shown_check, shown_conditions, shown_label, shown_labels, shown_queries};
ghost use Rattle.moxi_scripts.specs.Valid.{formula_names};
ghost use Rattle.moxi_scripts.specs.Script.{plain_check, plain_formula};
ghost use Rattle.text_core.specs.Bytes.{bytes_behind};

use crate::print_parts::{
    name_in, push, push_names_of, put_head, put_keyword, put_lists, put_names, variables_of,
};
use moxi_scripts::{Check, Formula, Formulas, Queries, Query};
use moxi_sexpr::put_symbol;
use moxi_term_print::put_term_over;
use moxi_terms::Scope;
use std::alloc::Global;
use text_core::{NoMemory, Text};

// Appends `(name term)`.
fn put_pair(
    alloc: Global,
    out: &mut Text,
    scope: &Scope,
    variables: &[&[u8]],
    formula: &Formula,
) -> Result<(), NoMemory>
    ensures { OnOk result (out.new ≡ out.old ++ text_of (shown_label scope.now (map bytes_behind variables.now) (plain_formula formula.now))) }
{
    out.put(b"(")?;
    put_symbol(out, formula.name.bytes(), false)?;
    out.put(b" ")?;
    put_term_over(alloc, out, scope, variables, &formula.term)?;
    out.put(b")")
}

#[tactic(auto, using(crate::proofs::Pieces::pieces))]
fn put_label(
    alloc: Global,
    out: &mut Text,
    scope: &Scope,
    variables: &[&[u8]],
    keyword: &[u8],
    formula: &Formula,
) -> Result<(), NoMemory>
    ensures { OnOk result (out.new ≡ out.old ++ parts_text (32 ∷ []) (attribute keyword.now (shown_label scope.now (map bytes_behind variables.now) (plain_formula formula.now)))) }
{
    put_keyword(out, keyword)?;
    put_pair(alloc, out, scope, variables, formula)
}

// Appends formulas of one kind, each after the keyword.
#[tactic(auto, using(crate::proofs::Pieces::pieces))]
fn put_labels(
    alloc: Global,
    out: &mut Text,
    scope: &Scope,
    variables: &[&[u8]],
    keyword: &[u8],
    formulas: &Formulas,
) -> Result<(), NoMemory>
    ensures { OnOk result (out.new ≡ out.old ++ parts_text (32 ∷ []) (shown_labels scope.now (map bytes_behind variables.now) keyword.now (map plain_formula formulas.now))) }
{
    for formula in formulas {
        put_label(alloc, out, scope, variables, keyword, formula)?;
    }
    Ok(())
}

// The names of formulas.
fn formula_names<'a>(alloc: Global, formulas: &'a Formulas) -> Result<Vec<&'a [u8]>, NoMemory>
    ensures { IfOk result (λ names. map bytes_behind names.items ≡ formula_names (map plain_formula formulas.now)) }
{
    let mut names = Vec::new(alloc);
    for formula in formulas {
        push(&mut names, formula.name.bytes())?;
    }
    Ok(names)
}

// The names in a query, given those of all formulas.
fn query_names<'a>(
    alloc: Global,
    assumptions: &[&'a [u8]],
    currents: &[&'a [u8]],
    reachables: &[&'a [u8]],
    query: &Query,
) -> Result<Vec<&'a [u8]>, NoMemory>
    ensures { IfOk result (λ names. map bytes_behind names.items ≡ query_names (map bytes_behind assumptions.now) (map bytes_behind currents.now) (map bytes_behind reachables.now) query.now) }
{
    let mut names = Vec::new(alloc);
    push_names_of(&mut names, assumptions, &query.assumptions)?;
    push_names_of(&mut names, currents, &query.currents)?;
    push_names_of(&mut names, reachables, &query.reachables)?;
    Ok(names)
}

fn put_query(
    alloc: Global,
    out: &mut Text,
    assumptions: &[&[u8]],
    currents: &[&[u8]],
    reachables: &[&[u8]],
    query: &Query,
) -> Result<(), NoMemory>
    ensures { OnOk result (out.new ≡ out.old ++ parts_text (32 ∷ []) (shown_query (map bytes_behind assumptions.now) (map bytes_behind currents.now) (map bytes_behind reachables.now) query.now)) }
{
    let names = query_names(alloc, assumptions, currents, reachables, query)?;
    put_names(out, b"query", query.name.bytes(), &names)
}

#[tactic(auto, using(crate::proofs::Pieces::pieces))]
fn put_queries(
    alloc: Global,
    out: &mut Text,
    assumptions: &[&[u8]],
    currents: &[&[u8]],
    reachables: &[&[u8]],
    queries: &Queries,
) -> Result<(), NoMemory>
    ensures { OnOk result (out.new ≡ out.old ++ parts_text (32 ∷ []) (shown_queries (map bytes_behind assumptions.now) (map bytes_behind currents.now) (map bytes_behind reachables.now) queries.now)) }
{
    for query in queries {
        put_query(alloc, out, assumptions, currents, reachables, query)?;
    }
    Ok(())
}

fn put_all_queries(alloc: Global, out: &mut Text, check: &Check) -> Result<(), NoMemory>
    ensures { OnOk result (out.new ≡ out.old ++ parts_text (32 ∷ []) (all_queries (plain_check check.now))) }
{
    let assumptions = formula_names(alloc, &check.assumptions)?;
    let currents = formula_names(alloc, &check.currents)?;
    let reachables = formula_names(alloc, &check.reachables)?;
    put_queries(
        alloc,
        out,
        &assumptions,
        &currents,
        &reachables,
        &check.queries,
    )
}

#[tactic(auto, using(crate::proofs::Pieces::pieces), unfolding(crate::specs::Printing::shown_conditions))]
fn put_conditions(
    alloc: Global,
    out: &mut Text,
    scope: &Scope,
    variables: &[&[u8]],
    check: &Check,
) -> Result<(), NoMemory>
    ensures { OnOk result (out.new ≡ out.old ++ parts_text (32 ∷ []) (shown_conditions scope.now (map bytes_behind variables.now) (plain_check check.now))) }
{
    put_labels(
        alloc,
        out,
        scope,
        variables,
        b"assumption",
        &check.assumptions,
    )?;
    put_labels(alloc, out, scope, variables, b"current", &check.currents)?;
    put_labels(
        alloc,
        out,
        scope,
        variables,
        b"reachable",
        &check.reachables,
    )?;
    put_all_queries(alloc, out, check)
}

/// Appends `(check-system S ..)`, given the names of all systems.
///
/// Its lists are always written. Each query is a separate attribute, with its names in the order assumptions, current
/// conditions, reachable formulas.
#[tactic(auto, using(crate::proofs::Pieces::pieces))]
pub fn put_check(
    alloc: Global,
    out: &mut Text,
    scope: &Scope,
    systems: &[&[u8]],
    check: &Check,
) -> Result<(), NoMemory>
    ensures { OnOk result (out.new ≡ out.old ++ text_of (shown_check scope.now (map bytes_behind systems.now) (plain_check check.now))) }
{
    let variables = variables_of(alloc, &check.inputs, &check.outputs, &check.locals)?;
    put_head(out, b"check-system", name_in(systems, check.system as u64))?;
    put_lists(out, scope, &check.inputs, &check.outputs, &check.locals)?;
    put_conditions(alloc, out, scope, &variables, check)?;
    out.put(b")")
}
