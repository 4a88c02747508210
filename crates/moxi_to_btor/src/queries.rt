// The lines of queries.
ghost use Rattle.std.specs.Prelude.{◌≡◌, ◌++◌, codes, IfOk, OnOk};
ghost use Rattle.moxi_lines.specs.Lines.{has_conditions, with_all_met, with_goal, with_one_met, with_queries, with_query, with_reachable, with_reachables};
ghost use Rattle.moxi_to_btor.specs.Queries.{CanPutAllMet, CanPutGoal, CanPutOneMet, CanPutQueries, CanPutQuery, CanPutReachable, CanPutReachables, CanPutSeveral, reaching, several_lines, whole_goal};

use crate::chains::put_chain;
use crate::conditions::{ZERO, put_conditions, put_latch, put_numbered};
use crate::lines::{joined, put_bad, put_given, put_place};
use crate::words::put_binary;
use btor_tree::{Builder, LineOp};
use moxi_instantiate::FlatSystem;
use moxi_scripts::{Queries, Query};
use std::alloc::Global;
use text_core::NoMemory;
use word_core::Binary;

// The name of the state that records whether a query's formula has been true so far.
fn seen_name(alloc: Global, name: &[u8], formula: &[u8]) -> Result<Vec<u8>, NoMemory>
    ensures { IfOk result (λ all. all.items ≡ name.now ++ (codes "." ++ (formula.now ++ codes ".seen"))) }
{
    let behind = joined(alloc, formula, b".seen")?;
    let dotted = joined(alloc, b".", &behind)?;
    joined(alloc, name, &dotted)
}

// The lines of one of several reachable formulas: a state that starts as zero, and is one after the formula was true.
// Appends the place of the formula, and the place of whether it has been true up to this frame.
fn put_reachable(
    alloc: Global,
    builder: &mut Builder,
    system: &FlatSystem,
    inputs: &[u32],
    name: &[u8],
    number: u64,
    formulas: &mut Vec<u32>,
    seen: &mut Vec<u32>,
) -> Result<(), NoMemory>
    requires { CanPutReachable system.now inputs.now name.now (reaching builder.old formulas.old.items seen.old.items) number }
    ensures { OnOk result (reaching builder.new formulas.new.items seen.new.items ≡ with_reachable system.now inputs.now name.now (reaching builder.old formulas.old.items seen.old.items) number) }
{
    let reachables = system.reachables();
    let name = seen_name(alloc, name, reachables.at(number as usize).name.bytes())?;
    let latch = put_latch(alloc, builder, &name, ZERO)?;
    let place = put_numbered(alloc, builder, system.scope(), inputs, reachables, number)?;
    let met = put_binary(builder, Binary::Or, latch, place)?;
    put_given(builder, LineOp::Next, 1, latch, met)?;
    put_place(formulas, place)?;
    put_place(seen, met)
}

fn put_reachables(
    alloc: Global,
    builder: &mut Builder,
    system: &FlatSystem,
    inputs: &[u32],
    name: &[u8],
    numbers: &[u64],
    formulas: &mut Vec<u32>,
    seen: &mut Vec<u32>,
) -> Result<(), NoMemory>
    requires { CanPutReachables system.now inputs.now name.now (reaching builder.old formulas.old.items seen.old.items) numbers.now }
    ensures { OnOk result (reaching builder.new formulas.new.items seen.new.items ≡ with_reachables system.now inputs.now name.now (reaching builder.old formulas.old.items seen.old.items) numbers.now) }
{
    for number in numbers {
        put_reachable(
            alloc, builder, system, inputs, name, *number, formulas, seen,
        )?;
    }
    Ok(())
}

fn joined_places(alloc: Global, places: &[u32], more: &[u32]) -> Result<Vec<u32>, NoMemory>
    ensures { IfOk result (λ all. all.items ≡ places.now ++ more.now) }
{
    let mut all = Vec::from_slice(alloc, places)?;
    all.extend_from_slice(more)?;
    Ok(all)
}

// The lines of whether each formula has been true, and at least one of them is true now.
fn put_all_met(
    alloc: Global,
    builder: &mut Builder,
    formulas: &[u32],
    seen: &[u32],
    before: &[u32],
) -> Result<u32, NoMemory>
    requires { CanPutAllMet (reaching builder.old formulas.now seen.now) before.now }
    ensures { IfOk result (λ p. (builder.new, p) ≡ with_all_met (reaching builder.old formulas.now seen.now) before.now) }
{
    let parts = joined_places(alloc, before, seen)?;
    let all = put_chain(builder, Binary::And, &parts)?;
    let some = put_chain(builder, Binary::Or, formulas)?;
    put_binary(builder, Binary::And, all, some)
}

// The lines of whether the only formula is true, and the conditions, if there are any, have held.
fn put_one_met(builder: &mut Builder, place: u32, before: &[u32]) -> Result<u32, NoMemory>
    requires { CanPutOneMet builder.old place before.now }
    ensures { IfOk result (λ p. (builder.new, p) ≡ with_one_met (builder.old, place) before.now) }
{
    match before.first() {
        Some(chain) => put_binary(builder, Binary::And, *chain, place),
        None => Ok(place),
    }
}

// The lines of a query with several reachable formulas.
fn put_several(
    alloc: Global,
    builder: &mut Builder,
    system: &FlatSystem,
    inputs: &[u32],
    query: &Query,
    before: &[u32],
) -> Result<u32, NoMemory>
    requires { CanPutSeveral system.now inputs.now query.now before.now builder.old }
    ensures { IfOk result (λ p. (builder.new, p) ≡ several_lines system.now inputs.now query.now before.now builder.old) }
{
    let mut formulas = Vec::new(alloc);
    let mut seen = Vec::new(alloc);
    put_reachables(
        alloc,
        builder,
        system,
        inputs,
        query.name.bytes(),
        query.reachables.as_slice(),
        &mut formulas,
        &mut seen,
    )?;
    put_all_met(alloc, builder, &formulas, &seen, before)
}

// The lines of a query, given the place of the chain of its conditions, if there is one.
fn put_goal(
    alloc: Global,
    builder: &mut Builder,
    system: &FlatSystem,
    inputs: &[u32],
    query: &Query,
    before: &[u32],
) -> Result<u32, NoMemory>
    requires { CanPutGoal system.now inputs.now query.now before.now builder.old }
    ensures { IfOk result (λ p. (builder.new, p) ≡ with_goal system.now inputs.now query.now before.now builder.old query.now.reachables) }
{
    if query.reachables.len() == 1 {
        let number = *query.reachables.at(0);
        let place = put_numbered(
            alloc,
            builder,
            system.scope(),
            inputs,
            system.reachables(),
            number,
        )?;
        put_one_met(builder, place, before)
    } else {
        put_several(alloc, builder, system, inputs, query, before)
    }
}

// Whether a query has assumptions or current conditions.
fn has_conditions(query: &Query) -> bool
    ensures { result ≡ has_conditions query.now.assumptions query.now.currents }
{
    query.assumptions.len() != 0 || query.currents.len() != 0
}

// The lines of a query, after those of its conditions if it has any.
fn put_whole_goal(
    alloc: Global,
    builder: &mut Builder,
    system: &FlatSystem,
    inputs: &[u32],
    query: &Query,
) -> Result<u32, NoMemory>
    requires { CanPutQuery system.now inputs.now builder.old query.now }
    ensures { IfOk result (λ p. (builder.new, p) ≡ whole_goal system.now inputs.now builder.old query.now) }
{
    if has_conditions(query) {
        let chain = put_conditions(alloc, builder, system, inputs, query)?;
        put_goal(alloc, builder, system, inputs, query, &[chain])
    } else {
        put_goal(alloc, builder, system, inputs, query, &[])
    }
}

fn put_query(
    alloc: Global,
    builder: &mut Builder,
    system: &FlatSystem,
    inputs: &[u32],
    query: &Query,
) -> Result<(), NoMemory>
    requires { CanPutQuery system.now inputs.now builder.old query.now }
    ensures { OnOk result (builder.new ≡ with_query system.now inputs.now builder.old query.now) }
{
    let place = put_whole_goal(alloc, builder, system, inputs, query)?;
    put_bad(alloc, builder, query.name.bytes(), place)
}

/// Adds the lines of queries, each of which ends with its bad line.
pub fn put_queries(
    alloc: Global,
    builder: &mut Builder,
    system: &FlatSystem,
    inputs: &[u32],
    queries: &Queries,
) -> Result<(), NoMemory>
    requires { CanPutQueries system.now inputs.now builder.old queries.now }
    ensures { OnOk result (builder.new ≡ with_queries system.now inputs.now builder.old queries.now) }
{
    for query in queries.as_slice() {
        put_query(alloc, builder, system, inputs, query)?;
    }
    Ok(())
}
