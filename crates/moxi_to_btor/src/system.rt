// The lines of a flat system.
ghost use Rattle.std.specs.Prelude.{◌≡◌, ◌+◌, ◌-◌, ◌*◌, ◌^◌, min, [], length, IfOk, OnOk};
ghost use Rattle.btor_tree.specs.Sharing.{HasNoDuplicates};
ghost use Rattle.moxi_lines.specs.TermLaws.{HaveCodes};
ghost use Rattle.moxi_lines.specs.Lines.{head_lines, lines_of};
ghost use Rattle.moxi_to_btor.specs.Systems.{AreFew, IsKnown, constant_lines};

use crate::conditions::{ONE, ZERO};
use crate::lines::{put_free, put_given};
use crate::parts::{FIRST, put_parts};
use crate::queries::put_queries;
use crate::variables::put_variables;
use btor_tree::{Builder, LineOp, Nodes, no_args};
use moxi_instantiate::FlatSystem;
use moxi_terms::Enumeration;
use std::alloc::Global;
use text_core::{List, NoMemory};

// Proves that each enumeration has few enough constants to be coded as words, since a list is no longer than memory. The
// function only reads the lengths of the lists.
fn enumerations_have_codes(enumerations: &List<Enumeration>)
    ensures { HaveCodes enumerations.now }
{
    for enumeration in enumerations.as_slice() {
        let _ = enumeration.constants.len();
    }
}

// Proves that variables have sorts of the scope, formulas are truth values, and queries name existing formulas. There are
// fewer lines than ids, and few lines where each query names one formula.
fn system_is_known(system: &FlatSystem)
    ensures known { IsKnown system.now }
    ensures few { HaveCodes system.now.scope.enumerations → AreFew system.now (lines_of system.now) }
{
    system.is_sorted();
    system.is_within_limits();
}

// The sort of truth values and the constants one and zero.
fn put_constants(builder: &mut Builder) -> Result<(), NoMemory>
    requires { builder.old ≡ [] }
    ensures { OnOk result (builder.new ≡ constant_lines) }
{
    let sort = builder.sort(1)?;
    builder.push(LineOp::One, sort, no_args(), None)?;
    builder.push(LineOp::Zero, sort, no_args(), None)?;
    Ok(())
}

// The state that is one in frame 0 only.
fn put_first(alloc: Global, builder: &mut Builder) -> Result<(), NoMemory>
    requires { builder.old ≡ constant_lines }
    ensures { OnOk result (builder.new ≡ head_lines) }
{
    put_free(alloc, builder, LineOp::State, 1, b"first")?;
    put_given(builder, LineOp::Init, 1, FIRST, ONE)?;
    put_given(builder, LineOp::Next, 1, FIRST, ZERO)
}

// An estimate of the number of lines: three for each variable, two equations for most variables, each with a conjunction
// that joins it to the others, and a few more.
fn room_for(system: &FlatSystem) -> usize
    ensures { result ≡ min (7 * length system.now.variables + 32) (2 ^ 64 - 1) }
{
    let count = system.variables().len();
    count.saturating_mul(7).saturating_add(32)
}

/// Builds the BTOR2 lines of a flat system: the head, the variables, the formulas of each part, and the queries (BTOR2, CAV
/// 2018).
///
/// It takes time linear in the system's size, except for the search for existing lines. No two sort, constant or operator
/// lines are alike. The number of lines is bounded if each query names one reachable formula and nothing else. There are
/// then at most 2 lines for each unit of the system's size, 6 for each variable and each query, and 150 more.
pub fn to_btor(alloc: Global, system: &FlatSystem) -> Result<Nodes, NoMemory>
    ensures lines { IfOk result (λ nodes. nodes ≡ lines_of system.now) }
    ensures distinct { IfOk result (λ nodes. HasNoDuplicates nodes) }
    ensures few { IfOk result (AreFew system.now) }
{
    let scope = system.scope();
    let enumerations = scope.enumerations();
    let _ = scope.functions();
    enumerations_have_codes(enumerations);
    system_is_known(system);
    let mut builder = Builder::new(alloc);
    builder.reserve(room_for(system))?;
    put_constants(&mut builder)?;
    put_first(alloc, &mut builder)?;
    let inputs = put_variables(alloc, &mut builder, enumerations, system.variables())?;
    put_parts(
        alloc,
        &mut builder,
        scope,
        &inputs,
        system.parts().as_slice(),
    )?;
    put_queries(alloc, &mut builder, system, &inputs, system.queries())?;
    Ok(builder.done())
}
