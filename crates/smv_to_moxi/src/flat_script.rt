// The script of a model's flat form.
ghost use Rattle.std.specs.Prelude.{◌≡◌, IfOk};
ghost use Rattle.moxi_scripts.specs.ScriptView.{plain_script};
ghost use Rattle.smv_flatten.specs.FlatModel.{flat_plain};
ghost use Rattle.smv_script.specs.Script.{script_of};
ghost use Rattle.smv_to_moxi.specs.Bounds.{IsBounded};
ghost use Rattle.smv_to_moxi.specs.SingleView.{plain_single};

use crate::script::{SingleScript, assembled, single_in};
use moxi_scripts::Script;
use moxi_terms::Scope;
use smv_flatten::Flat;
use smv_script_laws::{
    brackets_are_few, counts_are_weighed, heights_are_low, scripts_are_spelled, sizes_are_weighed,
};
use std::alloc::Global;
use text_core::NoMemory;

/// Returns the MoXI script of a flat form, with its only system by value so that the system's formulas can be moved.
///
/// It fails only if memory runs out.
pub fn to_single(alloc: Global, flat: &Flat) -> Result<SingleScript, NoMemory>
    ensures { IfOk result (λ s. plain_single s ≡ script_of (flat_plain flat.now) flat.now.width) }
{
    flat.is_of_model();
    let mut scope = Scope::new(alloc);
    let single = single_in(alloc, flat.width(), flat.parts(), &mut scope);
    drop(scope);
    single
}

/// Returns the MoXI script of a flat form (MoXI, SPIN 2024).
///
/// The script has one system with a variable for each item. For each invariant it has a query that is met by a state
/// that breaks the invariant. Its size is linear in the model's weight. The height of its terms and the nesting of its
/// brackets are bounded by constants. It fails only if memory runs out.
pub fn to_moxi(alloc: Global, flat: &Flat) -> Result<Script, NoMemory>
    ensures script { IfOk result (λ s. plain_script s ≡ script_of (flat_plain flat.now) flat.now.width) }
    ensures bounded { IfOk result (λ s. IsBounded flat.now.weight (plain_script s)) }
{
    flat.is_of_model();
    scripts_are_spelled();
    sizes_are_weighed();
    counts_are_weighed();
    heights_are_low();
    brackets_are_few();
    let SingleScript {
        logic,
        mut scope,
        system,
        check,
    } = to_single(alloc, flat)?;
    let script = assembled(alloc, logic, &mut scope, system, check);
    drop(scope);
    script
}
