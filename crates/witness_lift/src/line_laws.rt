// Laws of the lines of a model's script. These functions only cite other laws.
ghost use Rattle.witness_lift.specs.LineLaws.{ModelLinesAreCounted, ModelLinesAreLaidOut, ModelLinesAreShared, ModelLinesAreSpelled, ModelsHaveFlatSystems, ModelsHaveFrames};

use btor_tree::{one_reading, printed_spells};
use moxi_flat::{flat_systems_are_sorted, single_systems_are_flat, traces_have_flat_traces};
use moxi_layout::{
    bads_are_queries, flat_sizes_are_script_sizes, lines_are_counted, lines_lay_out,
    lines_stay_few, no_duplicate_lines, traces_have_frames,
};
use smv_script_laws::{
    counts_are_weighed, runs_are_traces, scripts_are_small, scripts_are_valid, sizes_are_weighed,
    symbols_are_weighed,
};

/// Proves that the script of an accepted model has a flat system: it is within all limits, and its variables have
/// distinct names.
pub fn models_have_flat_systems()
    ensures { ModelsHaveFlatSystems }
{
    scripts_are_valid();
    scripts_are_small();
    single_systems_are_flat();
}

/// Proves that the lines of an accepted model lay out the flat system of its script, are well formed, and have enough
/// ids.
pub fn model_lines_are_laid_out()
    ensures { ModelLinesAreLaidOut }
{
    scripts_are_valid();
    scripts_are_small();
    symbols_are_weighed();
    flat_systems_are_sorted();
    flat_sizes_are_script_sizes();
    lines_stay_few();
    lines_lay_out();
}

/// Proves that an accepted model can break an invariant after k steps exactly where its lines can reach the bad line at
/// frame k.
///
/// The lines have a bad line for each invariant. They reach it with frames 0 to k in which every constraint is true and
/// the bad line is true in frame k. The model breaks the invariant with a run of k transitions whose last state breaks
/// it.
pub fn models_have_frames()
    ensures { ModelsHaveFrames }
{
    model_lines_are_laid_out();
    scripts_are_valid();
    runs_are_traces();
    traces_have_flat_traces();
    traces_have_frames();
    bads_are_queries();
}

/// Proves that an accepted model has at most sixteen lines for each token of its weight, plus 200.
pub fn model_lines_are_counted()
    ensures { ModelLinesAreCounted }
{
    model_lines_are_laid_out();
    scripts_are_valid();
    flat_sizes_are_script_sizes();
    single_systems_are_flat();
    sizes_are_weighed();
    counts_are_weighed();
    lines_are_counted();
}

/// Proves that no two sorts, constants or operators among the lines of an accepted model are the same.
pub fn model_lines_are_shared()
    ensures { ModelLinesAreShared }
{
    scripts_are_valid();
    flat_systems_are_sorted();
    no_duplicate_lines();
}

/// Proves that the printed lines of an accepted model spell these lines, and no others.
pub fn model_lines_are_spelled()
    ensures { ModelLinesAreSpelled }
{
    model_lines_are_laid_out();
    printed_spells();
    one_reading();
}
