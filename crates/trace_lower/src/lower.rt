// The witness that states a run.
ghost use Rattle.std.specs.Prelude.{◌≡◌, ◌<◌, ◌^◌, ◌++◌, map, length, IfOk, IfErr};
ghost use Rattle.text_core.specs.declared.verdict.Verdict.TheVariants.{Yes};
ghost use Rattle.smv_text.specs.Tree.{PlainSource};
ghost use Rattle.smv_text.specs.View.{plain_source};
ghost use Rattle.smv_meaning.specs.Phases.{IsAccepted};
ghost use Rattle.smv_items.specs.FlatItemView.{item_plain};
ghost use Rattle.smv_flatten.specs.FlatModel.{IsRead, flat_plain, IsFormOf, HasForm};
ghost use Rattle.smv_numbered.specs.Runs.{IsNumbered, run_in};
ghost use Rattle.trace_lower.specs.Ends.{IsLowerEnd};
ghost use Rattle.trace_lower.specs.Lowered.{lowered, verdict_on};
ghost use Rattle.trace_lower.specs.Stating.{frame_of as frame_in, variable_count};

use crate::frames::frame_of;
use crate::words::Coder;
use btor_witness::{FrameList, Witness};
use smv_flatten::{Flat, FlatEnd, flatten};
use smv_items::FlatItem;
use smv_judge::{TakesRows, judge_numbered_rows, judge_rows};
use smv_meaning::Run;
use smv_numbered::NumberedRun;
use smv_operators::Seen;
use smv_text::Source;
use std::alloc::Global;
use text_core::{Clause, NoMemory, Verdict};

/// The reason why a run is not lowered.
#[derive(Clone, Copy, Debug, PartialEq, Eq)]
pub enum LowerEnd {
    /// The judge says No: the earliest failing step, and its first failing clause.
    No(u32, Clause),
    /// Out of memory.
    NoMemory,
}

impl From<NoMemory> for LowerEnd {
    ghost use Rattle.std.specs.Prelude.{◌≡◌};
    ghost use Rattle.trace_lower.specs.declared.lower.LowerEnd.TheVariants as Of;

    ghost from_gives = { λ _ e. e ≡ Of.NoMemory };

    fn from(_: NoMemory) -> LowerEnd {
        LowerEnd::NoMemory
    }
}

// The frames of the rows that the judge hands on.
#[derive(Drop)]
struct FrameRows<'a> {
    items: &'a [FlatItem],
    coder: Coder<'a>,
    frames: FrameList,
}

impl<'a> TakesRows for FrameRows<'a> {
    ghost took = { λ start rows now. (variable_count (map item_plain start.items.now) < 2 ^ 32) × (now.items.now ≡ start.items.now) × (now.coder ≡ start.coder) × (now.frames ≡ start.frames ++ map (frame_in start.coder (map item_plain start.items.now)) rows) };

    fn take_row(&mut self, alloc: Global, values: &[Seen]) -> Result<(), NoMemory> {
        let frame = frame_of(alloc, self.items, &self.coder, values)?;
        self.frames.push(frame)
    }
}

/// Returns the witness that states a run of a model with this flat form (NuSMV 2.6 User Manual, 2.3 and 2.4; BTOR2, CAV
/// 2018).
///
/// It has a frame for each state. The frame states the word of each variable's value as that of its input, and no
/// state. A state or frozen variable has its value in the state, an input its value in the label of the transition that
/// leaves it. A definition or an actual has its value under both. The last state has no such label: there each input
/// has the first value of its type.
///
/// `Err` is the judge's verdict where it says No to the run and invariant j, with the step and the clause. Otherwise
/// `Err` is out of memory. Time and memory are linear in the states times the items.
pub fn lower_flat(alloc: Global, flat: &Flat, j: u32, run: &Run) -> Result<Witness, LowerEnd>
    requires model { HasForm flat.now }
    requires few { length run.now.states < 2 ^ 32 }
    ensures lowered { IfOk result (λ w. (source : PlainSource) → IsFormOf source flat.now → w ≡ lowered source j run.now) }
    ensures judged { IfOk result (λ w. (source : PlainSource) → IsFormOf source flat.now → verdict_on source j run.now ≡ Yes) }
    ensures refused { IfErr result (λ e. (source : PlainSource) → IsFormOf source flat.now → IsLowerEnd source j run.now e) }
{
    let frames = FrameList::with_capacity(alloc, run.states.len())?;
    let mut rows = FrameRows {
        items: flat.items().as_slice(),
        coder: Coder::of(flat),
        frames,
    };
    match judge_rows(alloc, flat, j, run, false, &mut rows)? {
        Verdict::Yes => Ok(Witness {
            bad: j,
            frames: rows.frames,
        }),
        Verdict::No(step, clause) => Err(LowerEnd::No(step, clause)),
    }
}

/// Returns the witness that `lower_flat` returns for the run that is stated by the numbers of the flat form's items.
///
/// No name is looked up, and no list of names is made.
pub fn lower_numbered(
    alloc: Global,
    flat: &Flat,
    j: u32,
    run: &NumberedRun,
) -> Result<Witness, LowerEnd>
    requires model { HasForm flat.now }
    requires few { length run.now.ends < 2 ^ 32 }
    requires numbered { IsNumbered run.now }
    ensures lowered { IfOk result (λ w. (source : PlainSource) → IsFormOf source flat.now → w ≡ lowered source j (run_in (flat_plain flat.now).items run.now)) }
    ensures judged { IfOk result (λ w. (source : PlainSource) → IsFormOf source flat.now → verdict_on source j (run_in (flat_plain flat.now).items run.now) ≡ Yes) }
    ensures refused { IfErr result (λ e. (source : PlainSource) → IsFormOf source flat.now → IsLowerEnd source j (run_in (flat_plain flat.now).items run.now) e) }
{
    let frames = FrameList::with_capacity(alloc, run.ends.len())?;
    let mut rows = FrameRows {
        items: flat.items().as_slice(),
        coder: Coder::of(flat),
        frames,
    };
    match judge_numbered_rows(alloc, flat, j, run, &mut rows)? {
        Verdict::Yes => Ok(Witness {
            bad: j,
            frames: rows.frames,
        }),
        Verdict::No(step, clause) => Err(LowerEnd::No(step, clause)),
    }
}

/// Returns the witness that states a run of a parsed model, as `lower_flat` does for the model's flat form.
///
/// By the laws of this crate, the judge accepts the witness for all lines that lay the model's system out. The witness
/// is lifted to the same run.
pub fn lower_smv(alloc: Global, source: &Source, j: u32, run: &Run) -> Result<Witness, LowerEnd>
    // A text parses to the model, its checks hold, and it has the invariant.
    requires read { IsRead (plain_source source.now) }
    requires accepted { IsAccepted (plain_source source.now) j }
    requires few { length run.now.states < 2 ^ 32 }
    ensures lowered { IfOk result (λ w. w ≡ lowered (plain_source source.now) j run.now) }
    ensures judged { IfOk result (λ w. verdict_on (plain_source source.now) j run.now ≡ Yes) }
    ensures refused { IfErr result (IsLowerEnd (plain_source source.now) j run.now) }
{
    match flatten(alloc, source, j) {
        Ok(flat) => lower_flat(alloc, &flat, j, run),
        Err(FlatEnd::Bad(_)) => unreachable!(),
        Err(FlatEnd::NoMemory) => Err(LowerEnd::NoMemory),
    }
}
