// The judge.
ghost use Rattle.std.specs.Prelude.{◌≡◌, ◌<◌, false, true, IfOk, IfSome, IfNone};
ghost use Rattle.text_core.specs.declared.verdict.Verdict.TheVariants.{No};
ghost use Rattle.btor_tree.specs.Fits as fits;
ghost use Rattle.btor_witness.specs.Sizes.{sizes_of, widths_of};
ghost use Rattle.btor_witness.specs.Printing.{IsPart, IsWitness};
ghost use Rattle.btor_witness.specs.Judging.{statement_of, OnStated, Passes, FailsFirst, judged_btor};
ghost use Rattle.btor_witness.specs.Room.{RoomFits};

use crate::room::Room;
use crate::witness::{Frame, Witness};
use btor_tree::Nodes;
use std::alloc::Global;
use text_core::{Clause, NoMemory, Verdict};

/// Judges a witness: `Yes`, or the earliest step whose frame fails and the first clause that it fails.
///
/// First, the stated words of determined states are compared with the states' own (`StateDiffers`). A state is
/// determined in frame 0 where it has an init, and later where it has a next. Then every constraint has to hold
/// (`ConstraintFails`), and in the last frame alone the bad line (`NotBroken`). A word that is not stated is zero.
/// The caller ensures that this is a witness for the lines: its bad line exists, it has one or more frames, and each
/// part states words of the right widths, each at most once. A step beyond 32 bits is reported as out of memory.
pub fn judge_btor(alloc: Global, nodes: &Nodes, witness: &Witness) -> Result<Verdict, NoMemory>
    requires { IsWitness (sizes_of nodes.now) witness.now }
    ensures { IfOk result (λ verdict. judged_btor nodes.now witness.now verdict) }
{
    let mut room = Room::new(alloc, nodes)?;
    judge_frames(&mut room, nodes, witness)
}

// Judges the frames of a witness, from the state before the first frame.
fn judge_frames(room: &mut Room, nodes: &Nodes, witness: &Witness) -> Result<Verdict, NoMemory>
    requires fits { RoomFits nodes.now room.old }
    requires none { room.old.frames.begun ≡ false }
    requires witness { IsWitness (sizes_of nodes.now) witness.now }
    ensures { IfOk result (λ verdict. judged_btor nodes.now witness.now verdict) }
{
    let frames = witness.frames.len();
    for step in 0..frames {
        let frame = witness.frames.at(step);
        room.step(nodes, frame);
        let failure = failure(room, nodes, frame, step + 1 == frames, witness.bad);
        if let Some(clause) = failure {
            return no(step, clause);
        }
    }
    Ok(Verdict::Yes)
}

// The first clause that the current frame fails.
fn failure(room: &Room, nodes: &Nodes, frame: &Frame, last: bool, j: u32) -> Option<Clause>
    requires fits { RoomFits nodes.now room.now }
    requires begun { room.now.frames.begun ≡ true }
    requires states { IsPart (widths_of fits.is_state nodes.now) frame.now.states }
    requires there { j < fits.count_of fits.is_bad nodes.now }
    ensures some { IfSome result (λ clause. OnStated nodes.now (statement_of frame.now) room.now.frames.row (λ begun. FailsFirst nodes.now j begun last (statement_of frame.now) room.now.frames.row clause)) }
    ensures none { IfNone result (OnStated nodes.now (statement_of frame.now) room.now.frames.row (λ begun. Passes nodes.now j begun last (statement_of frame.now) room.now.frames.row)) }
{
    if !room.agrees(nodes, &frame.states) {
        return Some(Clause::StateDiffers);
    }
    if !room.constraints_hold(nodes) {
        return Some(Clause::ConstraintFails);
    }
    if last && !room.bad(nodes, j) {
        return Some(Clause::NotBroken);
    }
    None
}

fn no(step: usize, clause: Clause) -> Result<Verdict, NoMemory>
    ensures { IfOk result (λ verdict. verdict ≡ No step clause) }
{
    match u32::try_from(step) {
        Ok(step) => Ok(Verdict::No(step, clause)),
        Err(_) => Err(NoMemory),
    }
}
