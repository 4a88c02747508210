// The advice for each clause that a stated run fails, and for the notes without a place.
ghost use Rattle.std.specs.Prelude.{◌≡◌};
ghost use Rattle.explain_core.specs.Advice.{clause_advice, plain_advice};

use crate::advice::Advice;
use text_core::Clause;

/// The advice where the words are no command, which `COMMANDS` follows.
pub const USAGE: Advice = (
    b"These words are no command.",
    b"Use one of these commands.",
);

/// The advice where a file could not be read.
pub const READ_FAULT: Advice = (
    b"This file could not be opened or read.",
    b"Check its name and its folder, and that you may read it.",
);

/// The advice where the output could not be written.
pub const WRITE_FAULT: Advice = (
    b"The output could not be written.",
    b"Check that there is room, and that the program that reads the output still runs.",
);

/// The advice where the run was out of memory.
pub const NO_MEMORY: Advice = (
    b"There was no memory for this run.",
    b"Free memory, or give a smaller model.",
);

/// The help on the commands, one command per line.
pub const COMMANDS: [&[u8]; 12] = [
    b"    smv2btor MODEL           write an SMV model as BTOR2\n",
    b"    smv2moxi MODEL           write an SMV model as MoXI\n",
    b"    moxi2btor MODEL          write a MoXI script as BTOR2\n",
    b"    btor2moxi MODEL          write a BTOR2 text as MoXI\n",
    b"    simplify MODEL           write a smaller BTOR2 text with the same witnesses\n",
    b"    judge-smv MODEL SECOND   judge a trace of an SMV model; --property J names the invariant\n",
    b"    judge-moxi MODEL SECOND  judge a response to a MoXI script\n",
    b"    judge-btor MODEL SECOND  judge a witness for a BTOR2 text\n",
    b"    lift-smv MODEL SECOND    write a witness as a trace of the SMV model\n",
    b"    lift-moxi MODEL SECOND   write a witness as a response to the MoXI script\n",
    b"    lower MODEL SECOND       write a trace of the SMV model as a witness; --property J names the invariant\n",
    b"    generate NUMBER          make a model of 1 to 1000 cells and its witness, and go the whole way\n",
];

const VALUE_OUTSIDE: Advice = (
    b"A value of this step is none of its variable's type.",
    b"State values of the declared ranges and enumerations.",
);

const INIT_FAILS: Advice = (
    b"The first state breaks INIT, an `init(x) :=` or `:init`.",
    b"Compare the values of step 0 with these formulas.",
);

const TRANS_FAILS: Advice = (
    b"The step to this state breaks TRANS, a `next(x) :=` or `:trans`, or changes a frozen variable.",
    b"Compare this state and the one before it with these formulas.",
);

const INVAR_FAILS: Advice = (
    b"This state breaks INVAR, an `x :=` or `:inv`.",
    b"Compare the values of this step with these formulas.",
);

const ASSUMPTION_FAILS: Advice = (
    b"An `:assumption` of the query is false in this step.",
    b"Give a run that keeps the assumptions, or leave them out of the query.",
);

const CURRENT_FAILS: Advice = (
    b"A `:current` formula of the query is false in step 0.",
    b"Give a run that begins in such a state, or leave the formula out of the query.",
);

const STATE_DIFFERS: Advice = (
    b"A state that the witness gives differs from what its init or next says.",
    b"Give the witness with the text that it was made for.",
);

const CONSTRAINT_FAILS: Advice = (
    b"A constraint line is false in this frame.",
    b"Give the witness with the text that it was made for.",
);

const NOT_BROKEN: Advice = (
    b"The run is one of the model, but its last step keeps the invariant, or misses the bad line or the query.",
    b"Give a run whose last step does so; where it breaks another invariant, name that one by `--property`.",
);

/// Returns the advice for a clause that a stated run fails.
pub fn clause_advice(clause: Clause) -> Advice
    ensures { plain_advice result ≡ clause_advice clause }
{
    match clause {
        Clause::ValueOutside => VALUE_OUTSIDE,
        Clause::InitFails => INIT_FAILS,
        Clause::TransFails => TRANS_FAILS,
        Clause::InvarFails => INVAR_FAILS,
        Clause::AssumptionFails => ASSUMPTION_FAILS,
        Clause::CurrentFails => CURRENT_FAILS,
        Clause::StateDiffers => STATE_DIFFERS,
        Clause::ConstraintFails => CONSTRAINT_FAILS,
        Clause::NotBroken => NOT_BROKEN,
    }
}
