// The run that a trace of the script's system encodes.
ghost use Rattle.std.specs.Prelude.{◌≡◌, ◌≤◌, ◌<◌, ◌^◌, ◌-◌, map, length, IfOk};
ghost use Rattle.std.specs.List.{AllByRecursion};
ghost use Rattle.word_core.specs.Table.{signed_value};
ghost use Rattle.smv_intervals.specs.View.{seen};
ghost use Rattle.smv_items.specs.FlatItemView.{item_plain};
ghost use Rattle.smv_flatten.specs.FlatModel.{flat_plain};
ghost use Rattle.moxi_terms.specs.Sorts.{IsOf};
ghost use Rattle.smv_script.specs.Codes.{sort_of, value_of};
ghost use Rattle.smv_script.specs.Script.{coding_of, group_start, symbol_sort};
ghost use Rattle.smv_script_laws.specs.Decoding.{run_of};
ghost use Rattle.smv_to_moxi.specs.Lifting.{IsStepOf, IsTraceOf, picks, group_in, inputs_in, read_of, given_here, state_of, label_of};
ghost use Rattle.moxi_scripts.specs.Behaviour.{trace_of};

use moxi_scripts::MoxiTrace;
use moxi_terms::{Datum, Env};
use smv_flatten::{Flat, FlatItem, ItemKind};
use smv_intervals::Ty;
use smv_meaning::{Given, Run, State, States, Value};
use std::alloc::Global;
use text_core::{Name, NoMemory};

// The part of a step that is read: the state, or the label of the transition to the next one.
#[derive(Clone, Copy)]
enum Part {
    State,
    Label,
}

impl Part {
    // A state has a value for each state and frozen variable, a label for each input.
    fn picks(self, kind: ItemKind) -> bool
        ensures { result ≡ picks self kind }
    {
        match kind {
            ItemKind::State | ItemKind::Frozen => matches!(self, Part::State),
            ItemKind::Input => matches!(self, Part::Label),
            ItemKind::Define | ItemKind::Actual => false,
        }
    }
}

// The integer that the bits represent in two's complement.
fn signed_value(width: u32, bits: u128) -> i64
    requires some { 1 ≤ width }
    requires bound { width ≤ 64 }
    requires fits { bits < 2 ^ width }
    ensures { result ≡ signed_value width bits }
{
    let number = bits as i128;
    if bits < 1u128 << (width - 1) {
        number as i64
    } else {
        (number - (1i128 << width)) as i64
    }
}

// The value of the type with this datum.
fn value_of(alloc: Global, flat: &Flat, ty: Ty, datum: Datum) -> Result<Value, NoMemory>
    requires { IsOf (symbol_sort flat.now.symbols) (sort_of flat.now.width (seen ty)) datum }
    ensures { IfOk result (λ value. value ≡ value_of flat.now.symbols (seen ty) datum) }
{
    match (ty, datum) {
        (Ty::Truth, Datum::Truth(truth)) => Ok(Value::Truth(truth)),
        (Ty::Integer(_, _), Datum::Bits(word)) => {
            Ok(Value::Integer(signed_value(flat.width(), word.bits())))
        }
        (Ty::Symbol, Datum::Constant(_, i)) => {
            let symbol = Name::of(alloc, flat.symbols().at(i as usize))?;
            Ok(Value::Symbol(symbol))
        }
        (Ty::Bits(_), Datum::Bits(word)) => Ok(Value::Bits(word)),
        // No type has a datum of another sort.
        _ => Ok(Value::Truth(false)),
    }
}

fn given(alloc: Global, flat: &Flat, item: &FlatItem, datum: Datum) -> Result<Given, NoMemory>
    requires { IsOf (symbol_sort flat.now.symbols) (sort_of flat.now.width (seen item.now.ty)) datum }
    ensures { IfOk result (λ given. given ≡ given_here flat.now.symbols (item_plain item.now) datum) }
{
    let value = value_of(alloc, flat, item.ty, datum)?;
    let name = item.name.duplicate(alloc)?;
    Ok(Given { name, value })
}

// Reads the part's variables, which are consecutive in the system, in flat order from `first` on.
fn read(
    alloc: Global,
    flat: &Flat,
    part: Part,
    first: usize,
    room: usize,
    env: &[Datum],
) -> Result<State, NoMemory>
    requires step { IsStepOf flat.now env.now }
    requires first { first ≡ group_start (map item_plain flat.now.items) (group_in part) }
    ensures { IfOk result (λ state. state ≡ read_of part flat.now env.now) }
{
    let mut state = State::with_capacity(alloc, room)?;
    let mut place = first;
    for item in flat.items().as_slice() {
        if part.picks(item.kind) {
            let given = given(alloc, flat, item, env[place])?;
            state.push(given)?;
            place += 1;
        }
    }
    Ok(state)
}

// The part of each step.
fn read_all(
    alloc: Global,
    flat: &Flat,
    part: Part,
    first: usize,
    envs: &[Env],
) -> Result<States, NoMemory>
    requires steps { AllByRecursion (IsStepOf flat.now) envs.now }
    requires first { first ≡ group_start (map item_plain flat.now.items) (group_in part) }
    ensures { IfOk result (λ states. states ≡ map (read_of part flat.now) envs.now) }
{
    let mut states = States::with_capacity(alloc, envs.len())?;
    // Each step has as many variables as the one before it.
    let mut room = 0;
    for env in envs {
        let state = read(alloc, flat, part, first, room, env.as_slice())?;
        room = state.len();
        states.push(state)?;
    }
    Ok(states)
}

/// Returns the number of inputs among the items of a flat form.
pub fn count_inputs(items: &[FlatItem]) -> usize
    ensures { result ≡ length (inputs_in items.now) }
{
    let mut count = 0;
    for item in items {
        if Part::Label.picks(item.kind) {
            count += 1;
        }
    }
    count
}

/// Returns the state that a step of the system of the flat form's script encodes (MoXI, SPIN 2024).
///
/// `inputs` is the number of inputs of the flat form, which stand first in a step. `room` is the expected number of
/// values.
pub fn lift_state(
    alloc: Global,
    flat: &Flat,
    inputs: usize,
    room: usize,
    env: &[Datum],
) -> Result<State, NoMemory>
    requires step { IsStepOf flat.now env.now }
    requires inputs { inputs ≡ length (inputs_in flat.now.items) }
    ensures { IfOk result (λ state. state ≡ state_of flat.now env.now) }
{
    read(alloc, flat, Part::State, inputs, room, env)
}

/// Returns the label that a step of the system of the flat form's script encodes (MoXI, SPIN 2024).
///
/// It is that of the transition to the next step. `room` is the expected number of values.
pub fn lift_label(alloc: Global, flat: &Flat, room: usize, env: &[Datum]) -> Result<State, NoMemory>
    requires { IsStepOf flat.now env.now }
    ensures { IfOk result (λ label. label ≡ label_of flat.now env.now) }
{
    read(alloc, flat, Part::Label, 0, room, env)
}

/// Returns the run that a trace of the system of the flat form's script encodes (MoXI, SPIN 2024).
///
/// It has a state for each step, and a label for each step but the last. Each names its variables in flat order. (The
/// encoding of values as data is this translator's own.)
pub fn lift_states(alloc: Global, flat: &Flat, trace: &MoxiTrace) -> Result<Run, NoMemory>
    requires { IsTraceOf flat.now trace.now }
    ensures { IfOk result (λ run. run ≡ run_of (flat_plain flat.now) (coding_of (flat_plain flat.now) flat.now.width) (trace_of trace.now) (length trace.now - 1)) }
{
    let envs = trace.as_slice();
    let inputs = count_inputs(flat.items().as_slice());
    let states = read_all(alloc, flat, Part::State, inputs, envs)?;
    let labels = read_all(alloc, flat, Part::Label, 0, &envs[..envs.len() - 1])?;
    Ok(Run { states, labels })
}
