// The printer.
ghost use Rattle.std.specs.Prelude.{◌≡◌, ◌<◌, ◌+◌, ◌++◌, None, OnOk, IfOk};
ghost use Rattle.std.specs.List.{flat_map, AllByRecursion};
ghost use Rattle.btor_tree.specs.Fits.{is_state, is_input};
ghost use Rattle.btor_witness.specs.Sizes.{sizes_of, widths_of};
ghost use Rattle.btor_witness.specs.Printing.{IsBelow, IsPart, IsWitness, IsWithinLimits, TableOf, rises_from, rising, rising_frame, rising_witness, number_line, statement_line, states_text, frame_text, printed};
ghost use Rattle.btor_witness.specs.Texts.{SpellsWitness};

use crate::unique::printed_is_read;
use crate::witness::{Frame, Stated, Stateds, Witness};
use btor_tree::Nodes;
use std::alloc::Global;
use text_core::{NoMemory, Text};
use word_core::Word;

/// Returns the last stated word for each index below `count`.
pub fn table_of(
    alloc: Global,
    stated: &Stateds,
    count: usize,
) -> Result<Vec<Option<Word>>, NoMemory>
    requires { AllByRecursion (IsBelow count) stated.now }
    ensures { IfOk result (λ table. TableOf stated.now count table.items) }
{
    let mut table = vec![in alloc; None; count]?;
    for one in stated.as_slice() {
        table[one.index as usize] = Some(one.value);
    }
    Ok(table)
}

// The statements in rising order.
fn rising(alloc: Global, stated: &Stateds, count: u32) -> Result<Stateds, NoMemory>
    requires { AllByRecursion (IsBelow count) stated.now }
    ensures { IfOk result (λ r. r ≡ rising stated.now count) }
{
    let table = table_of(alloc, stated, count as usize)?;
    let mut rising = Stateds::new(alloc);
    for index in 0..count {
        if let Some(value) = table[index as usize] {
            rising.push(Stated { index, value })?;
        }
    }
    Ok(rising)
}

fn put_number_line(out: &mut Text, mark: u8, number: usize) -> Result<(), NoMemory>
    ensures { OnOk result (out.new ≡ out.old ++ number_line mark number) }
{
    out.put(&[mark])?;
    out.put_unsigned(number as u128)?;
    out.put(b"\n")?;
    Ok(())
}

fn put_statement(out: &mut Text, stated: &Stated) -> Result<(), NoMemory>
    ensures { OnOk result (out.new ≡ out.old ++ statement_line stated.now) }
{
    out.put_unsigned(u128::from(stated.index))?;
    out.put(b" ")?;
    out.put_binary(stated.value.width(), stated.value.bits())?;
    out.put(b"\n")?;
    Ok(())
}

fn put_statements(out: &mut Text, stated: &Stateds) -> Result<(), NoMemory>
    ensures { OnOk result (out.new ≡ out.old ++ flat_map statement_line stated.now) }
{
    for statement in stated {
        put_statement(out, statement)?;
    }
    Ok(())
}

fn put_states(out: &mut Text, number: usize, states: &Stateds) -> Result<(), NoMemory>
    ensures { OnOk result (out.new ≡ out.old ++ states_text number states.now) }
{
    if states.len() == 0 {
        return Ok(());
    }
    put_number_line(out, b'#', number)?;
    put_statements(out, states)
}

fn put_frame(out: &mut Text, number: usize, frame: &Frame) -> Result<(), NoMemory>
    ensures { OnOk result (out.new ≡ out.old ++ frame_text number frame.now) }
{
    put_states(out, number, &frame.states)?;
    put_number_line(out, b'@', number)?;
    put_statements(out, &frame.inputs)
}

// The least number behind this one.
fn one_more(number: u32) -> u64
    ensures { result ≡ number + 1 }
{
    u64::from(number) + 1
}

// Are the statements in rising order?
fn rises(stated: &Stateds) -> bool
    ensures { result ≡ rises_from 0 stated.now }
{
    let mut least = 0;
    for statement in stated {
        if u64::from(statement.index) < least {
            return false;
        }
        least = one_more(statement.index);
    }
    true
}

fn rising_frame(alloc: Global, nodes: &Nodes, frame: &Frame) -> Result<Frame, NoMemory>
    requires states { IsPart (widths_of is_state nodes.now) frame.now.states }
    requires inputs { IsPart (widths_of is_input nodes.now) frame.now.inputs }
    ensures { IfOk result (λ f. f ≡ rising_frame (sizes_of nodes.now) frame.now) }
{
    Ok(Frame {
        states: rising(alloc, &frame.states, nodes.states())?,
        inputs: rising(alloc, &frame.inputs, nodes.inputs())?,
    })
}

// A frame in rising order. One that rises is printed as it is.
fn put_rising_frame(
    alloc: Global,
    out: &mut Text,
    nodes: &Nodes,
    number: usize,
    frame: &Frame,
) -> Result<(), NoMemory>
    requires states { IsPart (widths_of is_state nodes.now) frame.now.states }
    requires inputs { IsPart (widths_of is_input nodes.now) frame.now.inputs }
    ensures { OnOk result (out.new ≡ out.old ++ frame_text number (rising_frame (sizes_of nodes.now) frame.now)) }
{
    if rises(&frame.states) && rises(&frame.inputs) {
        return put_frame(out, number, frame);
    }
    let frame = rising_frame(alloc, nodes, frame)?;
    put_frame(out, number, &frame)
}

/// The printed form of a witness: of each frame the states behind `#` where there are any, and the inputs behind `@`,
/// each part in rising order and without symbols. The caller owes a witness for the lines: a bad line, one or more
/// frames, and in each part words of the right widths, of which each is stated once.
pub fn print_witness(alloc: Global, nodes: &Nodes, witness: &Witness) -> Result<Text, NoMemory>
    requires { IsWitness (sizes_of nodes.now) witness.now }
    // What is printed.
    ensures printed { IfOk result (λ text. text ≡ printed nodes.now witness.now) }
    // Within the limits of the reader it spells the same witness, with its statements in rising order.
    ensures read { IsWithinLimits nodes.now witness.now → IfOk result (λ text. SpellsWitness nodes.now text (rising_witness (sizes_of nodes.now) witness.now)) }
{
    nodes.are_well_formed();
    printed_is_read();
    let mut out = Text::new(alloc);
    out.put(b"sat\n")?;
    put_number_line(&mut out, b'b', witness.bad as usize)?;
    for number in 0..witness.frames.len() {
        put_rising_frame(alloc, &mut out, nodes, number, witness.frames.at(number))?;
    }
    out.put(b".\n")?;
    Ok(out)
}
