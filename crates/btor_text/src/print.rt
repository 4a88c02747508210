// The printed form of lines.

ghost use Rattle.std.specs.Prelude.{◌≡◌, ◌≤◌, ◌++◌, [], ◌∷◌, ◌+◌, map, drop, length, decimal, OnOk, IfOk};
ghost use Rattle.btor_tree.specs.Shapes.{unary_text, binary_text, symbol_parts};
ghost use Rattle.btor_tree.specs.Texts.{SpellsLines};
ghost use Rattle.btor_tree.specs.Printing.{id_at, operand_text, op_text, sort_parts, number_parts, spaced, line_text, printed};

use btor_tree::{Arg, Args, Line, LineOp, Nodes};
use std::alloc::Global;
use text_core::{Name, NoMemory, Text};
use word_core::{Binary, Unary};

// Room for four numbers of ten digits, of which two may have a sign, an operator's name, the blanks between them,
// and a line feed.
const ROOM: usize = 64;

// Appends the bytes after a single blank.
fn put_part(out: &mut Text, part: &[u8]) -> Result<(), NoMemory>
    ensures { OnOk result (out.new ≡ out.old ++ spaced (part.now ∷ [])) }
{
    out.put(b" ")?;
    out.put(part)?;
    Ok(())
}

// Writes the digits of a number before position `end`, and returns their start.
fn digits_before(bytes: &mut [u8; ROOM], end: usize, n: u32) -> usize
    requires room { 12 ≤ end }
    requires within { end ≤ ROOM }
    ensures digits { drop result bytes.new ≡ decimal n ++ drop end bytes.old }
    ensures few { end ≤ result + 10 }
    ensures before { result ≤ end }
{
    let mut start = end;
    let mut rest = n;
    while rest >= 10 {
        start -= 1;
        bytes[start] = b'0' + (rest % 10) as u8;
        rest /= 10;
    }
    start -= 1;
    bytes[start] = b'0' + rest as u8;
    start
}

// Writes a byte before position `end`, and returns its position.
#[tactic(auto, using(crate::proofs::Digits::before))]
fn byte_before(bytes: &mut [u8; ROOM], end: usize, byte: u8) -> usize
    requires room { 1 ≤ end }
    requires within { end ≤ ROOM }
    ensures byte { drop result bytes.new ≡ byte ∷ drop end bytes.old }
    ensures before { result + 1 ≡ end }
{
    bytes[end - 1] = byte;
    end - 1
}

// Writes a word before position `end`, and returns its start.
fn word_before(bytes: &mut [u8; ROOM], end: usize, word: &[u8]) -> usize
    requires room { length word.now ≤ end }
    requires within { end ≤ ROOM }
    ensures word { drop result bytes.new ≡ word.now ++ drop end bytes.old }
    ensures before { result + length word.now ≡ end }
{
    let start = end - word.len();
    bytes[start..end].copy_from_slice(word);
    start
}

// Writes a blank and an operand before position `end`, and returns their start.
fn operand_before(bytes: &mut [u8; ROOM], end: usize, nodes: &Nodes, arg: Arg) -> usize
    requires room { 12 ≤ end }
    requires within { end ≤ ROOM }
    ensures operand { drop result bytes.new ≡ 32 ∷ operand_text nodes.now arg ++ drop end bytes.old }
    ensures few { end ≤ result + 12 }
    ensures before { result ≤ end }
{
    let mut start = digits_before(bytes, end, id_at(nodes, arg.line));
    if arg.negated {
        start = byte_before(bytes, start, b'-');
    }
    byte_before(bytes, start, b' ')
}

fn put_id(out: &mut Text, id: u32) -> Result<(), NoMemory>
    ensures { OnOk result (out.new ≡ out.old ++ decimal id) }
{
    let mut bytes = [b' '; ROOM];
    let start = digits_before(&mut bytes, ROOM, id);
    out.put(&bytes[start..])
}

// Appends the digits after a single blank.
fn put_count(out: &mut Text, n: u32) -> Result<(), NoMemory>
    ensures { OnOk result (out.new ≡ out.old ++ spaced (decimal n ∷ [])) }
{
    let mut bytes = [b' '; ROOM];
    let start = digits_before(&mut bytes, ROOM, n);
    let start = byte_before(&mut bytes, start, b' ');
    out.put(&bytes[start..])
}

fn id_at(nodes: &Nodes, place: u32) -> u32
    ensures { result ≡ id_at nodes.now place }
{
    if (place as usize) < nodes.len() {
        nodes.at(place as usize).id
    } else {
        0
    }
}

// The name of an operator on one word, after a blank.
fn unary_text(op: Unary) -> &'static [u8]
    ensures text { result.now ≡ 32 ∷ unary_text op }
    ensures short { length result.now ≤ 11 }
{
    match op {
        Unary::Not => b" not",
        Unary::Inc => b" inc",
        Unary::Dec => b" dec",
        Unary::Neg => b" neg",
        Unary::RedAnd => b" redand",
        Unary::RedOr => b" redor",
        Unary::RedXor => b" redxor",
    }
}

// The name of an operator on two words, after a blank.
fn binary_text(op: Binary) -> &'static [u8]
    ensures text { result.now ≡ 32 ∷ binary_text op }
    ensures short { length result.now ≤ 11 }
{
    match op {
        Binary::Iff => b" iff",
        Binary::Implies => b" implies",
        Binary::Eq => b" eq",
        Binary::Neq => b" neq",
        Binary::Sgt => b" sgt",
        Binary::Sgte => b" sgte",
        Binary::Slt => b" slt",
        Binary::Slte => b" slte",
        Binary::Ugt => b" ugt",
        Binary::Ugte => b" ugte",
        Binary::Ult => b" ult",
        Binary::Ulte => b" ulte",
        Binary::And => b" and",
        Binary::Nand => b" nand",
        Binary::Nor => b" nor",
        Binary::Or => b" or",
        Binary::Xnor => b" xnor",
        Binary::Xor => b" xor",
        Binary::Sll => b" sll",
        Binary::Srl => b" srl",
        Binary::Sra => b" sra",
        Binary::Add => b" add",
        Binary::Sub => b" sub",
        Binary::Mul => b" mul",
        Binary::Udiv => b" udiv",
        Binary::Sdiv => b" sdiv",
        Binary::Urem => b" urem",
        Binary::Srem => b" srem",
        Binary::Smod => b" smod",
        Binary::Concat => b" concat",
    }
}

// The name of a line's kind, after a blank.
fn op_text(op: &LineOp) -> &'static [u8]
    ensures text { result.now ≡ 32 ∷ op_text op.now }
    ensures short { length result.now ≤ 11 }
{
    match op {
        LineOp::Sort(_) => b" sort",
        LineOp::Input => b" input",
        LineOp::State => b" state",
        LineOp::Constant(_) => b" const",
        LineOp::One => b" one",
        LineOp::Zero => b" zero",
        LineOp::Ones => b" ones",
        LineOp::Init => b" init",
        LineOp::Next => b" next",
        LineOp::Bad => b" bad",
        LineOp::Constraint => b" constraint",
        LineOp::Output => b" output",
        LineOp::Unary(op) => unary_text(*op),
        LineOp::Binary(op) => binary_text(*op),
        LineOp::Ite => b" ite",
        LineOp::Slice(_, _) => b" slice",
        LineOp::Uext(_) => b" uext",
        LineOp::Sext(_) => b" sext",
    }
}

fn put_sort(out: &mut Text, nodes: &Nodes, op: &LineOp, sort: u32) -> Result<(), NoMemory>
    ensures { OnOk result (out.new ≡ out.old ++ spaced (sort_parts nodes.now op.now sort)) }
{
    match op {
        LineOp::Sort(width) => {
            out.put(b" bitvec")?;
            put_count(out, *width)?;
            Ok(())
        }
        LineOp::Constant(word) => {
            put_count(out, id_at(nodes, sort))?;
            out.put(b" ")?;
            out.put_binary(word.width(), word.bits())?;
            Ok(())
        }
        LineOp::Bad | LineOp::Constraint | LineOp::Output => Ok(()),
        _ => put_count(out, id_at(nodes, sort)),
    }
}

fn put_arg(out: &mut Text, nodes: &Nodes, arg: Arg) -> Result<(), NoMemory>
    ensures { OnOk result (out.new ≡ out.old ++ spaced (operand_text nodes.now arg ∷ [])) }
{
    let mut bytes = [b' '; ROOM];
    let start = operand_before(&mut bytes, ROOM, nodes, arg);
    out.put(&bytes[start..])
}

// Appends a line that ends after its two operands.
fn put_pair(out: &mut Text, nodes: &Nodes, line: &Line, a: Arg, b: Arg) -> Result<(), NoMemory>
    ensures { OnOk result (out.new ≡ out.old ++ (decimal line.now.id ++ (32 ∷ op_text line.now.op ++ (32 ∷ decimal (id_at nodes.now line.now.sort) ++ (32 ∷ operand_text nodes.now a ++ (32 ∷ operand_text nodes.now b ++ 10 ∷ [])))))) }
{
    let mut bytes = [b'\n'; ROOM];
    let start = operand_before(&mut bytes, ROOM - 1, nodes, b);
    let start = operand_before(&mut bytes, start, nodes, a);
    let start = digits_before(&mut bytes, start, id_at(nodes, line.sort));
    let start = byte_before(&mut bytes, start, b' ');
    let start = word_before(&mut bytes, start, op_text(&line.op));
    let start = digits_before(&mut bytes, start, line.id);
    out.put(&bytes[start..])
}

fn put_args(out: &mut Text, nodes: &Nodes, args: &Args) -> Result<(), NoMemory>
    ensures { OnOk result (out.new ≡ out.old ++ spaced (map (operand_text nodes.now) args.now)) }
{
    for k in 0..args.len() {
        put_arg(out, nodes, *args.at(k))?;
    }
    Ok(())
}

fn put_numbers(out: &mut Text, op: &LineOp) -> Result<(), NoMemory>
    ensures { OnOk result (out.new ≡ out.old ++ spaced (number_parts op.now)) }
{
    match op {
        LineOp::Slice(high, low) => {
            put_count(out, *high)?;
            put_count(out, *low)?;
            Ok(())
        }
        LineOp::Uext(count) | LineOp::Sext(count) => put_count(out, *count),
        _ => Ok(()),
    }
}

fn put_symbol(out: &mut Text, symbol: &Option<Name>) -> Result<(), NoMemory>
    ensures { OnOk result (out.new ≡ out.old ++ spaced (symbol_parts symbol.now)) }
{
    match symbol {
        None => Ok(()),
        Some(symbol) => put_part(out, symbol.bytes()),
    }
}

fn put_tail(out: &mut Text, line: &Line) -> Result<(), NoMemory>
    ensures { OnOk result (out.new ≡ out.old ++ spaced (number_parts line.now.op ++ symbol_parts line.now.symbol)) }
{
    put_numbers(out, &line.op)?;
    put_symbol(out, &line.symbol)
}

// Appends the rest of a line after its name.
fn put_rest(out: &mut Text, nodes: &Nodes, line: &Line) -> Result<(), NoMemory>
    ensures { OnOk result (out.new ≡ out.old ++ (spaced (sort_parts nodes.now line.now.op line.now.sort ++ (map (operand_text nodes.now) line.now.args ++ (number_parts line.now.op ++ symbol_parts line.now.symbol))) ++ 10 ∷ [])) }
{
    put_sort(out, nodes, &line.op, line.sort)?;
    put_args(out, nodes, &line.args)?;
    put_tail(out, line)?;
    out.put(b"\n")?;
    Ok(())
}

fn put_any(out: &mut Text, nodes: &Nodes, line: &Line) -> Result<(), NoMemory>
    ensures { OnOk result (out.new ≡ out.old ++ line_text nodes.now line.now) }
{
    put_id(out, line.id)?;
    out.put(op_text(&line.op))?;
    put_rest(out, nodes, line)
}

// Appends a line. Most lines end after two operands.
fn put_line(out: &mut Text, nodes: &Nodes, line: &Line) -> Result<(), NoMemory>
    ensures { OnOk result (out.new ≡ out.old ++ line_text nodes.now line.now) }
{
    match (&line.op, &line.symbol, line.args.pair()) {
        (LineOp::Binary(_) | LineOp::Init | LineOp::Next, None, Some((a, b))) => {
            put_pair(out, nodes, line, a, b)
        }
        _ => put_any(out, nodes, line),
    }
}

/// Prints the lines as a text, each as `id word arguments [symbol]`, with single blanks and a line feed.
///
/// No line has a comment, and constants are printed as `const` with a binary digit for each bit. The text parses to
/// the lines.
pub fn print_btor(alloc: Global, nodes: &Nodes) -> Result<Text, NoMemory>
    ensures printed { IfOk result (λ text. text ≡ printed nodes.now) }
    ensures spells { IfOk result (λ text. SpellsLines text nodes.now) }
{
    nodes.are_well_formed();
    let mut out = Text::new(alloc);
    for line in nodes {
        put_line(&mut out, nodes, line)?;
    }
    Ok(out)
}
