// Inputs, states, constraints and bad lines, and their symbols.
ghost use Rattle.std.specs.Prelude.{◌≡◌, ◌≤◌, ◌+◌, ◌++◌, ◌∷◌, [], true, length, map, IfOk, OnOk};
ghost use Rattle.moxi_lines.specs.Lines.{symbol_byte, symbol_of, with_bad, with_constraint, with_free, with_given};
ghost use Rattle.moxi_to_btor.specs.Putting.{CanPutFree, CanPutGiven, CanPutTruth};

use btor_tree::{Builder, LineOp, no_args, one_arg, plain_arg, two_args};
use std::alloc::Global;
use text_core::{Name, NoMemory};

// The most bytes of a name that is joined in place.
const SHORT: usize = 64;

// The byte as written in a symbol: itself if it is visible and starts no comment, otherwise `_`.
fn symbol_byte(byte: u8) -> u8
    ensures { result ≡ symbol_byte byte }
{
    if byte >= 33 && byte <= 126 && byte != b';' {
        byte
    } else {
        b'_'
    }
}

fn symbol_bytes(alloc: Global, name: &[u8]) -> Result<Vec<u8>, NoMemory>
    ensures { IfOk result (λ bytes. bytes.items ≡ map symbol_byte name.now) }
{
    Ok(name.iter().map(|byte| symbol_byte(*byte)).collect(alloc)?)
}

// Whether the bytes are unchanged in a symbol.
fn is_plain(name: &[u8]) -> bool
    ensures { result ≡ true → map symbol_byte name.now ≡ name.now }
{
    for byte in name {
        if symbol_byte(*byte) != *byte {
            return false;
        }
    }
    true
}

// The name as written in a symbol. Most names are unchanged.
fn symbol_name(alloc: Global, name: &[u8]) -> Result<Name, NoMemory>
    ensures { IfOk result (λ symbol. symbol ≡ map symbol_byte name.now) }
{
    if is_plain(name) {
        return Name::of(alloc, name);
    }
    let bytes = symbol_bytes(alloc, name)?;
    Name::of(alloc, &bytes)
}

/// Returns the symbol of a line, or None for an empty name.
#[tactic(auto, using(crate::proofs::Giving::symbol_some))]
pub fn symbol_of(alloc: Global, name: &[u8]) -> Result<Option<Name>, NoMemory>
    ensures { IfOk result (λ symbol. symbol ≡ symbol_of name.now) }
{
    if name.len() == 0 {
        return Ok(None);
    }
    Ok(Some(symbol_name(alloc, name)?))
}

/// Returns the concatenation of two names.
pub fn joined(alloc: Global, name: &[u8], more: &[u8]) -> Result<Vec<u8>, NoMemory>
    ensures { IfOk result (λ all. all.items ≡ name.now ++ more.now) }
{
    let mut all = Vec::from_slice(alloc, name)?;
    all.extend_from_slice(more)?;
    Ok(all)
}

/// Appends a place.
pub fn put_place(places: &mut Vec<u32>, place: u32) -> Result<(), NoMemory>
    ensures { OnOk result (places.new.items ≡ places.old.items ++ place ∷ []) }
{
    Ok(places.push(place)?)
}

/// Adds an input or a state of this width, and returns its place.
pub fn put_free(
    alloc: Global,
    builder: &mut Builder,
    op: LineOp,
    width: u32,
    name: &[u8],
) -> Result<u32, NoMemory>
    requires { CanPutFree builder.old op width name.now }
    ensures { IfOk result (λ p. (builder.new, p) ≡ with_free builder.old op width name.now) }
{
    let symbol = symbol_of(alloc, name)?;
    let sort = builder.sort(width)?;
    builder.push(op, sort, no_args(), symbol)
}

// Does the same for a name that is short enough to be joined in place.
fn put_free_short(
    alloc: Global,
    builder: &mut Builder,
    op: LineOp,
    width: u32,
    name: &[u8],
    more: &[u8],
) -> Result<u32, NoMemory>
    requires short { length name.now + length more.now ≤ 64 }
    requires free { CanPutFree builder.old op width (name.now ++ more.now) }
    ensures { IfOk result (λ p. (builder.new, p) ≡ with_free builder.old op width (name.now ++ more.now)) }
{
    let mut room = [0; SHORT];
    let end = name.len() + more.len();
    room[..name.len()].copy_from_slice(name);
    room[name.len()..end].copy_from_slice(more);
    put_free(alloc, builder, op, width, &room[..end])
}

/// Adds an input or a state of this width, and returns its place.
///
/// Its name is `name` followed by `more`.
pub fn put_free_behind(
    alloc: Global,
    builder: &mut Builder,
    op: LineOp,
    width: u32,
    name: &[u8],
    more: &[u8],
) -> Result<u32, NoMemory>
    requires { CanPutFree builder.old op width (name.now ++ more.now) }
    ensures { IfOk result (λ p. (builder.new, p) ≡ with_free builder.old op width (name.now ++ more.now)) }
{
    if name.len() <= SHORT && more.len() <= SHORT - name.len() {
        put_free_short(alloc, builder, op, width, name, more)
    } else {
        let all = joined(alloc, name, more)?;
        put_free(alloc, builder, op, width, &all)
    }
}

/// Adds the init or the next line of a state of this width.
pub fn put_given(
    builder: &mut Builder,
    op: LineOp,
    width: u32,
    state: u32,
    value: u32,
) -> Result<(), NoMemory>
    requires { CanPutGiven builder.old op width state value }
    ensures { OnOk result (builder.new ≡ with_given builder.old op width state value) }
{
    let args = two_args(plain_arg(state), plain_arg(value));
    let sort = builder.sort(width)?;
    builder.push(op, sort, args, None)?;
    Ok(())
}

/// Adds a constraint: the truth value at this place is true in each frame.
pub fn put_constraint(builder: &mut Builder, place: u32) -> Result<(), NoMemory>
    requires { CanPutTruth builder.old place }
    ensures { OnOk result (builder.new ≡ with_constraint (builder.old, place)) }
{
    let args = one_arg(plain_arg(place));
    builder.push(LineOp::Constraint, 0, args, None)?;
    Ok(())
}

/// Adds a bad line for the truth value at this place.
pub fn put_bad(
    alloc: Global,
    builder: &mut Builder,
    name: &[u8],
    place: u32,
) -> Result<(), NoMemory>
    requires { CanPutTruth builder.old place }
    ensures { OnOk result (builder.new ≡ with_bad name.now (builder.old, place)) }
{
    let symbol = symbol_of(alloc, name)?;
    let args = one_arg(plain_arg(place));
    builder.push(LineOp::Bad, 0, args, symbol)?;
    Ok(())
}
