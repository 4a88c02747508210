// Lines without their comments, and symbols.
ghost use Rattle.std.specs.Prelude.{◌≡◌, OnOk};
ghost use Rattle.btor_tree.specs.Parts.{clean, is_symbol_byte, is_symbol};

use text_core::NoMemory;

/// Fills the buffer with the line, without its comment and without carriage returns.
pub fn clean(buffer: &mut Vec<u8>, line: &[u8]) -> Result<(), NoMemory>
    ensures { OnOk result (buffer.new.items ≡ clean line.now) }
{
    buffer.clear();
    for b in line {
        if *b == b';' {
            return Ok(());
        }
        if *b != b'\r' {
            buffer.push(*b)?;
        }
    }
    Ok(())
}

fn is_symbol_byte(b: u8) -> bool
    ensures { result ≡ is_symbol_byte b }
{
    !(b == 9 || b == b'\n' || b == b'\r' || b == b' ' || b == b';')
}

/// Returns whether the bytes are a symbol: at least one byte, and none a blank, a line end or `;`.
pub fn is_symbol(bytes: &[u8]) -> bool
    ensures { result ≡ is_symbol bytes.now }
{
    if bytes.is_empty() {
        return false;
    }
    for b in bytes {
        if !is_symbol_byte(*b) {
            return false;
        }
    }
    true
}
