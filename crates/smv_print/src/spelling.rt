// Printed tokens, each after a single blank.
#![tactic(auto, unfolding(smv_lex::specs::Spelling::spelled))]

ghost use Rattle.std.specs.Prelude.{◌≡◌, ◌++◌, [], ◌∷◌, OnOk};
ghost use Rattle.smv_lex.specs.Spelling.{spaced, written};
ghost use Rattle.smv_text.specs.Levels.{prefix_kind, infix_kind};
ghost use Rattle.smv_print.specs.Printing.{wanted, repeated, int_kinds, range_kinds};

use smv_text::{Infix, Prefix, Reserved, Sign, TokenKind, infix_bytes, sign_bytes, word_bytes};
use text_core::{Name, NoMemory, Text};
use word_core::Word;

pub(crate) fn put_word(out: &mut Text, word: Reserved) -> Result<(), NoMemory>
    ensures { OnOk result (out.new ≡ out.old ++ spaced (TokenKind.Reserved word ∷ [])) }
{
    out.put(b" ")?;
    out.put(word_bytes(word))
}

// A word, with a blank before it if `behind` is set.
pub(crate) fn put_first(out: &mut Text, behind: bool, word: Reserved) -> Result<(), NoMemory>
    ensures { OnOk result (out.new ≡ out.old ++ written behind (TokenKind.Reserved word ∷ [])) }
{
    if behind {
        put_word(out, word)
    } else {
        out.put(word_bytes(word))
    }
}

pub(crate) fn put_sign(out: &mut Text, sign: Sign) -> Result<(), NoMemory>
    ensures { OnOk result (out.new ≡ out.old ++ spaced (TokenKind.Sign sign ∷ [])) }
{
    out.put(b" ")?;
    out.put(sign_bytes(sign))
}

pub(crate) fn put_ident(out: &mut Text, name: &Name) -> Result<(), NoMemory>
    ensures { OnOk result (out.new ≡ out.old ++ spaced (TokenKind.Ident name.now ∷ [])) }
{
    out.put(b" ")?;
    out.put(name.bytes())
}

pub(crate) fn put_number(out: &mut Text, n: u64) -> Result<(), NoMemory>
    ensures { OnOk result (out.new ≡ out.old ++ spaced (TokenKind.Number n ∷ [])) }
{
    out.put(b" ")?;
    out.put_unsigned(n as u128)
}

pub(crate) fn put_literal(out: &mut Text, word: &Word) -> Result<(), NoMemory>
    ensures { OnOk result (out.new ≡ out.old ++ spaced (TokenKind.Literal word.now ∷ [])) }
{
    out.put(b" 0ud")?;
    out.put_unsigned(word.width() as u128)?;
    out.put(b"_")?;
    out.put_unsigned(word.bits())
}

// The sign, if it is wanted.
pub(crate) fn put_wanted(out: &mut Text, is_wanted: bool, sign: Sign) -> Result<(), NoMemory>
    ensures { OnOk result (out.new ≡ out.old ++ spaced (wanted is_wanted sign)) }
{
    if is_wanted {
        put_sign(out, sign)
    } else {
        Ok(())
    }
}

pub(crate) fn put_int(out: &mut Text, n: i64) -> Result<(), NoMemory>
    ensures { OnOk result (out.new ≡ out.old ++ spaced (int_kinds n)) }
{
    if n < 0 {
        put_sign(out, Sign::Minus)?;
    }
    put_number(out, n.unsigned_abs())
}

pub(crate) fn put_range(out: &mut Text, low: i64, high: i64) -> Result<(), NoMemory>
    ensures { OnOk result (out.new ≡ out.old ++ spaced (range_kinds low high)) }
{
    put_int(out, low)?;
    put_sign(out, Sign::Range)?;
    put_int(out, high)
}

fn put_prefix(out: &mut Text, prefix: Prefix) -> Result<(), NoMemory>
    ensures { OnOk result (out.new ≡ out.old ++ spaced (prefix_kind prefix ∷ [])) }
{
    match prefix {
        Prefix::Not => put_sign(out, Sign::Not),
        Prefix::Minus => put_sign(out, Sign::Minus),
    }
}

// A prefix operator, repeated `count` times.
pub(crate) fn put_prefixes(out: &mut Text, prefix: Prefix, count: u32) -> Result<(), NoMemory>
    ensures { OnOk result (out.new ≡ out.old ++ spaced (repeated count (prefix_kind prefix))) }
{
    for _ in 0..count {
        put_prefix(out, prefix)?;
    }
    Ok(())
}

pub(crate) fn put_infix(out: &mut Text, op: Infix) -> Result<(), NoMemory>
    ensures { OnOk result (out.new ≡ out.old ++ spaced (infix_kind op ∷ [])) }
{
    out.put(b" ")?;
    out.put(infix_bytes(op))
}
