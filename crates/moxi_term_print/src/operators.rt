// Printing of operators.
ghost use Rattle.std.specs.Prelude.{◌≡◌, ◌<◌, ◌++◌, ◌∷◌, if◌then◌else◌, [], drop, length, OnOk};
ghost use Rattle.moxi_terms.specs.declared.data.TermOp.TheVariants as operators;
ghost use Rattle.moxi_term_print.specs.Shown.{no_showns, shown, text_of};
ghost use Rattle.moxi_term_print.specs.Terms.{binary_word, indexed, numeral, operator_word, shown_operator, unary_word};

use moxi_terms::TermOp;
use text_core::{NoMemory, Text};
use word_core::{Binary, Unary};

// The word of an operator, after a blank and a bracket, since it is mostly printed so.
fn unary_word(op: Unary) -> &'static [u8]
    ensures { result.now ≡ 32 ∷ (40 ∷ unary_word op) }
{
    match op {
        Unary::Not => b" (bvnot",
        Unary::Neg => b" (bvneg",
        _ => b" (",
    }
}

fn binary_word(op: Binary) -> &'static [u8]
    ensures { result.now ≡ 32 ∷ (40 ∷ binary_word op) }
{
    match op {
        Binary::And => b" (bvand",
        Binary::Or => b" (bvor",
        Binary::Xor => b" (bvxor",
        Binary::Add => b" (bvadd",
        Binary::Mul => b" (bvmul",
        Binary::Sub => b" (bvsub",
        Binary::Udiv => b" (bvudiv",
        Binary::Urem => b" (bvurem",
        Binary::Sdiv => b" (bvsdiv",
        Binary::Srem => b" (bvsrem",
        Binary::Smod => b" (bvsmod",
        Binary::Sll => b" (bvshl",
        Binary::Srl => b" (bvlshr",
        Binary::Sra => b" (bvashr",
        Binary::Ult => b" (bvult",
        Binary::Ulte => b" (bvule",
        Binary::Ugt => b" (bvugt",
        Binary::Ugte => b" (bvuge",
        Binary::Slt => b" (bvslt",
        Binary::Slte => b" (bvsle",
        Binary::Sgt => b" (bvsgt",
        Binary::Sgte => b" (bvsge",
        _ => b" (",
    }
}

fn operator_word(op: TermOp) -> &'static [u8]
    ensures { result.now ≡ 32 ∷ (40 ∷ operator_word op) }
{
    match op {
        TermOp::Not => b" (not",
        TermOp::And => b" (and",
        TermOp::Or => b" (or",
        TermOp::Xor => b" (xor",
        TermOp::Implies => b" (=>",
        TermOp::Equal => b" (=",
        TermOp::Distinct => b" (distinct",
        TermOp::Ite => b" (ite",
        TermOp::Concat => b" (concat",
        TermOp::BvUnary(unary) => unary_word(unary),
        TermOp::BvBinary(binary) => binary_word(binary),
        TermOp::Extract(_, _) | TermOp::ZeroExtend(_) | TermOp::SignExtend(_) => b" (",
    }
}

/// Appends a name with an index, `(_ name n)` (SMT-LIB 2.6, section 3.3).
pub fn put_indexed(out: &mut Text, name: &[u8], n: u32) -> Result<(), NoMemory>
    ensures { OnOk result (out.new ≡ out.old ++ text_of (indexed name.now (shown (numeral n) no_showns))) }
{
    out.put(b"(_ ")?;
    out.put(name)?;
    out.put(b" ")?;
    out.put_unsigned(n as u128)?;
    out.put(b")")
}

fn put_extract(out: &mut Text, high: u32, low: u32) -> Result<(), NoMemory>
    ensures { OnOk result (out.new ≡ out.old ++ text_of (shown_operator (operators.Extract high low))) }
{
    out.put(b"(_ extract ")?;
    out.put_unsigned(high as u128)?;
    out.put(b" ")?;
    out.put_unsigned(low as u128)?;
    out.put(b")")
}

// Appends the opening bracket, after a blank if `behind` is true.
fn put_opening(out: &mut Text, behind: bool) -> Result<(), NoMemory>
    ensures { OnOk result (out.new ≡ out.old ++ ((if behind then 32 ∷ [] else []) ++ 40 ∷ [])) }
{
    put_word(out, behind, b" (")
}

// Appends a word, without its first byte unless `behind` is true.
fn put_word(out: &mut Text, behind: bool, word: &[u8]) -> Result<(), NoMemory>
    requires { 0 < length word.now }
    ensures { OnOk result (out.new ≡ out.old ++ (if behind then word.now else drop 1 word.now)) }
{
    if behind {
        out.put(word)
    } else {
        out.put(&word[1..])
    }
}

/// Appends the opening bracket of an application and its operator, after a blank if `behind` is true (SMT-LIB 2.6,
/// theories Core and FixedSizeBitVectors).
pub fn put_head(out: &mut Text, behind: bool, op: TermOp) -> Result<(), NoMemory>
    ensures { OnOk result (out.new ≡ out.old ++ ((if behind then 32 ∷ [] else []) ++ 40 ∷ text_of (shown_operator op))) }
{
    match op {
        TermOp::Extract(high, low) => {
            put_opening(out, behind)?;
            put_extract(out, high, low)
        }
        TermOp::ZeroExtend(n) => {
            put_opening(out, behind)?;
            put_indexed(out, b"zero_extend", n)
        }
        TermOp::SignExtend(n) => {
            put_opening(out, behind)?;
            put_indexed(out, b"sign_extend", n)
        }
        _ => put_word(out, behind, operator_word(op)),
    }
}
