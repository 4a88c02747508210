// The names of operators, and the names of unsupported operators and sorts.
ghost use Rattle.std.specs.Prelude.{◌≡◌, ◌||◌, map};
ghost use Rattle.moxi_terms.specs.Words.{begins_so, may_begin, indexed_operators, is_one_of, is_operator, left_out_operators, left_out_sorts, operator_named, row_named};
ghost use Rattle.moxi_terms.specs.Rows.{row};
ghost use Rattle.text_core.specs.Bytes.{bytes_behind};

use crate::data::TermOp;
use text_core::is_same;
use word_core::{Binary, Unary};

type OperatorName = (&'static [u8], TermOp);

const OPERATORS: [OperatorName; 33] = [
    (b"not", TermOp::Not),
    (b"and", TermOp::And),
    (b"or", TermOp::Or),
    (b"xor", TermOp::Xor),
    (b"=>", TermOp::Implies),
    (b"=", TermOp::Equal),
    (b"distinct", TermOp::Distinct),
    (b"ite", TermOp::Ite),
    (b"concat", TermOp::Concat),
    (b"bvnot", TermOp::BvUnary(Unary::Not)),
    (b"bvneg", TermOp::BvUnary(Unary::Neg)),
    (b"bvand", TermOp::BvBinary(Binary::And)),
    (b"bvor", TermOp::BvBinary(Binary::Or)),
    (b"bvxor", TermOp::BvBinary(Binary::Xor)),
    (b"bvadd", TermOp::BvBinary(Binary::Add)),
    (b"bvmul", TermOp::BvBinary(Binary::Mul)),
    (b"bvsub", TermOp::BvBinary(Binary::Sub)),
    (b"bvudiv", TermOp::BvBinary(Binary::Udiv)),
    (b"bvurem", TermOp::BvBinary(Binary::Urem)),
    (b"bvsdiv", TermOp::BvBinary(Binary::Sdiv)),
    (b"bvsrem", TermOp::BvBinary(Binary::Srem)),
    (b"bvsmod", TermOp::BvBinary(Binary::Smod)),
    (b"bvshl", TermOp::BvBinary(Binary::Sll)),
    (b"bvlshr", TermOp::BvBinary(Binary::Srl)),
    (b"bvashr", TermOp::BvBinary(Binary::Sra)),
    (b"bvult", TermOp::BvBinary(Binary::Ult)),
    (b"bvule", TermOp::BvBinary(Binary::Ulte)),
    (b"bvugt", TermOp::BvBinary(Binary::Ugt)),
    (b"bvuge", TermOp::BvBinary(Binary::Ugte)),
    (b"bvslt", TermOp::BvBinary(Binary::Slt)),
    (b"bvsle", TermOp::BvBinary(Binary::Slte)),
    (b"bvsgt", TermOp::BvBinary(Binary::Sgt)),
    (b"bvsge", TermOp::BvBinary(Binary::Sgte)),
];

const INDEXED: [&[u8]; 3] = [b"extract", b"zero_extend", b"sign_extend"];

const LEFT_OUT: [&[u8]; 23] = [
    b"forall",
    b"exists",
    b"select",
    b"store",
    b"+",
    b"-",
    b"*",
    b"/",
    b"div",
    b"mod",
    b"abs",
    b"<",
    b"<=",
    b">",
    b">=",
    b"OnlyChange",
    b"bvnand",
    b"bvnor",
    b"bvxnor",
    b"bvcomp",
    b"repeat",
    b"rotate_left",
    b"rotate_right",
];

const LEFT_OUT_SORTS: [&[u8]; 3] = [b"Int", b"Real", b"Array"];

fn is_one_of(name: &[u8], words: &[&[u8]]) -> bool
    ensures { result ≡ is_one_of (map bytes_behind words.now) name.now }
{
    for word in words {
        if is_same(name, *word) {
            return true;
        }
    }
    false
}

fn look_up(rows: &[OperatorName], name: &[u8]) -> Option<TermOp>
    ensures { result ≡ row_named (map row rows.now) name.now }
{
    for (word, op) in rows {
        if is_same(name, *word) {
            return Some(*op);
        }
    }
    None
}

/// Returns the operator with this name.
pub fn operator_named(name: &[u8]) -> Option<TermOp>
    ensures { result ≡ operator_named name.now }
{
    look_up(&OPERATORS, name)
}

/// Returns whether this is the name of an operator with indices.
pub fn is_indexed(name: &[u8]) -> bool
    ensures { result ≡ is_one_of indexed_operators name.now }
{
    is_one_of(name, &INDEXED)
}

// Whether the name of an operator may begin with this byte.
fn may_begin(byte: u8) -> bool
    ensures { result ≡ may_begin byte }
{
    byte == b'='
        || byte == b'a'
        || byte == b'b'
        || byte == b'c'
        || byte == b'd'
        || byte == b'e'
        || byte == b'i'
        || byte == b'n'
        || byte == b'o'
        || byte == b's'
        || byte == b'x'
        || byte == b'z'
}

// Whether the name begins like that of an operator.
fn begins_so(name: &[u8]) -> bool
    ensures { result ≡ begins_so name.now }
{
    match name.split_first() {
        Some((byte, _)) => may_begin(*byte),
        None => false,
    }
}

/// Returns whether this is the name of an operator.
#[tactic(auto, using(crate::proofs::FirstBytes::no_operator))]
pub fn is_operator(name: &[u8]) -> bool
    ensures { result ≡ is_operator name.now }
{
    // Most names begin like no operator, and then the table is not searched.
    begins_so(name) && (operator_named(name).is_some() || is_indexed(name))
}

/// Returns whether this is the name of an unsupported operator.
pub fn is_left_out(name: &[u8]) -> bool
    ensures { result ≡ is_one_of left_out_operators name.now }
{
    is_one_of(name, &LEFT_OUT)
}

/// Returns whether this is the name of an unsupported sort.
pub fn is_left_out_sort(name: &[u8]) -> bool
    ensures { result ≡ is_one_of left_out_sorts name.now }
{
    is_one_of(name, &LEFT_OUT_SORTS)
}
