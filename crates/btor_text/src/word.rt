// The names of lines' kinds, and the digits of constants.
ghost use Rattle.std.specs.Prelude.{◌≡◌, ◌==◌, map, option_map};
ghost use Rattle.std.specs.List.{filter, list_any};
ghost use Rattle.std.specs.Str.{bytes_eq};
ghost use Rattle.word_core.specs.Digits.{digit_number};
ghost use Rattle.btor_tree.specs.Bytes.{are_digits};
ghost use Rattle.btor_tree.specs.Shapes.{is_literal, is_negative, is_unsupported, magnitude_of};
ghost use Rattle.btor_tree.specs.Reading.{word_of};
ghost use Rattle.btor_tree.specs.Resolving.{literal_word, minus_word};
ghost use Rattle.btor_text.specs.Seen.{entry, look_up, rows, seen_base, seen_word, texts};
ghost use Rattle.text_core.specs.Bytes.{first_of};

use text_core::is_same;
use word_core::{Binary, Unary, Word, read_digits, unary};

/// A kind of line that has a sort and no arguments.
#[derive(Clone, Copy, PartialEq, Eq)]
pub enum Nullary {
    Input,
    State,
    One,
    Zero,
    Ones,
}

/// A kind of constant, by the base of its digits.
#[derive(Clone, Copy, PartialEq, Eq)]
pub enum Base {
    Binary,
    Decimal,
    Hex,
}

/// A kind of line that gives a state its value.
#[derive(Clone, Copy, PartialEq, Eq)]
pub enum Binding {
    Init,
    Next,
}

/// A kind of line that has one operand and no sort.
#[derive(Clone, Copy, PartialEq, Eq)]
pub enum Property {
    Bad,
    Constraint,
    Output,
}

/// A kind of line that has one operand and a number of added bits.
#[derive(Clone, Copy, PartialEq, Eq)]
pub enum Extension {
    Uext,
    Sext,
}

/// The second part of a line, which names the line's kind.
#[derive(Clone, Copy, PartialEq, Eq)]
pub enum LineWord {
    Sort,
    Nullary(Nullary),
    Base(Base),
    Binding(Binding),
    Property(Property),
    Unary(Unary),
    Binary(Binary),
    Ite,
    Slice,
    Extension(Extension),
}

// A kind of line and its name.
type Row = (&'static [u8], LineWord);

const WORDS_A: [Row; 2] = [
    (b"and", LineWord::Binary(Binary::And)),
    (b"add", LineWord::Binary(Binary::Add)),
];

const WORDS_B: [Row; 1] = [(b"bad", LineWord::Property(Property::Bad))];

const WORDS_C: [Row; 5] = [
    (b"const", LineWord::Base(Base::Binary)),
    (b"constd", LineWord::Base(Base::Decimal)),
    (b"consth", LineWord::Base(Base::Hex)),
    (b"constraint", LineWord::Property(Property::Constraint)),
    (b"concat", LineWord::Binary(Binary::Concat)),
];

const WORDS_D: [Row; 1] = [(b"dec", LineWord::Unary(Unary::Dec))];

const WORDS_E: [Row; 1] = [(b"eq", LineWord::Binary(Binary::Eq))];

const WORDS_I: [Row; 6] = [
    (b"input", LineWord::Nullary(Nullary::Input)),
    (b"init", LineWord::Binding(Binding::Init)),
    (b"inc", LineWord::Unary(Unary::Inc)),
    (b"iff", LineWord::Binary(Binary::Iff)),
    (b"implies", LineWord::Binary(Binary::Implies)),
    (b"ite", LineWord::Ite),
];

const WORDS_M: [Row; 1] = [(b"mul", LineWord::Binary(Binary::Mul))];

const WORDS_N: [Row; 6] = [
    (b"next", LineWord::Binding(Binding::Next)),
    (b"not", LineWord::Unary(Unary::Not)),
    (b"neg", LineWord::Unary(Unary::Neg)),
    (b"neq", LineWord::Binary(Binary::Neq)),
    (b"nand", LineWord::Binary(Binary::Nand)),
    (b"nor", LineWord::Binary(Binary::Nor)),
];

const WORDS_O: [Row; 4] = [
    (b"one", LineWord::Nullary(Nullary::One)),
    (b"ones", LineWord::Nullary(Nullary::Ones)),
    (b"output", LineWord::Property(Property::Output)),
    (b"or", LineWord::Binary(Binary::Or)),
];

const WORDS_R: [Row; 3] = [
    (b"redand", LineWord::Unary(Unary::RedAnd)),
    (b"redor", LineWord::Unary(Unary::RedOr)),
    (b"redxor", LineWord::Unary(Unary::RedXor)),
];

const WORDS_S: [Row; 15] = [
    (b"sort", LineWord::Sort),
    (b"state", LineWord::Nullary(Nullary::State)),
    (b"sgt", LineWord::Binary(Binary::Sgt)),
    (b"sgte", LineWord::Binary(Binary::Sgte)),
    (b"slt", LineWord::Binary(Binary::Slt)),
    (b"slte", LineWord::Binary(Binary::Slte)),
    (b"sll", LineWord::Binary(Binary::Sll)),
    (b"srl", LineWord::Binary(Binary::Srl)),
    (b"sra", LineWord::Binary(Binary::Sra)),
    (b"sub", LineWord::Binary(Binary::Sub)),
    (b"sdiv", LineWord::Binary(Binary::Sdiv)),
    (b"srem", LineWord::Binary(Binary::Srem)),
    (b"smod", LineWord::Binary(Binary::Smod)),
    (b"slice", LineWord::Slice),
    (b"sext", LineWord::Extension(Extension::Sext)),
];

const WORDS_U: [Row; 7] = [
    (b"ugt", LineWord::Binary(Binary::Ugt)),
    (b"ugte", LineWord::Binary(Binary::Ugte)),
    (b"ult", LineWord::Binary(Binary::Ult)),
    (b"ulte", LineWord::Binary(Binary::Ulte)),
    (b"udiv", LineWord::Binary(Binary::Udiv)),
    (b"urem", LineWord::Binary(Binary::Urem)),
    (b"uext", LineWord::Extension(Extension::Uext)),
];

const WORDS_X: [Row; 2] = [
    (b"xnor", LineWord::Binary(Binary::Xnor)),
    (b"xor", LineWord::Binary(Binary::Xor)),
];

const WORDS_Z: [Row; 1] = [(b"zero", LineWord::Nullary(Nullary::Zero))];

// The names that are not supported.
const UNSUPPORTED: [&[u8]; 13] = [
    b"fair", b"justice", b"rol", b"ror", b"read", b"write", b"saddo", b"uaddo", b"smulo", b"umulo",
    b"ssubo", b"usubo", b"sdivo",
];

// The names that begin with this byte.
fn words_from(first: u8) -> &'static [Row]
    ensures { map entry result.now ≡ filter (λ w. first == first_of w.0) rows }
{
    match first {
        b'a' => &WORDS_A,
        b'b' => &WORDS_B,
        b'c' => &WORDS_C,
        b'd' => &WORDS_D,
        b'e' => &WORDS_E,
        b'i' => &WORDS_I,
        b'm' => &WORDS_M,
        b'n' => &WORDS_N,
        b'o' => &WORDS_O,
        b'r' => &WORDS_R,
        b's' => &WORDS_S,
        b'u' => &WORDS_U,
        b'x' => &WORDS_X,
        b'z' => &WORDS_Z,
        _ => &[],
    }
}

fn look_up(text: &[u8], table: &[Row]) -> Option<LineWord>
    ensures { option_map seen_word result ≡ look_up text.now (map entry table.now) }
{
    for (bytes, word) in table {
        if is_same(text, bytes) {
            return Some(*word);
        }
    }
    None
}

// The first byte of a text, or 0 where it has none.
fn first_of(text: &[u8]) -> u8
    ensures { result ≡ first_of text.now }
{
    match text.split_first() {
        Some((b, _)) => *b,
        None => 0,
    }
}

/// Returns the kind with this name, or None for another word.
///
/// The word is compared only with the names that begin with the same byte.
pub fn word_of(text: &[u8]) -> Option<LineWord>
    ensures { option_map seen_word result ≡ word_of text.now }
{
    look_up(text, words_from(first_of(text)))
}

fn is_among(text: &[u8], table: &[&[u8]]) -> bool
    ensures { result ≡ list_any (λ w. bytes_eq text.now w) (texts table.now) }
{
    for bytes in table {
        if is_same(text, bytes) {
            return true;
        }
    }
    false
}

/// Returns whether the word is the name of an unsupported kind of line.
pub fn is_unsupported(text: &[u8]) -> bool
    ensures { result ≡ is_unsupported text.now }
{
    is_among(text, &UNSUPPORTED)
}

fn digit_number(b: u8) -> u32
    ensures { result ≡ digit_number b }
{
    match b {
        b'0'..=b'9' => u32::from(b - b'0'),
        b'a'..=b'f' => u32::from(b - b'a') + 10,
        b'A'..=b'F' => u32::from(b - b'A') + 10,
        _ => 16,
    }
}

fn are_digits(base: u32, text: &[u8]) -> bool
    ensures { result ≡ are_digits base text.now }
{
    if text.is_empty() {
        return false;
    }
    for b in text {
        if digit_number(*b) >= base {
            return false;
        }
    }
    true
}

fn magnitude_of(text: &[u8]) -> &[u8]
    ensures { result.now ≡ magnitude_of text.now }
{
    match text.split_first() {
        Some((b, digits)) => { if *b == b'-' { digits } else { text } }
        None => text,
    }
}

fn is_negative(text: &[u8]) -> bool
    ensures { result ≡ is_negative text.now }
{
    match text.split_first() {
        Some((b, _)) => *b == b'-',
        None => false,
    }
}

/// Returns whether these are digits of a constant of this kind.
#[tactic(auto, using(btor_tree::proofs::Literals::digits_tested))]
pub fn is_literal(kind: Base, text: &[u8]) -> bool
    ensures { result ≡ is_literal (seen_base kind) text.now }
{
    match kind {
        Base::Binary => are_digits(2, text),
        Base::Decimal => are_digits(10, magnitude_of(text)),
        Base::Hex => are_digits(16, text),
    }
}

fn minus_word(word: Word) -> Option<Word>
    ensures { result ≡ minus_word word }
{
    if word.bits() <= 1u128 << (word.width() - 1) {
        Some(unary(Unary::Neg, word))
    } else {
        None
    }
}

/// Returns the word of this width that the digits of a constant spell, or None where they do not fit it.
pub fn literal_word(kind: Base, width: u32, text: &[u8]) -> Option<Word>
    ensures { result ≡ literal_word (seen_base kind) width text.now }
{
    match kind {
        Base::Binary => {
            if text.len() == width as usize {
                read_digits(width, 2, text)
            } else {
                None
            }
        }
        Base::Decimal => {
            if is_negative(text) {
                let word = read_digits(width, 10, magnitude_of(text))?;
                minus_word(word)
            } else {
                read_digits(width, 10, text)
            }
        }
        Base::Hex => read_digits(width, 16, text),
    }
}
