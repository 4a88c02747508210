// Words that are not identifiers, by first byte. A word is compared only with those that share its first byte.
ghost use Rattle.std.specs.Prelude.{◌≡◌, ◌==◌, map};
ghost use Rattle.std.specs.List.{filter};
ghost use Rattle.smv_text.specs.Keywords.{keywords};
ghost use Rattle.smv_lex.specs.Reading.{row};
ghost use Rattle.text_core.specs.Bytes.{first_of};

use smv_text::Reserved;

/// A word that is not an identifier, and its reserved word if it is supported.
pub type Keyword = (&'static [u8], Option<Reserved>);

const UPPER_A: [Keyword; 7] = [
    (b"ASSIGN", Some(Reserved::Assign)),
    (b"A", None),
    (b"AF", None),
    (b"AG", None),
    (b"AX", None),
    (b"ABF", None),
    (b"ABG", None),
];

const UPPER_B: [Keyword; 1] = [(b"BU", None)];

const UPPER_C: [Keyword; 7] = [
    (b"CONSTANTS", Some(Reserved::Constants)),
    (b"CTLSPEC", None),
    (b"COMPUTE", None),
    (b"COMPASSION", None),
    (b"CONSTRAINT", None),
    (b"CTLWFF", None),
    (b"COMPWFF", None),
];

const UPPER_D: [Keyword; 1] = [(b"DEFINE", Some(Reserved::Define))];

const UPPER_E: [Keyword; 6] = [
    (b"E", None),
    (b"EF", None),
    (b"EG", None),
    (b"EX", None),
    (b"EBF", None),
    (b"EBG", None),
];

const UPPER_F: [Keyword; 4] = [
    (b"FROZENVAR", Some(Reserved::Frozenvar)),
    (b"FALSE", Some(Reserved::False)),
    (b"FAIRNESS", None),
    (b"F", None),
];

const UPPER_G: [Keyword; 1] = [(b"G", None)];

const UPPER_H: [Keyword; 1] = [(b"H", None)];

const UPPER_I: [Keyword; 6] = [
    (b"IVAR", Some(Reserved::Ivar)),
    (b"INIT", Some(Reserved::Init)),
    (b"INVAR", Some(Reserved::Invar)),
    (b"INVARSPEC", Some(Reserved::Invarspec)),
    (b"ISA", None),
    (b"IN", None),
];

const UPPER_J: [Keyword; 1] = [(b"JUSTICE", None)];

const UPPER_L: [Keyword; 2] = [(b"LTLSPEC", None), (b"LTLWFF", None)];

const UPPER_M: [Keyword; 5] = [
    (b"MODULE", Some(Reserved::Module)),
    (b"MIN", None),
    (b"MAX", None),
    (b"MDEFINE", None),
    (b"MIRROR", None),
];

const UPPER_N: [Keyword; 1] = [(b"NAME", Some(Reserved::Name))];

const UPPER_O: [Keyword; 1] = [(b"O", None)];

const UPPER_P: [Keyword; 4] = [
    (b"PSLSPEC", None),
    (b"PSLWFF", None),
    (b"PRED", None),
    (b"PREDICATES", None),
];

const UPPER_S: [Keyword; 3] = [(b"SPEC", None), (b"SIMPWFF", None), (b"S", None)];

const UPPER_T: [Keyword; 3] = [
    (b"TRANS", Some(Reserved::Trans)),
    (b"TRUE", Some(Reserved::True)),
    (b"T", None),
];

const UPPER_U: [Keyword; 1] = [(b"U", None)];

const UPPER_V: [Keyword; 2] = [(b"VAR", Some(Reserved::Var)), (b"V", None)];

const UPPER_X: [Keyword; 1] = [(b"X", None)];

const UPPER_Y: [Keyword; 1] = [(b"Y", None)];

const UPPER_Z: [Keyword; 1] = [(b"Z", None)];

const LOWER_A: [Keyword; 2] = [(b"abs", Some(Reserved::Abs)), (b"array", None)];

const LOWER_B: [Keyword; 2] = [
    (b"boolean", Some(Reserved::Boolean)),
    (b"bool", Some(Reserved::Bool)),
];

const LOWER_C: [Keyword; 2] = [
    (b"case", Some(Reserved::Case)),
    (b"count", Some(Reserved::Count)),
];

const LOWER_E: [Keyword; 2] = [
    (b"esac", Some(Reserved::Esac)),
    (b"extend", Some(Reserved::Extend)),
];

const LOWER_I: [Keyword; 3] = [
    (b"init", Some(Reserved::Initial)),
    (b"in", Some(Reserved::In)),
    (b"integer", None),
];

const LOWER_M: [Keyword; 3] = [
    (b"mod", Some(Reserved::Mod)),
    (b"max", Some(Reserved::Max)),
    (b"min", Some(Reserved::Min)),
];

const LOWER_N: [Keyword; 1] = [(b"next", Some(Reserved::Next))];

const LOWER_O: [Keyword; 1] = [(b"of", None)];

const LOWER_P: [Keyword; 1] = [(b"process", None)];

const LOWER_R: [Keyword; 2] = [(b"resize", Some(Reserved::Resize)), (b"real", None)];

const LOWER_S: [Keyword; 4] = [
    (b"self", Some(Reserved::Itself)),
    (b"signed", None),
    (b"swconst", None),
    (b"sizeof", None),
];

const LOWER_T: [Keyword; 1] = [(b"toint", Some(Reserved::Toint))];

const LOWER_U: [Keyword; 3] = [
    (b"unsigned", Some(Reserved::Unsigned)),
    (b"union", Some(Reserved::Union)),
    (b"uwconst", Some(Reserved::Uwconst)),
];

const LOWER_W: [Keyword; 2] = [
    (b"word", Some(Reserved::Word)),
    (b"word1", Some(Reserved::Word1)),
];

const LOWER_X: [Keyword; 2] = [
    (b"xor", Some(Reserved::Xor)),
    (b"xnor", Some(Reserved::Xnor)),
];

/// Returns the words with this first byte that are not identifiers.
#[tactic(auto, unfolding(smv_text::specs::Keywords::keywords))]
pub fn keywords_from(first: u8) -> &'static [Keyword]
    ensures { map row result.now ≡ filter (λ w. first == first_of w.0) keywords }
{
    match first {
        b'A' => &UPPER_A,
        b'B' => &UPPER_B,
        b'C' => &UPPER_C,
        b'D' => &UPPER_D,
        b'E' => &UPPER_E,
        b'F' => &UPPER_F,
        b'G' => &UPPER_G,
        b'H' => &UPPER_H,
        b'I' => &UPPER_I,
        b'J' => &UPPER_J,
        b'L' => &UPPER_L,
        b'M' => &UPPER_M,
        b'N' => &UPPER_N,
        b'O' => &UPPER_O,
        b'P' => &UPPER_P,
        b'S' => &UPPER_S,
        b'T' => &UPPER_T,
        b'U' => &UPPER_U,
        b'V' => &UPPER_V,
        b'X' => &UPPER_X,
        b'Y' => &UPPER_Y,
        b'Z' => &UPPER_Z,
        b'a' => &LOWER_A,
        b'b' => &LOWER_B,
        b'c' => &LOWER_C,
        b'e' => &LOWER_E,
        b'i' => &LOWER_I,
        b'm' => &LOWER_M,
        b'n' => &LOWER_N,
        b'o' => &LOWER_O,
        b'p' => &LOWER_P,
        b'r' => &LOWER_R,
        b's' => &LOWER_S,
        b't' => &LOWER_T,
        b'u' => &LOWER_U,
        b'w' => &LOWER_W,
        b'x' => &LOWER_X,
        _ => &[],
    }
}
