// Fixes for single words of a kind of refusal. They show the form that the profile supports.
ghost use Rattle.std.specs.Prelude.{◌≡◌, map, option_map};
ghost use Rattle.explain_core.specs.Advice.{hint_for, hint_in, plain_advice};
ghost use Rattle.explain_core.specs.Kinds.{is_among};

use crate::near::is_kind;
use text_core::kinds::{moxi, smv};
use text_core::{Kind, is_same};

const INVARIANT: &[u8] =
    b"Write a safety property as `INVARSPEC expression;`: temporal logic is left out.";

const NO_FAIRNESS: &[u8] = b"Delete it: fairness is left out, and invariants do not depend on it.";

const RENAME: &[u8] =
    b"Choose another name: this one is an operator of temporal logic, which is left out.";

const ELEMENTS: &[u8] =
    b"Declare a variable for each element, as `a0 : boolean; a1 : boolean;`: arrays are left out.";

const DECLARE_IN_SYSTEM: &[u8] =
    b"Declare variables in `:input`, `:output` or `:local` of a system, constants as `(define-fun c () Sort term)`.";

const BIT_VECTOR: &[u8] = b"Write a sort such as `(_ BitVec 32)`.";

// The fixes for unsupported words of SMV.
const SMV_WORDS: [(&[u8], &[u8]); 26] = [
    (b"LTLSPEC", INVARIANT),
    (b"CTLSPEC", INVARIANT),
    (b"SPEC", INVARIANT),
    (b"PSLSPEC", INVARIANT),
    (b"COMPUTE", INVARIANT),
    (b"FAIRNESS", NO_FAIRNESS),
    (b"JUSTICE", NO_FAIRNESS),
    (b"COMPASSION", NO_FAIRNESS),
    (
        b"process",
        b"Write `VAR p : m(arguments);` without `process`, and state under TRANS which instance moves.",
    ),
    (
        b"ISA",
        b"Declare an instance, as `VAR p : m;`, and name its parts as `p.x`.",
    ),
    (b"array", ELEMENTS),
    (b"of", ELEMENTS),
    (b"integer", b"Write a range, as `x : 0..255;`."),
    (b"real", b"Write a range of integers, as `x : 0..255;`."),
    (
        b"signed",
        b"Write `x : unsigned word[8];`, or a range such as `x : -128..127;`.",
    ),
    (
        b"swconst",
        b"Write `uwconst(value, width)`, or a literal such as `0ud8_5`.",
    ),
    (b"sizeof", b"Write the width as a number."),
    (b"CONSTRAINT", b"Write the formula under INVAR or TRANS."),
    (b"MDEFINE", b"Write it under DEFINE."),
    (
        b"PRED",
        b"Delete it: only definitions under DEFINE are read.",
    ),
    (
        b"PREDICATES",
        b"Delete it: only definitions under DEFINE are read.",
    ),
    (b"MIRROR", b"Delete it."),
    (b"IN", b"Write `in`, or choose another name."),
    (b"MIN", b"Write `min(a, b)`, or choose another name."),
    (b"MAX", b"Write `max(a, b)`, or choose another name."),
    (b"SIMPWFF", b"Delete it."),
];

// The operators of temporal logic.
const TEMPORAL: [&[u8]; 23] = [
    b"A", b"E", b"F", b"G", b"H", b"O", b"S", b"T", b"U", b"V", b"X", b"Y", b"Z", b"AF", b"AG",
    b"AX", b"EF", b"EG", b"EX", b"ABF", b"ABG", b"EBF", b"EBG",
];

// The fixes for a token with which no model can continue.
const DEAD_TOKENS: [(&[u8], &[u8]); 7] = [
    (
        b"=",
        b"Write one `=` for equality, and `:=` behind a name that is defined or assigned.",
    ),
    (b"&", b"Write one `&` for and."),
    (b"|", b"Write one `|` for or."),
    (
        b"esac",
        b"End each branch of a `case` with `;`, the last one too.",
    ),
    (
        b"]",
        b"Give the width or the bits as numbers, as `word[8]` and `w[7:0]`.",
    ),
    (
        b"self",
        b"Choose another name: `self` is the instance itself.",
    ),
    (b"mod", b"Write `a mod b`, with an operand on each side."),
];

// The fixes for the first word of an expression whose types don't fit.
const CLASHES: [(&[u8], &[u8]); 2] = [
    (
        b"case",
        b"Give each branch a boolean condition and values of one type; the default is `TRUE : value;`, not `1 : value;`.",
    ),
    (
        b"next",
        b"Give both sides one type; of a boolean x say `next(x)` and not `next(x) = 1`.",
    ),
];

// The fixes for the unsupported words of a script.
const SCRIPT_WORDS: [(&[u8], &[u8]); 12] = [
    (b"(declare-const", DECLARE_IN_SYSTEM),
    (b"(declare-fun", DECLARE_IN_SYSTEM),
    (
        b"(declare-sort",
        b"List the values of the sort, as `(declare-enum-sort Name (a b c))`.",
    ),
    (b"(define-fun-rec", b"Write `define-fun` without recursion."),
    (
        b"(assert",
        b"State it as `:init`, `:trans` or `:inv` of a system.",
    ),
    (b"(define-const", b"Write `(define-fun c () Sort term)`."),
    (b"Int", BIT_VECTOR),
    (b"Real", BIT_VECTOR),
    (
        b"(Array",
        b"Declare a variable for each element: arrays are left out.",
    ),
    (b"(+", b"Write `bvadd` on words: integers are left out."),
    (
        b"(-",
        b"Write `bvsub` or `bvneg` on words: integers are left out.",
    ),
    (b":fairness", NO_FAIRNESS),
];

/// Returns the fix for this token in a refusal of this kind.
///
/// Returns None where only the general fix of the kind applies.
pub fn hint_for(kind: Kind, token: &[u8]) -> Option<&'static [u8]>
    ensures { option_map (λ remedy. remedy.now) result ≡ hint_for kind token.now }
{
    if is_kind(kind, smv::NOT_SUPPORTED) {
        if is_among(&TEMPORAL, token) {
            Some(RENAME)
        } else {
            hint_in(&SMV_WORDS, token)
        }
    } else if is_kind(kind, smv::DEAD) {
        hint_in(&DEAD_TOKENS, token)
    } else if is_kind(kind, smv::TYPE_CLASH) {
        hint_in(&CLASHES, token)
    } else if is_kind(kind, moxi::NOT_SUPPORTED) {
        hint_in(&SCRIPT_WORDS, token)
    } else {
        None
    }
}

/// Returns whether the token is one of these words.
pub fn is_among(words: &[&'static [u8]], token: &[u8]) -> bool
    ensures { result ≡ is_among (map (λ word. word.now) words.now) token.now }
{
    for word in words {
        if is_same(word, token) {
            return true;
        }
    }
    false
}

// The fix listed for a word.
fn hint_in(hints: &[(&'static [u8], &'static [u8])], token: &[u8]) -> Option<&'static [u8]>
    ensures { option_map (λ remedy. remedy.now) result ≡ hint_in (map plain_advice hints.now) token.now }
{
    for (word, remedy) in hints {
        if is_same(word, token) {
            return Some(*remedy);
        }
    }
    None
}
