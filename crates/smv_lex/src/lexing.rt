// The lexer.
ghost use Rattle.std.specs.Prelude.{◌≡◌, ℕ, ◌<◌, ◌≤◌, ◌^◌, List, Some, length, IfOk, IfErr};
ghost use Rattle.text_core.specs.declared.place.Refusal.{Refusal};
ghost use Rattle.smv_text.specs.declared.token.Token.{Token};
ghost use Rattle.smv_text.specs.declared.token.TokenKind.{TokenKind};
ghost use Rattle.smv_text.specs.declared.token.Sign.{Sign};
ghost use Rattle.smv_text.specs.declared.token.Reserved.{Reserved};
ghost use Rattle.text_core.specs.Places.{after, start};
ghost use Rattle.smv_text.specs.Signs.{sign_bytes};
ghost use Rattle.smv_text.specs.Keywords.{word_bytes};
ghost use Rattle.smv_text.specs.Words.{kind_of};
ghost use Rattle.smv_lex.specs.Answer.{Reads, Stops, IsRefused, IsAnswered, lex_refusal};
ghost use Rattle.smv_lex.specs.Spelling.{joined};
ghost use Rattle.smv_lex.specs.Printable.{ArePrintable, CanAllBePrinted};
ghost use Rattle.smv_text.specs.Lexing.{kinds, Lexes};

use crate::adding::add_token;
use crate::scan::skip_gap;
use smv_text::Tokens;
use std::alloc::Global;
use text_core::{End, FIRST_PLACE};

/// The reason why lexing fails: a refusal, or out of memory.
pub type LexEnd = End;

/// Returns the tokens of a text, or its refusal.
fn tokens_of(alloc: Global, text: &[u8]) -> Result<Tokens, LexEnd>
    requires { length text.now ≤ 2 ^ 31 }
    ensures lexed { IfOk result (λ tokens. Lexes text.now tokens.items) }
    ensures end { IfOk result (λ tokens. tokens.end ≡ after start text.now) }
    ensures refused { IfErr result (IsRefused text.now) }
{
    let mut tokens = Vec::new(alloc);
    let mut rest = text;
    let mut place = FIRST_PLACE;
    let mut opened = 0;
    'tokens: loop {
        let (at, more) = skip_gap(place, rest);
        if more.is_empty() {
            return Ok(Tokens::of(tokens, at));
        }
        let added = add_token(alloc, &mut tokens, at, opened, more)?;
        opened = added.opened;
        place = at.along(added.size);
        rest = more.split_at(added.size).1;
    }
}

/// Returns the tokens of a text, each with its kind, place and length (NuSMV 2.6 User Manual, chapter 2).
///
/// The text has at most 2^31 bytes. `Err` is out of memory or the first refusal. `S2`: a byte at which no token starts.
/// `S3`: the first byte of a run that begins with a digit and spells neither a number nor a word literal. `S4`: one
/// bracket too many.
pub fn lex(alloc: Global, text: &[u8]) -> Result<Tokens, LexEnd>
    requires { length text.now ≤ 2 ^ 31 }
    // The text lexes to the tokens.
    ensures lexed { IfOk result (λ tokens. Lexes text.now tokens.items) }
    // The list has the place of the end of the text.
    ensures end { IfOk result (λ tokens. tokens.end ≡ after start text.now) }
    // There are no more tokens than bytes.
    ensures few { IfOk result (λ tokens. length tokens.items ≤ length text.now) }
    // The tokens that the text lexes to are returned, unless memory runs out.
    ensures exact { (ts : List Token) → Lexes text.now ts → Reads ts result }
    // The refusal is that of the text.
    ensures refused { IfErr result (IsRefused text.now) }
    // The refusal of the text is returned, unless memory runs out.
    ensures stops { (why : Refusal) → lex_refusal text.now why → Stops why result }
{
    tokens_of(alloc, text)
}

/// Proves that each text either lexes to exactly one list of tokens or has exactly one refusal.
pub fn one_lexing()
    // No text lexes to two lists of tokens.
    ensures tokens { (text : List ℕ) (ts us : List Token) → Lexes text ts → Lexes text us → ts ≡ us }
    // No text has two refusals.
    ensures refusal { (text : List ℕ) (why other : Refusal) → lex_refusal text why → lex_refusal text other → why ≡ other }
    // No text has both tokens and a refusal.
    ensures apart { (text : List ℕ) (ts : List Token) (why : Refusal) → Lexes text ts → lex_refusal text why → ⊥ }
    // Each text has one or the other.
    ensures total { (text : List ℕ) → IsAnswered text }
{}

/// Proves that the lexer reads the spelling of each reserved word and of each sign as that word or sign.
pub fn spellings_are_read()
    ensures signs { (s : Sign) → kind_of (sign_bytes s) ≡ Some (TokenKind.Sign s) }
    ensures words { (r : Reserved) → kind_of (word_bytes r) ≡ Some (TokenKind.Reserved r) }
{}

/// Proves that tokens printed with single blanks between them are lexed again, and that the tokens of a text can be
/// printed.
pub fn printed_is_lexed()
    ensures again { (ks : List TokenKind) → ArePrintable 0 ks → (ts : List Token) × Lexes (joined ks) ts × (kinds ts ≡ ks) }
    ensures printable { (text : List ℕ) (ts : List Token) → Lexes text ts → CanAllBePrinted 0 (kinds ts) }
{}
