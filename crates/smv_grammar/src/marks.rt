// Tests for a given sign or reserved word.

ghost use Rattle.std.specs.Prelude.{◌≡◌, is_some, option_map, IfSome, suc, length};
ghost use Rattle.smv_text.specs.Signs.{sign_number};
ghost use Rattle.smv_text.specs.Keywords.{word_number};
ghost use Rattle.smv_grammar.specs.Marks.{is_sign, is_word};
ghost use Rattle.smv_grammar.specs.Reading.{after, after_word};

use smv_text::{Reserved, Sign, Token, TokenKind};

fn sign_number(sign: Sign) -> u8
    ensures { result ≡ sign_number sign }
{
    sign as u8
}

fn word_number(word: Reserved) -> u8
    ensures { result ≡ word_number word }
{
    word as u8
}

/// Returns whether the token is the given sign.
pub fn is_sign(kind: &TokenKind, sign: Sign) -> bool
    ensures { result ≡ is_sign sign kind.now }
{
    match kind {
        TokenKind::Sign(other) => sign_number(*other) == sign_number(sign),
        TokenKind::Reserved(_) => false,
        TokenKind::Refused => false,
        TokenKind::Ident(_) => false,
        TokenKind::Number(_) => false,
        TokenKind::Literal(_) => false,
    }
}

/// Returns whether the token is the given reserved word.
fn is_word(kind: &TokenKind, word: Reserved) -> bool
    ensures { result ≡ is_word word kind.now }
{
    match kind {
        TokenKind::Reserved(other) => word_number(*other) == word_number(word),
        TokenKind::Refused => false,
        TokenKind::Ident(_) => false,
        TokenKind::Number(_) => false,
        TokenKind::Literal(_) => false,
        TokenKind::Sign(_) => false,
    }
}

/// Returns the tokens after the given sign, or None where it does not come first.
pub fn tokens_after(tokens: &[Token], sign: Sign) -> Option<&[Token]>
    ensures found { option_map (λ r. r.now) result ≡ after sign tokens.now }
    ensures shorter { IfSome result (λ r. length tokens.now ≡ suc (length r.now)) }
{
    match tokens.split_first() {
        Some((token, rest)) => {
            if is_sign(&token.kind, sign) {
                Some(rest)
            } else {
                None
            }
        }
        None => None,
    }
}

/// Returns whether the given sign comes first.
pub fn is_first(tokens: &[Token], sign: Sign) -> bool
    ensures { result ≡ is_some (after sign tokens.now) }
{
    match tokens.first() {
        Some(token) => is_sign(&token.kind, sign),
        None => false,
    }
}

/// Returns the tokens after the given reserved word, or None where it does not come first.
pub fn after_word(tokens: &[Token], word: Reserved) -> Option<&[Token]>
    ensures found { option_map (λ r. r.now) result ≡ after_word word tokens.now }
    ensures shorter { IfSome result (λ r. length tokens.now ≡ suc (length r.now)) }
{
    match tokens.split_first() {
        Some((token, rest)) => {
            if is_word(&token.kind, word) {
                Some(rest)
            } else {
                None
            }
        }
        None => None,
    }
}
