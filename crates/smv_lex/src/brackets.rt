// The number of open brackets.
ghost use Rattle.std.specs.Prelude.{◌≡◌, ◌<◌, ◌-◌, ◌^◌};
ghost use Rattle.smv_text.specs.declared.token.TokenKind.TheVariants as kind;
ghost use Rattle.smv_text.specs.Lexing.{opened_by};

use smv_text::{Reserved, Sign, TokenKind};

/// The most brackets that may be open at once in a text.
pub const MOST_BRACKETS: u32 = 100;

/// Returns the number of open brackets after a sign, where `opened` are open before it.
pub fn opened_by_sign(opened: u32, sign: Sign) -> u32
    requires { opened < 2 ^ 32 - 1 }
    ensures { result ≡ opened_by opened (kind.Sign sign) }
{
    match sign {
        Sign::Open | Sign::OpenBrace | Sign::OpenBracket => opened + 1,
        Sign::Close | Sign::CloseBrace | Sign::CloseBracket => opened.saturating_sub(1),
        _ => opened,
    }
}

/// Returns the number of open brackets after a reserved word, where `opened` are open before it.
pub fn opened_by_word(opened: u32, word: Reserved) -> u32
    requires { opened < 2 ^ 32 - 1 }
    ensures { result ≡ opened_by opened (kind.Reserved word) }
{
    match word {
        Reserved::Case => opened + 1,
        Reserved::Esac => opened.saturating_sub(1),
        _ => opened,
    }
}

/// Returns the number of open brackets after a token, where `opened` are open before it.
///
/// `case` opens one and `esac` closes one. A closing bracket closes an open bracket of any kind; without one it changes
/// nothing.
pub fn opened_by(opened: u32, kind: &TokenKind) -> u32
    requires { opened < 2 ^ 32 - 1 }
    ensures { result ≡ opened_by opened kind.now }
{
    match kind {
        TokenKind::Sign(sign) => opened_by_sign(opened, *sign),
        TokenKind::Reserved(word) => opened_by_word(opened, *word),
        _ => opened,
    }
}
