// Numbers, integers and paths.

ghost use Rattle.std.specs.Prelude.{◌≡◌, ◌<◌, ◌^◌, pos, suc, length, IfOk, IfErr, OnOk};
ghost use Rattle.smv_grammar.specs.Reading.{dots_behind, first_integer, first_name, first_number, first_path, path_on, starts_range, starts_with_dots};
ghost use Rattle.smv_expressions.specs.Following.{Finds, IsLost, Passes};
ghost use Rattle.smv_expressions.specs.declared.stop.Stop.TheVariants.{NoMemory};

use crate::stop::Stop;
use smv_grammar::{is_sign, tokens_after};
use smv_text::{Path, Reserved, Sign, Token, TokenKind};
use std::alloc::Global;
use text_core::{Name, Names};

/// Returns the tokens after the given sign, which must come first.
pub fn expect(tokens: &[Token], sign: Sign) -> Result<&[Token], Stop>
    ensures passes { Passes (λ r. r.now) result sign tokens.now }
    ensures shorter { IfOk result (λ r. length tokens.now ≡ suc (length r.now)) }
{
    match tokens_after(tokens, sign) {
        Some(rest) => Ok(rest),
        None => Err(Stop::Dead(tokens.len())),
    }
}

/// Parses a number, and returns it and the tokens after it.
pub fn number(tokens: &[Token]) -> Result<(u64, &[Token]), Stop>
    ensures found { Finds (λ x. (x.0, x.1.now)) (first_number tokens.now) result }
    ensures shorter { IfOk result (λ x. length x.1.now < length tokens.now) }
{
    match tokens.split_first() {
        None => Err(Stop::Dead(0)),
        Some((token, rest)) => match &token.kind {
            TokenKind::Number(n) => Ok((*n, rest)),
            _ => Err(Stop::Dead(tokens.len())),
        },
    }
}

// The number as an integer. No text has a number of 2^62 or more, so the error never happens.
fn signed(number: u64) -> Result<i64, Stop>
    ensures ok { IfOk result (λ z. z ≡ pos number) }
    ensures small { OnOk result (number < 2 ^ 63) }
    ensures err { IfErr result (λ e. e ≡ NoMemory) }
{
    match i64::try_from(number) {
        Ok(integer) => Ok(integer),
        Err(_) => Err(Stop::NoMemory),
    }
}

/// Parses an integer with an optional minus, and returns it and the tokens after it.
pub fn integer(tokens: &[Token]) -> Result<(i64, &[Token]), Stop>
    ensures found { Finds (λ x. (x.0, x.1.now)) (first_integer tokens.now) result }
    ensures shorter { IfOk result (λ x. length x.1.now < length tokens.now) }
{
    match tokens_after(tokens, Sign::Minus) {
        Some(more) => {
            let (n, rest) = number(more)?;
            Ok((-signed(n)?, rest))
        }
        None => {
            let (n, rest) = number(tokens)?;
            Ok((signed(n)?, rest))
        }
    }
}

/// Returns whether the tokens begin with an integer and `..`.
pub(crate) fn starts_range(tokens: &[Token]) -> bool
    ensures { result ≡ starts_range tokens.now }
{
    match tokens.split_first() {
        None => false,
        Some((token, rest)) => match &token.kind {
            TokenKind::Number(_) => starts_with_dots(rest),
            TokenKind::Sign(sign) => match sign {
                Sign::Minus => starts_with_number_and_dots(rest),
                _ => false,
            },
            _ => false,
        },
    }
}

fn starts_with_dots(tokens: &[Token]) -> bool
    ensures { result ≡ starts_with_dots tokens.now }
{
    match tokens.first() {
        Some(token) => is_sign(&token.kind, Sign::Range),
        None => false,
    }
}

fn starts_with_number_and_dots(tokens: &[Token]) -> bool
    ensures { result ≡ dots_behind (first_number tokens.now) }
{
    match tokens.split_first() {
        None => false,
        Some((token, rest)) => match &token.kind {
            TokenKind::Number(_) => starts_with_dots(rest),
            _ => false,
        },
    }
}

/// Parses a path, and returns it and the tokens after it.
#[inline(always)]
pub fn path(alloc: Global, tokens: &[Token]) -> Result<(Path, &[Token]), Stop>
    ensures found { Finds (λ x. (x.0, x.1.now)) (first_path tokens.now) result }
    ensures shorter { IfOk result (λ x. length x.1.now < length tokens.now) }
{
    let (mut path, mut rest) = path_head(alloc, tokens)?;
    while let Some(more) = tokens_after(rest, Sign::Dot) {
        let (name, last) = name(alloc, more)?;
        path.names.push(name)?;
        rest = last;
    }
    Ok((path, rest))
}

// The beginning of a path: `self`, or an identifier.
#[inline(always)]
fn path_head(alloc: Global, tokens: &[Token]) -> Result<(Path, &[Token]), Stop>
    ensures found { IfOk result (λ x. first_path tokens.now ≡ path_on x.0 x.1.now) }
    ensures dead { IfErr result (IsLost (first_path tokens.now)) }
    ensures shorter { IfOk result (λ x. length x.1.now < length tokens.now) }
{
    match tokens.split_first() {
        None => Err(Stop::Dead(0)),
        Some((token, rest)) => {
            let place = token.place;
            match &token.kind {
                TokenKind::Ident(name) => {
                    let path = Path {
                        from_self: false,
                        names: Names::one(alloc, name.duplicate(alloc)?),
                        place,
                    };
                    Ok((path, rest))
                }
                TokenKind::Reserved(Reserved::Itself) => {
                    let path = Path {
                        from_self: true,
                        names: Names::new(alloc),
                        place,
                    };
                    Ok((path, rest))
                }
                _ => Err(Stop::Dead(tokens.len())),
            }
        }
    }
}

/// Parses an identifier, and returns it and the tokens after it.
#[inline(always)]
pub fn name(alloc: Global, tokens: &[Token]) -> Result<(Name, &[Token]), Stop>
    ensures found { Finds (λ x. (x.0, x.1.now)) (first_name tokens.now) result }
    ensures shorter { IfOk result (λ x. length x.1.now < length tokens.now) }
{
    match tokens.split_first() {
        None => Err(Stop::Dead(0)),
        Some((token, rest)) => match &token.kind {
            TokenKind::Ident(name) => Ok((name.duplicate(alloc)?, rest)),
            _ => Err(Stop::Dead(tokens.len())),
        },
    }
}
