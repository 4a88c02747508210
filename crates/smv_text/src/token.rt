// Tokens, their kinds, and lists of them.
ghost use Rattle.std.specs.Prelude.{◌≡◌, ◌<◌, length, slice_index_or};
ghost use Rattle.smv_text.specs.Keywords.{word_bytes};
ghost use Rattle.smv_text.specs.Signs.{sign_bytes};

use std::marker::Model;
use text_core::{Name, Place};
use word_core::Word;

/// A reserved word (NuSMV 2.6 User Manual, chapter 2, reserved keywords, before section 2.1).
#[derive(Clone, Copy, PartialEq, Eq)]
pub enum Reserved {
    /// `MODULE`
    Module,
    /// `VAR`
    Var,
    /// `IVAR`
    Ivar,
    /// `FROZENVAR`
    Frozenvar,
    /// `DEFINE`
    Define,
    /// `CONSTANTS`
    Constants,
    /// `ASSIGN`
    Assign,
    /// `INIT`
    Init,
    /// `TRANS`
    Trans,
    /// `INVAR`
    Invar,
    /// `INVARSPEC`
    Invarspec,
    /// `NAME`
    Name,
    /// `TRUE`
    True,
    /// `FALSE`
    False,
    /// `boolean`
    Boolean,
    /// `word`
    Word,
    /// `unsigned`
    Unsigned,
    /// `case`
    Case,
    /// `esac`
    Esac,
    /// `next`
    Next,
    /// `init`
    Initial,
    /// `self`
    Itself,
    /// `mod`
    Mod,
    /// `union`
    Union,
    /// `in`
    In,
    /// `xor`
    Xor,
    /// `xnor`
    Xnor,
    /// `bool`
    Bool,
    /// `word1`
    Word1,
    /// `toint`
    Toint,
    /// `uwconst`
    Uwconst,
    /// `extend`
    Extend,
    /// `resize`
    Resize,
    /// `count`
    Count,
    /// `max`
    Max,
    /// `min`
    Min,
    /// `abs`
    Abs,
}

/// Returns the reserved word's spelling.
pub fn word_bytes(word: Reserved) -> &'static [u8]
    ensures { result.now ≡ word_bytes word }
{
    match word {
        Reserved::Module => b"MODULE",
        Reserved::Var => b"VAR",
        Reserved::Ivar => b"IVAR",
        Reserved::Frozenvar => b"FROZENVAR",
        Reserved::Define => b"DEFINE",
        Reserved::Constants => b"CONSTANTS",
        Reserved::Assign => b"ASSIGN",
        Reserved::Init => b"INIT",
        Reserved::Trans => b"TRANS",
        Reserved::Invar => b"INVAR",
        Reserved::Invarspec => b"INVARSPEC",
        Reserved::Name => b"NAME",
        Reserved::True => b"TRUE",
        Reserved::False => b"FALSE",
        Reserved::Boolean => b"boolean",
        Reserved::Word => b"word",
        Reserved::Unsigned => b"unsigned",
        Reserved::Case => b"case",
        Reserved::Esac => b"esac",
        Reserved::Next => b"next",
        Reserved::Initial => b"init",
        Reserved::Itself => b"self",
        Reserved::Mod => b"mod",
        Reserved::Union => b"union",
        Reserved::In => b"in",
        Reserved::Xor => b"xor",
        Reserved::Xnor => b"xnor",
        Reserved::Bool => b"bool",
        Reserved::Word1 => b"word1",
        Reserved::Toint => b"toint",
        Reserved::Uwconst => b"uwconst",
        Reserved::Extend => b"extend",
        Reserved::Resize => b"resize",
        Reserved::Count => b"count",
        Reserved::Max => b"max",
        Reserved::Min => b"min",
        Reserved::Abs => b"abs",
    }
}

/// A sign: a bracket, a separator or an operator (NuSMV 2.6 User Manual, sections 2.2 and 2.3).
#[derive(Clone, Copy, PartialEq, Eq)]
pub enum Sign {
    /// `(`
    Open,
    /// `)`
    Close,
    /// `{`
    OpenBrace,
    /// `}`
    CloseBrace,
    /// `[`
    OpenBracket,
    /// `]`
    CloseBracket,
    /// `,`
    Comma,
    /// `;`
    Semicolon,
    /// `:`
    Colon,
    /// `.`
    Dot,
    /// `..`
    Range,
    /// `:=`
    Assign,
    /// `=`
    Equal,
    /// `!=`
    Unequal,
    /// `<`
    Less,
    /// `>`
    Greater,
    /// `<=`
    LessEqual,
    /// `>=`
    GreaterEqual,
    /// `!`
    Not,
    /// `&`
    And,
    /// `|`
    Or,
    /// `+`
    Plus,
    /// `-`
    Minus,
    /// `*`
    Times,
    /// `/`
    Divide,
    /// `<<`
    ShiftLeft,
    /// `>>`
    ShiftRight,
    /// `::`
    Concat,
    /// `?`
    Question,
    /// `->`
    Implies,
    /// `<->`
    Iff,
}

/// Returns the sign's spelling.
pub fn sign_bytes(sign: Sign) -> &'static [u8]
    ensures { result.now ≡ sign_bytes sign }
{
    match sign {
        Sign::Open => b"(",
        Sign::Close => b")",
        Sign::OpenBrace => b"{",
        Sign::CloseBrace => b"}",
        Sign::OpenBracket => b"[",
        Sign::CloseBracket => b"]",
        Sign::Comma => b",",
        Sign::Semicolon => b";",
        Sign::Colon => b":",
        Sign::Dot => b".",
        Sign::Range => b"..",
        Sign::Assign => b":=",
        Sign::Equal => b"=",
        Sign::Unequal => b"!=",
        Sign::Less => b"<",
        Sign::Greater => b">",
        Sign::LessEqual => b"<=",
        Sign::GreaterEqual => b">=",
        Sign::Not => b"!",
        Sign::And => b"&",
        Sign::Or => b"|",
        Sign::Plus => b"+",
        Sign::Minus => b"-",
        Sign::Times => b"*",
        Sign::Divide => b"/",
        Sign::ShiftLeft => b"<<",
        Sign::ShiftRight => b">>",
        Sign::Concat => b"::",
        Sign::Question => b"?",
        Sign::Implies => b"->",
        Sign::Iff => b"<->",
    }
}

/// The kind of a token, with its value.
#[derive(Drop)]
pub enum TokenKind {
    /// A reserved word.
    Reserved(Reserved),
    /// A reserved word of a part of SMV that this profile does not support.
    Refused,
    /// An identifier, with its bytes.
    Ident(Name),
    /// A decimal number below 2^62.
    Number(u64),
    /// A word literal: its width is from 1 to `WIDEST`, its value below two to the power of the width.
    Literal(Word),
    /// A sign.
    Sign(Sign),
}

/// A token: its kind, the place of its first byte, and its length in bytes.
#[derive(Drop)]
pub struct Token {
    pub kind: TokenKind,
    pub place: Place,
    pub length: u32,
}

/// The tokens of a text in order, and the place of the end of the text.
#[derive(Drop)]
pub struct Tokens {
    tokens: Vec<Token>,
    last: Place,
}

impl Model for Tokens {
    ghost use Rattle.smv_text.specs.Lexing.{TokenList};

    ghost Value = { TokenList };

    ghost view = { λ t. record { items = t.tokens.items; end = t.last } };
}

impl Tokens {
    /// Creates a token list from its tokens and the place of the end of the text.
    pub fn of(tokens: Vec<Token>, last: Place) -> Tokens
        ensures items { result.items ≡ tokens.items }
        ensures end { result.end ≡ last }
    {
        Tokens { tokens, last }
    }

    /// Returns the number of tokens.
    pub fn len(&self) -> usize
        ensures { result ≡ length self.now.items }
    {
        self.tokens.len()
    }

    /// Returns the token at a position, counted from 0.
    pub fn at(&self, i: usize) -> &Token
        requires { i < length self.now.items }
        ensures { result.now ≡ slice_index_or self.now.items i result.now }
    {
        &self.tokens[i]
    }

    /// Returns all tokens as a slice, in the order of the text.
    pub fn as_slice(&self) -> &[Token]
        ensures { result.now ≡ self.now.items }
    {
        self.tokens.as_slice()
    }

    /// Returns the place after the last byte of the text.
    pub fn end(&self) -> Place
        ensures { result ≡ self.now.end }
    {
        self.last
    }
}
