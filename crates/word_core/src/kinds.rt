// The kinds of operator, named as in BTOR2.

/// An operator on one word.
///
/// `RedAnd`, `RedOr` and `RedXor` reduce all bits of the word to one.
#[derive(Clone, Copy, PartialEq, Eq, Debug)]
pub enum Unary {
    Not,
    Inc,
    Dec,
    Neg,
    RedAnd,
    RedOr,
    RedXor,
}

/// An operator on two words.
#[derive(Clone, Copy, PartialEq, Eq, Debug)]
pub enum Binary {
    Iff,
    Implies,
    Eq,
    Neq,
    Sgt,
    Sgte,
    Slt,
    Slte,
    Ugt,
    Ugte,
    Ult,
    Ulte,
    And,
    Nand,
    Nor,
    Or,
    Xnor,
    Xor,
    Sll,
    Srl,
    Sra,
    Add,
    Sub,
    Mul,
    Udiv,
    Sdiv,
    Urem,
    Srem,
    Smod,
    Concat,
}
