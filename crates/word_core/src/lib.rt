//! Words of 1 to 128 bits, and operators on them.
#![tactic(auto)]

mod digits;
mod kinds;
mod numbers;
mod operators;
mod word;

pub use digits::read_digits;
pub use kinds::{Binary, Unary};
pub use operators::{
    binary, binary_width, gives_one_bit, ite, sext, slice, uext, unary, unary_width,
};
pub use word::{WIDEST, Word, widest_is};
