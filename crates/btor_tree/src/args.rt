// The arguments of a line.
ghost use Rattle.std.specs.Prelude.{◌≡◌, ◌≢◌, ◌<◌, [], ◌∷◌, false, length, slice_index_or, IfSome, IfNone};
ghost use Rattle.btor_tree.specs.Sharing.{same_arg, same_args};

use std::marker::Model;

/// An argument of a line: the index of an earlier line, counted from 0, or the bitwise not of its word.
#[derive(Clone, Copy, PartialEq, Eq, PartialOrd, Ord)]
pub struct Arg {
    pub line: u32,
    pub negated: bool,
}

/// The arguments of a line, three at most, which contracts see as a list.
///
/// They are stored in the line itself, since there are so many lines.
#[derive(Drop)]
pub struct Args {
    count: u8,
    first: Arg,
    second: Arg,
    third: Arg,
}

impl Model for Args {
    ghost use Rattle.std.specs.Prelude.{◌≤◌, List};
    ghost use Rattle.btor_tree.specs.declared.args.Arg.{Arg};
    ghost use Rattle.btor_tree.specs.ListedArgs.{listed};

    ghost Value = { List Arg };

    ghost view = { λ a. listed a.count a.first a.second a.third };

    ghost invariant = { λ a. a.count ≤ 3 };
}

/// Returns the argument that is the word of line `line`, not negated.
pub fn plain_arg(line: u32) -> Arg
    ensures { result ≡ record { line = line; negated = false } }
{
    Arg {
        line,
        negated: false,
    }
}

fn is_same_arg(a: &Arg, b: &Arg) -> bool
    ensures { result ≡ same_arg a.now b.now }
{
    a.line == b.line && a.negated == b.negated
}

/// Returns the empty list of arguments.
pub fn no_args() -> Args
    ensures { result ≡ [] }
{
    let none = plain_arg(0);
    Args {
        count: 0,
        first: none,
        second: none,
        third: none,
    }
}

/// Returns the list with one argument.
pub fn one_arg(a: Arg) -> Args
    ensures { result ≡ a ∷ [] }
{
    let none = plain_arg(0);
    Args {
        count: 1,
        first: a,
        second: none,
        third: none,
    }
}

/// Returns the list with two arguments.
pub fn two_args(a: Arg, b: Arg) -> Args
    ensures { result ≡ a ∷ b ∷ [] }
{
    Args {
        count: 2,
        first: a,
        second: b,
        third: plain_arg(0),
    }
}

/// Returns the list with three arguments.
pub fn three_args(a: Arg, b: Arg, c: Arg) -> Args
    ensures { result ≡ a ∷ b ∷ c ∷ [] }
{
    Args {
        count: 3,
        first: a,
        second: b,
        third: c,
    }
}

impl Args {
    #[tactic(auto, using(crate::proofs::Slots::as_many))]
    /// Returns the number of arguments.
    pub fn len(&self) -> usize
        ensures { result ≡ length self.now }
    {
        self.count as usize
    }

    /// Returns the argument at index `i`, counted from 0.
    #[tactic(auto, using(crate::proofs::Slots::first_at, crate::proofs::Slots::second_at, crate::proofs::Slots::third_at))]
    pub fn at(&self, i: usize) -> &Arg
        requires { i < length self.now }
        ensures { result.now ≡ slice_index_or self.now i result.now }
    {
        if i == 0 {
            &self.first
        } else if i == 1 {
            &self.second
        } else {
            &self.third
        }
    }

    /// Returns whether these are the same arguments.
    #[tactic(auto, using(crate::proofs::Slots::not_as_many))]
    pub(crate) fn is_same(&self, other: &Args) -> bool
        ensures { result ≡ same_args self.now other.now }
    {
        if self.count != other.count {
            return false;
        }
        match self.count {
            0 => true,
            1 => is_same_arg(&self.first, &other.first),
            2 => {
                is_same_arg(&self.first, &other.first) && is_same_arg(&self.second, &other.second)
            }
            _ => {
                is_same_arg(&self.first, &other.first)
                    && is_same_arg(&self.second, &other.second)
                    && is_same_arg(&self.third, &other.third)
            }
        }
    }

    /// Returns a copy of the arguments.
    pub fn duplicate(&self) -> Args
        ensures { result ≡ self.now }
    {
        Args {
            count: self.count,
            first: self.first,
            second: self.second,
            third: self.third,
        }
    }

    /// Returns both arguments, or None where there are not exactly two.
    #[tactic(auto, using(crate::proofs::Slots::two_there, crate::proofs::Slots::not_two))]
    pub fn pair(&self) -> Option<(Arg, Arg)>
        ensures there { IfSome result (λ both. self.now ≡ both.0 ∷ both.1 ∷ []) }
        ensures missing { IfNone result (length self.now ≢ 2) }
    {
        if self.count == 2 {
            Some((self.first, self.second))
        } else {
            None
        }
    }
}
