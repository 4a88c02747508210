// The positions of a list, grouped by the number at each position.
ghost use Rattle.std.specs.Prelude.{◌≡◌, ◌<◌, IfOk, length, slice_index_or};
ghost use Rattle.smv_script_terms.specs.Chains.{AreChains};

use std::alloc::Global;
use text_core::NoMemory;

/// For each number its first position, and for each position the next one with the same number.
///
/// The length of the list marks that there is none.
#[derive(Drop)]
pub(crate) struct Chains {
    firsts: Vec<usize>,
    nexts: Vec<usize>,
}

impl Chains {
    /// Returns the first position of a number, or the length of the list where there is none.
    pub(crate) fn first(&self, number: usize) -> usize
        requires { number < length self.now.firsts.items }
        ensures { result ≡ slice_index_or self.now.firsts.items number 0 }
    {
        self.firsts[number]
    }

    /// Returns the next position with the same number as this one, or the length of the list where there is none.
    pub(crate) fn next(&self, place: usize) -> usize
        requires { place < length self.now.nexts.items }
        ensures { result ≡ slice_index_or self.now.nexts.items place 0 }
    {
        self.nexts[place]
    }
}

/// Returns the chains of the numbers below `count`, given the number at each position.
pub(crate) fn chains_of(
    alloc: Global,
    count: usize,
    numbers: Vec<usize>,
) -> Result<Chains, NoMemory>
    ensures { IfOk result (λ c. AreChains numbers.items count c) }
{
    let mut nexts = numbers;
    let mut place = nexts.len();
    let mut firsts = vec![in alloc; place; count]?;
    'places: while place > 0 {
        place -= 1;
        let number = nexts[place];
        if number < count {
            nexts[place] = firsts[number];
            firsts[number] = place;
        }
    }
    Ok(Chains { firsts, nexts })
}
