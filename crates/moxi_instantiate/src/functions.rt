// Sizes and heights of the bodies of functions, each of which calls only earlier functions.
ghost use Rattle.std.specs.Prelude.{◌≡◌, ◌++◌, ◌∷◌, [], length, map, IfOk, OnOk};
ghost use Rattle.moxi_terms.specs.View.{plain_function};
ghost use Rattle.moxi_flat.specs.Terms.{measured_upto, term_height, term_size};
ghost use Rattle.moxi_instantiate.specs.Counting.{AreCounted};

use crate::terms::{term_height, term_size};
use moxi_terms::Function;
use std::alloc::Global;
use text_core::{List, NoMemory};

pub(crate) fn put(counts: &mut Vec<u64>, count: u64) -> Result<(), NoMemory>
    ensures { OnOk result (counts.new.items ≡ counts.old.items ++ count ∷ []) }
{
    Ok(counts.push(count)?)
}

/// Returns the sizes of the functions' bodies.
pub fn body_sizes(alloc: Global, functions: &List<Function>) -> Result<Vec<u64>, NoMemory>
    ensures { IfOk result (λ sizes. AreCounted (measured_upto term_size (map plain_function functions.now) (length functions.now)) sizes.items) }
{
    let mut sizes = Vec::new(alloc);
    for function in functions.as_slice() {
        let size = term_size(&sizes, &function.body);
        put(&mut sizes, size)?;
    }
    Ok(sizes)
}

/// Returns the heights of the functions' bodies.
pub fn body_heights(alloc: Global, functions: &List<Function>) -> Result<Vec<u64>, NoMemory>
    ensures { IfOk result (λ heights. AreCounted (measured_upto term_height (map plain_function functions.now) (length functions.now)) heights.items) }
{
    let mut heights = Vec::new(alloc);
    for function in functions.as_slice() {
        let height = term_height(&heights, &function.body);
        put(&mut heights, height)?;
    }
    Ok(heights)
}
