// Bodies that are typed before their place in the text, by the numbers of their items.
ghost use Rattle.std.specs.Prelude.{◌≡◌, ◌==◌, ◌<◌, ℕ, length, if◌then◌else◌, None, Some, Option, slice_index_or, OnOk};
ghost use Rattle.smv_flat.specs.declared.nodes.Typed.{Typed as Stored};

use smv_flat::Typed;
use std::mem;
use text_core::NoMemory;

/// The types and flat forms of bodies, by the numbers of their items.
pub(crate) type Kept = Vec<Option<Typed>>;

/// Takes what is kept under a number.
pub(crate) fn take_at(kept: &mut Kept, k: usize) -> Option<Typed>
    ensures found { result ≡ slice_index_or kept.old.items k None }
    ensures others { (n : ℕ) (x : Stored) → slice_index_or kept.new.items n None ≡ Some x → slice_index_or kept.old.items n None ≡ Some x }
{
    if k < kept.len() {
        mem::replace(&mut kept[k], None)
    } else {
        None
    }
}

// Makes room for this number.
fn make_room<T: Drop>(kept: &mut Vec<Option<T>>, k: usize) -> Result<(), NoMemory>
    ensures long { OnOk result (k < length kept.new.items) }
    ensures same { OnOk result ((n : ℕ) → slice_index_or kept.new.items n None ≡ slice_index_or kept.old.items n None) }
{
    while kept.len() <= k {
        kept.push(None)?;
    }
    Ok(())
}

/// Keeps this under a number, in place of what was there.
pub(crate) fn put_at<T: Drop>(
    kept: &mut Vec<Option<T>>,
    k: usize,
    found: Option<T>,
) -> Result<(), NoMemory>
    ensures { OnOk result ((n : ℕ) → slice_index_or kept.new.items n None ≡ (if n == k then found else slice_index_or kept.old.items n None)) }
{
    make_room(kept, k)?;
    kept[k] = found;
    Ok(())
}
