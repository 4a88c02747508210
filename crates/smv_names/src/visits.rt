// A walk over the instances of a model in preorder, up to the first failing check.
ghost use Rattle.std.specs.Prelude.{◌≡◌, ℕ, List, ◌++◌, ◌∷◌, [], map, OnOk};
ghost use Rattle.smv_text.specs.View.{plain_module};
ghost use Rattle.smv_names.specs.View.{item_or_none, names_above};
ghost use Rattle.smv_names.specs.Visits.{item_visits, visits, CountsVisits, IsLength};

use crate::declarations::{declared_checked, length_below};
use crate::declaring::{DeclaredModule, DeclaredModules};
use crate::ends::NamesEnd;
use smv_text::{Domain, Item};
use text_core::NoMemory;

fn push<'a>(above: &mut Vec<&'a [u8]>, name: &'a [u8]) -> Result<(), NoMemory>
    ensures { OnOk result (above.new.items ≡ above.old.items ++ name.entry ∷ []) }
{
    Ok(above.push(name)?)
}

// Visits the instance that an item creates, with all instances below it.
#[cycle(visit)]
fn item_visited<'a>(
    modules: &DeclaredModules<'a>,
    deep: usize,
    above: &mut Vec<&'a [u8]>,
    path_length: usize,
    item: Option<&'a Item>,
    met: usize,
) -> Result<usize, NamesEnd>
    ensures counts { (path : List ℕ) → IsLength path_length path → CountsVisits result (map plain_module modules.now) met (item_visits (visits deep (map plain_module modules.now) (names_above above.old.items)) (map plain_module modules.now) path (item_or_none item.entry)) }
    ensures same { OnOk result (above.new.items ≡ above.old.items) }
{
    let Some(item) = item else {
        return Ok(met);
    };
    match &item.domain {
        Domain::Boolean => Ok(met),
        Domain::Members(_) => Ok(met),
        Domain::Between(_, _) => Ok(met),
        Domain::Bits(_) => Ok(met),
        Domain::Instance(name, _) => match modules.named(name.bytes()) {
            None => Ok(met),
            Some(own) => {
                let below = length_below(path_length, item.name.bytes());
                visited(modules, deep, above, below, own, met)
            }
        },
    }
}

/// Checks an instance of the module and all instances below it, and returns the number of instances after them.
///
/// `path_length` is the length of the path of the instance, up to one above the limit.
#[cycle(visit)]
pub(crate) fn visited<'a>(
    modules: &DeclaredModules<'a>,
    deep: usize,
    above: &mut Vec<&'a [u8]>,
    path_length: usize,
    own: &DeclaredModule<'a>,
    met: usize,
) -> Result<usize, NamesEnd>
    ensures counts { (path : List ℕ) → IsLength path_length path → CountsVisits result (map plain_module modules.now) met (visits deep (map plain_module modules.now) (names_above above.old.items) path (plain_module own.now)) }
    ensures same { OnOk result (above.new.items ≡ above.old.items) }
{
    if deep == 0 {
        return Ok(met);
    }
    let depth = above.len();
    let module = own.module();
    push(above, module.name.bytes())?;
    let mut count = match declared_checked(modules, above.as_slice(), path_length, met, own) {
        Ok(count) => count,
        Err(end) => return Err(end),
    };
    let list = own.declarations();
    for declaration in list {
        match item_visited(
            modules,
            deep - 1,
            above,
            path_length,
            declaration.item,
            count,
        ) {
            Ok(more) => count = more,
            Err(end) => return Err(end),
        }
    }
    above.truncate(depth);
    Ok(count)
}
