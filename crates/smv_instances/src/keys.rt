// The parameters of all instances.
ghost use Rattle.std.specs.Prelude.{◌≡◌, ◌&&◌, ◌||◌, ◌==◌, List, ℕ, map, bytes_eq, IfOk, OnOk};
ghost use Rattle.std.specs.List.{list_any};
ghost use Rattle.smv_instances.specs.Leads.{is_key, AreAll};
ghost use Rattle.smv_instances.specs.View.{instance_plain};

use crate::leads::Key;
use crate::parts::Parts;
use smv_text::Parameters;
use std::alloc::Global;
use text_core::NoMemory;

fn add_keys<'a>(
    keys: &mut Vec<Key<'a>>,
    i: usize,
    parameters: &'a Parameters,
) -> Result<(), NoMemory>
    ensures { OnOk result ((j : ℕ) (x : List ℕ) → list_any (is_key j x) keys.new.items ≡ (list_any (is_key j x) keys.old.items || (i == j && list_any (λ q. bytes_eq q.name x) parameters.now))) }
{
    for parameter in parameters {
        let name = parameter.name.bytes();
        keys.push(Key { instance: i, name })?;
    }
    Ok(())
}

/// Returns the parameters of all instances, which include all aliases.
#[tactic(auto, using(crate::proofs::KeyLemmas::more_keys, crate::proofs::KeyLemmas::all_keys))]
pub fn keys_of<'a>(alloc: Global, parts: &Parts<'a>) -> Result<Vec<Key<'a>>, NoMemory>
    ensures { IfOk result (λ ks. AreAll (map instance_plain parts.now) ks.items) }
{
    let mut keys = Vec::new(alloc);
    for (i, part) in parts.list().iter().enumerate() {
        add_keys(&mut keys, i, &part.module.parameters)?;
    }
    Ok(keys)
}
