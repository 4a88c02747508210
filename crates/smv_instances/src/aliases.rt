// Computing the leads of all aliases.
ghost use Rattle.std.specs.Prelude.{◌≡◌, ◌<◌, Some, true, false, map, IfOk, OnOk};
ghost use Rattle.smv_instances.specs.Leads.{Right, IsOpen, StaysClosed, KeyWalk, WaitsIfOpen, AllWait, IsClosed, AreAll, AreCounted, led};
ghost use Rattle.smv_instances.specs.View.{instance_plain};

use crate::keys::keys_of;
use crate::leads::{Key, Lead, Leads, Walk, path_walk};
use crate::names::Known;
use crate::parts::Parts;
use name_maps::{InstanceMap, add_row_in, no_rows_in, nothing_in, put_in, row_value_in, value_in};
use std::alloc::Global;
use text_core::NoMemory;

// The walk of a parameter that is an alias without a stored lead.
fn key_walk<'a>(parts: &Parts<'a>, leads: &Leads<'a>, key: Key<'a>) -> Option<Walk<'a>>
    requires right { Right (map instance_plain parts.now) leads.now }
    ensures { KeyWalk (map instance_plain parts.now) leads.now key.entry.instance key.entry.name.now result }
{
    match row_value_in(leads, key.instance, key.name) {
        Some(_) => None,
        None => match parts.local(key.instance, key.name) {
            Known::Alias(j, path) => Some(path_walk(parts, leads, j, path)),
            Known::Body(_, _) => None,
            Known::Variable(_, _) => None,
            Known::Instance => None,
            Known::Nothing => None,
        },
    }
}

// Stores the lead of a parameter, which is one of `keys`.
fn keep_deeper<'a>(
    parts: &Parts<'a>,
    leads: &mut Leads<'a>,
    keys: &[Key<'a>],
    key: Key<'a>,
    lead: Lead<'a>,
) -> Result<(), NoMemory>
    requires all { AreAll (map instance_plain parts.now) keys.now }
    requires right { Right (map instance_plain parts.now) leads.old }
    requires counted { AreCounted leads.old keys.now }
    requires leads { KeyWalk (map instance_plain parts.now) leads.old key.instance key.name.now (Some (Walk.Ends lead)) }
    ensures right { OnOk result (Right (map instance_plain parts.now) leads.new) }
    ensures counted { OnOk result (AreCounted leads.new keys.now) }
    ensures more { OnOk result (led leads.old keys.now < led leads.new keys.now) }
    ensures stays { OnOk result (StaysClosed (map instance_plain parts.now) leads.old leads.new) }
    ensures closed { OnOk result (¬ IsOpen (map instance_plain parts.now) leads.new key.entry.instance key.entry.name.now) }
{
    // There are fewer leads than parameters before this one is added, so the depth does not overflow.
    let deep = Lead {
        depth: lead.depth + 1,
        target: lead.target,
    };
    add_row_in(leads, key.instance, key.name, deep)?;
    Ok(())
}

// Stores the lead of an open alias if its walk ends, and returns whether it does.
fn retried<'a>(
    parts: &Parts<'a>,
    leads: &mut Leads<'a>,
    keys: &[Key<'a>],
    key: &Key<'a>,
) -> Result<bool, NoMemory>
    requires all { AreAll (map instance_plain parts.now) keys.now }
    requires right { Right (map instance_plain parts.now) leads.old }
    requires counted { AreCounted leads.old keys.now }
    ensures right { OnOk result (Right (map instance_plain parts.now) leads.new) }
    ensures counted { OnOk result (AreCounted leads.new keys.now) }
    ensures more { IfOk result (λ b. b ≡ true → led leads.old keys.now < led leads.new keys.now) }
    ensures waits { IfOk result (λ b. b ≡ false → (leads.new ≡ leads.old) × WaitsIfOpen (map instance_plain parts.now) leads.old key.now.instance key.now.name.now) }
{
    match key_walk(parts, leads, *key) {
        None => Ok(false),
        Some(Walk::Ends(lead)) => {
            keep_deeper(parts, leads, keys, *key, lead)?;
            Ok(true)
        }
        Some(Walk::Waits(_)) => Ok(false),
    }
}

// Returns whether the lead of at least one of these parameters was stored.
fn all_retried<'a>(
    parts: &Parts<'a>,
    leads: &mut Leads<'a>,
    keys: &[Key<'a>],
) -> Result<bool, NoMemory>
    requires all { AreAll (map instance_plain parts.now) keys.now }
    requires right { Right (map instance_plain parts.now) leads.old }
    requires counted { AreCounted leads.old keys.now }
    ensures right { OnOk result (Right (map instance_plain parts.now) leads.new) }
    ensures counted { OnOk result (AreCounted leads.new keys.now) }
    ensures more { IfOk result (λ b. b ≡ true → led leads.old keys.now < led leads.new keys.now) }
    ensures waits { IfOk result (λ b. b ≡ false → AllWait (map instance_plain parts.now) leads.new keys.now) }
{
    let mut changed = false;
    for key in keys {
        let kept = retried(parts, leads, keys, key)?;
        changed = kept || changed;
    }
    Ok(changed)
}

// Follows the alias, after every open alias on its way that was not yet followed. The stack is empty again at the end.
fn searched<'a>(
    parts: &Parts<'a>,
    leads: &mut Leads<'a>,
    opened: &mut InstanceMap<'a, bool>,
    stack: &mut Vec<Key<'a>>,
    keys: &[Key<'a>],
    first: Key<'a>,
) -> Result<(), NoMemory>
    requires all { AreAll (map instance_plain parts.now) keys.now }
    requires right { Right (map instance_plain parts.now) leads.old }
    requires counted { AreCounted leads.old keys.now }
    ensures right { OnOk result (Right (map instance_plain parts.now) leads.new) }
    ensures counted { OnOk result (AreCounted leads.new keys.now) }
    ensures stays { OnOk result (StaysClosed (map instance_plain parts.now) leads.old leads.new) }
{
    stack.push(first)?;
    for _ in 0..usize::MAX {
        let Some(key) = stack.pop() else {
            return Ok(());
        };
        match key_walk(parts, leads, key) {
            None => {}
            Some(Walk::Ends(lead)) => keep_deeper(parts, leads, keys, key, lead)?,
            Some(Walk::Waits(next)) => if value_in(opened, next.instance, next.name).is_none() {
                put_in(opened, next.instance, next.name, true)?;
                stack.push(key)?;
                stack.push(next)?;
            },
        }
    }
    Ok(())
}

// Follows a parameter that is an alias, unless it was followed on the way of another. Returns whether it is certainly
// not open afterwards. Most aliases lead through no open one.
fn first_searched<'a>(
    parts: &Parts<'a>,
    leads: &mut Leads<'a>,
    opened: &mut InstanceMap<'a, bool>,
    stack: &mut Vec<Key<'a>>,
    keys: &[Key<'a>],
    key: Key<'a>,
) -> Result<bool, NoMemory>
    requires all { AreAll (map instance_plain parts.now) keys.now }
    requires right { Right (map instance_plain parts.now) leads.old }
    requires counted { AreCounted leads.old keys.now }
    ensures right { OnOk result (Right (map instance_plain parts.now) leads.new) }
    ensures counted { OnOk result (AreCounted leads.new keys.now) }
    ensures stays { OnOk result (StaysClosed (map instance_plain parts.now) leads.old leads.new) }
    ensures closed { IfOk result (λ b. b ≡ true → ¬ IsOpen (map instance_plain parts.now) leads.new key.entry.instance key.entry.name.now) }
{
    if value_in(opened, key.instance, key.name).is_some() {
        return Ok(false);
    }
    match key_walk(parts, leads, key) {
        None => Ok(true),
        Some(Walk::Ends(lead)) => {
            keep_deeper(parts, leads, keys, key, lead)?;
            Ok(true)
        }
        Some(Walk::Waits(_)) => {
            searched(parts, leads, opened, stack, keys, key)?;
            Ok(false)
        }
    }
}

// Follows each of these parameters that is an alias, and returns whether certainly none is open afterwards.
fn all_searched<'a>(
    alloc: Global,
    parts: &Parts<'a>,
    leads: &mut Leads<'a>,
    keys: &[Key<'a>],
) -> Result<bool, NoMemory>
    requires all { AreAll (map instance_plain parts.now) keys.now }
    requires right { Right (map instance_plain parts.now) leads.old }
    requires counted { AreCounted leads.old keys.now }
    ensures right { OnOk result (Right (map instance_plain parts.now) leads.new) }
    ensures counted { OnOk result (AreCounted leads.new keys.now) }
    ensures waits { IfOk result (λ b. b ≡ true → AllWait (map instance_plain parts.now) leads.new keys.now) }
{
    let mut opened = nothing_in(alloc);
    let mut stack = Vec::new(alloc);
    let mut closed = true;
    for key in keys {
        let kept = first_searched(parts, leads, &mut opened, &mut stack, keys, *key)?;
        closed = kept && closed;
    }
    Ok(closed)
}

/// Returns the leads of all aliases, except of those that lead into cycles.
///
/// The search normally stores them all. Aliases that may still be open are retried until nothing more is stored; then
/// each open alias leads to an open one.
pub fn leads_of<'a>(alloc: Global, parts: &Parts<'a>) -> Result<Leads<'a>, NoMemory>
    ensures right { IfOk result (Right (map instance_plain parts.now)) }
    ensures closed { IfOk result (IsClosed (map instance_plain parts.now)) }
{
    let keys = keys_of(alloc, parts)?;
    let mut leads = no_rows_in(alloc, keys.len())?;
    if all_searched(alloc, parts, &mut leads, keys.as_slice())? {
        return Ok(leads);
    }
    // Each round but the last stores a lead.
    while all_retried(parts, &mut leads, keys.as_slice())? {}
    Ok(leads)
}
