// The index of each line's content, found in a table by the lines of the first two arguments, and else in an
// ordered map.
ghost use Rattle.std.specs.Prelude.{◌≡◌, ◌==◌, ◌<◌, ◌≤◌, ◌^◌, ℕ, [], true, length, get_or, Some, None, IfOk, OnOk, OnErr, if◌then◌else◌};
ghost use Rattle.std.specs.BTreeMap.{IsUnchanged, get};
ghost use Rattle.btor_tree.specs.LineKeys.{EntersKey, HasPlaces, IsShort};
ghost use Rattle.btor_tree.specs.Sharing.{is_shared, placed, standing};
ghost use Rattle.btor_tree.specs.declared.lines.Line.{Line};

use crate::line_key::{LineKey, is_equal_line, line_key, slot_of};
use crate::lines::Line;
use std::alloc::Global;
use std::cmp::Ord;
use std::collections::BTreeMap;
use std::collections::btree_map::Entry;
use text_core::NoMemory;

// The number of free slots that are added at once.
const MORE: usize = 64;

/// A map from the content of lines to their indices.
///
/// A slot has the index of the first line that took it, whose content is read from the list itself. Most lines have
/// a slot of their own, so that they need no entry in the ordered map.
#[derive(Drop)]
pub struct LinePlaces {
    slots: Vec<Option<u32>>,
    others: BTreeMap<LineKey, u32>,
}

/// Returns the empty map.
///
/// It allocates nothing.
#[tactic(auto, using(crate::proofs::TwoLevels::none_placed))]
pub fn no_places(alloc: Global) -> LinePlaces
    ensures { HasPlaces [] result }
{
    LinePlaces {
        slots: Vec::new(alloc),
        others: BTreeMap::new(alloc),
    }
}

/// Makes room for the slots of `count` more lines.
///
/// The lines of two arguments give the slot, which is at most three times the index of the later one.
pub fn make_room(places: &mut LinePlaces, count: usize) -> Result<(), NoMemory>
    ensures slots { places.new.slots.items ≡ places.old.slots.items }
    ensures others { places.new.others ≡ places.old.others }
{
    places.slots.reserve(count.saturating_mul(3))?;
    Ok(())
}

// Returns the map's value for the key. Where there is none, inserts the new value and returns None. The map stays
// unchanged where the key has a value, and when out of memory.
fn enter_key<K: Ord + Drop>(
    places: &mut BTreeMap<K, u32>,
    key: K,
    place: u32,
) -> Result<Option<u32>, NoMemory>
    ensures found { IfOk result (λ found. found ≡ get K.cmp places.old key) }
    ensures entered { IfOk result (λ found. EntersKey K.cmp found key place places.old places.new) }
    ensures refused { OnErr result (IsUnchanged places.old places.new) }
{
    match places.entry(key) {
        Ok(Entry::Occupied(there)) => Ok(Some(*there.get())),
        Ok(Entry::Vacant(room)) => {
            room.insert(place);
            Ok(None)
        }
        Err(_) => Err(NoMemory),
    }
}

fn at_slot(slots: &[Option<u32>], slot: usize) -> Option<u32>
    ensures { result ≡ get_or slots.now slot None }
{
    match slots.get(slot) {
        Some(place) => *place,
        None => None,
    }
}

// Adds free slots up to this one, and some more, so that this is rarely needed.
fn add_slots(slots: &mut Vec<Option<u32>>, slot: usize) -> Result<(), NoMemory>
    requires missing { length slots.old.items ≤ slot }
    requires small { slot < 2 ^ 63 }
    ensures there { OnOk result (slot < length slots.new.items) }
    ensures same { (i : ℕ) → get_or slots.new.items i None ≡ get_or slots.old.items i None }
{
    slots.resize(slot + 1, None)?;
    slots.extend_from_slice(&[None; MORE])?;
    Ok(())
}

fn take_slot(slots: &mut Vec<Option<u32>>, slot: usize, place: u32) -> Result<(), NoMemory>
    requires { slot < 2 ^ 63 }
    ensures ok { OnOk result ((i : ℕ) → get_or slots.new.items i None ≡ (if i == slot then Some place else get_or slots.old.items i None)) }
    ensures err { OnErr result ((i : ℕ) → get_or slots.new.items i None ≡ get_or slots.old.items i None) }
{
    if slots.len() <= slot {
        add_slots(slots, slot)?;
    }
    slots[slot] = Some(place);
    Ok(())
}

/// Returns the index of the line with this content.
///
/// Where there is none, enters this line with the index `lines.len()` and returns None.
pub fn enter(places: &mut LinePlaces, lines: &[Line], line: &Line) -> Result<Option<u32>, NoMemory>
    requires few { length lines.now < 2 ^ 32 }
    requires short { IsShort line.now.args }
    requires shared { is_shared line.now.op ≡ true }
    requires has { HasPlaces lines.now places.old }
    ensures found { IfOk result (λ found. found ≡ standing lines.now line.now.op line.now.sort line.now.args) }
    ensures entered { IfOk result (λ found. HasPlaces (placed found lines.now line.now).0 places.new) }
    ensures refused { OnErr result (HasPlaces lines.now places.new) }
{
    let place = lines.len() as u32;
    let slot = slot_of(&line.args);
    match at_slot(&places.slots, slot) {
        None => {
            take_slot(&mut places.slots, slot, place)?;
            Ok(None)
        }
        Some(there) => if is_equal_line(line, &lines[there as usize]) {
            Ok(Some(there))
        } else {
            enter_key(
                &mut places.others,
                line_key(&line.op, line.sort, &line.args),
                place,
            )
        },
    }
}
