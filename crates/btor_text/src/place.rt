// Lookups of earlier lines by their ids.
ghost use Rattle.std.specs.Prelude.{◌≡◌};
ghost use Rattle.btor_tree.specs.Fits.{is_constant, is_state, kind_at, sort_at, width_at};
ghost use Rattle.btor_tree.specs.Resolving.{line_ids, place_in, sort_of_id, state_of_id, word_of_id};

use btor_tree::{LineOp, Nodes, has_word, sort_width};

// The index of the line with this id, by binary search.
fn searched(nodes: &Nodes, id: u32) -> Option<u32>
    ensures { result ≡ place_in id (line_ids nodes.now) }
{
    let mut low = 0;
    let mut high = nodes.len();
    'search: while low < high {
        let middle = low + (high - low) / 2;
        let there = nodes.at(middle).id;
        if there == id {
            return Some(middle as u32);
        }
        if there < id {
            low = middle + 1;
        } else {
            high = middle;
        }
    }
    None
}

// The index of the line with this id. In most texts ids count up from 1, so the line is looked for there first.
fn place_of(nodes: &Nodes, id: u32) -> Option<u32>
    ensures { result ≡ place_in id (line_ids nodes.now) }
{
    let count = nodes.len();
    if id > 0 && id as usize <= count {
        let place = id - 1;
        if nodes.at(place as usize).id == id {
            return Some(place);
        }
    }
    searched(nodes, id)
}

/// Returns the width of the sort line at index `place`, or 0 for another line.
pub fn sort_at(nodes: &Nodes, place: u32) -> u32
    ensures { result ≡ sort_at nodes.now place }
{
    if (place as usize) < nodes.len() {
        sort_width(&nodes.at(place as usize).op)
    } else {
        0
    }
}

/// Returns the width of the word of the line at index `place`, or 0 where it has none.
pub fn width_at(nodes: &Nodes, place: u32) -> u32
    ensures { result ≡ width_at nodes.now place }
{
    if place as usize >= nodes.len() {
        return 0;
    }
    let line = nodes.at(place as usize);
    if has_word(&line.op) {
        sort_at(nodes, line.sort)
    } else {
        0
    }
}

fn is_state_at(nodes: &Nodes, place: u32) -> bool
    ensures { result ≡ kind_at is_state nodes.now place }
{
    if place as usize >= nodes.len() {
        return false;
    }
    match nodes.at(place as usize).op {
        LineOp::State => true,
        _ => false,
    }
}

/// Returns whether the line at index `place` is a constant.
pub fn is_constant_at(nodes: &Nodes, place: u32) -> bool
    ensures { result ≡ kind_at is_constant nodes.now place }
{
    if place as usize >= nodes.len() {
        return false;
    }
    match nodes.at(place as usize).op {
        LineOp::Constant(_) | LineOp::One | LineOp::Zero | LineOp::Ones => true,
        _ => false,
    }
}

/// Returns the index of the sort line with this id, or None where there is none.
pub fn sort_of_id(nodes: &Nodes, id: u32) -> Option<u32>
    ensures { result ≡ sort_of_id nodes.now id }
{
    let place = place_of(nodes, id)?;
    if sort_at(nodes, place) > 0 {
        Some(place)
    } else {
        None
    }
}

/// Returns the index of the state line with this id, or None where there is none.
pub fn state_of_id(nodes: &Nodes, id: u32) -> Option<u32>
    ensures { result ≡ state_of_id nodes.now id }
{
    let place = place_of(nodes, id)?;
    if is_state_at(nodes, place) {
        Some(place)
    } else {
        None
    }
}

/// Returns the index of the line with this id that has a word, or None where there is none.
pub fn word_of_id(nodes: &Nodes, id: u32) -> Option<u32>
    ensures { result ≡ word_of_id nodes.now id }
{
    let place = place_of(nodes, id)?;
    if width_at(nodes, place) > 0 {
        Some(place)
    } else {
        None
    }
}
