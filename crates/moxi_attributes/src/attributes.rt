// Attributes of define-system and check-system.
ghost use Rattle.std.specs.Prelude.{◌≡◌, ◌+◌, ◌^◌, ◌-◌, ◌<◌, None, Some, if◌then◌else◌};
ghost use Rattle.moxi_sexpr.specs.Tree.{plain, plain_forms};
ghost use Rattle.moxi_scripts.specs.Attributes.{check_key, count_of, is_list_form, key_named, key_number, keyword_atom};
ghost use Rattle.moxi_scripts.specs.Attributes.{keyword_of, keyword_turn, list_key, same_key, shape_holds, system_key};
ghost use Rattle.moxi_scripts.specs.Attributes.{takes_term, turn_after, turns_end, turns_fit, turns_start, unknown_failures};
ghost use Rattle.moxi_scripts.specs.Attributes.{unknown_keyword, unknown_tests, value_of, is_behind};
ghost use Rattle.moxi_attributes.specs.Views.{keyword_now, value_now};
ghost use Rattle.moxi_scripts.specs.declared.parts.Turn.TheVariants as turns;
ghost use Rattle.moxi_scripts.specs.Collecting.{also};

use crate::collect::fail;
use crate::shapes::place_of;
use moxi_scripts::{Command, Key, Turn};
use moxi_sexpr::{Atom, Form, FormShape};
use text_core::kinds::moxi;
use text_core::{Place, Refusal, is_same};

fn key_number(k: Key) -> u8
    ensures { result ≡ key_number k }
{
    match k {
        Key::Input => 0,
        Key::Output => 1,
        Key::Local => 2,
        Key::Init => 3,
        Key::Trans => 4,
        Key::Inv => 5,
        Key::Subsystem => 6,
        Key::Assumption => 7,
        Key::Current => 8,
        Key::Reachable => 9,
        Key::Query => 10,
        Key::Queries => 11,
    }
}

/// Returns whether two keys are the same.
pub fn same_key(a: Key, b: Key) -> bool
    ensures { result ≡ same_key a b }
{
    key_number(a) == key_number(b)
}

fn list_key(name: &[u8]) -> Option<Key>
    ensures { result ≡ list_key name.now }
{
    if is_same(name, b"input") {
        Some(Key::Input)
    } else if is_same(name, b"output") {
        Some(Key::Output)
    } else if is_same(name, b"local") {
        Some(Key::Local)
    } else {
        None
    }
}

fn system_key(name: &[u8]) -> Option<Key>
    ensures { result ≡ system_key name.now }
{
    if is_same(name, b"init") {
        Some(Key::Init)
    } else if is_same(name, b"trans") {
        Some(Key::Trans)
    } else if is_same(name, b"inv") {
        Some(Key::Inv)
    } else if is_same(name, b"subsys") {
        Some(Key::Subsystem)
    } else {
        None
    }
}

fn check_key(name: &[u8]) -> Option<Key>
    ensures { result ≡ check_key name.now }
{
    if is_same(name, b"assumption") {
        Some(Key::Assumption)
    } else if is_same(name, b"current") {
        Some(Key::Current)
    } else if is_same(name, b"reachable") {
        Some(Key::Reachable)
    } else if is_same(name, b"query") {
        Some(Key::Query)
    } else if is_same(name, b"queries") {
        Some(Key::Queries)
    } else {
        None
    }
}

/// Returns the key with this name in such a command.
fn key_named(command: Command, name: &[u8]) -> Option<Key>
    ensures { result ≡ key_named command name.now }
{
    match list_key(name) {
        Some(k) => Some(k),
        None => match command {
            Command::System => system_key(name),
            Command::Check => check_key(name),
        },
    }
}

fn keyword_atom<'a>(a: &'a Atom) -> Option<&'a [u8]>
    ensures { keyword_now result ≡ keyword_atom a.now }
{
    match a {
        Atom::Symbol(_, _) => None,
        Atom::Keyword(name) => Some(name.bytes()),
        Atom::Numeral(_) => None,
        Atom::Binary(_) => None,
        Atom::Hex(_) => None,
        Atom::Quote(_) => None,
    }
}

// The name of the form if it is a keyword.
fn keyword_of<'a>(form: &'a Form) -> Option<&'a [u8]>
    ensures { keyword_now result ≡ keyword_of (plain form.now) }
{
    match &form.shape {
        FormShape::Atom(a) => keyword_atom(a),
        FormShape::List(_) => None,
    }
}

fn is_list_form(form: &Form) -> bool
    ensures { result ≡ is_list_form (plain form.now) }
{
    match &form.shape {
        FormShape::Atom(_) => false,
        FormShape::List(_) => true,
    }
}

// The turn after a keyword.
fn keyword_turn(command: Command, keyword: Option<&[u8]>, other: Turn) -> Turn
    ensures { result ≡ keyword_turn command (keyword_now keyword.entry) other }
{
    match keyword {
        None => other,
        Some(name) => match key_named(command, name) {
            None => Turn::Passing,
            Some(k) => Turn::Behind(k),
        },
    }
}

/// Returns the turn after a form.
pub fn turn_after(command: Command, turn: Turn, form: &Form) -> Turn
    ensures { result ≡ turn_after command turn (plain form.now) }
{
    match turn {
        Turn::AtKeyword => keyword_turn(command, keyword_of(form), Turn::AtKeyword),
        Turn::Behind(_) => Turn::AtKeyword,
        Turn::Passing => keyword_turn(command, keyword_of(form), Turn::Passing),
    }
}

fn takes_term(k: Key) -> bool
    ensures { result ≡ takes_term k }
{
    match k {
        Key::Init => true,
        Key::Trans => true,
        Key::Inv => true,
        Key::Input => false,
        Key::Output => false,
        Key::Local => false,
        Key::Subsystem => false,
        Key::Assumption => false,
        Key::Current => false,
        Key::Reachable => false,
        Key::Query => false,
        Key::Queries => false,
    }
}

// Whether the form may occur at this turn.
fn turns_start(turn: Turn, form: &Form) -> bool
    ensures { result ≡ turns_start turn (plain form.now) }
{
    match turn {
        Turn::AtKeyword => keyword_of(form).is_some(),
        Turn::Behind(k) => takes_term(k) || is_list_form(form),
        Turn::Passing => true,
    }
}

/// Returns whether the next form is the value of this key.
pub fn is_behind(k: Key, turn: Turn) -> bool
    ensures { result ≡ is_behind k turn }
{
    match turn {
        Turn::AtKeyword => false,
        Turn::Behind(other) => same_key(k, other),
        Turn::Passing => false,
    }
}

// Tests that the keyword is known, where the next form may be the value of a key.
#[tactic(auto, using(crate::specs::laws::Collecting::also_none))]
fn test_keyword(command: Command, keyword: Option<&[u8]>, p: Place, found: &mut Option<Refusal>)
    ensures { found.new ≡ also found.old (unknown_keyword command (keyword_now keyword.entry) p) }
{
    match keyword {
        None => {}
        Some(name) => match key_named(command, name) {
            None => fail(found, moxi::NOT_SUPPORTED, p),
            Some(_) => {}
        },
    }
}

#[tactic(auto, using(crate::specs::laws::Collecting::also_none))]
fn test_unknown(command: Command, turn: Turn, form: &Form, found: &mut Option<Refusal>)
    ensures { found.new ≡ also found.old (unknown_tests command turn (plain form.now)) }
{
    match turn {
        Turn::AtKeyword => test_keyword(command, keyword_of(form), place_of(form), found),
        Turn::Behind(_) => {}
        Turn::Passing => test_keyword(command, keyword_of(form), place_of(form), found),
    }
}

/// Tests that the keywords are known.
pub fn test_keywords(command: Command, forms: &[Form], found: &mut Option<Refusal>)
    ensures { found.new ≡ also found.old (unknown_failures command turns.AtKeyword (plain_forms forms.now)) }
{
    let mut turn = Turn::AtKeyword;
    for form in forms {
        test_unknown(command, turn, form, found);
        turn = turn_after(command, turn, form);
    }
}

fn turns_end(turn: Turn) -> bool
    ensures { result ≡ turns_end turn }
{
    match turn {
        Turn::AtKeyword => true,
        Turn::Behind(_) => false,
        Turn::Passing => true,
    }
}

#[tactic(auto, using(moxi_sexpr::proofs::Counting::forms_step, moxi_sexpr::proofs::Counting::forms_end))]
fn turns_fit(command: Command, forms: &[Form]) -> bool
    ensures { result ≡ turns_fit command turns.AtKeyword (plain_forms forms.now) }
{
    let mut turn = Turn::AtKeyword;
    for form in forms {
        if !turns_start(turn, form) {
            return false;
        }
        turn = turn_after(command, turn, form);
    }
    turns_end(turn)
}

fn is_above(count: usize, k: Key, turn: Turn) -> usize
    requires { count < 2 ^ 64 - 1 }
    ensures { result ≡ count + (if is_behind k turn then 1 else 0) }
{
    if is_behind(k, turn) { count + 1 } else { count }
}

#[tactic(auto, using(moxi_sexpr::proofs::Counting::forms_step, moxi_sexpr::proofs::Counting::forms_end))]
fn count_of(command: Command, k: Key, forms: &[Form]) -> usize
    ensures { result ≡ count_of command k turns.AtKeyword (plain_forms forms.now) }
{
    let mut turn = Turn::AtKeyword;
    let mut count = 0;
    for form in forms {
        count = is_above(count, k, turn);
        turn = turn_after(command, turn, form);
    }
    count
}

/// Returns the first value of a key.
#[tactic(auto, using(moxi_sexpr::proofs::Counting::forms_step, moxi_sexpr::proofs::Counting::forms_end))]
pub fn value_of<'a>(command: Command, k: Key, forms: &'a [Form]) -> Option<&'a Form>
    ensures { value_now result ≡ value_of command k turns.AtKeyword (plain_forms forms.now) }
{
    let mut turn = Turn::AtKeyword;
    for form in forms {
        if is_behind(k, turn) {
            return Some(form);
        }
        turn = turn_after(command, turn, form);
    }
    None
}

/// Returns whether the attributes have their shape, and none that may occur at most once occurs twice.
pub fn shape_holds(command: Command, forms: &[Form]) -> bool
    ensures { result ≡ shape_holds command (plain_forms forms.now) }
{
    turns_fit(command, forms)
        && count_of(command, Key::Input, forms) <= 1
        && count_of(command, Key::Output, forms) <= 1
        && count_of(command, Key::Local, forms) <= 1
        && count_of(command, Key::Init, forms) <= 1
        && count_of(command, Key::Trans, forms) <= 1
        && count_of(command, Key::Inv, forms) <= 1
}
