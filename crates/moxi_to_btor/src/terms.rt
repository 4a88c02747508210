// The lines of terms.
ghost use Rattle.std.specs.Prelude.{◌≡◌, ◌<◌, ◌++◌, ◌^◌, map, IfOk, OnOk};
ghost use Rattle.moxi_terms.specs.Tree.{trees_of};
ghost use Rattle.moxi_terms.specs.View.{plain};
ghost use Rattle.moxi_lines.specs.TermLines.{place_in};
ghost use Rattle.moxi_to_btor.specs.Terms.{CanPutCall, CanPutTerm, CanPutTerms, CanPutWhole, all_lines_in, call_lines_in, lines_in, place_by, whole_lines};

use crate::chains::put_place;
use crate::operators::{put_datum, put_operator};
use btor_tree::Builder;
use moxi_terms::{Enumeration, Function, Scope, Term};
use std::alloc::Global;
use text_core::{List, NoMemory};

/// The places of the words of variables: the listed places, or the places one after them.
#[derive(Clone, Copy)]
pub enum Places<'a> {
    At(&'a [u32]),
    Behind(&'a [u32]),
}

fn place_at(places: &[u32], i: u32) -> u32
    ensures { result ≡ place_in places.now i }
{
    match places.get(i as usize) {
        Some(place) => *place,
        None => 0,
    }
}

fn variable_place(places: Places, v: u32) -> u32
    requires { place_by places v < 2 ^ 32 }
    ensures { result ≡ place_by places.entry v }
{
    match places {
        Places::At(places) => place_at(places, v),
        Places::Behind(places) => place_at(places, v) + 1,
    }
}

// The context of a term: how many of the functions may be called, and the places of the variables now and later.
#[derive(Clone, Copy)]
struct Scene<'a> {
    enumerations: &'a List<Enumeration>,
    functions: &'a List<Function>,
    upto: usize,
    now: Places<'a>,
    later: Places<'a>,
}

/// Adds the lines of a term, and returns the place of its word.
///
/// Unprimed variables have the places `now`, and primed ones the places `later`. A value bound by a `let` has its lines
/// once. The body of a function has its lines once for each call.
pub fn put_term(
    alloc: Global,
    builder: &mut Builder,
    scope: &Scope,
    now: Places,
    later: Places,
    term: &Term,
) -> Result<u32, NoMemory>
    requires { CanPutWhole scope.now (place_by now) (place_by later) builder.old (plain term.now) }
    ensures { IfOk result (λ p. (builder.new, p) ≡ whole_lines scope.now (place_by now.entry) (place_by later.entry) builder.old (plain term.now)) }
{
    let functions = scope.functions();
    let scene = Scene {
        enumerations: scope.enumerations(),
        functions,
        upto: functions.len(),
        now,
        later,
    };
    let mut bound = Vec::new(alloc);
    put_tree(alloc, builder, &scene, &mut bound, term)
}

#[cycle(put)]
#[inline(never)]
fn put_tree(
    alloc: Global,
    builder: &mut Builder,
    scene: &Scene,
    bound: &mut Vec<u32>,
    t: &Term,
) -> Result<u32, NoMemory>
    requires { CanPutTerm scene.now bound.old.items builder.old (plain t.now) }
    ensures line { IfOk result (λ p. (builder.new, p) ≡ lines_in scene.entry.now bound.old.items builder.old (plain t.now)) }
    ensures kept { OnOk result (bound.new.items ≡ bound.old.items) }
{
    match t {
        Term::Constant(d) => put_datum(builder, scene.enumerations, *d),
        Term::Variable(v, primed) => Ok(if *primed {
            variable_place(scene.later, *v)
        } else {
            variable_place(scene.now, *v)
        }),
        Term::Bound(i) => Ok(place_at(bound, *i)),
        Term::Apply(op, terms) => {
            let places = put_trees(alloc, builder, scene, bound, terms)?;
            put_operator(alloc, builder, *op, &places)
        }
        Term::Let(_, terms, body) => {
            let more = put_trees(alloc, builder, scene, bound, terms)?;
            put_body(alloc, builder, scene, bound, &more, body)
        }
        Term::Call(n, terms) => {
            let places = put_trees(alloc, builder, scene, bound, terms)?;
            put_call(alloc, builder, scene, *n, &places)
        }
    }
}

// The lines of a term with these additional places bound.
#[cycle(put)]
#[inline(never)]
fn put_body(
    alloc: Global,
    builder: &mut Builder,
    scene: &Scene,
    bound: &mut Vec<u32>,
    more: &[u32],
    t: &Term,
) -> Result<u32, NoMemory>
    requires { CanPutTerm scene.now (bound.old.items ++ more.now) builder.old (plain t.now) }
    ensures line { IfOk result (λ p. (builder.new, p) ≡ lines_in scene.entry.now (bound.old.items ++ more.now) builder.old (plain t.now)) }
    ensures kept { OnOk result (bound.new.items ≡ bound.old.items) }
{
    let before = bound.len();
    append(bound, more)?;
    let place = put_tree(alloc, builder, scene, bound, t)?;
    bound.truncate(before);
    Ok(place)
}

fn append(all: &mut Vec<u32>, more: &[u32]) -> Result<(), NoMemory>
    ensures { OnOk result (all.new.items ≡ all.old.items ++ more.now) }
{
    Ok(all.extend_from_slice(more)?)
}

// The lines of a function's body, whose variables have the places of the arguments.
#[cycle(put)]
#[inline(never)]
fn put_call(
    alloc: Global,
    builder: &mut Builder,
    scene: &Scene,
    n: u32,
    places: &[u32],
) -> Result<u32, NoMemory>
    requires { CanPutCall scene.now n builder.old places.now }
    ensures { IfOk result (λ p. (builder.new, p) ≡ call_lines_in scene.entry.now n builder.old places.now) }
{
    let number = n as usize;
    let inner = Scene {
        enumerations: scene.enumerations,
        functions: scene.functions,
        upto: number,
        now: Places::At(places),
        later: Places::At(places),
    };
    let mut bound = Vec::new(alloc);
    put_tree(
        alloc,
        builder,
        &inner,
        &mut bound,
        &scene.functions.at(number).body,
    )
}

// The lines of terms.
#[cycle(put)]
#[inline(never)]
fn put_trees(
    alloc: Global,
    builder: &mut Builder,
    scene: &Scene,
    bound: &mut Vec<u32>,
    terms: &[Term],
) -> Result<Vec<u32>, NoMemory>
    requires { CanPutTerms scene.now bound.old.items builder.old (trees_of (map plain terms.now)) }
    ensures lines { IfOk result (λ places. (builder.new, places.items) ≡ all_lines_in scene.entry.now bound.old.items builder.old (trees_of (map plain terms.now))) }
    ensures kept { OnOk result (bound.new.items ≡ bound.old.items) }
{
    let mut places = Vec::with_capacity(alloc, terms.len())?;
    for t in terms {
        let place = put_tree(alloc, builder, scene, bound, t)?;
        put_place(&mut places, place)?;
    }
    Ok(places)
}
