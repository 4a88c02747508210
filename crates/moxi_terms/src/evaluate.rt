// The value of a term.
ghost use Rattle.std.specs.Prelude.{◌≡◌, ◌++◌, ◌∷◌, [], map, length, List, IfOk, OnOk, Some, None};
ghost use Rattle.moxi_terms.specs.declared.data.Sort.{Sort};
ghost use Rattle.moxi_terms.specs.Sorted.{HasSort, IsReady, IsScope};
ghost use Rattle.moxi_terms.specs.Sorts.{Fit, IsOf};
ghost use Rattle.moxi_terms.specs.Applications.{one, two};
ghost use Rattle.moxi_terms.specs.Tree.{Tree, apply, trees_of};
ghost use Rattle.moxi_terms.specs.Value.{at, calls_upto, later_of, term_value};
ghost use Rattle.moxi_terms.specs.Evaluated.{CanCall, CanEvaluate, CanEvaluateAll, value_upto, values_in, values_upto};
ghost use Rattle.moxi_terms.specs.View.{ScopeState, plain, plain_function};

use crate::data::{Datum, TermOp};
use crate::operate::operate;
use crate::scope::Scope;
use crate::term::{Env, Function, Term};
use std::alloc::Global;
use text_core::{List, NoMemory};

/// The values of variables: given by the caller, or the arguments of a call.
#[derive(Clone, Copy)]
enum Valuation<'a> {
    Given(&'a Env),
    Arguments(&'a [Datum]),
}

fn value_at(values: Valuation, v: u32) -> Datum
    ensures { result ≡ at (values_in values.entry) v }
{
    let i = v as usize;
    match values {
        Valuation::Given(env) => if i < env.len() {
            *env.at(i)
        } else {
            Datum::Truth(false)
        },
        Valuation::Arguments(args) => bound_at(args, v),
    }
}

fn bound_at(bound: &[Datum], i: u32) -> Datum
    ensures { result ≡ at bound.now i }
{
    match bound.get(i as usize) {
        Some(d) => *d,
        None => Datum::Truth(false),
    }
}

// The context of an evaluation: values now and later, and how many of the functions may be called.
#[derive(Clone, Copy)]
struct Scene<'a> {
    functions: &'a List<Function>,
    upto: usize,
    now: Valuation<'a>,
    later: Valuation<'a>,
}

/// Returns the value of a term, given the values of the variables now and later.
///
/// The term is well sorted over the scope and the variables. A function's body is evaluated once for each call.
pub fn eval(
    alloc: Global,
    scope: &Scope,
    term: &Term,
    now: &Env,
    later: Option<&Env>,
) -> Result<Datum, NoMemory>
    requires { IsReady scope.now now.now later (plain term.now) }
    ensures { IfOk result (λ d. d ≡ term_value (calls_upto scope.now.functions (length scope.now.functions)) (at now.now) (at (later_of now.now later.entry)) [] (plain term.now)) }
{
    let functions = scope.functions();
    let scene = Scene {
        functions,
        upto: functions.len(),
        now: Valuation::Given(now),
        later: later_valuation(now, later),
    };
    let mut bound = Vec::new(alloc);
    value(alloc, &scene, &mut bound, term)
}

fn later_valuation<'a>(now: &'a Env, later: Option<&'a Env>) -> Valuation<'a>
    ensures { values_in result ≡ later_of now.now later.entry }
{
    match later {
        Some(env) => Valuation::Given(env),
        None => Valuation::Given(now),
    }
}

#[cycle(value)]
#[inline(never)]
fn value(alloc: Global, scene: &Scene, bound: &mut Vec<Datum>, t: &Term) -> Result<Datum, NoMemory>
    requires { CanEvaluate (map plain_function scene.now.functions.now) scene.now.upto (values_in scene.now.now) (values_in scene.now.later) bound.old.items (plain t.now) }
    ensures value { IfOk result (λ d. d ≡ value_upto (map plain_function scene.entry.now.functions.now) scene.entry.now.upto scene.entry.now.now scene.entry.now.later bound.old.items (plain t.now)) }
    ensures kept { OnOk result (bound.new.items ≡ bound.old.items) }
{
    match t {
        Term::Constant(d) => Ok(*d),
        Term::Variable(v, primed) => Ok(if *primed {
            value_at(scene.later, *v)
        } else {
            value_at(scene.now, *v)
        }),
        Term::Bound(i) => Ok(bound_at(bound, *i)),
        Term::Apply(op, terms) => match terms.as_slice() {
            [a] => applied_to_one(alloc, scene, bound, *op, a),
            [a, b] => applied_to_two(alloc, scene, bound, *op, a, b),
            all => {
                let args = values(alloc, scene, bound, all)?;
                Ok(operate(*op, &args))
            }
        },
        Term::Let(_, terms, body) => {
            let more = values(alloc, scene, bound, terms)?;
            inner_value(alloc, scene, bound, &more, body)
        }
        Term::Call(n, terms) => {
            let args = values(alloc, scene, bound, terms)?;
            call(alloc, scene.functions, scene.upto, *n, &args)
        }
    }
}

// The value of an operator on one term.
#[cycle(value)]
#[inline(never)]
fn applied_to_one(
    alloc: Global,
    scene: &Scene,
    bound: &mut Vec<Datum>,
    op: TermOp,
    a: &Term,
) -> Result<Datum, NoMemory>
    requires { CanEvaluate (map plain_function scene.now.functions.now) scene.now.upto (values_in scene.now.now) (values_in scene.now.later) bound.old.items (apply op (one (plain a.now))) }
    ensures value { IfOk result (λ d. d ≡ value_upto (map plain_function scene.entry.now.functions.now) scene.entry.now.upto scene.entry.now.now scene.entry.now.later bound.old.items (apply op (one (plain a.now)))) }
    ensures kept { OnOk result (bound.new.items ≡ bound.old.items) }
{
    let x = value(alloc, scene, bound, a)?;
    Ok(operate(op, &[x]))
}

// The value of an operator on two terms.
#[cycle(value)]
#[inline(never)]
fn applied_to_two(
    alloc: Global,
    scene: &Scene,
    bound: &mut Vec<Datum>,
    op: TermOp,
    a: &Term,
    b: &Term,
) -> Result<Datum, NoMemory>
    requires { CanEvaluate (map plain_function scene.now.functions.now) scene.now.upto (values_in scene.now.now) (values_in scene.now.later) bound.old.items (apply op (two (plain a.now) (plain b.now))) }
    ensures value { IfOk result (λ d. d ≡ value_upto (map plain_function scene.entry.now.functions.now) scene.entry.now.upto scene.entry.now.now scene.entry.now.later bound.old.items (apply op (two (plain a.now) (plain b.now)))) }
    ensures kept { OnOk result (bound.new.items ≡ bound.old.items) }
{
    let x = value(alloc, scene, bound, a)?;
    let y = value(alloc, scene, bound, b)?;
    Ok(operate(op, &[x, y]))
}

// The value of a term with these additional values bound.
#[cycle(value)]
#[inline(never)]
fn inner_value(
    alloc: Global,
    scene: &Scene,
    bound: &mut Vec<Datum>,
    more: &[Datum],
    t: &Term,
) -> Result<Datum, NoMemory>
    requires { CanEvaluate (map plain_function scene.now.functions.now) scene.now.upto (values_in scene.now.now) (values_in scene.now.later) (bound.old.items ++ more.now) (plain t.now) }
    ensures value { IfOk result (λ d. d ≡ value_upto (map plain_function scene.entry.now.functions.now) scene.entry.now.upto scene.entry.now.now scene.entry.now.later (bound.old.items ++ more.now) (plain t.now)) }
    ensures kept { OnOk result (bound.new.items ≡ bound.old.items) }
{
    let before = bound.len();
    append(bound, more)?;
    let d = value(alloc, scene, bound, t)?;
    bound.truncate(before);
    Ok(d)
}

fn append(all: &mut Vec<Datum>, more: &[Datum]) -> Result<(), NoMemory>
    ensures { OnOk result (all.new.items ≡ all.old.items ++ more.now) }
{
    Ok(all.extend_from_slice(more)?)
}

// The value of a call of this function. The arguments are the values of its variables.
#[cycle(value)]
#[inline(never)]
fn call(
    alloc: Global,
    functions: &List<Function>,
    upto: usize,
    n: u32,
    args: &[Datum],
) -> Result<Datum, NoMemory>
    requires { CanCall (map plain_function functions.now) upto n args.now }
    ensures { IfOk result (λ d. d ≡ calls_upto (map plain_function functions.now) upto n args.now) }
{
    let number = n as usize;
    let scene = Scene {
        functions,
        upto: number,
        now: Valuation::Arguments(args),
        later: Valuation::Arguments(args),
    };
    let mut bound = Vec::new(alloc);
    value(alloc, &scene, &mut bound, &functions.at(number).body)
}

// The values of terms.
#[cycle(value)]
#[inline(never)]
fn values(
    alloc: Global,
    scene: &Scene,
    bound: &mut Vec<Datum>,
    terms: &[Term],
) -> Result<Vec<Datum>, NoMemory>
    requires { CanEvaluateAll (map plain_function scene.now.functions.now) scene.now.upto (values_in scene.now.now) (values_in scene.now.later) bound.old.items (trees_of (map plain terms.now)) }
    ensures values { IfOk result (λ all. all.items ≡ values_upto (map plain_function scene.entry.now.functions.now) scene.entry.now.upto scene.entry.now.now scene.entry.now.later bound.old.items (trees_of (map plain terms.now))) }
    ensures kept { OnOk result (bound.new.items ≡ bound.old.items) }
{
    let mut all = Vec::new(alloc);
    for t in terms {
        let d = value(alloc, scene, bound, t)?;
        put(&mut all, d)?;
    }
    Ok(all)
}

fn put(all: &mut Vec<Datum>, d: Datum) -> Result<(), NoMemory>
    ensures { OnOk result (all.new.items ≡ all.old.items ++ d ∷ []) }
{
    Ok(all.push(d)?)
}

/// Proves that a term with a sort has a value of that sort.
pub fn values_have_sorts()
    ensures { (s : ScopeState) (vars : List Sort) (now later : List Datum) (t : Tree) (sort : Sort) → IsScope s → Fit s.enumerations vars now → Fit s.enumerations vars later
        → HasSort s.enumerations s.functions vars [] t sort → IsOf s.enumerations sort (term_value (calls_upto s.functions (length s.functions)) (at now) (at later) [] t) }
{}
