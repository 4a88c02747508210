// The term that a form spells.
ghost use Rattle.std.specs.Prelude.{◌≡◌, ◌<◌, ◌+◌, ◌^◌, ◌++◌, [], List, None, Some, length, IfOk, OnOk};
ghost use Rattle.moxi_term_reading.specs.declared.locals.Local.{Local};
ghost use Rattle.moxi_term_reading.specs.declared.outcome.ReadTerm.{ReadTerm};
ghost use Rattle.moxi_terms.specs.Tree.{sorts_of};
ghost use Rattle.moxi_terms.specs.View.{plain};
ghost use Rattle.text_core.specs.declared.place.Refusal.{Refusal};
ghost use Rattle.moxi_sexpr.specs.Tree.{Tree, all_nodes, nodes, list as list_form, plain as plain_form, plain_forms};
ghost use Rattle.moxi_term_reading.specs.Answer.{Answers, AreBound, AreStacked, IsAdded, IsRead, context_of, locals_of};
ghost use Rattle.moxi_term_reading.specs.Failures.{least};
ghost use Rattle.moxi_terms.specs.declared.data.Sort.{Sort};
ghost use Rattle.moxi_term_reading.specs.WellSorted.{HaveKnownSorts, IsSortedTerm, IsTerm, IsWellSorted};
ghost use Rattle.moxi_term_reading.specs.Reading.{Bindings, Context, applied_reading, both_bindings, head_of, let_reading, read, read_all, read_binding, read_bindings, read_let};

use crate::applications::{ReadArguments, add_argument, application};
use crate::atoms::{add_atom, read_atom, underscored};
use crate::failures::minimum;
use crate::forms::{is_primed, pair, place_in, symbol_of};
use crate::heads::{head_of, head_prime, is_named, prime};
use crate::lets::{ReadBindings, bind_to, let_term, misshapen, some_binding};
use crate::locals::{Bounds, Locals};
use crate::outcome::{ReadTerm, Setting, failed};
use crate::sorts::refusal;
use moxi_sexpr::{Form, FormShape, MANY_NODES, count_nodes};
use moxi_terms::{Primes, Scope, Sort, Term, Variables};
use std::alloc::Global;
use text_core::kinds::moxi;
use text_core::{End, List, Name, Names, NoMemory, Place, Refusal};

/// The reason why a form spells no term: a test fails, or memory runs out.
pub type TermEnd = End;

// Reads a form. The stack holds the sorts of the arguments read so far, for each application around the form.
//
// Bound names are numbered with 32 bits. A `let` binds no more names than its list has nodes.
#[cycle(read)]
#[inline(never)]
fn read_form(
    alloc: Global,
    setting: Setting,
    bounds: &mut Bounds,
    sorts: &mut Vec<Sort>,
    form: &Form,
) -> Result<ReadTerm, NoMemory>
    requires few { length bounds.old + nodes (plain_form form.now) < 2 ^ 32 }
    ensures read { IfOk result (IsRead (read (context_of setting.entry) bounds.old (plain_form form.now))) }
    ensures kept { OnOk result (bounds.new ≡ bounds.old) }
    ensures stack { OnOk result (sorts.new.items ≡ sorts.old.items) }
{
    match &form.shape {
        FormShape::Atom(a) => Ok(read_atom(alloc, setting, bounds, form.place, a)),
        FormShape::List(parts) => read_list(alloc, setting, bounds, sorts, form.place, parts),
    }
}

#[cycle(read)]
#[inline(never)]
fn read_list(
    alloc: Global,
    setting: Setting,
    bounds: &mut Bounds,
    sorts: &mut Vec<Sort>,
    p: Place,
    parts: &[Form],
) -> Result<ReadTerm, NoMemory>
    requires few { length bounds.old + all_nodes (plain_forms parts.now) < 2 ^ 32 }
    ensures read { IfOk result (IsRead (read (context_of setting.entry) bounds.old (list_form p (plain_forms parts.now)))) }
    ensures kept { OnOk result (bounds.new ≡ bounds.old) }
    ensures stack { OnOk result (sorts.new.items ≡ sorts.old.items) }
{
    match parts.split_first() {
        None => Ok(failed(refusal(moxi::ARITY, p))),
        Some((head, rest)) => {
            let symbol = symbol_of(head);
            if is_named(b"let", symbol) {
                read_let(alloc, setting, bounds, sorts, p, head_prime(head), rest)
            } else if is_named(b"_", symbol) {
                Ok(underscored(p, place_in(head), is_primed(head), rest))
            } else {
                read_application(alloc, setting, bounds, sorts, p, head, rest)
            }
        }
    }
}

#[cycle(read)]
#[inline(never)]
fn read_application(
    alloc: Global,
    setting: Setting,
    bounds: &mut Bounds,
    sorts: &mut Vec<Sort>,
    p: Place,
    head: &Form,
    rest: &[Form],
) -> Result<ReadTerm, NoMemory>
    requires few { length bounds.old + all_nodes (plain_forms rest.now) < 2 ^ 32 }
    ensures read { IfOk result (IsRead (applied_reading (context_of setting.entry) bounds.old p (plain_form head.now) (plain_forms rest.now))) }
    ensures kept { OnOk result (bounds.new ≡ bounds.old) }
    ensures stack { OnOk result (sorts.new.items ≡ sorts.old.items) }
{
    let before = sorts.len();
    let args = read_all(alloc, setting, bounds, sorts, rest)?;
    let r = application(
        setting.scope,
        p,
        head_prime(head),
        head_of(setting.scope, p, head),
        args,
        &sorts[before..],
    );
    sorts.truncate(before);
    Ok(r)
}

#[cycle(read)]
#[inline(never)]
fn read_all(
    alloc: Global,
    setting: Setting,
    bounds: &mut Bounds,
    sorts: &mut Vec<Sort>,
    forms: &[Form],
) -> Result<ReadArguments, NoMemory>
    requires few { length bounds.old + all_nodes (plain_forms forms.now) < 2 ^ 32 }
    ensures read { IfOk result (λ args. AreStacked (read_all (context_of setting.entry) bounds.old (plain_forms forms.now)) args sorts.old.items sorts.new.items) }
    ensures kept { OnOk result (bounds.new ≡ bounds.old) }
{
    let mut args = ReadArguments {
        terms: Vec::with_capacity(alloc, forms.len())?,
        whole: true,
        failure: None,
    };
    for form in forms {
        read_argument(alloc, setting, bounds, sorts, form, &mut args)?;
    }
    Ok(args)
}

#[cycle(read)]
#[inline(never)]
fn read_argument(
    alloc: Global,
    setting: Setting,
    bounds: &mut Bounds,
    sorts: &mut Vec<Sort>,
    form: &Form,
    args: &mut ReadArguments,
) -> Result<(), NoMemory>
    requires few { length bounds.old + nodes (plain_form form.now) < 2 ^ 32 }
    ensures read { OnOk result (IsAdded (read (context_of setting.entry) bounds.old (plain_form form.now)) args.old sorts.old.items args.new sorts.new.items) }
    ensures kept { OnOk result (bounds.new ≡ bounds.old) }
{
    match &form.shape {
        FormShape::Atom(a) => add_atom(alloc, setting, bounds, form.place, a, args, sorts),
        FormShape::List(parts) => {
            let r = read_list(alloc, setting, bounds, sorts, form.place, parts)?;
            add_argument(r, args, sorts)
        }
    }
}

// Reads the forms after the `let` of a term at `p`.
#[cycle(read)]
#[inline(never)]
fn read_let(
    alloc: Global,
    setting: Setting,
    bounds: &mut Bounds,
    sorts: &mut Vec<Sort>,
    p: Place,
    primes: Option<Refusal>,
    rest: &[Form],
) -> Result<ReadTerm, NoMemory>
    requires few { length bounds.old + all_nodes (plain_forms rest.now) < 2 ^ 32 }
    ensures read { IfOk result (λ r. (fs : List Refusal) → primes ≡ least fs → IsRead (read_let (context_of setting.entry) bounds.old p fs (plain_forms rest.now)) r) }
    ensures kept { OnOk result (bounds.new ≡ bounds.old) }
    ensures stack { OnOk result (sorts.new.items ≡ sorts.old.items) }
{
    match pair(rest) {
        Some((list, body)) => match &list.shape {
            FormShape::List(parts) => {
                let bindings = read_bindings(alloc, setting, bounds, sorts, list.place, parts)?;
                let failure = minimum(primes, some_binding(list.place, parts));
                read_body(alloc, setting, bounds, sorts, failure, bindings, body)
            }
            FormShape::Atom(_) => Ok(failed(refusal(moxi::ARITY, p))),
        },
        None => Ok(failed(refusal(moxi::ARITY, p))),
    }
}

// Reads the body of a `let` under its bindings. `failure` is the failing test of the form of the `let`.
#[cycle(read)]
#[inline(never)]
fn read_body(
    alloc: Global,
    setting: Setting,
    bounds: &mut Bounds,
    sorts: &mut Vec<Sort>,
    failure: Option<Refusal>,
    bindings: ReadBindings,
    body: &Form,
) -> Result<ReadTerm, NoMemory>
    requires few { length bounds.old + (length bindings.locals + nodes (plain_form body.now)) < 2 ^ 32 }
    ensures read { IfOk result (λ r. (fs : List Refusal) (x : Bindings) → failure ≡ least fs → AreBound x bindings → IsRead (let_reading fs x (read (context_of setting.entry) (bounds.old ++ x.locals) (plain_form body.now))) r) }
    ensures kept { OnOk result (bounds.new ≡ bounds.old) }
    ensures stack { OnOk result (sorts.new.items ≡ sorts.old.items) }
{
    let before = bounds.len();
    bounds.bind_all(&bindings.locals)?;
    let r = read_form(alloc, setting, bounds, sorts, body)?;
    bounds.keep(before);
    let_term(alloc, failure, bindings, r)
}

// Reads the bindings of a list at `q`. The values are outside the scope of the `let`.
#[cycle(read)]
#[inline(never)]
fn read_bindings(
    alloc: Global,
    setting: Setting,
    bounds: &mut Bounds,
    sorts: &mut Vec<Sort>,
    q: Place,
    forms: &[Form],
) -> Result<ReadBindings, NoMemory>
    requires few { length bounds.old + all_nodes (plain_forms forms.now) < 2 ^ 32 }
    ensures read { IfOk result (AreBound (read_bindings (context_of setting.entry) bounds.old q (plain_forms forms.now))) }
    ensures kept { OnOk result (bounds.new ≡ bounds.old) }
    ensures stack { OnOk result (sorts.new.items ≡ sorts.old.items) }
{
    let mut all = ReadBindings {
        names: Names::new(alloc),
        locals: List::new(alloc),
        terms: Vec::new(alloc),
        shape: None,
        failure: None,
    };
    for form in forms {
        read_binding(alloc, setting, bounds, sorts, q, form, &mut all)?;
    }
    Ok(all)
}

// Reads one binding of a list at `q`.
#[cycle(read)]
#[inline(never)]
fn read_binding(
    alloc: Global,
    setting: Setting,
    bounds: &mut Bounds,
    sorts: &mut Vec<Sort>,
    q: Place,
    form: &Form,
    all: &mut ReadBindings,
) -> Result<(), NoMemory>
    requires few { length bounds.old + nodes (plain_form form.now) < 2 ^ 32 }
    ensures read { OnOk result ((x : Bindings) → AreBound x all.old → AreBound (both_bindings x (read_binding (context_of setting.entry) bounds.old q (plain_form form.now))) all.new) }
    ensures kept { OnOk result (bounds.new ≡ bounds.old) }
    ensures stack { OnOk result (sorts.new.items ≡ sorts.old.items) }
{
    match &form.shape {
        FormShape::Atom(_) => {
            misshapen(q, all);
            Ok(())
        }
        FormShape::List(parts) => match pair(parts) {
            Some((symbol, value)) => match symbol_of(symbol) {
                Some((name, primed)) => {
                    let r = read_form(alloc, setting, bounds, sorts, value)?;
                    bind_to(alloc, name, prime(primed, place_in(symbol)), r, all)
                }
                None => {
                    misshapen(form.place, all);
                    Ok(())
                }
            },
            None => {
                misshapen(form.place, all);
                Ok(())
            }
        },
    }
}

/// Reads the term that a form spells over these variables, its sort, and its failing test.
///
/// That test is the one of M4 to M8 and M12 with the least place. A variable without a sort is one whose own declaration
/// fails a test. The names that `let`s bind are numbered with 32 bits, so the form has fewer than 2^32 nodes.
pub fn read_term(
    alloc: Global,
    scope: &Scope,
    locals: &Locals,
    form: &Form,
    primes: Primes,
) -> Result<ReadTerm, NoMemory>
    requires few { nodes (plain_form form.now) < 2 ^ 32 }
    ensures { IfOk result (IsRead (read (record { scope = scope.now; variables = locals.now; primes = primes }) [] (plain_form form.now))) }
{
    let mut bounds = Bounds::new(alloc);
    let mut sorts = Vec::new(alloc);
    let setting = Setting {
        scope,
        locals,
        primes,
    };
    read_form(alloc, setting, &mut bounds, &mut sorts, form)
}

// The variables as an index by name.
fn by_name(alloc: Global, variables: &Variables) -> Result<Locals, NoMemory>
    requires { length variables.now < 2 ^ 32 }
    ensures { IfOk result (λ l. l ≡ locals_of variables.now) }
{
    let mut locals = Locals::new(alloc);
    for variable in variables {
        locals.add(Name::of(alloc, variable.name.bytes())?, Some(variable.sort))?;
    }
    Ok(locals)
}

/// Returns the term that a form spells over these variables, and its sort.
///
/// A refusal is the failing test of M4 to M8 and M12 with the least place, and at one place with the least number. The term
/// is well sorted: it may be evaluated, and it may be the body of a function. The names that `let`s bind are numbered with
/// 32 bits, so a form of 2^32 or more atoms and lists counts as out of memory. No text of up to 2^31 bytes has as many.
pub fn term_of(
    alloc: Global,
    scope: &Scope,
    variables: &Variables,
    form: &Form,
    primes: Primes,
) -> Result<(Term, Sort), TermEnd>
    requires { length variables.now < 2 ^ 32 }
    ensures answers { Answers (read (record { scope = scope.now; variables = locals_of variables.now; primes = primes }) [] (plain_form form.now)) result }
    ensures sorted { IfOk result (λ r. IsTerm scope.now primes (sorts_of variables.now) [] (plain r.0) r.1) }
{
    if count_nodes(form) == MANY_NODES {
        return Err(TermEnd::NoMemory);
    }
    let locals = by_name(alloc, variables)?;
    let r = read_term(alloc, scope, &locals, form, primes)?;
    match (r.failure, r.sort) {
        (Some(f), _) => Err(TermEnd::Bad(f)),
        (None, Some(sort)) => Ok((r.term, sort)),
        (None, None) => unreachable!(),
    }
}

/// Proves that a form without failing tests, over variables that have sorts, spells a term of the sort that is read for it.
///
/// If primes are refused, no variable in the term is primed. A form that has a sort fails no test. So a `let` with a
/// failing value or body has no sort.
pub fn read_terms_have_sorts()
    ensures forms { (c : Context) (vars : List Sort) (t : Tree) → HaveKnownSorts c.variables vars → (read c [] t).failures ≡ [] → IsWellSorted c vars [] (read c [] t) }
    ensures terms { (c : Context) (vars : List Sort) (t : Tree) (r : ReadTerm) → HaveKnownSorts c.variables vars → IsRead (read c [] t) r → r.failure ≡ None → IsSortedTerm c vars r }
    ensures failing { (c : Context) (bounds : List Local) (t : Tree) (s : Sort) → (read c bounds t).sort ≡ Some s → (read c bounds t).failures ≡ [] }
{}
