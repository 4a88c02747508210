// The queries of a check.
ghost use Rattle.std.specs.Prelude.{◌≡◌, ◌++◌, ◌∷◌, [], IfOk, OnOk, if◌then◌else◌, is_some, not};
ghost use Rattle.digraph.specs.Graph.{are_distinct, is_in};
ghost use Rattle.moxi_sexpr.specs.Tree.{plain, plain_forms};
ghost use Rattle.moxi_term_reading.specs.Forms.{place_in, symbol_of};
ghost use Rattle.moxi_scripts.specs.declared.parts.Turn.TheVariants as turns;
ghost use Rattle.moxi_scripts.specs.Collecting.{also};
ghost use Rattle.moxi_scripts.specs.Declarations.{are_symbols};
ghost use Rattle.moxi_attributes.specs.Views.{plain_labels, named_here};
ghost use Rattle.moxi_scripts.specs.QueryReading.{all_queries_failures, is_bad_query, list_failures, forms_among, names_after};
ghost use Rattle.moxi_scripts.specs.QueryReading.{names_with_queries, names_with_query, no_names, queries_after, queries_among};
ghost use Rattle.moxi_scripts.specs.QueryReading.{queries_failures, queries_in, query_failures, query_forms, query_of};
ghost use Rattle.moxi_scripts.specs.QueryReading.{query_with, some_distinct, symbol_tests, symbols_failures, with_number, with_prime};
ghost use Rattle.moxi_scripts.specs.QueryReading.{with_symbol};
ghost use Rattle.moxi_scripts.specs.Shapes.{parts_of};

use indexmap::IndexSet;
use moxi_attributes::{
    Labels, Named, both, fail, fail_if, fail_primed, is_behind, named_form, parts_of, place_of,
    refuse, shape_refusal, turn_after,
};
use moxi_scripts::{Command, Key, Queries, Query, QueryNames, Turn};
use moxi_sexpr::Form;
use moxi_term_reading::symbol_of;
use name_maps::NameSet;
use std::alloc::Global;
use text_core::kinds::moxi;
use text_core::{Name, NoMemory, Numbers, Place, Refusal};

fn no_names(alloc: Global) -> QueryNames
    ensures { result ≡ no_names }
{
    QueryNames {
        assumptions: Numbers::new(alloc),
        currents: Numbers::new(alloc),
        reachables: Numbers::new(alloc),
        known: true,
        primed: false,
    }
}

// Adds the numbers of a name.
fn add_number(
    q: &mut QueryNames,
    assumption: Option<usize>,
    current: Option<usize>,
    reachable: Option<usize>,
) -> Result<(), NoMemory>
    ensures { OnOk result (q.new ≡ with_number q.old assumption current reachable) }
{
    match assumption {
        Some(i) => {
            q.assumptions.push(i as u64)?;
            Ok(())
        }
        None => match current {
            Some(i) => {
                q.currents.push(i as u64)?;
                Ok(())
            }
            None => match reachable {
                Some(i) => {
                    q.reachables.push(i as u64)?;
                    Ok(())
                }
                None => {
                    q.known = false;
                    Ok(())
                }
            },
        },
    }
}

fn add_prime(q: &mut QueryNames, primed: bool)
    ensures { q.new ≡ with_prime q.old primed }
{
    q.primed = q.primed || primed;
}

// Reads a name in a query, and returns whether it is a symbol.
#[tactic(auto, using(moxi_attributes::specs::laws::Collecting::also_none))]
fn read_name(
    ls: &Labels,
    form: &Form,
    q: &mut QueryNames,
    found: &mut Option<Refusal>,
) -> Result<bool, NoMemory>
    ensures symbol { IfOk result (λ b. b ≡ is_some (symbol_of (plain form.now))) }
    ensures names { OnOk result (q.new ≡ with_symbol (plain_labels ls.now) q.old (symbol_of (plain form.now))) }
    ensures finds { OnOk result (found.new ≡ also found.old (symbol_tests (place_in (plain form.now)) (symbol_of (plain form.now)))) }
{
    match symbol_of(form) {
        None => Ok(false),
        Some((name, primed)) => {
            fail_primed(found, primed, place_of(form));
            add_prime(q, primed);
            add_number(
                q,
                ls.assumptions.names.place(name),
                ls.currents.names.place(name),
                ls.reachables.names.place(name),
            )?;
            Ok(true)
        }
    }
}

// Reads the names in a query, and returns whether each form is a symbol.
fn read_names(
    ls: &Labels,
    forms: &[Form],
    q: &mut QueryNames,
    found: &mut Option<Refusal>,
) -> Result<bool, NoMemory>
    ensures symbols { IfOk result (λ b. b ≡ are_symbols (plain_forms forms.now)) }
    ensures names { OnOk result (q.new ≡ names_after (plain_labels ls.now) q.old (plain_forms forms.now)) }
    ensures finds { OnOk result (found.new ≡ also found.old (symbols_failures (plain_forms forms.now))) }
{
    let mut symbols = true;
    for form in forms {
        let symbol = read_name(ls, form, q, found)?;
        symbols = both(symbols, symbol);
    }
    Ok(symbols)
}

// Adds a number, and returns whether it is new.
fn put_number(numbers: &mut IndexSet<u64>, number: u64) -> Result<bool, NoMemory>
    ensures fresh { IfOk result (λ fresh. fresh ≡ not (is_in numbers.old.keys number)) }
    ensures keys { IfOk result (λ fresh. numbers.new.keys ≡ (if fresh then numbers.old.keys ++ number ∷ [] else numbers.old.keys)) }
{
    match numbers.insert_full(number) {
        Ok((_, fresh)) => Ok(fresh),
        Err(_) => Err(NoMemory),
    }
}

// Whether all numbers are distinct. The loop runs backwards, so that each number is compared with those after it.
fn are_distinct(alloc: Global, numbers: &Numbers) -> Result<bool, NoMemory>
    ensures { IfOk result (λ distinct. distinct ≡ are_distinct numbers.now) }
{
    let mut seen = IndexSet::new(alloc);
    let mut k = numbers.len();
    while k > 0 {
        k -= 1;
        if !put_number(&mut seen, *numbers.at(k))? {
            return Ok(false);
        }
    }
    Ok(true)
}

// Whether there are numbers and all are distinct. Most queries name one reachable formula, and nothing is allocated here.
#[tactic(auto, using(crate::proofs::NumberLaws::few_distinct, crate::proofs::NumberLaws::many_distinct))]
fn are_some_distinct(alloc: Global, numbers: &Numbers) -> Result<bool, NoMemory>
    ensures { IfOk result (λ some. some ≡ some_distinct numbers.now) }
{
    if numbers.len() < 2 {
        return Ok(numbers.len() == 1);
    }
    are_distinct(alloc, numbers)
}

fn is_bad_query(alloc: Global, ls: &Labels, q: &QueryNames) -> Result<bool, NoMemory>
    ensures { IfOk result (λ bad. bad ≡ is_bad_query (plain_labels ls.now) q.now) }
{
    if !ls.whole || q.primed {
        return Ok(false);
    }
    if !q.known {
        return Ok(true);
    }
    let named = are_some_distinct(alloc, &q.reachables)?;
    Ok(!named)
}

// Reads the names of a query in a list at `q`.
#[tactic(auto, using(moxi_attributes::specs::laws::Collecting::also_append))]
fn read_query_list(
    alloc: Global,
    ls: &Labels,
    p: Place,
    n: Named,
    queries: &mut Queries,
    found: &mut Option<Refusal>,
) -> Result<(), NoMemory>
    ensures adds { OnOk result (queries.new ≡ queries.old ++ queries_among (plain_labels ls.now) (named_here n.entry) (parts_of (named_here n.entry).form)) }
    ensures finds { OnOk result (found.new ≡ also found.old (list_failures (plain_labels ls.now) p (named_here n.entry) (parts_of (named_here n.entry).form))) }
{
    match parts_of(n.form) {
        None => {
            fail(found, moxi::ARITY, p);
            Ok(())
        }
        Some(parts) => {
            let mut q = no_names(alloc);
            let symbols = read_names(ls, parts, &mut q, found)?;
            fail_if(found, !symbols, moxi::ARITY, place_of(n.form));
            let bad = is_bad_query(alloc, ls, &q)?;
            fail_if(found, both(symbols, bad), moxi::QUERY_FORM, p);
            add_query(alloc, n.name, q, queries)?;
            Ok(())
        }
    }
}

fn add_query(
    alloc: Global,
    name: &[u8],
    q: QueryNames,
    queries: &mut Queries,
) -> Result<(), NoMemory>
    ensures { OnOk result (queries.new ≡ queries.old ++ query_with name.now q ∷ []) }
{
    queries.push(Query {
        name: Name::of(alloc, name)?,
        assumptions: q.assumptions,
        currents: q.currents,
        reachables: q.reachables,
    })?;
    Ok(())
}

// Reads a query in a list at `around`.
#[tactic(auto, using(moxi_attributes::specs::laws::Collecting::also_append, moxi_attributes::specs::laws::Collecting::nothing_more))]
fn read_query(
    alloc: Global,
    ls: &Labels,
    names: &mut NameSet,
    around: Place,
    form: &Form,
    queries: &mut Queries,
    found: &mut Option<Refusal>,
) -> Result<(), NoMemory>
    ensures adds { OnOk result (queries.new ≡ queries.old ++ query_of (plain_labels ls.now) (plain form.now)) }
    ensures names { OnOk result (names.new ≡ names_with_query names.old (plain form.now)) }
    ensures finds { OnOk result (found.new ≡ also found.old (query_failures (plain_labels ls.now) names.old around (plain form.now))) }
{
    match named_form(form) {
        None => {
            refuse(found, shape_refusal(around, form));
            Ok(())
        }
        Some(n) => {
            fail_primed(found, n.primed, n.place);
            let fresh = names.declare(alloc, n.name)?;
            fail_if(found, !fresh, moxi::NAME_TWICE, n.place);
            read_query_list(alloc, ls, place_of(form), n, queries, found)?;
            Ok(())
        }
    }
}

// Reads the queries of a list at `around`.
fn read_queries_of(
    alloc: Global,
    ls: &Labels,
    names: &mut NameSet,
    around: Place,
    forms: &[Form],
    queries: &mut Queries,
    found: &mut Option<Refusal>,
) -> Result<(), NoMemory>
    ensures adds { OnOk result (queries.new ≡ queries.old ++ queries_in (plain_labels ls.now) (plain_forms forms.now)) }
    ensures names { OnOk result (names.new ≡ names_with_queries names.old (plain_forms forms.now)) }
    ensures finds { OnOk result (found.new ≡ also found.old (queries_failures (plain_labels ls.now) names.old around (plain_forms forms.now))) }
{
    for form in forms {
        read_query(alloc, ls, names, around, form, queries, found)?;
    }
    Ok(())
}

// Reads a form among the attributes.
#[tactic(auto, using(moxi_attributes::specs::laws::Collecting::also_none, moxi_attributes::specs::laws::Collecting::nothing_more))]
fn read_queries_at(
    alloc: Global,
    ls: &Labels,
    turn: Turn,
    names: &mut NameSet,
    form: &Form,
    queries: &mut Queries,
    found: &mut Option<Refusal>,
) -> Result<(), NoMemory>
    ensures adds { OnOk result (queries.new ≡ queries.old ++ queries_in (plain_labels ls.now) (query_forms turn (plain form.now))) }
    ensures names { OnOk result (names.new ≡ names_with_queries names.old (query_forms turn (plain form.now))) }
    ensures finds { OnOk result (found.new ≡ also found.old (queries_failures (plain_labels ls.now) names.old (place_in (plain form.now)) (query_forms turn (plain form.now)))) }
{
    if is_behind(Key::Query, turn) {
        read_query(alloc, ls, names, place_of(form), form, queries, found)?;
        return Ok(());
    }
    if is_behind(Key::Queries, turn) {
        return read_listed(alloc, ls, names, form, queries, found);
    }
    Ok(())
}

// Reads the queries of a list.
#[tactic(auto, using(moxi_attributes::specs::laws::Collecting::also_none, moxi_attributes::specs::laws::Collecting::nothing_more))]
fn read_listed(
    alloc: Global,
    ls: &Labels,
    names: &mut NameSet,
    form: &Form,
    queries: &mut Queries,
    found: &mut Option<Refusal>,
) -> Result<(), NoMemory>
    ensures adds { OnOk result (queries.new ≡ queries.old ++ queries_in (plain_labels ls.now) (forms_among (parts_of (plain form.now)))) }
    ensures names { OnOk result (names.new ≡ names_with_queries names.old (forms_among (parts_of (plain form.now)))) }
    ensures finds { OnOk result (found.new ≡ also found.old (queries_failures (plain_labels ls.now) names.old (place_in (plain form.now)) (forms_among (parts_of (plain form.now))))) }
{
    match parts_of(form) {
        None => Ok(()),
        Some(parts) => {
            read_queries_of(alloc, ls, names, place_of(form), parts, queries, found)?;
            Ok(())
        }
    }
}

/// Reads the queries among the attributes of a check.
pub fn read_queries(
    alloc: Global,
    ls: &Labels,
    forms: &[Form],
    queries: &mut Queries,
    found: &mut Option<Refusal>,
) -> Result<(), NoMemory>
    ensures adds { OnOk result (queries.new ≡ queries.old ++ queries_after (plain_labels ls.now) turns.AtKeyword (plain_forms forms.now)) }
    ensures finds { OnOk result (found.new ≡ also found.old (all_queries_failures (plain_labels ls.now) [] turns.AtKeyword (plain_forms forms.now))) }
{
    let mut names = NameSet::new(alloc);
    let mut turn = Turn::AtKeyword;
    for form in forms {
        read_queries_at(alloc, ls, turn, &mut names, form, queries, found)?;
        turn = turn_after(Command::Check, turn, form);
    }
    Ok(())
}
