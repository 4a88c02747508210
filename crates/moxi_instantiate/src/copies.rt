// Copies of terms with renumbered variables.
ghost use Rattle.std.specs.Prelude.{◌≡◌, map, IfOk, OnOk, ◌++◌, ◌∷◌, []};
ghost use Rattle.moxi_terms.specs.View.{plain};
ghost use Rattle.moxi_flat.specs.Renumbering.{renumbered};
ghost use Rattle.moxi_instantiate.specs.Copying.{number_in};

use moxi_terms::{Term, Terms};
use std::alloc::Global;
use text_core::{Names, NoMemory};

fn number_in(places: &[u32], v: u32) -> u32
    ensures { result ≡ number_in places.now v }
{
    match places.get(v as usize) {
        Some(place) => *place,
        None => 0,
    }
}

fn copied_names(alloc: Global, names: &Names) -> Result<Names, NoMemory>
    ensures { IfOk result (λ copy. copy ≡ names.now) }
{
    let mut copy = Names::new(alloc);
    for name in names {
        copy.push(name.duplicate(alloc)?)?;
    }
    Ok(copy)
}

fn put_term(terms: &mut Terms, term: Term) -> Result<(), NoMemory>
    ensures { OnOk result (terms.new.items ≡ terms.old.items ++ term ∷ []) }
{
    Ok(terms.push(term)?)
}

/// Returns a copy of a term in which variable v has the number `places[v]`.
#[inline(never)]
#[cycle(copy)]
pub fn renumber(alloc: Global, places: &[u32], term: &Term) -> Result<Term, NoMemory>
    ensures { IfOk result (λ copy. plain copy ≡ renumbered (number_in places.now) (plain term.now)) }
{
    match term {
        Term::Constant(value) => Ok(Term::Constant(*value)),
        Term::Variable(v, primed) => Ok(Term::Variable(number_in(places, *v), *primed)),
        Term::Bound(i) => Ok(Term::Bound(*i)),
        Term::Apply(op, terms) => {
            let copies = all_renumbered(alloc, places, terms)?;
            Ok(Term::Apply(*op, copies))
        }
        Term::Let(names, terms, body) => {
            let bound = copied_names(alloc, names)?;
            let copies = all_renumbered(alloc, places, terms)?;
            let inner = renumber(alloc, places, body)?;
            let held = Box::new(alloc, inner)?;
            Ok(Term::Let(bound, copies, held))
        }
        Term::Call(n, terms) => {
            let copies = all_renumbered(alloc, places, terms)?;
            Ok(Term::Call(*n, copies))
        }
    }
}

#[inline(never)]
#[cycle(copy)]
fn all_renumbered(alloc: Global, places: &[u32], terms: &[Term]) -> Result<Terms, NoMemory>
    ensures { IfOk result (λ copies. map plain copies.items ≡ map (λ t. renumbered (number_in places.now) (plain t)) terms.now) }
{
    let mut copies = Vec::with_capacity(alloc, terms.len())?;
    for term in terms {
        let copy = renumber(alloc, places, term)?;
        put_term(&mut copies, copy)?;
    }
    Ok(copies)
}
