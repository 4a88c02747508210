// The truth of formulas.
ghost use Rattle.std.specs.Prelude.{◌≡◌, ◌<◌, length, map, IfOk};
ghost use Rattle.moxi_terms.specs.Value.{at};
ghost use Rattle.moxi_terms.specs.View.{plain};
ghost use Rattle.moxi_scripts.specs.Script.{formula_at, plain_formula};
ghost use Rattle.moxi_scripts.specs.Meeting.{is_true};
ghost use Rattle.moxi_flat.specs.FlatSorts.{IsFlatTruth};
ghost use Rattle.moxi_judge.specs.FlatTests.{AreTruths, Fits, free_script};

use moxi_instantiate::FlatSystem;
use moxi_scripts::Formulas;
use moxi_terms::{Datum, Env, Term, eval};
use std::alloc::Global;
use text_core::NoMemory;

/// Returns whether the term is true when the system's variables have these values now and later.
pub(crate) fn is_true(
    alloc: Global,
    system: &FlatSystem<'_>,
    term: &Term,
    now: &Env,
    later: &Env,
) -> Result<bool, NoMemory>
    requires truth { IsFlatTruth system.now (plain term.now) }
    requires fit { Fits system.now now.now }
    requires fit_later { Fits system.now later.now }
    ensures { IfOk result (λ holds. holds ≡ is_true (free_script system.now) (at now.now) (at later.now) (plain term.now)) }
{
    match eval(alloc, system.scope(), term, now, Some(later))? {
        Datum::Truth(b) => Ok(b),
        _ => Ok(false),
    }
}

/// Returns whether the formula with this number is true.
pub(crate) fn is_true_at(
    alloc: Global,
    system: &FlatSystem<'_>,
    formulas: &Formulas,
    number: u64,
    now: &Env,
) -> Result<bool, NoMemory>
    requires there { number < length formulas.now }
    requires truths { AreTruths system.now (map plain_formula formulas.now) }
    requires fit { Fits system.now now.now }
    ensures { IfOk result (λ holds. holds ≡ is_true (free_script system.now) (at now.now) (at now.now) (formula_at (map plain_formula formulas.now) number)) }
{
    is_true(alloc, system, &formulas.at(number as usize).term, now, now)
}
