// The script of a flat form.
ghost use Rattle.moxi_terms.specs.Names.{no_scope};
ghost use Rattle.std.specs.Prelude.{OnOk, ◌≡◌, ◌<◌, ◌≤◌, ◌^◌, ◌++◌, IfOk, length, map, codes};
ghost use Rattle.moxi_scripts.specs.Invariant.{IsSpelled};
ghost use Rattle.moxi_scripts.specs.Script.{plain_check, plain_formula, plain_system};
ghost use Rattle.moxi_scripts.specs.ScriptView.{plain_script};
ghost use Rattle.smv_items.specs.FlatItemView.{item_plain};
ghost use Rattle.smv_flat.specs.FlatFormulas.{form_plain};
ghost use Rattle.smv_flat.specs.FlatParts.{parts_plain};
ghost use Rattle.smv_flat.specs.FlatView.{plain_flat};
ghost use Rattle.smv_flat.specs.FlatTruth.{forms_invariants};
ghost use Rattle.smv_script.specs.Ranges.{excess, forms_excess};
ghost use Rattle.smv_script.specs.Script.{coding_of, place_of_item, queries_from, reachables_from};
ghost use Rattle.smv_script_terms.specs.Depths.{depth, forms_depth};
ghost use Rattle.smv_script_terms.specs.Questions.{codes_of, place_at};
ghost use Rattle.smv_script_terms.specs.FlatChains.{AreFlatChains};
ghost use Rattle.smv_to_moxi.specs.Assembling.{symbol_scope, check_form, is_invariant, reachable_of, script_form, script_under, script_with, system_form};
ghost use Rattle.smv_to_moxi.specs.SingleView.{plain_single};
ghost use Rattle.smv_to_moxi.specs.Symbols.{CanBeConstants};

use moxi_scripts::{
    Check, Formula, Formulas, Queries, Script, Subsystems, System, Systems, numbered, query_of,
    variables_again,
};
use moxi_terms::Scope;
use name_maps::NameSet;
use smv_flat::{FlatFormula, FlatParts, Role};
use smv_items::FlatItem;
use smv_script_terms::{
    Coding, FlatChains, Group, Question, SmallFlat, flat_chains, formula_of, negate, places_of,
    terms_of, variables_in,
};
use smv_text::When;
use std::alloc::Global;
use std::mem;
use text_core::{Name, Names, NoMemory, Place};

/// The script of a flat form, with its only system by value (MoXI, SPIN 2024).
#[derive(Drop)]
pub struct SingleScript {
    pub logic: Name,
    pub scope: Scope,
    pub system: System,
    pub check: Check,
}

fn constant_names(alloc: Global, symbols: &NameSet) -> Result<Names, NoMemory>
    ensures { IfOk result (λ ns. ns ≡ map (λ x. codes "c." ++ x) symbols.now) }
{
    let mut all = Names::new(alloc);
    for i in 0..symbols.len() {
        let name = Name::joined(alloc, b"c.", symbols.at(i))?;
        all.push(name)?;
    }
    Ok(all)
}

// Declares the one sort whose constants are the symbols, if there are any.
fn declare_symbols(alloc: Global, scope: &mut Scope, symbols: &NameSet) -> Result<(), NoMemory>
    requires nothing { scope.old ≡ no_scope }
    requires symbols { CanBeConstants symbols.now }
    ensures { OnOk result (scope.new ≡ symbol_scope symbols.now) }
{
    if symbols.len() == 0 {
        return Ok(());
    }
    let constants = constant_names(alloc, symbols)?;
    let name = Name::of(alloc, b"Symbol")?;
    match scope.add_enumeration(name, constants) {
        Ok(true) => Ok(()),
        Ok(false) => unreachable!(),
        Err(e) => Err(e),
    }
}

// The system, given the chains of the flat form.
fn system_with<'f>(
    alloc: Global,
    coding: &Coding,
    flat: &SmallFlat<'f>,
    chains: &FlatChains,
) -> Result<System, NoMemory>
    requires coding { codes_of coding.now ≡ coding_of (parts_plain flat.now.parts) coding.now.width }
    requires chains { AreFlatChains flat.now.parts chains.now }
    ensures { IfOk result (λ s. plain_system s ≡ system_form (parts_plain flat.now.parts) coding.now.width) }
{
    let name = Name::of(alloc, b"main")?;
    let width = coding.width;
    let inputs = variables_in(alloc, width, Group::Inputs, flat.parts.items)?;
    let outputs = variables_in(alloc, width, Group::Outputs, flat.parts.items)?;
    let locals = variables_in(alloc, width, Group::Locals, flat.parts.items)?;
    let init = formula_of(alloc, coding, When::First, flat, chains)?;
    let trans = formula_of(alloc, coding, When::Following, flat, chains)?;
    let inv = formula_of(alloc, coding, When::Always, flat, chains)?;
    Ok(System {
        name,
        inputs,
        outputs,
        locals,
        init,
        trans,
        inv,
        subsystems: Subsystems::new(alloc),
    })
}

fn system_of<'f>(alloc: Global, coding: &Coding, flat: &SmallFlat<'f>) -> Result<System, NoMemory>
    requires { codes_of coding.now ≡ coding_of (parts_plain flat.now.parts) coding.now.width }
    ensures { IfOk result (λ s. plain_system s ≡ system_form (parts_plain flat.now.parts) coding.now.width) }
{
    let chains = flat_chains(alloc, &flat.parts)?;
    system_with(alloc, coding, flat, &chains)
}

// The formula that an invariant is broken.
fn reachable_of(
    alloc: Global,
    coding: &Coding,
    j: usize,
    form: &FlatFormula,
) -> Result<Formula, NoMemory>
    requires deep { depth 0 (plain_flat form.now.body) < 2 ^ 32 }
    requires in_range { excess (plain_flat form.now.body) ≡ 0 }
    ensures { IfOk result (λ f. plain_formula f ≡ reachable_of (codes_of coding.now) j (plain_flat form.now.body)) }
{
    let name = numbered(alloc, b"r.", j)?;
    let held = terms_of(alloc, coding, 0, Question::Value, &form.body)?;
    let term = negate(alloc, held)?;
    Ok(Formula { name, term })
}

// Whether the formula is an invariant.
fn is_invariant(form: &FlatFormula) -> bool
    ensures { result ≡ is_invariant form.now.role }
{
    match form.role {
        Role::Invariant => true,
        Role::Body(_) | Role::Assign(_, _) | Role::Init | Role::Trans | Role::Invar => false,
    }
}

// The reachable formula of each invariant: the invariant is broken.
fn reachables_of(
    alloc: Global,
    coding: &Coding,
    formulas: &[FlatFormula],
) -> Result<Formulas, NoMemory>
    requires deep { forms_depth (map form_plain formulas.now) < 2 ^ 32 }
    requires in_range { forms_excess (map form_plain formulas.now) ≡ 0 }
    ensures { IfOk result (λ fs. map plain_formula fs ≡ reachables_from (codes_of coding.now) 0 (forms_invariants (map form_plain formulas.now))) }
{
    let mut all = Formulas::new(alloc);
    for form in formulas {
        if is_invariant(form) {
            let formula = reachable_of(alloc, coding, all.len(), form)?;
            all.push(formula)?;
        }
    }
    Ok(all)
}

// The query of each invariant.
fn queries_of(alloc: Global, formulas: &[FlatFormula]) -> Result<Queries, NoMemory>
    ensures { IfOk result (λ qs. qs ≡ queries_from 0 (forms_invariants (map form_plain formulas.now))) }
{
    let mut all = Queries::new(alloc);
    for form in formulas {
        if is_invariant(form) {
            let query = query_of(alloc, all.len())?;
            all.push(query)?;
        }
    }
    Ok(all)
}

// The check, which has copies of the system's variables.
fn check_of<'f>(
    alloc: Global,
    coding: &Coding,
    flat: &SmallFlat<'f>,
    system: &System,
) -> Result<Check, NoMemory>
    requires coding { codes_of coding.now ≡ coding_of (parts_plain flat.now.parts) coding.now.width }
    requires system { plain_system system.now ≡ system_form (parts_plain flat.now.parts) coding.now.width }
    ensures { IfOk result (λ c. plain_check c ≡ check_form (parts_plain flat.now.parts) coding.now.width) }
{
    let inputs = variables_again(alloc, &system.inputs)?;
    let outputs = variables_again(alloc, &system.outputs)?;
    let locals = variables_again(alloc, &system.locals)?;
    let reachables = reachables_of(alloc, coding, flat.parts.formulas)?;
    let queries = queries_of(alloc, flat.parts.formulas)?;
    Ok(Check {
        place: Place {
            line: 1,
            column: 1,
            offset: 0,
        },
        system: 0,
        inputs,
        outputs,
        locals,
        assumptions: Formulas::new(alloc),
        currents: Formulas::new(alloc),
        reachables,
        queries,
    })
}

// The width of integers, and the numbers of the items' variables.
fn coding_of(alloc: Global, width: u32, items: &[FlatItem]) -> Result<Coding, NoMemory>
    requires few { length items.now < 2 ^ 30 }
    requires some { 1 ≤ width }
    requires low { width ≤ 64 }
    ensures width { IfOk result (λ c. c.width ≡ width) }
    ensures places { IfOk result (λ c. (λ k. place_at c.places.items k) ≡ place_of_item (map item_plain items.now)) }
{
    let places = places_of(alloc, items)?;
    Ok(Coding { width, places })
}

// The script of these parts; the scope is moved out.
pub(crate) fn assembled(
    alloc: Global,
    logic: Name,
    scope: &mut Scope,
    system: System,
    check: Check,
) -> Result<Script, NoMemory>
    requires { ∥ IsSpelled (script_with logic scope.old (plain_system system) (plain_check check)) ∥₁ }
    ensures { IfOk result (λ s. plain_script s ≡ script_with logic scope.old (plain_system system) (plain_check check)) }
{
    let mut systems = Systems::new(alloc);
    systems.push(system)?;
    let scope = mem::replace(scope, Scope::new(alloc));
    Ok(Script {
        logic: Some(logic),
        scope,
        systems,
        check,
    })
}

// These parts as a script with its system by value; the scope is moved out.
fn single_with(
    alloc: Global,
    logic: Name,
    scope: &mut Scope,
    system: System,
    check: Check,
) -> SingleScript
    ensures { plain_single result ≡ script_with logic scope.old (plain_system system) (plain_check check) }
{
    let scope = mem::replace(scope, Scope::new(alloc));
    SingleScript {
        logic,
        scope,
        system,
        check,
    }
}

// The script with this system.
fn single_of_system<'f>(
    alloc: Global,
    coding: &Coding,
    flat: &SmallFlat<'f>,
    logic: Name,
    scope: &mut Scope,
    system: System,
) -> Result<SingleScript, NoMemory>
    requires coding { codes_of coding.now ≡ coding_of (parts_plain flat.now.parts) coding.now.width }
    requires system { plain_system system ≡ system_form (parts_plain flat.now.parts) coding.now.width }
    ensures { IfOk result (λ s. plain_single s ≡ script_with logic scope.old (plain_system system) (check_form (parts_plain flat.now.parts) coding.now.width)) }
{
    match check_of(alloc, coding, flat, &system) {
        Ok(check) => Ok(single_with(alloc, logic, scope, system, check)),
        Err(e) => {
            drop(logic);
            drop(system);
            Err(e)
        }
    }
}

// The script with this logic and this scope.
fn single_of_scope<'f>(
    alloc: Global,
    coding: &Coding,
    flat: &SmallFlat<'f>,
    logic: Name,
    scope: &mut Scope,
) -> Result<SingleScript, NoMemory>
    requires { codes_of coding.now ≡ coding_of (parts_plain flat.now.parts) coding.now.width }
    ensures { IfOk result (λ s. plain_single s ≡ script_under logic scope.old (parts_plain flat.now.parts) coding.now.width) }
{
    match system_of(alloc, coding, flat) {
        Ok(system) => single_of_system(alloc, coding, flat, logic, scope, system),
        Err(e) => {
            drop(logic);
            Err(e)
        }
    }
}

// The logic of words.
fn logic_of(alloc: Global) -> Result<Name, NoMemory>
    ensures { IfOk result (λ n. n ≡ codes "QF_BV") }
{
    Name::of(alloc, b"QF_BV")
}

// The script of a flat form with this coding, given an empty scope.
fn coded_single<'f>(
    alloc: Global,
    coding: &Coding,
    flat: &SmallFlat<'f>,
    scope: &mut Scope,
) -> Result<SingleScript, NoMemory>
    requires nothing { scope.old ≡ no_scope }
    requires symbols { CanBeConstants flat.now.parts.symbols.now }
    requires coding { codes_of coding.now ≡ coding_of (parts_plain flat.now.parts) coding.now.width }
    ensures { IfOk result (λ s. plain_single s ≡ script_form (parts_plain flat.now.parts) coding.now.width) }
{
    declare_symbols(alloc, scope, flat.parts.symbols)?;
    let logic = logic_of(alloc)?;
    single_of_scope(alloc, coding, flat, logic, scope)
}

/// Returns the script of a flat form with these parts, whose integers have this width.
///
/// The scope must be empty.
pub(crate) fn single_in<'f>(
    alloc: Global,
    width: u32,
    parts: FlatParts<'f>,
    scope: &mut Scope,
) -> Result<SingleScript, NoMemory>
    requires nothing { scope.old ≡ no_scope }
    requires few { length parts.items.now < 2 ^ 30 }
    requires symbols { CanBeConstants parts.symbols.now }
    requires deep { forms_depth (map form_plain parts.formulas.now) < 2 ^ 32 }
    requires in_range { forms_excess (map form_plain parts.formulas.now) ≡ 0 }
    requires some { 1 ≤ width }
    requires low { width ≤ 64 }
    ensures { IfOk result (λ s. plain_single s ≡ script_form (parts_plain parts.entry) width) }
{
    let flat = SmallFlat { parts };
    let coding = coding_of(alloc, width, parts.items)?;
    coded_single(alloc, &coding, &flat, scope)
}
