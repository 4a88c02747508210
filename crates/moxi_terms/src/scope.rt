// Scopes: the enumerations, sorts and functions that a script declares.
ghost use Rattle.std.specs.Prelude.{◌≡◌, ◌<◌, ◌≤◌, ◌^◌, ◌-◌, ◌+◌, ◌++◌, take, not, length, map, IfOk, OnOk, OnErr, Some, None, if◌then◌else◌, slice_get};
ghost use Rattle.std.specs.List.{list_any};
ghost use Rattle.std.specs.Option.{option_map};
ghost use Rattle.moxi_terms.specs.Names.{all_constants, constant_count, is_sort_name, is_term_name, may_be_enumeration, no_scope, numbered, or_else, function_names, sort_named, with_enumeration, with_function, with_sort};
ghost use Rattle.name_maps.specs.Names.{place_of};
ghost use Rattle.moxi_terms.specs.Meanings.{bare_call, call_of, head_named, value_named};
ghost use Rattle.moxi_terms.specs.Scopes.{enumeration_now, constants_now, named_sort_now, function_now};
ghost use Rattle.moxi_terms.specs.Sorted.{IsFunction, IsScope};
ghost use Rattle.moxi_terms.specs.Sorts.{IsSort};
ghost use Rattle.moxi_terms.specs.View.{plain_function};

use crate::data::{Datum, Sort};
use crate::names::{Head, Meaning};
use crate::term::{Enumeration, Function, NamedSort};
use crate::words::{is_operator, operator_named};
use name_maps::NameSet;
use std::alloc::Global;
use std::marker::Model;
use text_core::{List, Name, Names, NoMemory, is_same};

/// The enumerations, sorts and functions of a script, each kind numbered from 0 in the order in which they were added.
///
/// Contracts see it as the lists of what was added. Names are found without a scan.
#[derive(Drop)]
pub struct Scope {
    alloc: Global,
    enumerations: List<Enumeration>,
    enumeration_names: NameSet,
    sorts: List<NamedSort>,
    sort_names: NameSet,
    functions: List<Function>,
    function_names: NameSet,
    constant_names: NameSet,
    constant_numbers: Vec<(u32, u32)>,
}

impl Model for Scope {
    ghost use Rattle.moxi_terms.specs.Code.{Node, tree_code};
    ghost use Rattle.moxi_terms.specs.View.{ScopeState, plain_function};
    ghost use Rattle.moxi_terms.specs.Scopes.{IsNameIndex};
    ghost use Rattle.std.specs.Coded.{Coded, codes};
    ghost use Rattle.std.specs.Prelude.{map};

    ghost Value = { ScopeState };

    ghost coded = { let node : Coded Node = Prim.hlevel codes in Prim.hlevel (codes, tree_code node) };

    ghost view = { λ s. record { enumerations = s.enumerations; sorts = s.sorts; functions = map plain_function s.functions } };

    ghost invariant = { λ s. IsNameIndex (record { enumerations = s.enumerations; sorts = s.sorts; functions = map plain_function s.functions }) s.enumeration_names s.sort_names s.function_names s.constant_names s.constant_numbers.items };
}

impl Scope {
    /// Returns an empty scope, without allocating.
    pub fn new(alloc: Global) -> Scope
        ensures { result ≡ no_scope }
    {
        Scope {
            alloc,
            enumerations: List::new(alloc),
            enumeration_names: NameSet::new(alloc),
            sorts: List::new(alloc),
            sort_names: NameSet::new(alloc),
            functions: List::new(alloc),
            function_names: NameSet::new(alloc),
            constant_names: NameSet::new(alloc),
            constant_numbers: Vec::new(alloc),
        }
    }

    /// Adds an enumeration sort with one or more constants, and returns whether it was added.
    ///
    /// It returns false, and changes nothing, where a sort already has its name. It does the same where one of its
    /// constants has the name of a constant or a function, or of another of its constants.
    pub fn add_enumeration(&mut self, name: Name, constants: Names) -> Result<bool, NoMemory>
        requires some { 0 < length constants }
        requires room { length self.old.enumerations < 2 ^ 32 - 1 }
        requires room_for_constants { length (all_constants self.old.enumerations) + length constants < 2 ^ 32 }
        ensures added { IfOk result (λ added. added ≡ may_be_enumeration self.old name constants) }
        ensures scope { IfOk result (λ added. self.new ≡ (if added then with_enumeration self.old name constants else self.old)) }
        ensures err { OnErr result (self.new ≡ self.old) }
    {
        if self.is_sort_name(name.bytes()) || self.has_term_name(&constants) {
            return Ok(false);
        }
        let before = self.constant_names.len();
        let enumerations = self.enumerations.len();
        number_constants(
            &mut self.constant_numbers,
            before,
            enumerations as u32,
            &constants,
        )?;
        self.enumeration_names.declare(self.alloc, name.bytes())?;
        match self.constant_names.declare_all(self.alloc, &constants) {
            Ok(true) => {}
            Ok(false) => {
                self.enumeration_names.keep(enumerations);
                return Ok(false);
            }
            Err(e) => {
                self.enumeration_names.keep(enumerations);
                return Err(e);
            }
        }
        match self.enumerations.push(Enumeration { name, constants }) {
            Ok(()) => {}
            Err(e) => {
                self.enumeration_names.keep(enumerations);
                self.constant_names.keep(before);
                return Err(e);
            }
        }
        Ok(true)
    }

    // Whether a constant or a function has one of these names.
    fn has_term_name(&self, names: &Names) -> bool
        ensures { result ≡ list_any (is_term_name self.now) names.now }
    {
        for name in names {
            if self.is_term_name(name.bytes()) {
                return true;
            }
        }
        false
    }

    /// Adds a name for a sort of the scope, and returns whether it was added.
    ///
    /// It returns false, and changes nothing, where a sort already has that name.
    pub fn add_sort(&mut self, name: Name, sort: Sort) -> Result<bool, NoMemory>
        requires sort { IsSort self.old.enumerations sort }
        requires room { length self.old.sorts < 2 ^ 32 - 1 }
        ensures added { IfOk result (λ added. added ≡ not (is_sort_name self.old name)) }
        ensures scope { IfOk result (λ added. self.new ≡ (if added then with_sort self.old name sort else self.old)) }
        ensures err { OnErr result (self.new ≡ self.old) }
    {
        if self.is_sort_name(name.bytes()) {
            return Ok(false);
        }
        let sorts = self.sorts.len();
        self.sort_names.declare(self.alloc, name.bytes())?;
        match self.sorts.push(NamedSort { name, sort }) {
            Ok(()) => Ok(true),
            Err(e) => {
                self.sort_names.keep(sorts);
                Err(e)
            }
        }
    }

    /// Adds a function over sorts of the scope, and returns whether it was added.
    ///
    /// Its body has no primes, is well sorted over the scope and the parameters, and has the sort of the result. It returns
    /// false, and changes nothing, where a constant or a function already has its name.
    pub fn add_function(&mut self, function: Function) -> Result<bool, NoMemory>
        requires function { IsFunction self.old.enumerations self.old.functions (plain_function function) }
        requires room { length self.old.functions < 2 ^ 32 - 1 }
        ensures added { IfOk result (λ added. added ≡ not (is_term_name self.old function.name)) }
        ensures scope { IfOk result (λ added. self.new ≡ (if added then with_function self.old (plain_function function) else self.old)) }
        ensures err { OnErr result (self.new ≡ self.old) }
    {
        if self.is_term_name(function.name.bytes()) {
            return Ok(false);
        }
        let functions = self.functions.len();
        self.function_names
            .declare(self.alloc, function.name.bytes())?;
        match self.functions.push(function) {
            Ok(()) => Ok(true),
            Err(e) => {
                self.function_names.keep(functions);
                Err(e)
            }
        }
    }

    /// Returns the name of enumeration sort number n.
    pub fn enumeration(&self, n: u32) -> Option<&Name>
        ensures { enumeration_now result ≡ option_map (λ e. e.name) (slice_get self.now.enumerations n) }
    {
        if (n as usize) < self.enumerations.len() {
            Some(&self.enumerations.at(n as usize).name)
        } else {
            None
        }
    }

    /// Returns the constants of enumeration sort number n.
    pub fn constants(&self, n: u32) -> Option<&Names>
        ensures { constants_now result ≡ option_map (λ e. e.constants) (slice_get self.now.enumerations n) }
    {
        if (n as usize) < self.enumerations.len() {
            Some(&self.enumerations.at(n as usize).constants)
        } else {
            None
        }
    }

    /// Returns the number of constants of enumeration sort number n, or 0 if there is no such sort.
    pub fn constant_count(&self, n: u32) -> u32
        ensures { result ≡ constant_count self.now.enumerations n }
    {
        if (n as usize) < self.enumerations.len() {
            self.enumerations.at(n as usize).constants.len() as u32
        } else {
            0
        }
    }

    /// Returns defined sort number n.
    pub fn sort(&self, n: u32) -> Option<&NamedSort>
        ensures { named_sort_now result ≡ slice_get self.now.sorts n }
    {
        if (n as usize) < self.sorts.len() {
            Some(self.sorts.at(n as usize))
        } else {
            None
        }
    }

    /// Returns function number n.
    pub fn function(&self, n: u32) -> Option<&Function>
        ensures { function_now result ≡ slice_get self.now.functions n }
    {
        if (n as usize) < self.functions.len() {
            Some(self.functions.at(n as usize))
        } else {
            None
        }
    }

    /// Returns the functions.
    ///
    /// The contract also states that the scope's declarations are consistent.
    pub fn functions(&self) -> &List<Function>
        ensures functions { map plain_function result.now ≡ self.now.functions }
        ensures scope { IsScope self.now }
    {
        &self.functions
    }

    /// Returns the enumeration sorts.
    pub fn enumerations(&self) -> &List<Enumeration>
        ensures { result.now ≡ self.now.enumerations }
    {
        &self.enumerations
    }

    /// Returns the defined sorts.
    pub fn sorts(&self) -> &List<NamedSort>
        ensures { result.now ≡ self.now.sorts }
    {
        &self.sorts
    }

    /// Returns whether a sort has this name.
    ///
    /// `Bool` and `BitVec` count as declared.
    pub fn is_sort_name(&self, name: &[u8]) -> bool
        ensures { result ≡ is_sort_name self.now name.now }
    {
        is_same(name, b"Bool")
            || is_same(name, b"BitVec")
            || self.enumeration_names.place(name).is_some()
            || self.sort_names.place(name).is_some()
    }

    /// Returns whether a constant or a function has this name.
    ///
    /// The operators, `true` and `false` count as declared.
    pub fn is_term_name(&self, name: &[u8]) -> bool
        ensures { result ≡ is_term_name self.now name.now }
    {
        is_operator(name)
            || is_same(name, b"true")
            || is_same(name, b"false")
            || self.constant_names.place(name).is_some()
            || self.function_names.place(name).is_some()
    }

    /// Returns the sort with this name.
    pub fn sort_named(&self, name: &[u8]) -> Option<Sort>
        ensures { result ≡ sort_named self.now name.now }
    {
        if is_same(name, b"Bool") {
            return Some(Sort::Truth);
        }
        match self.enumeration_names.place(name) {
            Some(n) => Some(Sort::Choice(n as u32)),
            None => match self.sort_names.place(name) {
                Some(n) => Some(self.sorts.at(n).sort),
                None => None,
            },
        }
    }

    // The constant with this name, including `true` and `false`.
    fn value_named(&self, name: &[u8]) -> Option<Meaning>
        ensures { result ≡ value_named self.now name.now }
    {
        if is_same(name, b"true") {
            Some(Meaning::Value(Datum::Truth(true), Sort::Truth))
        } else if is_same(name, b"false") {
            Some(Meaning::Value(Datum::Truth(false), Sort::Truth))
        } else {
            match self.constant_names.place(name) {
                Some(p) => {
                    let (n, i) = self.constant_numbers[p];
                    Some(Meaning::Value(Datum::Constant(n, i), Sort::Choice(n)))
                }
                None => None,
            }
        }
    }

    /// Returns the constant with this name, or else the parameterless function.
    pub fn constant_or_function(&self, name: &[u8]) -> Option<Meaning>
        ensures { result ≡ or_else (value_named self.now name.now) (call_of bare_call self.now.functions (place_of (function_names self.now) name.now)) }
    {
        match self.value_named(name) {
            Some(m) => Some(m),
            None => match self.function_names.place(name) {
                None => None,
                Some(n) => {
                    let function = self.functions.at(n);
                    if function.parameters.len() == 0 {
                        Some(Meaning::Call(n as u32, function.result))
                    } else {
                        None
                    }
                }
            },
        }
    }

    /// Returns the function with parameters that has this name, or else the operator.
    pub fn head(&self, name: &[u8]) -> Option<Head>
        ensures { result ≡ head_named self.now name.now }
    {
        match self.function_names.place(name) {
            Some(n) if self.functions.at(n).parameters.len() != 0 => Some(Head::Function(n as u32)),
            _ => match operator_named(name) {
                Some(op) => Some(Head::Operator(op)),
                None => None,
            },
        }
    }
}

// Appends the numbers of an enumeration's constants to the first `before` numbers.
fn number_constants(
    numbers: &mut Vec<(u32, u32)>,
    before: usize,
    n: u32,
    constants: &Names,
) -> Result<(), NoMemory>
    requires few { length constants.now < 2 ^ 32 }
    requires before { before ≤ length numbers.old.items }
    ensures ok { OnOk result (numbers.new.items ≡ take before numbers.old.items ++ numbered n 0 constants.now) }
    ensures front { take before numbers.new.items ≡ take before numbers.old.items }
{
    numbers.truncate(before);
    for i in 0..constants.len() {
        numbers.push((n, i as u32))?;
    }
    Ok(())
}
