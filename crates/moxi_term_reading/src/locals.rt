// The variables of a term, and the names that the surrounding `let`s bind, found without a scan.
ghost use Rattle.std.specs.Prelude.{◌≡◌, ◌<◌, ◌^◌, ◌-◌, ◌≤◌, ◌+◌, ◌++◌, ◌∷◌, [], List, length, take, Some, None, is_none, IfOk, OnOk, OnErr};
ghost use Rattle.moxi_term_reading.specs.Finding.{first_of, last_of, IsStacked, found, locals_in};
ghost use Rattle.name_maps.specs.Names.{place_of};
ghost use Rattle.moxi_term_reading.specs.declared.locals.Binding.{Binding};

use moxi_terms::Sort;
use name_maps::NameSet;
use std::alloc::Global;
use std::marker::Model;
use text_core::{List, Name, NoMemory};

/// A name declared by a variable or a `let`, and its sort.
///
/// The sort is unknown where the declaration or the bound value fails a test.
#[derive(Drop)]
pub struct Local {
    pub name: Name,
    pub sort: Option<Sort>,
}

/// Variables, seen by contracts as a list.
///
/// Among variables with the same name the first is found.
#[derive(Drop)]
pub struct Locals {
    alloc: Global,
    locals: List<Local>,
    names: NameSet,
    firsts: Vec<u32>,
}

impl Model for Locals {
    ghost use Rattle.std.specs.Prelude.{List};
    ghost use Rattle.moxi_term_reading.specs.declared.locals.Local.{Local};
    ghost use Rattle.moxi_term_reading.specs.Finding.{IsIndexed};

    ghost Value = { List Local };

    ghost view = { λ l. l.locals };

    ghost invariant = { λ l. IsIndexed l.locals l.names l.firsts.items };
}

impl Locals {
    /// Returns an empty list, without allocating.
    pub fn new(alloc: Global) -> Locals
        ensures { result ≡ [] }
    {
        Locals {
            alloc,
            locals: List::new(alloc),
            names: NameSet::new(alloc),
            firsts: Vec::new(alloc),
        }
    }

    /// Adds a variable, with its sort if it has one, and returns whether its name is new.
    ///
    /// Out of memory leaves the list unchanged.
    pub fn add(&mut self, name: Name, sort: Option<Sort>) -> Result<bool, NoMemory>
        requires room { length self.old < 2 ^ 32 - 1 }
        ensures fresh { IfOk result (λ fresh. fresh ≡ is_none (first_of 0 self.old name)) }
        ensures ok { OnOk result (self.new ≡ self.old ++ record { name = name; sort = sort } ∷ []) }
        ensures err { OnErr result (self.new ≡ self.old) }
    {
        let before = self.names.len();
        let number = self.locals.len() as u32;
        self.firsts.truncate(before);
        self.firsts.push(number)?;
        let fresh = self.names.declare(self.alloc, name.bytes())?;
        match self.locals.push(Local { name, sort }) {
            Ok(()) => Ok(fresh),
            Err(e) => {
                self.names.keep(before);
                Err(e)
            }
        }
    }

    /// Returns the number and the sort of the first variable with this name.
    pub fn find(&self, name: &[u8]) -> Option<(u32, Option<Sort>)>
        ensures { found result ≡ first_of 0 self.now name.now }
    {
        match self.names.place(name) {
            Some(p) => {
                let number = self.firsts[p];
                Some((number, self.locals.at(number as usize).sort))
            }
            None => None,
        }
    }
}

/// A name that a `let` binds: its index among all names that any `let` bound, the number of the last equal name before it,
/// and its sort.
#[derive(Clone, Copy)]
pub struct Binding {
    key: usize,
    before: Option<u32>,
    sort: Option<Sort>,
}

/// The names that the surrounding `let`s bind, outermost first, seen by contracts as a list.
///
/// Among equal names the last is found.
#[derive(Drop)]
pub struct Bounds {
    alloc: Global,
    bindings: Vec<Binding>,
    names: NameSet,
    lasts: Vec<Option<u32>>,
}

impl Model for Bounds {
    ghost use Rattle.std.specs.Prelude.{List};
    ghost use Rattle.moxi_term_reading.specs.declared.locals.Local.{Local};

    ghost Value = { List Local };

    ghost use Rattle.moxi_term_reading.specs.Finding.{IsStacked, locals_in};

    ghost view = { λ l. locals_in l.names l.bindings.items };

    ghost invariant = { λ l. IsStacked l.names l.bindings.items l.lasts.items };
}

impl Bounds {
    /// Returns an empty list, without allocating.
    pub fn new(alloc: Global) -> Bounds
        ensures { result ≡ [] }
    {
        Bounds {
            alloc,
            bindings: Vec::new(alloc),
            names: NameSet::new(alloc),
            lasts: Vec::new(alloc),
        }
    }

    /// Binds these names.
    pub fn bind_all(&mut self, names: &List<Local>) -> Result<(), NoMemory>
        requires room { length self.old + length names.now ≤ 2 ^ 32 }
        ensures { OnOk result (self.new ≡ self.old ++ names.now) }
    {
        for local in names {
            self.bind(local)?;
        }
        Ok(())
    }

    // Binds a name.
    fn bind(&mut self, local: &Local) -> Result<(), NoMemory>
        requires room { length self.old < 2 ^ 32 }
        ensures { OnOk result (self.new ≡ self.old ++ local.now ∷ []) }
    {
        let number = self.len() as u32;
        let key = key_of(
            self.alloc,
            &mut self.names,
            &mut self.lasts,
            local.name.bytes(),
        )?;
        let before = self.lasts[key];
        self.bindings.push(Binding {
            key,
            before,
            sort: local.sort,
        })?;
        self.lasts[key] = Some(number);
        Ok(())
    }

    /// Unbinds the last names, so that this many remain.
    pub fn keep(&mut self, count: usize)
        requires { count ≤ length self.old }
        ensures { self.new ≡ take count self.old }
    {
        while self.len() > count {
            self.unbind();
        }
    }

    // Unbinds the last name.
    fn unbind(&mut self)
        requires { 0 < length self.old }
        ensures { self.new ≡ take (length self.old - 1) self.old }
    {
        if let Some(binding) = self.bindings.pop() {
            self.lasts[binding.key] = binding.before;
        }
    }

    /// Returns the number of names.
    pub fn len(&self) -> usize
        ensures { result ≡ length self.now }
    {
        self.bindings.len()
    }

    /// Returns the number and the sort of the last name equal to this one.
    pub fn find(&self, name: &[u8]) -> Option<(u32, Option<Sort>)>
        ensures { found result ≡ last_of 0 self.now name.now }
    {
        match self.names.place(name) {
            None => None,
            Some(key) => match self.lasts[key] {
                None => None,
                Some(number) => {
                    let binding = self.bindings[number as usize];
                    Some((number, binding.sort))
                }
            },
        }
    }
}

// The index of this name, which is declared if it is new.
fn key_of(
    alloc: Global,
    names: &mut NameSet,
    lasts: &mut Vec<Option<u32>>,
    name: &[u8],
) -> Result<usize, NoMemory>
    ensures stacked { (bs : List Binding) → IsStacked names.old bs lasts.old.items → IsStacked names.new bs lasts.new.items }
    ensures same { (bs : List Binding) → IsStacked names.old bs lasts.old.items → locals_in names.new bs ≡ locals_in names.old bs }
    ensures key { IfOk result (λ key. place_of names.new name.now ≡ Some key) }
{
    match names.place(name) {
        Some(key) => Ok(key),
        None => {
            let key = names.len();
            lasts.truncate(key);
            lasts.push(None)?;
            names.declare(alloc, name)?;
            Ok(key)
        }
    }
}
