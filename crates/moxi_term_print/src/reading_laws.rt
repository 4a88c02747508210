// Laws about printed terms that are read again.
ghost use Rattle.std.specs.Prelude.{◌≡◌, [], List, ℕ, Ok, false, true};
ghost use Rattle.text_core.specs.declared.place.Place.{Place};
ghost use Rattle.moxi_sexpr.specs.Tree.{Tree as Form};
ghost use Rattle.moxi_terms.specs.declared.data.Sort.{Sort};
ghost use Rattle.moxi_term_reading.specs.declared.locals.Local.{Local};
ghost use Rattle.moxi_terms.specs.Names.{is_term_name, may_be_enumeration, with_enumeration, with_function, with_sort};
ghost use Rattle.moxi_term_reading.specs.Reading.{Context, names_of, read};
ghost use Rattle.moxi_term_reading.specs.SortReading.{sort_reading};
ghost use Rattle.moxi_terms.specs.Sorts.{IsSort};
ghost use Rattle.moxi_terms.specs.Tree.{PlainFunction, Tree};
ghost use Rattle.moxi_terms.specs.View.{ScopeState};
ghost use Rattle.moxi_term_reading.specs.WellSorted.{HaveKnownSorts};
ghost use Rattle.moxi_term_print.specs.Shown.{Shows};
ghost use Rattle.moxi_term_print.specs.Terms.{shown_sort, shown_term};
ghost use Rattle.moxi_term_print.specs.WellScoped.{IsWellScoped};
ghost use Rattle.moxi_term_print.specs.StandingGrows.{Grows, IsReadAgain, in_scope, sorts_first};
ghost use Rattle.moxi_term_print.specs.WellScopedReads.{HasSortNames, IsWellScopedReading, IsKnownSort, whole};

/// Proves that a form that shows a term standing in its context parses to this term (SMT-LIB 2.6, section 3.6).
///
/// It has the term's sort and no failing test.
pub fn shown_terms_are_read()
    ensures { (c : Context) (bounds : List Local) (t : Tree) (s : Sort) (f : Form) → IsWellScoped c bounds t s → Shows f (shown_term c.scope (names_of c.variables) (names_of bounds) t) → read c bounds f ≡ whole t s }
{}

/// Proves that a form without a failing test parses to a term that is in this context, with the sort that is read for
/// it.
///
/// The variables and bound names must have sorts.
pub fn read_terms_are_well_scoped()
    ensures { (c : Context) (bounds : List Local) (vars ss : List Sort) (f : Form) → HaveKnownSorts c.variables vars → HaveKnownSorts bounds ss → (read c bounds f).failures ≡ [] → IsWellScopedReading c bounds (read c bounds f) }
{}

/// Proves that a form that shows a sort whose name denotes it parses to this sort (SMT-LIB 2.6, section 3.5).
///
/// If the enumerations have distinct names other than `Bool`, the name of each of the scope's sorts denotes it.
pub fn shown_sorts_are_read()
    ensures read { (s : ScopeState) (around : Place) (sort : Sort) (f : Form) → IsKnownSort s sort → Shows f (shown_sort s sort) → sort_reading s around f ≡ Ok sort }
    ensures stand { (s : ScopeState) (sort : Sort) → HasSortNames s → IsSort s.enumerations sort → IsKnownSort s sort }
{}

/// Proves that the printed form of a term that was read parses to this term, with its sort.
///
/// This also holds in a scope that has grown.
pub fn read_terms_are_read_again()
    ensures { (c : Context) (bounds : List Local) (vars ss : List Sort) (f : Form) (u : ScopeState) (g : Form) → HaveKnownSorts c.variables vars → HaveKnownSorts bounds ss → (read c bounds f).failures ≡ [] → IsReadAgain c bounds f u g }
{}

/// Proves that a term that is in a context still does after its scope has grown.
///
/// The name of a sort also denotes the same sort.
pub fn terms_stay_well_scoped()
    ensures terms { (c : Context) (bounds : List Local) (t : Tree) (s : Sort) (u : ScopeState) → IsWellScoped c bounds t s → Grows c.scope u → IsWellScoped (in_scope c u) bounds t s }
    ensures sorts { (s u : ScopeState) (sort : Sort) → IsSort s.enumerations sort → IsKnownSort s sort → Grows s u → IsKnownSort u sort }
{}

/// Proves that a scope grows with each enumeration, sort and function that may be added to it.
///
/// A scope in which all sorts are declared first grows with one function after another.
pub fn scopes_grow()
    ensures same { (s : ScopeState) → Grows s s }
    ensures more { (s t u : ScopeState) → Grows s t → Grows t u → Grows s u }
    ensures enumeration { (s : ScopeState) (name : List ℕ) (constants : List (List ℕ)) → may_be_enumeration s name constants ≡ true → Grows s (with_enumeration s name constants) }
    ensures sort { (s : ScopeState) (name : List ℕ) (sort : Sort) → Grows s (with_sort s name sort) }
    ensures function { (s : ScopeState) (f : PlainFunction) → is_term_name s f.name ≡ false → Grows s (with_function s f) }
    ensures sorts_first { (s t : ScopeState) → Grows s t → Grows s (sorts_first s t) }
    ensures one_function { (s : ScopeState) (f : PlainFunction) (t : ScopeState) → is_term_name s f.name ≡ false → Grows (with_function s f) t → Grows (sorts_first s t) (sorts_first (with_function s f) t) }
{}
