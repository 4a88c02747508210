// Printing of declarations.
ghost use Rattle.std.specs.Prelude.{◌≡◌, ◌++◌, [], map, OnOk};
ghost use Rattle.moxi_terms.specs.View.{plain_function};
ghost use Rattle.moxi_term_print.specs.Shown.{parts_text, text_of};
ghost use Rattle.moxi_term_print.specs.Declarations.{shown_enumeration, shown_function, shown_named_sort, shown_symbols};
ghost use Rattle.text_core.specs.Bytes.{bytes_behind};

use crate::sorts::{put_sort, put_variables};
use crate::terms::put_term;
use moxi_sexpr::put_symbol;
use moxi_terms::{Enumeration, Function, NamedSort, Scope};
use std::alloc::Global;
use text_core::{Names, NoMemory, Text};

/// Appends names as symbols, separated by single blanks.
pub fn put_symbols(out: &mut Text, names: &[&[u8]]) -> Result<(), NoMemory>
    ensures { OnOk result (out.new ≡ out.old ++ parts_text [] (shown_symbols (map bytes_behind names.now))) }
{
    let mut separator: &[u8] = b"";
    for name in names {
        out.put(separator)?;
        put_symbol(out, name, false)?;
        separator = b" ";
    }
    Ok(())
}

fn put_constants(out: &mut Text, names: &Names) -> Result<(), NoMemory>
    ensures { OnOk result (out.new ≡ out.old ++ parts_text [] (shown_symbols names.now)) }
{
    let mut separator: &[u8] = b"";
    for name in names {
        out.put(separator)?;
        put_symbol(out, name.bytes(), false)?;
        separator = b" ";
    }
    Ok(())
}

/// Appends `(declare-enum-sort N (c ..))` (MoXI, SPIN 2024).
pub fn put_enumeration(out: &mut Text, enumeration: &Enumeration) -> Result<(), NoMemory>
    ensures { OnOk result (out.new ≡ out.old ++ text_of (shown_enumeration enumeration.now)) }
{
    out.put(b"(declare-enum-sort ")?;
    put_symbol(out, enumeration.name.bytes(), false)?;
    out.put(b" (")?;
    put_constants(out, &enumeration.constants)?;
    out.put(b"))")
}

/// Appends `(define-sort N () S)` (SMT-LIB 2.6, section 4.2.3).
pub fn put_named_sort(out: &mut Text, scope: &Scope, sort: &NamedSort) -> Result<(), NoMemory>
    ensures { OnOk result (out.new ≡ out.old ++ text_of (shown_named_sort scope.now sort.now)) }
{
    out.put(b"(define-sort ")?;
    put_symbol(out, sort.name.bytes(), false)?;
    out.put(b" () ")?;
    put_sort(out, scope, sort.sort)?;
    out.put(b")")
}

/// Appends `(define-fun f ((x S) ..) S t)` (SMT-LIB 2.6, section 4.2.3).
pub fn put_function(
    alloc: Global,
    out: &mut Text,
    scope: &Scope,
    function: &Function,
) -> Result<(), NoMemory>
    ensures { OnOk result (out.new ≡ out.old ++ text_of (shown_function scope.now (plain_function function.now))) }
{
    out.put(b"(define-fun ")?;
    put_symbol(out, function.name.bytes(), false)?;
    out.put(b" ")?;
    put_variables(out, scope, &function.parameters)?;
    out.put(b" ")?;
    put_sort(out, scope, function.result)?;
    out.put(b" ")?;
    put_term(alloc, out, scope, &function.parameters, &function.body)?;
    out.put(b")")
}
