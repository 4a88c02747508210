// Names by number. A number without a name has the empty name.
ghost use Rattle.std.specs.Prelude.{◌≡◌};
ghost use Rattle.moxi_terms.specs.Names.{enumeration_names, function_names};
ghost use Rattle.moxi_term_print.specs.Terms.{constant_name, name_at};

use moxi_terms::Scope;
use text_core::Names;

/// Returns the name of enumeration number n, or the empty name where there is none.
pub fn enumeration_name(scope: &Scope, n: u32) -> &[u8]
    ensures { result.now ≡ name_at (enumeration_names scope.now) n }
{
    match scope.enumeration(n) {
        Some(name) => name.bytes(),
        None => b"",
    }
}

/// Returns the name of function number n, or the empty name where there is none.
pub fn function_name(scope: &Scope, n: u32) -> &[u8]
    ensures { result.now ≡ name_at (function_names scope.now) n }
{
    match scope.function(n) {
        Some(function) => function.name.bytes(),
        None => b"",
    }
}

fn name_in(names: &Names, i: u32) -> &[u8]
    ensures { result.now ≡ name_at names.now i }
{
    if (i as usize) < names.len() {
        names.at(i as usize).bytes()
    } else {
        b""
    }
}

/// Returns the name of constant i of enumeration n, or the empty name where there is none.
pub fn constant_name(scope: &Scope, n: u32, i: u32) -> &[u8]
    ensures { result.now ≡ constant_name scope.now n i }
{
    match scope.constants(n) {
        Some(names) => name_in(names, i),
        None => b"",
    }
}
