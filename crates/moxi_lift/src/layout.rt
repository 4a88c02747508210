// The lines of a flat system lay it out.
ghost use Rattle.moxi_lines.specs.TermLaws.{HaveCodes};
ghost use Rattle.moxi_lines.specs.Lines.{lines_of};
ghost use Rattle.moxi_layout.specs.LayoutLaws.{IsLaidOut};

use moxi_instantiate::FlatSystem;
use moxi_layout::{flat_sizes_are_script_sizes, lines_lay_out, lines_stay_few};
use moxi_terms::Scope;

// Proves that the indices of each enumeration's constants have words, since a list can't hold more of them. The function
// only reads the lengths of the lists.
fn have_codes(scope: &Scope)
    ensures { HaveCodes scope.now.enumerations }
{
    for enumeration in scope.enumerations() {
        let _count = enumeration.constants.len();
    }
}

/// Proves that the lines of a flat system lay it out, and are well formed.
///
/// The function only reads the numbers of constants.
pub fn are_laid_out(system: &FlatSystem<'_>)
    ensures { ∥ IsLaidOut system.now (lines_of system.now) ∥₁ }
{
    system.is_instance();
    system.is_sorted();
    flat_sizes_are_script_sizes();
    lines_stay_few();
    lines_lay_out();
    let scope = system.scope();
    have_codes(scope);
}
