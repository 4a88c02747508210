// Two routes from a model to its BTOR2 text. The function only cites the laws that it follows from.
ghost use Rattle.top_call.specs.Routes.{RoutesMeet};

use moxi_script_print::{printed_scripts_are_spelled, valid_scripts_can_be_shown};
use moxi_term_print::shown_is_read_back;
use smv_commands::models_have_flat_systems;
use smv_script_laws::{brackets_are_few, names_are_spellable, scripts_are_valid};

/// Proves that both routes from an accepted model to BTOR2 give the same text.
///
/// One route translates the model directly. The other translates the model's MoXI script, where that is not too
/// long for a script.
pub fn routes_meet()
    ensures { RoutesMeet }
{
    scripts_are_valid();
    names_are_spellable();
    brackets_are_few();
    valid_scripts_can_be_shown();
    shown_is_read_back();
    printed_scripts_are_spelled();
    models_have_flat_systems();
}
