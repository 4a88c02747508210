//! Prints MoXI scripts, and proves that a printed script reads back to the same script.
#![tactic(auto)]

mod again_laws;
mod name_laws;
mod print;
mod print_checks;
mod print_parts;
mod print_systems;
mod read_back_laws;

pub use again_laws::printed_scripts_are_spelled;
pub use name_laws::{printable_forms_give_spellable_names, valid_scripts_can_be_shown};
pub use print::print_script;
pub use read_back_laws::printed_scripts_are_read_back;
