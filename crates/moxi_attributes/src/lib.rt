//! The parts of MoXI commands: attributes, lists of variables, constants, formulas, labels and uses of systems.
#![tactic(auto)]

mod attributes;
mod collect;
mod constants;
mod entries;
mod formulas;
mod labels;
mod lists;
mod order;
mod possible;
mod shapes;
mod uses;

pub use attributes::{is_behind, shape_holds, test_keywords, turn_after, value_of};
pub use collect::{fail, fail_if, fail_primed, is_nothing, note, refuse};
pub use constants::{both, declare_term_name, read_constants};
pub use entries::{
    append, known_sort, locals_among, note_sort, read_entries, test_clash, test_twice, variables_of,
};
pub use formulas::{read_formula, true_term};
pub use labels::{Labelled, Labels, no_labels, read_labels};
pub use lists::{all_entries, append_lists, are_shaped, read_lists, text_entries};
pub use order::is_in_order;
pub use possible::possible_locals;
pub use shapes::{
    Headed, Named, headed_forms, is_empty_list, misshapen_place, named_form, named_in, parts_of,
    place_of, shape_refusal, triple_of,
};
pub use uses::read_uses;
