//! Definitions of the translation of an SMV model to a MoXI script, and of the codes of values.
#![tactic(auto)]
