// Traces of systems.

use moxi_terms::Env;
use text_core::List;

/// The values of a system's variables at each step (MoXI, SPIN 2024).
pub type MoxiTrace = List<Env>;
