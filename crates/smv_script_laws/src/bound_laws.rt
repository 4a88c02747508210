// Laws of the sizes of scripts. These functions do nothing.
ghost use Rattle.smv_script_laws.specs.BoundLaws.{SizesByWeight, CountsByWeight, HeightsAreLow, BracketsAreFew, ScriptsAreSmall, SymbolsByWeight};

/// Proves that the size of the instantiated system is at most five times the model's weight, plus five.
pub fn sizes_are_weighed()
    ensures { SizesByWeight }
{}

/// Proves that the system's variables and the queries together are at most as many as the model's weight.
pub fn counts_are_weighed()
    ensures { CountsByWeight }
{}

/// Proves that a model has at most as many symbols as its weight.
pub fn symbols_are_weighed()
    ensures { SymbolsByWeight }
{}

/// Proves that no term of the script is higher than 1,146, if no expression of the model is higher than 380.
pub fn heights_are_low()
    ensures { HeightsAreLow }
{}

/// Proves that at most 1,145 brackets of the printed script are open at once, if no expression of the model is higher
/// than 380.
pub fn brackets_are_few()
    ensures { BracketsAreFew }
{}

/// Proves that the script of an accepted model is within all limits, if no expression of the model is higher than 380.
pub fn scripts_are_small()
    ensures { ScriptsAreSmall }
{}
