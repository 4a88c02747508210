// Laws about the declarations in the text of a script.
ghost use Rattle.moxi_layout.specs.ConstantLaws.{CodesAreFew};

/// Proves that each constant of an enumeration has a word as its code, if the text of the script has at most 2^128
/// bytes.
pub fn codes_are_few()
    ensures { CodesAreFew }
{}
