// Laws of the names of items and symbols. These functions do nothing.
ghost use Rattle.smv_accepted.specs.NameLaws.{NamesAreWords, NamesDiffer, NamesAreDistinct, SymbolsAreWords, SymbolsDiffer, SymbolsAreDistinct};

/// Proves that the dotted names of the items of an accepted model are distinct.
pub fn names_differ()
    ensures { NamesDiffer }
{}

/// Proves that each dotted name occurs once, at the number of its item.
pub fn names_are_distinct()
    ensures { NamesAreDistinct }
{}

/// Proves that each dotted name is one or more identifiers with dots between them.
pub fn names_are_words()
    ensures { NamesAreWords }
{}

/// Proves that the symbols of a parsed model are identifiers.
pub fn symbols_are_words()
    ensures { SymbolsAreWords }
{}

/// Proves that the symbols of a model are distinct.
pub fn symbols_differ()
    ensures { SymbolsDiffer }
{}

/// Proves that each symbol occurs once.
pub fn symbols_are_distinct()
    ensures { SymbolsAreDistinct }
{}
