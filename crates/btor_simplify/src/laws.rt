// The properties that a smaller list keeps.
ghost use Rattle.btor_simplify.specs.Keeping.{ListsGetSmaller};

/// Proves that each simplified list of lines is in normal form and no longer than the lines.
///
/// It keeps the words of the lines, their witnesses, and the judge's verdict on each witness.
pub fn lists_get_smaller()
    ensures { ListsGetSmaller }
{}
