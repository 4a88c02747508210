// Laws of texts and the lines that they parse to.

ghost use Rattle.std.specs.Prelude.{◌≡◌, List, ℕ, Option, [], ◌++◌, true};
ghost use Rattle.btor_tree.specs.declared.lines.Line.{Line};
ghost use Rattle.btor_tree.specs.declared.lines.LineOp.{LineOp};
ghost use Rattle.btor_tree.specs.declared.args.Arg.{Arg};
ghost use Rattle.word_core.specs.Words.{BitVector};
ghost use Rattle.btor_tree.specs.Fits.{IsWellFormed};
ghost use Rattle.btor_tree.specs.Frame.{Meets};
ghost use Rattle.btor_tree.specs.Sharing.{is_shared, pushed, SaysAt, GrowsByShared, HasNoDuplicates, Push, PushFits, PushHasWidth, PushIsMet, built};
ghost use Rattle.btor_tree.specs.Resolving.{Fault};
ghost use Rattle.btor_tree.specs.Texts.{SpellsLines, RefusesText};
ghost use Rattle.btor_tree.specs.Printing.{printed};

/// Proves that the printed form of well-formed lines parses to these lines.
pub fn printed_spells()
    ensures { (lines : List Line) → IsWellFormed lines → SpellsLines (printed lines) lines }
{}

/// Proves that a text with a first fault parses to no lines.
pub fn no_reading()
    ensures { (text : List ℕ) (lines : List Line) (fault : Fault) (at : ℕ) → SpellsLines text lines → RefusesText text fault at → ⊥ }
{}

/// Proves that a text has at most one first fault, at one line.
pub fn one_fault()
    ensures { (text : List ℕ) (fault other : Fault) (at to : ℕ) → RefusesText text fault at → RefusesText text other to → (fault ≡ other) × (at ≡ to) }
{}

/// Proves that the lines that a text parses to are well-formed.
pub fn spelled_fits()
    ensures { (text : List ℕ) (lines : List Line) → SpellsLines text lines → IsWellFormed lines }
{}

/// Proves that a text parses to at most one list of lines.
pub fn one_reading()
    ensures { (text : List ℕ) (lines others : List Line) → SpellsLines text lines → SpellsLines text others → lines ≡ others }
{}

/// Proves that the line at the index that a push returns has the content that was pushed.
pub fn says_what_was_pushed()
    ensures { (lines : List Line) (op : LineOp) (sort : ℕ) (args : List Arg) (symbol : Option (List ℕ)) → SaysAt (pushed lines op sort args symbol).0 (pushed lines op sort args symbol).1 op sort args }
{}

/// Proves that a push of a sort, a constant or an operator adds no line of another kind.
pub fn grows_by_shared()
    ensures { (lines : List Line) (op : LineOp) (sort : ℕ) (args : List Arg) (symbol : Option (List ℕ)) → is_shared op ≡ true → GrowsByShared lines (pushed lines op sort args symbol).0 }
{}

/// Proves that in lines built from scratch by pushes, no two shared lines have the same content.
///
/// A push keeps this property.
pub fn no_duplicates()
    ensures built { (pushes : List Push) → HasNoDuplicates (built [] pushes) }
    ensures kept { (lines : List Line) (op : LineOp) (sort : ℕ) (args : List Arg) (symbol : Option (List ℕ)) → HasNoDuplicates lines → HasNoDuplicates (pushed lines op sort args symbol).0 }
{}

/// Proves that a push to lines with the ids 1, 2, 3 and so on gives well-formed lines with such ids.
pub fn pushed_fits()
    ensures { (lines : List Line) (op : LineOp) (sort : ℕ) (args : List Arg) (symbol : Option (List ℕ)) → PushFits lines op sort args symbol }
{}

/// Proves that words that meet the equations of lines meet the equations of any first part of these lines.
pub fn fewer_are_met()
    ensures { (lines more : List Line) (row : List BitVector) → Meets (lines ++ more) row → Meets lines row }
{}

/// Proves that words that meet the equations of the lines after a push meet those of the lines before it.
///
/// At the index that the push returns, they have the word of what was pushed.
pub fn pushed_is_met()
    ensures { (lines : List Line) (op : LineOp) (sort : ℕ) (args : List Arg) (symbol : Option (List ℕ)) (row : List BitVector) → PushIsMet lines op sort args symbol row }
{}

/// Proves that the word at the index that a push returns has the width of the sort that was pushed.
pub fn pushed_width()
    ensures { (lines : List Line) (op : LineOp) (sort : ℕ) (args : List Arg) (symbol : Option (List ℕ)) → PushHasWidth lines op sort args symbol }
{}
