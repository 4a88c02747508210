// The advice for the kinds of refusal of a MoXI script, from 1 on.
use crate::advice::Advice;

pub(super) const ADVICE: [Advice; 16] = [
    // M1 BadByte
    (
        b"Nothing of a script begins with this byte, or what it begins has no end.",
        b"Remove the byte, or close the bar, the quote or the bracket.",
    ),
    // M2 Unclosed
    (
        b"A bracket stands open at the end of the text.",
        b"Close it: each `(` needs a `)`.",
    ),
    // M3 TooNested
    (
        b"More than 1,200 brackets stand open here.",
        b"Name an inner term by `let` or `define-fun`.",
    ),
    // M4 Unknown
    (
        b"Nothing in scope has this name.",
        b"Declare it before this use, or correct its spelling.",
    ),
    // M5 SortClash
    (
        b"Sorts do not fit here.",
        b"Give the arguments the sorts of the operator or the declaration; `ite` with `#b1` and `#b0` makes a bit of a truth value.",
    ),
    // M6 NotSupported
    (
        b"This command, attribute, sort or operator is left out of the profile.",
        b"Remove it, or write it with the operators on `Bool` and `(_ BitVec n)`.",
    ),
    // M7 PrimeHere
    (
        b"A prime stands only in `:trans`, and only on the name of a variable.",
        b"Move the formula to `:trans`, or leave out the prime.",
    ),
    // M8 Width
    (
        b"The width, the bits or the literal here do not fit.",
        b"Use widths from 1 to 128, and bits that the word has.",
    ),
    // M9 NameTwice
    (b"This name is declared twice.", b"Rename one of the two."),
    // M10 NoSuchSystem
    (
        b"No system has this name.",
        b"Add a `define-system` of this name, or correct the name.",
    ),
    // M11 SystemCycle
    (
        b"The system contains itself.",
        b"Remove the `:subsys` that leads back to the system.",
    ),
    // M12 Arity
    (
        b"This list has another shape or another number of parts than it needs.",
        b"Compare it with the shape of its command or operator in docs/LANGUAGES.md.",
    ),
    // M13 CheckCount
    (
        b"There is no check-system, or a second one, or its lists differ from those of its system.",
        b"Write one `check-system`, with variables of the same number and sorts as its system.",
    ),
    // M14 QueryForm
    (
        b"The query names something that is not there, or not exactly one reachable formula.",
        b"List one name of `:reachable` once, and any names of `:assumption` and `:current`.",
    ),
    // M15 TooLarge
    (
        b"The system of the check is too large, too high or too deeply nested.",
        b"Check a smaller system, or share terms by fewer and smaller functions.",
    ),
    // M16 TooLong
    (
        b"The file has more than 16,777,216 bytes.",
        b"Make the script smaller: no longer one is read.",
    ),
];
