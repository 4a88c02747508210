// The advice for the kinds of refusal of an SMV model, from 1 on.
use crate::advice::Advice;

pub(super) const ADVICE: [Advice; 28] = [
    // S1 TooLong
    (
        b"The file has more than 1,048,576 bytes.",
        b"Make the model smaller: no longer one is read.",
    ),
    // S2 BadByte
    (
        b"No token of SMV begins with this byte.",
        b"Remove it, or put it into a comment behind `--`.",
    ),
    // S3 BadNumber
    (
        b"What begins with a digit here is no number and no word literal.",
        b"Write a number such as `12`, or a word literal with its width, such as `0ud8_12` or `0ub4_1010`.",
    ),
    // S4 TooNested
    (
        b"More than 100 brackets and `case` stand open here.",
        b"Name an inner expression under DEFINE, and use its name.",
    ),
    // S5 Dead
    (
        b"No model can continue with this token here.",
        b"Look at what stands before it: a `;`, an operator or a bracket may be missing there.",
    ),
    // S6 NotSupported
    (
        b"This word is reserved, and what it stands for is left out of the profile.",
        b"Remove what it begins; where it is meant as a name, choose another.",
    ),
    // S7 TooTall
    (
        b"This expression has a height of more than 380.",
        b"Name inner parts under DEFINE, and use their names.",
    ),
    // S8 NoMain
    (
        b"No module is called main, or main has parameters.",
        b"Add `MODULE main`, without parameters.",
    ),
    // S9 ModuleTwice
    (b"Two modules have this name.", b"Rename one of them."),
    // S10 NameTwice
    (
        b"This name is declared twice, or is a symbol of an enumeration too.",
        b"Rename one of the two.",
    ),
    // S11 NoSuchModule
    (
        b"No module has this name.",
        b"Add a module of this name, or correct the name in the declaration.",
    ),
    // S12 ModuleCycle
    (
        b"An instance of this module lies inside the module itself.",
        b"Remove the declaration that leads back to the module.",
    ),
    // S13 ArgCount
    (
        b"The instance has another number of arguments than its module has parameters.",
        b"Give one argument for each parameter of the module.",
    ),
    // S14 Unknown
    (
        b"Nothing in scope has this name.",
        b"Declare it, correct its spelling, or write the path to it, such as `p.x` for x of the instance p.",
    ),
    // S15 DefineCycle
    (
        b"This definition or argument depends on itself.",
        b"Break the cycle; keep a value of the step before in a variable, by `next(x) :=`.",
    ),
    // S16 TypeClash
    (
        b"The types do not fit in the expression that begins here.",
        b"Give both sides one type; of a boolean x say `x` or `!x` and not `x = 1`; convert by `bool`, `word1`, `toint` or `uwconst`.",
    ),
    // S17 IntTooWide
    (
        b"An integer of this expression may lie outside -2^62 to 2^62 - 1.",
        b"Declare narrower ranges, or use a word such as `unsigned word[64]`.",
    ),
    // S18 InputHere
    (
        b"An input cannot be used here, since this part speaks of states alone.",
        b"Declare it under VAR in place of IVAR, or move the formula to TRANS.",
    ),
    // S19 NextHere
    (
        b"`next` stands only under TRANS and behind `next(x) :=`, and never inside another `next`.",
        b"Move the formula to TRANS, or leave out the `next`.",
    ),
    // S20 SetHere
    (
        b"A set stands only behind `:=` under ASSIGN and behind `in`.",
        b"Write `x in {a, b}`, or give the set to a variable under ASSIGN.",
    ),
    // S21 AssignedTwice
    (
        b"This variable is assigned twice.",
        b"Keep one assignment, with a `case` for its branches; `x :=` stands alone, without `init(x) :=` and `next(x) :=`.",
    ),
    // S22 NotAssignable
    (
        b"Only what stands under VAR can be assigned, and of what stands under FROZENVAR only `init(x)`.",
        b"Declare it under VAR, or state an equation under INVAR or TRANS.",
    ),
    // S23 BadDivisor
    (
        b"The divisor is no constant, or is 0.",
        b"Divide by a number such as `2`; for a variable write a `case` with a branch for each of its values.",
    ),
    // S24 BadShift
    (
        b"The amount of this shift is no number from 0 to the width of the word.",
        b"Shift by a number, as `w << 2`; for a variable amount write a `case` with a branch for each amount.",
    ),
    // S25 BadSelect
    (
        b"The bits, the width or the number here do not fit.",
        b"Select `w[high:low]` with high below the width of w, and give widths from 1 to 128 as numbers.",
    ),
    // S26 EmptyRange
    (
        b"The low end of this range lies above its high end.",
        b"Write the lower number first, as `0..7`.",
    ),
    // S27 NoInvarspec
    (
        b"The model has no invariant of the wanted number.",
        b"Add `INVARSPEC expression;`, or give `--property` a lower number; they count from 0.",
    ),
    // S28 TooLarge
    (
        b"The model has over 4,096 instances, a dotted name of over 1,000 bytes, or too many parts in all.",
        b"Use fewer instances, shorter names, or smaller modules.",
    ),
];
