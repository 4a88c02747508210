// The advice for the kinds of refusal of a BTOR2 text, from 1 on.
use crate::advice::Advice;

pub(super) const ADVICE: [Advice; 9] = [
    // B1 Line
    (
        b"This line has no shape of BTOR2.",
        b"Write `ID WORD ARGUMENTS` with as many arguments as the word takes.",
    ),
    // B2 IdOrder
    (
        b"The id of this line is not above that of the line before.",
        b"Give the lines rising ids, each id once.",
    ),
    // B3 NoSuchNode
    (
        b"An id on this line is that of no earlier line of the needed kind.",
        b"Put the line of the sort, the state or the operand before this one.",
    ),
    // B4 SortClash
    (
        b"The widths of this line do not fit, or its constant is too wide.",
        b"Give the line the sort that its operator and its arguments need.",
    ),
    // B5 NotSupported
    (
        b"Arrays, fairness, justice, rotations and overflow tests are left out of the profile.",
        b"Have the tool that wrote the text leave them out; in Yosys `memory_map` removes arrays.",
    ),
    // B6 Width
    (
        b"The width is not from 1 to 128.",
        b"Split the word into words of at most 128 bits.",
    ),
    // B7 Twice
    (
        b"The state has a second init or next.",
        b"Keep one init and one next for each state.",
    ),
    // B8 InitLate
    (
        b"The value of this init comes after its state and is no constant.",
        b"Move the line of the value before that of the state.",
    ),
    // B9 TooLong
    (
        b"The file has more than 134,217,728 bytes.",
        b"Make the text smaller: no longer one is read.",
    ),
];
