// The advice for the kinds of refusal of a witness, from 1 on.
use crate::advice::Advice;

pub(super) const ADVICE: [Advice; 8] = [
    // X1 Line
    (
        b"No line of a witness has this shape here.",
        b"Give the witness as the checker wrote it: `sat`, a property such as `b0`, frames, and `.` at the end.",
    ),
    // X2 NoBad
    (
        b"The text has no bad line of this number.",
        b"Give the witness with the text that it was made for; bad lines count from 0.",
    ),
    // X3 FrameOrder
    (
        b"The frame has a wrong number.",
        b"Number the frames 0, 1 and so on, with `#` before states and `@` before inputs.",
    ),
    // X4 Index
    (
        b"There is no state or input of this number, or it is stated twice in this part.",
        b"Give the witness with the text that it was made for; states and inputs are each numbered from 0.",
    ),
    // X5 Width
    (
        b"The value has another number of digits than the word has bits.",
        b"Write one binary digit for each bit.",
    ),
    // X6 Unended
    (
        b"The witness ends before its `.`.",
        b"Let the checker finish, and give the whole witness.",
    ),
    // X7 Justice
    (
        b"The witness is for a justice property.",
        b"Give a witness for a bad line: `b` and its number.",
    ),
    // X8 TooLong
    (
        b"The witness has too many bytes, frames or values.",
        b"Give a shorter witness.",
    ),
];
