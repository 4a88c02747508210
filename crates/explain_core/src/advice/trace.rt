// The advice for the kinds of refusal of a trace or a response, from 1 on.
use crate::advice::Advice;

pub(super) const ADVICE: [Advice; 5] = [
    // Y1 Line
    (
        b"No line of a trace or a response has this shape or this number here.",
        b"Give the text as the tool wrote it, with its steps numbered in order.",
    ),
    // Y2 Unknown
    (
        b"The model has no such variable, system or query here.",
        b"Give the text with the model that it was made for, and use the names of that model.",
    ),
    // Y3 Value
    (
        b"This is no value of the variable.",
        b"Write a value of the variable's type, a word with its own width.",
    ),
    // Y4 Missing
    (
        b"A variable has no value yet in this step.",
        b"State every variable in the first step, and in a response in each.",
    ),
    // Y5 TooLong
    (
        b"The text has too many bytes, steps or values.",
        b"Give a shorter one.",
    ),
];
