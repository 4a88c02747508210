// The number of cases that passed, and the differences of the others.
use crate::answer::Answer;
use std::alloc::Global;

/// The results of one file of cases: how many passed, how many differ, and the differences.
#[derive(Drop)]
pub struct Tally {
    passed: u64,
    differ: u64,
    text: Answer,
}

impl Tally {
    /// Returns the tally before the first case.
    pub fn new(alloc: Global) -> Tally {
        Tally {
            passed: 0,
            differ: 0,
            text: Answer::new(alloc),
        }
    }

    /// Counts a case with its differences.
    ///
    /// The case passed where there are none. Out of memory is recorded in the report.
    pub fn count(&mut self, title: &str, differences: Answer) {
        match differences.done() {
            Ok(differences) => self.count_text(title, differences.bytes()),
            Err(end) => self.text.take(Err(end)),
        }
    }

    fn count_text(&mut self, title: &str, differences: &[u8]) {
        if differences.is_empty() {
            self.passed = self.passed.saturating_add(1);
        } else {
            self.differ = self.differ.saturating_add(1);
            put_differing(&mut self.text, title, differences);
        }
    }

    /// Returns whether no case differs and at least one passed.
    pub fn all_passed(&self) -> bool {
        self.differ == 0 && self.passed > 0
    }

    /// Writes the line of a file, and the differences.
    pub fn put_into(self, out: &mut Answer, file: &str) {
        put_counts(out, file, self.passed, self.differ);
        out.put_text(self.text.done());
    }
}

fn put_differing(out: &mut Answer, title: &str, differences: &[u8]) {
    out.put(b"  ");
    out.put(title.as_bytes());
    out.put(b"\n");
    out.put(differences);
}

fn put_counts(out: &mut Answer, file: &str, passed: u64, differ: u64) {
    out.put(file.as_bytes());
    out.put(b": ");
    out.put_unsigned(u128::from(passed));
    out.put(b" passed");
    if differ > 0 {
        out.put(b", ");
        out.put_unsigned(u128::from(differ));
        out.put(b" differ");
    }
    out.put(b"\n");
}
