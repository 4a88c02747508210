// The answer of a call, as it grows.
use crate::fault::Fault;
use std::alloc::Global;
use text_core::{NoMemory, Text};

/// The answer of a call, a text that grows.
///
/// It records internally whether it ran out of memory, and `done` reports that. So the functions that append to it
/// return no result.
#[derive(Drop)]
pub struct Answer {
    text: Text,
    complete: bool,
}

impl Answer {
    /// Returns the empty answer.
    ///
    /// It allocates nothing.
    pub fn new(alloc: Global) -> Answer {
        Answer {
            text: Text::new(alloc),
            complete: true,
        }
    }

    /// Appends the bytes.
    pub fn put(&mut self, bytes: &[u8]) {
        let done = self.text.put(bytes);
        self.take(done);
    }

    /// Appends the decimal digits of `n`.
    pub fn put_unsigned(&mut self, n: u128) {
        let done = self.text.put_unsigned(n);
        self.take(done);
    }

    /// Appends the decimal digits of `n`, with a leading `-` where `n` is negative.
    pub fn put_decimal(&mut self, n: i128) {
        let done = self.text.put_decimal(n);
        self.take(done);
    }

    /// Appends a text that another function built.
    pub fn put_text(&mut self, made: Result<Text, NoMemory>) {
        match made {
            Ok(text) => self.put(text.bytes()),
            Err(_) => self.complete = false,
        }
    }

    /// Appends the reason why a case has no answer.
    ///
    /// Where that is out of memory, the answer is incomplete too.
    pub fn put_fault(&mut self, fault: Fault) {
        match fault {
            Fault::NoMemory => self.complete = false,
            Fault::Unreadable(why) => self.put(why.as_bytes()),
        }
    }

    /// Returns the text, for a function that appends to one.
    ///
    /// The caller passes that function's result to `take`.
    pub fn text(&mut self) -> &mut Text {
        &mut self.text
    }

    /// Records whether everything was appended to the text.
    pub fn take(&mut self, done: Result<(), NoMemory>) {
        if done.is_err() {
            self.complete = false;
        }
    }

    /// Returns the complete text, or out of memory where an append failed.
    pub fn done(self) -> Result<Text, NoMemory> {
        if self.complete {
            Ok(self.text)
        } else {
            Err(NoMemory)
        }
    }
}
