//! A text buffer that records failed allocations.

use jtypes::Refusal;
use std::alloc::{AllocError, Global};
use std::fmt::Display;

/// A text that is written piece by piece. After a failed allocation it drops all pieces, and `finish` returns the error.
#[derive(Drop)]
pub struct Text {
    content: String,
    /// Whether an allocation failed, for a piece or for a value to be written.
    is_out_of_memory: bool,
}

impl Text {
    pub fn new(alloc: Global) -> Text {
        Text {
            content: String::new(alloc),
            is_out_of_memory: false,
        }
    }

    pub fn put(&mut self, piece: &str) {
        self.is_out_of_memory = self.is_out_of_memory || self.content.push_str(piece).is_err();
    }

    /// Appends `before` and the displayed value.
    pub fn put_value<D: Display + Drop>(&mut self, before: &str, value: D) {
        self.put(before);
        self.is_out_of_memory = self.is_out_of_memory || write!(self.content, "{value}").is_err();
    }

    /// Returns the value that was read. If out of memory it returns none, and `finish` returns the error.
    pub fn value_of<T>(&mut self, read: Result<T, AllocError>) -> Option<T> {
        match read {
            Ok(it) => Some(it),
            Err(AllocError) => {
                self.is_out_of_memory = true;
                None
            }
        }
    }

    /// Returns the value that was read, or none if it is refused. If out of memory it returns none, and `finish` returns the error.
    pub fn accepted_value<T>(&mut self, read: Result<T, Refusal>) -> Option<T> {
        match read {
            Ok(it) => Some(it),
            Err(refusal) => {
                self.is_out_of_memory = self.is_out_of_memory || refusal == Refusal::NoMemory;
                None
            }
        }
    }

    pub fn finish(self) -> Result<String, AllocError> {
        if self.is_out_of_memory {
            Err(AllocError)
        } else {
            Ok(self.content)
        }
    }
}
