// What is printed.

use ffs_lib::FfsFault;
use std::alloc::Global;
use std::fmt::Write;

/// What stands in the place of a pair of braces.
#[derive(Clone, Copy)]
pub enum Value<'a> {
    Number(u64),
    Truth(bool),
    Text(&'a str),
    Fault(FfsFault),
}

/// Text that is to be printed. It ends early where there was no memory for more.
#[derive(Drop)]
pub struct Out {
    pub text: String,
}

impl Out {
    /// No text.
    pub fn new(alloc: Global) -> Out {
        Out {
            text: String::new(alloc),
        }
    }

    /// Adds a text, with these values in the places of its pairs of braces.
    pub fn tell(&mut self, text: &str, values: &[Value]) {
        let mut values = values.iter();
        for letter in text.chars() {
            match letter {
                '{' => {
                    if let Some(value) = values.next() {
                        self.add(*value);
                    }
                }
                '}' => {}
                _ => {
                    let _ = self.text.push(letter);
                }
            }
        }
    }

    /// Adds a value.
    fn add(&mut self, value: Value) {
        let _ = match value {
            Value::Number(number) => write!(self.text, "{number}"),
            Value::Truth(holds) => write!(self.text, "{holds}"),
            Value::Text(text) => write!(self.text, "{text}"),
            Value::Fault(fault) => write!(self.text, "{fault}"),
        };
    }
}
