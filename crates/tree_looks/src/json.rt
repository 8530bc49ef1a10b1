// What is printed as JSON.

use serde_json::{Map, Value, put};
use std::alloc::{AllocError, Global};
use std::io::Write;
use std::str;
use tree_lines::{Fault, shown};

/// An object of JSON that is being made.
#[derive(Drop)]
pub struct Members {
    alloc: Global,
    members: Map<String, Value>,
}

impl Members {
    /// An object without members.
    pub fn none(alloc: Global) -> Members {
        Members {
            alloc,
            members: Map::new(alloc),
        }
    }

    /// Adds a number.
    pub fn number(&mut self, key: &str, number: u64) -> Result<(), AllocError> {
        put(
            &mut self.members,
            self.alloc,
            key,
            Value::Number(number.into()),
        )
    }

    /// Adds whether something is so.
    pub fn flag(&mut self, key: &str, is_so: bool) -> Result<(), AllocError> {
        put(&mut self.members, self.alloc, key, Value::Bool(is_so))
    }

    /// Adds a text.
    pub fn text(&mut self, key: &str, text: String) -> Result<(), AllocError> {
        put(&mut self.members, self.alloc, key, Value::String(text))
    }

    /// Adds texts.
    pub fn texts(&mut self, key: &str, texts: Vec<String>) -> Result<(), AllocError> {
        let mut values = Vec::new(self.alloc);
        for text in texts {
            values.push(Value::String(text))?;
        }
        put(&mut self.members, self.alloc, key, Value::Array(values))
    }

    /// Adds a name or a path: as it is, where it is text; else as it is shown, which is told beside it.
    pub fn name(&mut self, key: &str, escaped: &str, name: &[u8]) -> Result<(), AllocError> {
        match str::from_utf8(name) {
            Ok(text) => {
                let text = String::from_str(self.alloc, text)?;
                self.text(key, text)
            }
            Err(_) => {
                let text = shown(self.alloc, name)?;
                self.text(key, text)?;
                self.flag(escaped, true)
            }
        }
    }

    /// The object as text, in which no control character stands as it is.
    pub fn into_text(self) -> Result<String, AllocError> {
        let Members { alloc, members } = self;
        let text = Value::Object(members).to_string(alloc)?;
        without_controls(alloc, &text)
    }
}

/// A text of JSON with each control character as `\u009b`: it stands in a string, where that means the same.
fn without_controls(alloc: Global, text: &str) -> Result<String, AllocError> {
    let mut plain = String::new(alloc);
    for c in text.chars() {
        if c.is_control() {
            let code = u32::from(c);
            plain.push_str(&format!(in alloc; "\\u{code:04x}")?)?;
        } else {
            plain.push(c)?;
        }
    }
    Ok(plain)
}

/// A list of JSON that is being printed, value by value.
#[derive(Clone, Copy, Debug)]
pub struct Items {
    is_empty: bool,
}

impl Items {
    /// Begins a list.
    pub fn begin(out: &mut impl Write) -> Result<Items, Fault> {
        write!(out, "[")?;
        Ok(Items { is_empty: true })
    }

    /// Prints an object of the list.
    pub fn print(&mut self, object: Members, out: &mut impl Write) -> Result<(), Fault> {
        let text = object.into_text()?;
        if self.is_empty {
            write!(out, "\n{text}")?;
        } else {
            write!(out, ",\n{text}")?;
        }
        self.is_empty = false;
        Ok(())
    }

    /// Ends the list.
    pub fn end(self, out: &mut impl Write) -> Result<(), Fault> {
        if self.is_empty {
            writeln!(out, "]")?;
        } else {
            writeln!(out, "\n]")?;
        }
        Ok(())
    }
}
