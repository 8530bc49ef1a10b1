// Text that a transcript has, with bytes and names as it writes them.

use std::alloc::{AllocError, Global};
use std::fmt::Write;
use store_types::Refusal;
use treefs_model::Fault;

/// From how many equal bytes on they are written once, with their count.
const SHORTEST_RUN: usize = 8;

/// Text that grows. Once a growth was refused nothing more is added, and in the end there is none.
#[derive(Drop)]
pub struct Text {
    text: String,
    is_cut: bool,
}

impl Text {
    /// No text yet.
    pub fn new(alloc: Global) -> Text {
        Text {
            text: String::new(alloc),
            is_cut: false,
        }
    }

    /// All that was added. `AllocError` where a growth was refused.
    pub fn finished(self) -> Result<String, AllocError> {
        let Text { text, is_cut } = self;
        if is_cut { Err(AllocError) } else { Ok(text) }
    }

    /// Takes the text, and leaves none.
    pub fn take(&mut self, alloc: Global) -> Text {
        std::mem::replace(self, Text::new(alloc))
    }

    /// Whether nothing was added.
    pub fn is_empty(&self) -> bool {
        self.text.is_empty()
    }

    /// Adds a part.
    pub fn put(&mut self, part: &str) {
        self.is_cut = self.is_cut || self.text.push_str(part).is_err();
    }

    /// Adds all of another text.
    pub fn put_all(&mut self, other: &Text) {
        self.put(other.text.as_str());
        self.is_cut = self.is_cut || other.is_cut;
    }

    /// Adds a part, and a number behind it.
    pub fn number(&mut self, part: &str, number: u32) {
        self.size(part, u64::from(number));
    }

    /// Adds a part, and a size behind it.
    pub fn size(&mut self, part: &str, size: u64) {
        self.put(part);
        self.is_cut = self.is_cut || write!(self.text, "{size}").is_err();
    }

    /// Adds a part, and a time behind it.
    pub fn time(&mut self, part: &str, time: i64) {
        self.put(part);
        self.is_cut = self.is_cut || write!(self.text, "{time}").is_err();
    }

    /// Adds a part, and a mode behind it.
    pub fn mode(&mut self, part: &str, mode: u16) {
        self.put(part);
        self.is_cut = self.is_cut || write!(self.text, "{mode:o}").is_err();
    }

    /// Adds a refusal.
    pub fn refusal(&mut self, refusal: Refusal) {
        self.is_cut = self.is_cut || write!(self.text, "{refusal}").is_err();
    }

    /// Adds a fault, by its name.
    pub fn fault(&mut self, fault: Fault) {
        match fault {
            Fault::Kernel(refusal) => {
                self.put("Kernel ");
                self.refusal(refusal);
            }
            other => self.is_cut = self.is_cut || write!(self.text, "{other:?}").is_err(),
        }
    }

    /// Adds a byte as a pair of digits.
    fn byte(&mut self, byte: u8) {
        self.is_cut = self.is_cut || write!(self.text, "{byte:02x}").is_err();
    }

    /// Adds bytes as pairs of digits; `-` for none, and `HH*N` for a run.
    pub fn bytes(&mut self, bytes: &[u8]) {
        if bytes.is_empty() {
            self.put("-");
        }
        let mut rest = bytes;
        let mut before_run = "";
        let mut before_byte = "";
        for _part in 0..bytes.len() {
            let Some(byte) = rest.first().copied() else {
                return;
            };
            let run = run_length(rest, byte);
            if run < SHORTEST_RUN {
                self.put(before_byte);
                self.byte(byte);
                rest = rest.get(1..).unwrap_or(&[]);
                before_byte = "";
            } else {
                self.put(before_run);
                self.byte(byte);
                self.size("*", run as u64);
                rest = rest.get(run..).unwrap_or(&[]);
                before_byte = "+";
            }
            before_run = "+";
        }
    }

    /// Adds a name: letters, digits and `-_.~` as they are, any other byte as `%XX`.
    pub fn name(&mut self, name: &[u8]) {
        for byte in name {
            let byte = *byte;
            let is_plain = byte.is_ascii_alphanumeric() || b"-_.~".contains(&byte);
            self.is_cut = self.is_cut
                || if is_plain {
                    self.text.push(char::from(byte)).is_err()
                } else {
                    write!(self.text, "%{byte:02X}").is_err()
                };
        }
    }
}

/// How many of the first bytes are this one.
fn run_length(bytes: &[u8], first: u8) -> usize {
    let mut run = 0usize;
    for byte in bytes {
        if *byte != first {
            return run;
        }
        run = run.saturating_add(1);
    }
    run
}

/// The bytes without the zeros behind them.
pub fn without_end(bytes: &[u8]) -> &[u8] {
    let mut end = 0usize;
    for (at, byte) in bytes.iter().enumerate() {
        if *byte != 0 {
            end = at.saturating_add(1);
        }
    }
    bytes.get(..end).unwrap_or(bytes)
}
