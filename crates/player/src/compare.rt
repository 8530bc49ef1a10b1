// What a command did is compared with what stands behind it.

use crate::fault::{Difference, PlayFault};
use crate::shell::Outcome;
use crate::step::Step;
use std::alloc::{AllocError, Global};
use std::str;

/// What stands before a line on standard error.
const ERROR_MARK: &str = "2> ";

/// What stands before a status.
const STATUS_MARK: &str = "status ";

/// The difference between what stands on a line and what came.
fn difference(
    alloc: Global,
    line: usize,
    expected: &str,
    came: &str,
) -> Result<Difference, AllocError> {
    Ok(Difference {
        line,
        expected: String::from_str(alloc, expected)?,
        came: String::from_str(alloc, came)?,
    })
}

/// The fault that tells it.
fn differs(alloc: Global, line: usize, expected: &str, came: &str) -> PlayFault {
    match difference(alloc, line, expected, came) {
        Ok(found) => PlayFault::Differs(found),
        Err(_) => PlayFault::NoMemory,
    }
}

/// Lines that were printed, and how many of them are as expected so far.
#[derive(Drop)]
struct Printed<'a> {
    lines: Vec<&'a str>,
    compared: usize,
}

/// The lines that these bytes are.
fn lines_printed<'a>(alloc: Global, bytes: &'a [u8]) -> Result<Printed<'a>, AllocError> {
    let text = str::from_utf8(bytes).unwrap_or("bytes that are no text\n");
    let mut lines: Vec<&'a str> = text.split_terminator('\n').collect(alloc)?;
    if !text.is_empty() && !text.ends_with('\n') {
        lines.push("no newline at the end")?;
    }
    Ok(Printed { lines, compared: 0 })
}

impl<'a> Printed<'a> {
    /// The next line that was printed.
    fn next_line(&self) -> Option<&'a str> {
        self.lines.get(self.compared).copied()
    }

    /// Tests that the next line is the one that stands on a line of the transcript.
    fn expect(&mut self, alloc: Global, number: usize, expected: &str) -> Result<(), PlayFault> {
        match self.next_line() {
            Some(came) if came == expected => {
                self.compared = self.compared.saturating_add(1);
                Ok(())
            }
            Some(came) => Err(differs(alloc, number, expected, came)),
            None => Err(differs(alloc, number, expected, "nothing")),
        }
    }

    /// Tests that there is no further line.
    fn expect_end(&self, alloc: Global, number: usize) -> Result<(), PlayFault> {
        match self.next_line() {
            Some(came) => Err(differs(alloc, number, "nothing", came)),
            None => Ok(()),
        }
    }
}

/// Tests that a status is spelled by this text.
fn expect_status(
    alloc: Global,
    status: u8,
    number: usize,
    expected: &str,
) -> Result<(), PlayFault> {
    let came = format!(in alloc; "{status}")?;
    if came.as_str() == expected {
        return Ok(());
    }
    Err(differs(alloc, number, expected, came.as_str()))
}

/// Tests the status of a command, which is 0 unless another one stands there.
fn compare_status(alloc: Global, step: &Step<'_>, status: u8) -> Result<(), PlayFault> {
    for (place, line) in step.expected.iter().enumerate() {
        if let Some(text) = line.strip_prefix(STATUS_MARK) {
            let number = step.expected_line.saturating_add(place);
            return expect_status(alloc, status, number, text);
        }
    }
    expect_status(alloc, status, step.line, "0")
}

/// Tests one line of those that stand behind a command.
fn compare_line(
    alloc: Global,
    out: &mut Printed<'_>,
    err: &mut Printed<'_>,
    number: usize,
    expected: &str,
) -> Result<(), PlayFault> {
    if expected.starts_with(STATUS_MARK) {
        return Ok(());
    }
    match expected.strip_prefix(ERROR_MARK) {
        Some(text) => err.expect(alloc, number, text),
        None => out.expect(alloc, number, expected),
    }
}

/// Tests that a command printed the lines that stand behind it, and no others, and has the status that stands there, or 0.
pub fn compare(alloc: Global, step: &Step<'_>, outcome: &Outcome) -> Result<(), PlayFault> {
    let mut out = lines_printed(alloc, outcome.out.as_slice())?;
    let mut err = lines_printed(alloc, outcome.err.as_slice())?;
    let mut number = step.expected_line;
    for expected in step.expected {
        compare_line(alloc, &mut out, &mut err, number, expected)?;
        number = number.saturating_add(1);
    }
    out.expect_end(alloc, number)?;
    err.expect_end(alloc, number)?;
    compare_status(alloc, step, outcome.status)
}
