// Transcripts, and the steps that stand in them.
//
// In a transcript a line that begins with `$ ` is a step: a line of the program, or one of those of `system`. Lines that begin with `< ` behind it are its
// standard input. All others, up to the next step, are what it prints, but for those that begin with `# `, which are comments, as all is before the first step.

use std::alloc::{AllocError, Global};

/// What begins a step.
const COMMAND: &str = "$ ";

/// What begins a line of its input.
const INPUT: &str = "< ";

/// What begins a comment.
const COMMENT: &str = "# ";

/// A step, what it reads, and what it is to print.
#[derive(Drop)]
pub struct Step<'a> {
    pub command: &'a str,
    pub input: String,
    pub wanted: String,
}

/// A text with a line more.
fn add_line(text: &mut String, line: &str) -> Result<(), AllocError> {
    text.push_str(line)?;
    text.push('\n')
}

/// The steps of a transcript.
pub fn steps_of<'a>(alloc: Global, text: &'a str) -> Result<Vec<Step<'a>>, AllocError> {
    let mut steps: Vec<Step<'a>> = Vec::new(alloc);
    for line in text.lines() {
        if line.starts_with(COMMENT) {
            continue;
        }
        if let Some(command) = line.strip_prefix(COMMAND) {
            steps.push(Step {
                command,
                input: String::new(alloc),
                wanted: String::new(alloc),
            })?;
        } else if let Some(step) = steps.last_mut() {
            match line.strip_prefix(INPUT) {
                Some(input) => add_line(&mut step.input, input)?,
                None => add_line(&mut step.wanted, line)?,
            }
        }
    }
    Ok(steps)
}
