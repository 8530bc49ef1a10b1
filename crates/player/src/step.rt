// The commands of a transcript.

ghost use Rattle.std.specs.Prelude.{◌+◌, ◌<◌, ◌≤◌, length, IfOk, IfSome};

use crate::fault::PlayFault;

/// A command of a transcript.
#[derive(Clone, Copy)]
pub struct Step<'a> {
    /// The number of its line, from 1.
    pub line: usize,
    /// Its words.
    pub command: &'a str,
    /// The lines that it is given.
    pub given: &'a [&'a str],
    /// The number of the first line that stands behind it.
    pub expected_line: usize,
    /// The lines that it prints.
    pub expected: &'a [&'a str],
}

/// Whether a line says nothing to the player.
fn is_passed_over(line: &str) -> bool {
    line.is_empty() || line.starts_with('#')
}

/// The lines from the first on that isn't passed over.
fn without_comments<'a>(lines: &'a [&'a str]) -> &'a [&'a str]
    ensures { length result.now ≤ length lines.entry.now }
{
    match lines.iter().position(|line| !is_passed_over(line)) {
        Some(place) => &lines[place..],
        None => &[],
    }
}

/// The lines that a command prints, and those behind them.
fn split_expected<'a>(lines: &'a [&'a str]) -> (&'a [&'a str], &'a [&'a str])
    ensures { length result.0.now + length result.1.now ≤ length lines.entry.now }
{
    match lines
        .iter()
        .position(|line| is_passed_over(line) || line.starts_with("$ "))
    {
        Some(place) => lines.split_at(place),
        None => (lines, &[]),
    }
}

/// The lines up to one that is this word, and those behind it.
fn split_given<'a>(lines: &'a [&'a str], end: &str) -> Option<(&'a [&'a str], &'a [&'a str])>
    ensures { IfSome result (λ split. length split.1.now < length lines.entry.now) }
{
    let place = lines.iter().position(|line| *line == end)?;
    Some((&lines[..place], &lines[place + 1..]))
}

/// A command without what says where its lines end, those lines, and the lines behind them.
fn split_command<'a>(
    command: &'a str,
    behind: &'a [&'a str],
) -> Option<(&'a str, &'a [&'a str], &'a [&'a str])>
    ensures { IfSome result (λ split. length split.2.now ≤ length behind.entry.now) }
{
    match command.rsplit_once(" <<") {
        Some((command, end)) => {
            let (given, rest) = split_given(behind, end)?;
            Some((command, given, rest))
        }
        None => Some((command, &behind[..0], behind)),
    }
}

/// The number of the first of the lines that are left of so many.
fn number_of(total: usize, rest: &[&str]) -> usize {
    total.saturating_sub(rest.len()).saturating_add(1)
}

/// The next command, and the lines behind it, of the lines that are left of so many. `None` is for no command.
pub fn next_step<'a>(
    total: usize,
    rest: &'a [&'a str],
) -> Result<Option<(Step<'a>, &'a [&'a str])>, PlayFault>
    ensures { IfOk result (λ next. IfSome next (λ split. length split.0.expected.now + length split.1.now < length rest.entry.now)) }
{
    let lines = without_comments(rest);
    let line = number_of(total, lines);
    let Some((first, behind)) = lines.split_first() else {
        return Ok(None);
    };
    let command = first
        .strip_prefix("$ ")
        .ok_or(PlayFault::NoCommand { line })?;
    let (command, given, behind) = split_command(command, behind).ok_or(PlayFault::NoCommand {
        line,
    })?;
    let (expected, rest) = split_expected(behind);
    let step = Step {
        line,
        command,
        given,
        expected_line: number_of(total, behind),
        expected,
    };
    Ok(Some((step, rest)))
}
