// The lines of a script are read, before any of it runs.

ghost use Rattle.std.specs.Prelude.{◌≡◌, IfOk, IfErr};
ghost use Rattle.script.specs.Scripts.{event_lines, is_passed_over, IsScriptFault, SpellEvents};

use crate::ScriptFault;
use crate::line::ScriptLine;
use std::alloc::Global;

/// Whether a line is empty or begins with `#`.
fn is_passed_over(line: &str) -> bool
    ensures { result ≡ is_passed_over line.now }
{
    match line.as_bytes() {
        [] => true,
        [first, ..] => *first == b'#',
    }
}

/// The lines of a script that are not passed over, where each of them spells an event. Passed over are empty lines and those that
/// begin with `#`.
pub fn parse<'a>(alloc: Global, script: &'a str) -> Result<Vec<ScriptLine<'a>>, ScriptFault>
    ensures lines { IfOk result (λ lines. lines.items ≡ event_lines script.now) }
    ensures events { IfOk result (λ lines. SpellEvents lines.items) }
    ensures fault { IfErr result (IsScriptFault script.now) }
{
    let mut lines = Vec::new(alloc);
    let mut words = Vec::new(alloc);
    for (place, text) in script.split('\n').enumerate() {
        if is_passed_over(text) {
            continue;
        }
        match ScriptLine::read(alloc, &mut words, text)? {
            Some(line) => lines.push(line)?,
            None => {
                let line = place as u64 + 1;
                return Err(ScriptFault::Unreadable { line });
            }
        }
    }
    Ok(lines)
}
