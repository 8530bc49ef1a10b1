// Where a text is cut.

ghost use Rattle.std.specs.Prelude.{◌≡◌, ◌<◌, option_copied};
ghost use Rattle.tree_changes.specs.Cuts.{before_byte, behind_byte};

/// What stands before the first such character of a text, or the whole text; and what behind it, where there is one.
pub fn cut(text: &str, at: char) -> (&str, Option<&str>)
    requires { at < 128 }
    ensures before { result.0.now ≡ before_byte at text.now }
    ensures behind { option_copied result.1 ≡ behind_byte at text.now }
{
    match text.split_once(at) {
        Some((before, behind)) => (before, Some(behind)),
        None => (text, None),
    }
}
