// Numbers that are told on a line.

ghost use Rattle.std.specs.Prelude.{◌≤◌};
ghost use Rattle.tree_changes.specs.Numbers.{IsNumberTold};

/// The number that digits in a radix write, with any zeros before them. `None` where the text is anything else, or the number is not less than 2^32.
pub fn read_number(text: &str, radix: u32) -> Option<u32>
    requires lower_bound { 2 ≤ radix }
    requires upper_bound { radix ≤ 36 }
    ensures { IsNumberTold radix text.now result }
{
    if text.as_bytes().first().copied() == Some(b'+') {
        return None;
    }
    u32::from_str_radix(text, radix).ok()
}
