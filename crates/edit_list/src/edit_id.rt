// The number of an accepted edit.

ghost use Rattle.std.specs.Prelude.{◌≡◌};

use std::marker::Model;

/// The number of an entry, given from 1 upward across all file systems; the last one is 2^64 - 2.
#[derive(Clone, Copy, Debug, PartialEq, Eq)]
pub struct EditId(pub u64);

impl Model for EditId {
    ghost use Rattle.std.specs.Prelude.{ℕ};

    ghost Value = { ℕ };

    ghost view = { λ a. a.0 };

    ghost inverse = { λ n. record { 0 = n } };
}

impl EditId {
    /// The number.
    pub fn number(self) -> u64
        ensures { result ≡ self }
    {
        self.0
    }
}
