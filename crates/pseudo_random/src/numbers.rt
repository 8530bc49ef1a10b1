// Pseudo-random numbers.

ghost use Rattle.std.specs.Prelude.{◌<◌, ◌≤◌, length};

/// A sequence of numbers, the same in each run.
#[derive(Drop)]
pub struct Numbers {
    pub state: u64,
}

impl Numbers {
    /// The next number, below `bound`.
    pub fn below(&mut self, bound: u16) -> u16
        requires { 0 < bound }
        ensures { result < bound }
    {
        self.state = self
            .state
            .wrapping_mul(6364136223846793005)
            .wrapping_add(1442695040888963407);
        ((self.state >> 33) % u64::from(bound)) as u16
    }

    /// The next byte, below `bound`.
    pub fn byte(&mut self, bound: u16) -> u8
        requires some { 0 < bound }
        requires few { bound ≤ 256 }
        ensures { result < bound }
    {
        self.below(bound) as u8
    }

    /// One of these, the next.
    pub fn pick<T: Copy>(&mut self, choices: &[T]) -> T
        requires some { 0 < length choices.now }
        requires few { length choices.now < 256 }
    {
        choices[self.below(choices.len() as u16) as usize]
    }
}
