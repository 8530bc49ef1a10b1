// How far a path is gone.

use std::marker::Model;

/// How far a path is gone.
pub struct Way {
    /// The inode to which it led so far.
    pub number: u32,
    /// What is left of it.
    pub rest: Vec<u8>,
    /// How many more symbolic links it may go through.
    pub links: u32,
}

impl Model for Way {
    ghost use Rattle.treefs_paths.specs.Ways as value;

    ghost Value = { value.Way };

    ghost view = { λ w. record {
      number = w.number;
      rest = w.rest.items;
      links = w.links;
    } };
}

/// Written by hand, so that a function that drops one calls this: a derived drop is proved anew in each such function.
impl Drop for Way {
    fn drop(self) {
        let Way {
            number: _,
            rest: _,
            links: _,
        } = self;
    }
}
