// The rule of the words, and what each kind of step tells.

use atomic_table::{Join, Play, Split, TableRule};
use std::collections::LinkedList;

/// What a seat knows: whether it is the publisher's, what it has seen of each word, and what a reader that meets the
/// publisher had seen. It exists in proofs alone.
pub struct View {
    pub raises: bool,
    pub seen: LinkedList<u64>,
    pub met: LinkedList<u64>,
}

/// The words are what the publisher knows, and no reader has seen more.
pub struct Law;

impl TableRule<(), View, ()> for Law {
    ghost use Rattle.durable_floor.specs.Rules.{IsKept, first_view};

    ghost holds = { λ _ s. IsKept s.words s.views };

    ghost first = { λ _. first_view };
}

/// The publisher raises a word.
pub struct Raises;

impl Play<(), View> for Raises {
    ghost use Rattle.durable_floor.specs.Rules.{Raised};

    ghost then = { Raised };
}

/// A reader reads a word.
pub struct Reads;

impl Play<(), View> for Reads {
    ghost use Rattle.durable_floor.specs.Rules.{Seen};

    ghost then = { Seen };
}

/// The publisher reads a word while it knows what a reader had seen.
pub struct Meets;

impl Play<(), View> for Meets {
    ghost use Rattle.durable_floor.specs.Rules.{Met};

    ghost then = { Met };
}

/// A new reader, which has seen nothing.
pub struct Newcomer;

impl Split<View> for Newcomer {
    ghost use Rattle.durable_floor.specs.Rules.{newcomer};

    ghost left = { λ v. v };

    ghost right = { λ v. newcomer };
}

/// A reader comes to the publisher, and goes again.
pub struct Meeting;

impl Join<View> for Meeting {
    ghost use Rattle.durable_floor.specs.Rules.{together, newcomer};

    ghost both = { together };

    ghost spent = { newcomer };
}

impl Split<View> for Meeting {
    ghost use Rattle.durable_floor.specs.Rules.{alone, watched};

    ghost left = { alone };

    ghost right = { watched };
}
