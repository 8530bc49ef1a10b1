// What words ask of a volume that they look at.

ghost use Rattle.std.specs.Prelude.{ℕ, Bool, List, MatchResult, Option, Result};
ghost use Rattle.tree_lines.specs.Walks.{names_of};
ghost use Rattle.tree_lines.specs.declared.node.Node.{Node};
ghost use Rattle.tree_lines.specs.declared.node.Stretch.{Stretch};
ghost use Rattle.tree_lines.specs.declared.reason.Reason.{Reason};

use crate::node::{Named, Node, Stretch, Usage};
use crate::reason::Reason;
use std::alloc::{AllocError, Global};

/// A volume that can be looked at. A number stands for what a name leads to; the top folder has 1.
pub trait View {
    /// What `find` may answer, of a folder, a path, and whether a symbolic link at its end is followed.
    ghost leads: { Self → ℕ → List ℕ → Bool → Result ℕ Reason → Type 0 };

    /// What `look_up` may answer, of a folder and a name.
    ghost names_number: { Self → ℕ → List ℕ → Result ℕ Reason → Type 0 };

    /// What `node` may answer, of a number.
    ghost shows: { Self → ℕ → Result Node Reason → Type 0 };

    /// What `names` may answer, of a folder: its names with their numbers.
    ghost lists: { Self → ℕ → Result (List (List ℕ × ℕ)) Reason → Type 0 };

    /// What `read` may answer, of a number, a byte, and the bytes before and after it.
    ghost reads: { Self → ℕ → ℕ → List ℕ → List ℕ → Result ℕ Reason → Type 0 };

    /// What `target` may answer, of a number.
    ghost points: { Self → ℕ → Result (List ℕ) Reason → Type 0 };

    /// What `stretch` may answer, of a number, a byte, and how many bytes it may have.
    ghost stretches: { Self → ℕ → ℕ → ℕ → Result (Option Stretch) Reason → Type 0 };

    /// What stands at a number. Reasons are `Missing`, and those of the store.
    fn node(&self, number: u32) -> Result<Node, Reason>
        ensures { shows self.now number result };

    /// The number to which a name in a folder leads. Reasons are `Missing`, `NoFolder`, `BadName`.
    fn look_up(&self, folder: u32, name: &[u8]) -> Result<u32, Reason>
        ensures { names_number self.now folder name.now result };

    /// The names in a folder, rising by their bytes. Reasons are `Missing`, `NoFolder`, `NoMemory`.
    fn names(&self, alloc: Global, folder: u32) -> Result<Vec<Named>, Reason>
        ensures { lists self.now folder (names_of result) };

    /// Reads a file or a symbolic link from a byte on, up to its size, and answers how many bytes there were. Holes are zeros. Reasons are `Missing`,
    /// `Folder`.
    fn read(&self, number: u32, at: u64, bytes: &mut [u8]) -> Result<usize, Reason>
        ensures { reads self.now number at bytes.old bytes.new result };

    /// The target of a symbolic link. Reasons are `Missing`, `NoLink`, `LongTarget` where it has more than 4,096 bytes, `NoMemory`.
    fn target(&self, alloc: Global, number: u32) -> Result<Vec<u8>, Reason>
        ensures { MatchResult result (λ target. points self.now number (Ok target.items)) (λ reason. points self.now number (Err reason)) };

    /// The next bytes of a file at or past one that stand in blocks, at most so many: what is before them is a hole. `None` where only a hole follows, or
    /// nothing. Reasons are `Missing`, `Folder`.
    fn stretch(&self, number: u32, at: u64, most: u64) -> Result<Option<Stretch>, Reason>
        ensures { stretches self.now number at most result };

    /// How many blocks are held by what stands at a number alone. The reason is `Missing`.
    fn blocks_held(&self, number: u32) -> Result<u64, Reason>;

    /// Where a path leads from a folder on: from the top folder where it begins with a slash. A symbolic link at its end is followed where that is told,
    /// all others are. Reasons are `Missing`, `NoFolder`, `BadName`, `Loop`, `LongTarget`, `NoMemory`.
    fn find(
        &self,
        alloc: Global,
        folder: u32,
        path: &[u8],
        is_followed: bool,
    ) -> Result<u32, Reason>
        ensures { leads self.now folder path.now is_followed result };

    /// What is taken and left, and the limits.
    fn usage(&self) -> Usage;
}
