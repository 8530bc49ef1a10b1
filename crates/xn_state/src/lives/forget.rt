// The end of one life.

ghost use Rattle.std.specs.Prelude.{◌≡◌, None, slice_set};
ghost use Rattle.xn_model.specs.Lives.{life_at};
ghost use Rattle.dependencies.specs.Index.{IsUnowned};

use crate::lives::Lives;

impl Lives {
    /// Ends the life of a block that no other owns, and with it what is pending there: the block is free. One that is free stays so.
    pub fn forget(&mut self, block: u32)
        requires { IsUnowned (life_at self.old block) }
        ensures { self.new ≡ slice_set self.old block None }
    {
        let fs = self.index.note_end(&self.cache, block);
        self.cache.end(block);
        self.index.move_on(&self.cache, fs);
    }
}
