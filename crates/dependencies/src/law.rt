// Which entries are safe, by how many of their dependencies are unmet.

ghost use Rattle.std.specs.Prelude.{◌≡◌, ℕ, List, ◌∷◌, ◌++◌, Some, ◌==◌, Contains, true};
ghost use Rattle.xn_model.specs.Types.{Types};
ghost use Rattle.xn_model.specs.Lives.{BlockState, Life, StoreState, life_at, is_type_met, safe};
ghost use Rattle.xn_model.specs.Rules.{IsConsistent};
ghost use Rattle.dependencies.specs.Unmet.{unmet};

/// A pending entry is safe exactly where none of its dependencies is unmet.
pub fn safe_by_count()
    ensures { (T : Types) (state : StoreState) (b : ℕ) (l : Life) (earlier later : List BlockState) (s : BlockState) → IsConsistent T state →
        life_at state.lives b ≡ Some l → l.pending ≡ earlier ++ s ∷ later → safe state.lives l.ty earlier s ≡ (unmet state.lives b s == 0) }
{}

/// Each pending entry of block 0 finds the types of the blocks that it adds in an earlier state of
/// block 0, so that test of its safety needs no look.
pub fn root_has_types()
    ensures { (T : Types) (state : StoreState) (l : Life) (earlier later : List BlockState) (s : BlockState) (c u : ℕ) → IsConsistent T state →
        life_at state.lives 0 ≡ Some l → l.pending ≡ earlier ++ s ∷ later → Contains s.adds (c, u) → is_type_met state.lives l.ty earlier u ≡ true }
{}
