// What the statuses of the living blocks say of the pairs that a newest state owns.

ghost use Rattle.std.specs.Prelude.{◌≡◌, ℕ, ◌↔◌, ◌&&◌, ◌++◌, List, [], length, Contains, IsTrue, Some};
ghost use Rattle.std.specs.List.{list_all};
ghost use Rattle.xn_model.specs.Lists.{distinct, blocks_of};
ghost use Rattle.xn_model.specs.Types.{Types, inside, without, claims, named_once};
ghost use Rattle.xn_model.specs.Lives.{Life, StoreState, life_at, current};
ghost use Rattle.xn_model.specs.Calls.{is_empty, may_add, may_drop};
ghost use Rattle.xn_model.specs.Rules.{IsConsistent};
ghost use Rattle.claims.specs.Owners.{IsOwnedPair, OwnsNone, are_allowed, is_claimed, owned_count};
ghost use Rattle.udf_run.specs.SlotRows.{IsInsertion};

/// The pairs that a block's newest state owns are the blocks with the status that this block owns them, each with its type.
pub fn newest_pairs()
    ensures { (T : Types) (state : StoreState) (b : ℕ) (l : Life) (c u : ℕ) → IsConsistent T state → life_at state.lives b ≡ Some l →
        Contains (T.owned l.ty (current l)) (c, u) ↔ IsOwnedPair state.lives b c u }
{}

/// So a block in use owns nothing exactly where no block has that status.
pub fn empty_blocks()
    ensures { (T : Types) (state : StoreState) (b : ℕ) (l : Life) → IsConsistent T state → life_at state.lives b ≡ Some l →
        IsTrue (is_empty T state b) ↔ OwnsNone state.lives b }
{}

/// And whether each pair of some new bytes is one of the old that is not dropped, or an add, is read off the statuses.
pub fn allowed_pairs()
    ensures { (T : Types) (state : StoreState) (b : ℕ) (l : Life) (new adds : List (ℕ × ℕ)) (drops : List ℕ) → IsConsistent T state →
        life_at state.lives b ≡ Some l →
        are_allowed state.lives b adds drops new ≡ inside new (without (T.owned l.ty (current l)) drops ++ adds) }
{}

/// A block in use owns as many blocks as have the status that it owns them.
pub fn owned_counts()
    ensures { (T : Types) (state : StoreState) (b : ℕ) (l : Life) → IsConsistent T state → life_at state.lives b ≡ Some l →
        length (T.owned l.ty (current l)) ≡ owned_count state.lives b }
{}

/// And where the adds and the drops are such as may be, a claim on new bytes that name no block twice is read off the
/// statuses and that count.
pub fn claims_by_status()
    ensures { (T : Types) (state : StoreState) (b fs : ℕ) (l : Life) (new : List ℕ) (adds : List (ℕ × ℕ)) (drops : List ℕ) → IsConsistent T state →
        life_at state.lives b ≡ Some l →
        IsTrue (list_all (may_add state fs) adds && distinct (blocks_of adds)) → IsTrue (list_all (may_drop state b) drops && distinct drops) →
        (claims T l.ty (current l) new adds drops && named_once T l.ty new)
        ≡ (is_claimed state.lives b (owned_count state.lives b) (T.owned l.ty new) adds drops && named_once T l.ty new) }
{}

/// So where the new pairs are the old ones with the adds among them, one behind another, the claim of these adds holds, and the new bytes name no block twice.
pub fn insertions_are_claimed()
    ensures { (T : Types) (state : StoreState) (b fs : ℕ) (l : Life) (new : List ℕ) (adds : List (ℕ × ℕ)) → IsConsistent T state →
        life_at state.lives b ≡ Some l → IsTrue (list_all (may_add state fs) adds && distinct (blocks_of adds)) →
        IsInsertion (T.owned l.ty (current l)) adds (T.owned l.ty new) →
        IsTrue (is_claimed state.lives b (owned_count state.lives b) (T.owned l.ty new) adds [] && named_once T l.ty new) }
{}
