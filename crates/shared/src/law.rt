// No call lowers a floor: laws of the model.

ghost use Rattle.std.specs.Prelude.{ℕ, List, Result};
ghost use Rattle.xn_model.specs.Types.{Types};
ghost use Rattle.xn_model.specs.Lives.{StoreState};
ghost use Rattle.store_types.specs.declared.refusal.Refusal.{Refusal};
ghost use Rattle.xn_model.specs.Results.{Gives, GivesExactly};
ghost use Rattle.xn_model.specs.Calls.{Edit, init_of, propose_of, make_root_of, drop_root_of, forget_of, begun_of, settled_of};
ghost use Rattle.shared.specs.Floors.{FloorsRise};

/// After each call no file system's floor is below what it was, whatever the state and whatever was answered.
pub fn floors_rise()
    ensures init { (T : Types) (old new : StoreState) (fs ty : ℕ) (bytes : List ℕ) (r : Result (ℕ × ℕ) Refusal) → Gives (init_of T old fs ty bytes) old new r →
        FloorsRise old new }
    ensures propose { (T : Types) (old new : StoreState) (fs block : ℕ) (edit : Edit) (r : Result ℕ Refusal) →
        Gives (propose_of T old fs block edit) old new r → FloorsRise old new }
    ensures make_root { (old new : StoreState) (fs block : ℕ) (r : Result ℕ Refusal) → Gives (make_root_of old fs block) old new r → FloorsRise old new }
    ensures drop_root { (T : Types) (old new : StoreState) (fs : ℕ) (r : Result ℕ Refusal) → Gives (drop_root_of T old fs) old new r → FloorsRise old new }
    ensures forget { (T : Types) (old new : StoreState) (fs block : ℕ) (r : Result (Unit {0}) Refusal) → GivesExactly (forget_of T old fs block) old new r →
        FloorsRise old new }
    ensures begun { (old new : StoreState) (block : ℕ) (r : Result (List ℕ × ℕ) Refusal) → GivesExactly (begun_of old block) old new r → FloorsRise old new }
    ensures settled { (old new : StoreState) (block : ℕ) (bytes : List ℕ) (r : Result (ℕ × ℕ) Refusal) → GivesExactly (settled_of old block bytes) old new r →
        FloorsRise old new }
{}
