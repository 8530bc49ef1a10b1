// What holds of patches and of those that undo them.

ghost use Rattle.std.specs.Prelude.{◌≡◌, ℕ, List, length, IsTrue};
ghost use Rattle.std.specs.List.{list_all};
ghost use Rattle.xn_model.specs.Calls.{Patch, Edit, is_patch, patched, within_limits};
ghost use Rattle.edit_list.specs.Undo.{undo_of};

/// A block on which patches are made, and then those that undo them, is as it was before.
pub fn undone_is_as_before()
    ensures { (m : List ℕ) (patches : List Patch) → length m ≡ 512 → IsTrue (list_all is_patch patches) → patched (patched m patches) (undo_of m patches) ≡ m }
{}

/// Where an edit is within the limits, so is one of the patches that undo it.
pub fn undo_is_within_limits()
    ensures { (m : List ℕ) (edit : Edit) → length m ≡ 512 → IsTrue (within_limits edit) →
        IsTrue (within_limits (record edit { patches = undo_of m edit.patches })) }
{}
