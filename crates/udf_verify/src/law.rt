// What acceptance is.

ghost use Rattle.std.specs.Prelude.{◌≡◌, ◌↔◌, List, IsOk};
ghost use Rattle.udf_code.specs.declared.word.Word.{Word};
ghost use Rattle.udf_code.specs.Tree.{Tree, Spells};
ghost use Rattle.udf_code.specs.Structure.{structure_of};
ghost use Rattle.udf_code.specs.Reading.{tree_of};
ghost use Rattle.udf_verify.specs.declared.fault.Role.{Role};
ghost use Rattle.udf_verify.specs.declared.fault.Role.TheVariants.{Size};
ghost use Rattle.udf_verify.specs.Verdict.{IsAccepted, emits};

/// The programs without a fault of structure whose verdict is good are the words that spell an accepted tree.
pub fn accepted_are_trees()
    ensures { (role : Role) (words : List Word) → (IsOk (structure_of words) × IsAccepted role (tree_of words)) ↔
        ((tree : Tree) × Spells tree words × IsAccepted role tree) }
{}

/// A size program emits nothing.
pub fn size_programs_emit_nothing()
    ensures { (tree : Tree) → IsAccepted Size tree → emits tree ≡ 0 }
{}
