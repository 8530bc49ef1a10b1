// What holds of programs as trees, as words and as bytes.

ghost use Rattle.std.specs.Prelude.{◌≡◌, ◌≢◌, ◌↔◌, ◌<◌, ◌+◌, ℕ, List, All, IsOk, Ok, Err, Some, length, take};
ghost use Rattle.udf_code.specs.declared.word.Word.{Word};
ghost use Rattle.udf_code.specs.declared.fault.CodeFault.TheVariants.{NoMemory};
ghost use Rattle.udf_code.specs.Tree.{Tree, Spells};
ghost use Rattle.udf_code.specs.Reading.{tree_of};
ghost use Rattle.udf_code.specs.Structure.{GoesOn, structure_of};
ghost use Rattle.udf_code.specs.Faults.{fault_place};
ghost use Rattle.udf_code.specs.declared.fault.CodeFault.{CodeFault};
ghost use Rattle.udf_code.specs.Words.{AllInRange, InRange};
ghost use Rattle.udf_code.specs.Bytes.{IsCode, encoded};
ghost use Rattle.udf_code.specs.Decoding.{decoded};

use crate::word::Word;

/// The operands of each word are in range, by their types.
pub fn operands_are_in_range(word: Word)
    ensures { InRange word }
{}

/// Words spell at most one tree, which is the one that is read from them.
pub fn one_tree()
    ensures { (tree : Tree) (words : List Word) → Spells tree words → tree_of words ≡ tree }
{}

/// The place of a fault of structure is the first at which nothing goes on: some words go on without a fault from those
/// before it, and none from those up to it. At the end, where a block is open, the words themselves go on.
pub fn faults_stand_where_nothing_goes_on()
    ensures before { (words : List Word) (fault : CodeFault) (at : ℕ) → structure_of words ≡ Err fault → fault_place fault ≡ Some at → GoesOn (take at words) }
    ensures here { (words : List Word) (fault : CodeFault) (at : ℕ) → structure_of words ≡ Err fault → fault_place fault ≡ Some at → at < length words →
        ¬ (GoesOn (take (at + 1) words)) }
{}

/// Words without a fault of structure are those that spell a tree.
pub fn programs_are_trees()
    ensures { (words : List Word) → IsOk (structure_of words) ↔ ((tree : Tree) × Spells tree words) }
{}

/// Bytes are decoded as words exactly where they are the bytes of a program with these words.
pub fn programs_are_decoded()
    ensures { (bytes : List ℕ) (words : List Word) → All (λ byte. byte < 256) bytes → (decoded bytes ≡ Ok words) ↔ IsCode words bytes }
{}

/// The bytes of a program are decoded as its words.
pub fn encoded_is_decoded()
    ensures { (tree : Tree) (words : List Word) → Spells tree words → AllInRange words → decoded (encoded words) ≡ Ok words }
{}

/// No two lists of words have the same bytes.
pub fn encoded_apart()
    ensures { (words others : List Word) → AllInRange words → AllInRange others → encoded words ≡ encoded others → words ≡ others }
{}

/// Want of memory is no fault that bytes have.
pub fn bytes_want_no_memory()
    ensures { (bytes : List ℕ) → decoded bytes ≢ Err NoMemory }
{}
