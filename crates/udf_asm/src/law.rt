// What holds of texts and words.

ghost use Rattle.std.specs.Prelude.{◌≡◌, ◌↔◌, ℕ, List, Ok};
ghost use Rattle.udf_code.specs.declared.word.Word.{Word};
ghost use Rattle.udf_code.specs.Tree.{Tree, Spells};
ghost use Rattle.udf_code.specs.Words.{AllInRange};
ghost use Rattle.udf_asm.specs.Assembly.{assembled};
ghost use Rattle.udf_asm.specs.Printing.{IsText, text_of};

/// A text is assembled as words exactly where it is the text of a program with these words.
pub fn texts_are_assembled()
    ensures { (text : List ℕ) (words : List Word) → (assembled text ≡ Ok words) ↔ IsText words text }
{}

/// The text of a program is assembled as its words.
pub fn printed_is_assembled()
    ensures { (tree : Tree) (words : List Word) → Spells tree words → AllInRange words → assembled (text_of words) ≡ Ok words }
{}

/// A program has one text.
pub fn one_text()
    ensures { (text other : List ℕ) (words : List Word) → assembled text ≡ Ok words → assembled other ≡ Ok words → text ≡ other }
{}
