// Words as bytes, without memory.

ghost use Rattle.std.specs.Prelude.{◌≡◌, ◌*◌, ◌≤◌, ◌++◌, length, drop};
ghost use Rattle.udf_code.specs.Bytes.{word_bytes, encoded};

use udf_code::{WORD_LEN, Word};

/// Writes words, four bytes a word, at the start of `out`.
pub(crate) fn write_words(words: &[Word], out: &mut [u8])
    requires { 4 * length words.now ≤ length out.old }
    ensures { out.new ≡ encoded words.now ++ drop (4 * length words.now) out.old }
{
    for (i, word) in words.iter().enumerate() {
        write_word(word, &mut out[WORD_LEN * i..]);
    }
}

/// Writes a word at the start of `out`.
fn write_word(word: &Word, out: &mut [u8])
    requires { 4 ≤ length out.old }
    ensures { out.new ≡ word_bytes word.now ++ drop 4 out.old }
{
    out[..WORD_LEN].copy_from_slice(&word.bytes());
}
