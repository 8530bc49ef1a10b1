// The words of a line of a shell.

use std::alloc::{AllocError, Global};

/// A line that is split as it is read.
struct Splitter {
    words: Vec<String>,
    /// The word that has begun.
    word: Option<String>,
    /// The quote that is open.
    quote: Option<char>,
    /// Whether the rest is a comment.
    is_over: bool,
}

impl Drop for Splitter {
    fn drop(self) {
        let Splitter {
            words: _,
            word: _,
            quote: _,
            is_over: _,
        } = self;
    }
}

impl Splitter {
    /// The word that has begun; an empty one where none has.
    fn begin(&mut self, alloc: Global) -> String {
        match self.word.take() {
            Some(word) => word,
            None => String::new(alloc),
        }
    }

    /// Ends the word that has begun.
    fn end(&mut self) -> Result<(), AllocError> {
        if let Some(word) = self.word.take() {
            self.words.push(word)?;
        }
        Ok(())
    }

    /// The words, where no quote is open.
    fn into_words(self) -> Option<Vec<String>> {
        let Splitter {
            words,
            word: _,
            quote,
            is_over: _,
        } = self;
        if quote.is_none() { Some(words) } else { None }
    }

    /// Whether a comment begins with this character.
    fn begins_comment(&self, c: char) -> bool {
        c == '#' && self.quote.is_none() && self.word.is_none()
    }

    /// Takes a character.
    fn take(&mut self, alloc: Global, c: char) -> Result<(), AllocError> {
        self.is_over = self.is_over || self.begins_comment(c);
        if self.is_over {
            return Ok(());
        }
        if self.quote.is_none() && c.is_ascii_whitespace() {
            return self.end();
        }
        let mut word = self.begin(alloc);
        match self.quote {
            Some(quote) if c == quote => self.quote = None,
            None if c == '\'' || c == '"' => self.quote = Some(c),
            _ => word.push(c)?,
        }
        self.word = Some(word);
        Ok(())
    }
}

/// The words of a line: what stands between its blanks, where `'..'` and `".."` keep all that is in them, also blanks and the other quote. A `#` where a word
/// would begin ends the line. `None` where a quote is not closed.
pub fn split(alloc: Global, line: &str) -> Result<Option<Vec<String>>, AllocError> {
    let mut splitter = Splitter {
        words: Vec::new(alloc),
        word: None,
        quote: None,
        is_over: false,
    };
    for c in line.chars() {
        splitter.take(alloc, c)?;
    }
    splitter.end()?;
    Ok(splitter.into_words())
}
