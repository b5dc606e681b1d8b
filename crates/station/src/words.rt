// The words of a line, one after the other.
ghost use Rattle.std.specs.Prelude.{◌<◌, ◌≤◌, length, IfSome};
ghost use Rattle.std.specs.Iterator.{at_most};

#[derive(Drop)]
pub struct Words<'a> {
    rest: &'a [u8],
}

// Where the first word ends: at a space, or a text in quotes behind its closing quote.
fn word_end(line: &[u8]) -> usize
    ensures { result ≤ length line.now }
{
    if let [b'"', text @ ..] = line {
        text.iter()
            .position(|b| *b == b'"')
            .map_or(line.len(), |i| i + 2)
    } else {
        line.iter()
            .position(u8::is_ascii_whitespace)
            .unwrap_or(line.len())
    }
}

impl<'a> Words<'a> {
    pub fn new(line: &'a [u8]) -> Words<'a> {
        Words { rest: line }
    }

    // How many bytes are left: there are no more words than that.
    pub fn left(&self) -> usize {
        self.rest.len()
    }

    // The next word, and what stands behind it.
    fn split(&self) -> Option<(&'a [u8], &'a [u8])>
        ensures { IfSome result (λ (word, rest). length rest.now < length self.now.rest.now) }
    {
        let line = self.rest.trim_ascii_start();
        let (word, rest) = line.split_at(word_end(line));
        if word.is_empty() {
            None
        } else {
            Some((word, rest))
        }
    }

    pub fn peek(&self) -> Option<&'a [u8]> {
        let (word, _) = self.split()?;
        Some(word)
    }

    // Goes past the next word if it is this one.
    pub fn skip(&mut self, word: &[u8]) -> bool {
        let found = self.peek() == Some(word);
        if found {
            let _ = self.next();
        }
        found
    }
}

impl<'a> Iterator for Words<'a> {
    type Item = &'a [u8];

    ghost remaining = { λ words. at_most (length words.rest.now) };

    fn next(&mut self) -> Option<&'a [u8]> {
        let (word, rest) = self.split()?;
        self.rest = rest;
        Some(word)
    }
}
