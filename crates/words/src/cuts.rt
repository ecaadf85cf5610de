// A text of bytes cut into parts.
ghost use Rattle.std.specs.Prelude.{◌≡◌, length};
ghost use Rattle.std.specs.Iterator.{at_most};
ghost use Rattle.std.specs.Option.{option_map};
ghost use Rattle.words.specs.Cuts.{before, behind, parts, first_word, after_word};

// The part before the first `mark` and the part behind it, or nothing where there is no mark.
pub fn split_once(text: &[u8], mark: u8) -> Option<(&[u8], &[u8])>
    ensures { option_map (λ p. (p.0.now, p.1.now)) result ≡ parts mark text.now }
{
    let at = text.iter().position(|byte| *byte == mark)?;
    Some((&text[..at], &text[at + 1..]))
}

// The part before the first `mark`, and the part behind it: all of the text and nothing where there is no mark.
pub fn cut(text: &[u8], mark: u8) -> (&[u8], &[u8])
    ensures front { result.0.now ≡ before mark text.now }
    ensures back { result.1.now ≡ behind mark text.now }
{
    match split_once(text, mark) {
        Some(parts) => parts,
        None => (text, &[]),
    }
}

// The words of a line: the longest runs without a space.
#[derive(Drop)]
pub struct Words<'a> {
    rest: &'a [u8],
}

impl<'a> Words<'a> {
    pub fn new(line: &'a [u8]) -> Self
        ensures { result.rest.now ≡ line.now }
    {
        Words { rest: line }
    }
}

impl<'a> Iterator for Words<'a> {
    type Item = &'a [u8];

    ghost next_gives = { λ old result new. (option_map (λ x. x.now) result ≡ first_word old.rest.now) × (new.rest.now ≡ after_word old.rest.now) };

    ghost remaining = { λ words. at_most (length words.rest.now) };

    // The next word, or nothing where only spaces are left.
    #[tactic(auto, using(crate::proofs::FirstWord::passing))]
    fn next(&mut self) -> Option<&'a [u8]> {
        while !self.rest.is_empty() {
            let (word, rest) = cut(self.rest, b' ');
            self.rest = rest;
            if !word.is_empty() {
                return Some(word);
            }
        }
        None
    }
}
