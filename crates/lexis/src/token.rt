ghost use Rattle.std.specs.Prelude.{◌≡◌, Bool};
ghost use Rattle.grammar.specs.Tokens.{is_mark, is_keyword};
ghost use Rattle.grammar.specs.Tokens as rule;
ghost use Rattle.lexis.specs.Meaning.{meaning};

use grammar::{Keyword, Mark};

// What is read at a place. A name and a number hold their part of the text.
#[derive(Clone, Copy)]
pub enum Token<'a> {
    Keyword(Keyword),
    Mark(Mark),
    Name(&'a [u8]),
    Number { digits: &'a [u8], value: u32 },
    // The end of the text, which is no token.
    End,
}

impl Token<'_> {
    // Whether it is this mark, or this keyword.
    pub fn is<W: Wanted>(&self, wanted: W) -> bool
        ensures { result ≡ W.wants wanted (meaning self.now) }
    {
        wanted.is(self)
    }
}

// What a token may be asked to be: a mark or a keyword.
pub trait Wanted: Copy {
    // Which tokens of the grammar are it.
    ghost wants: { Self → rule.Token → Bool };

    fn is(self, token: &Token<'_>) -> bool
        ensures { result ≡ wants self (meaning token.now) };
}

impl Wanted for Mark {
    ghost wants = { is_mark };

    fn is(self, token: &Token<'_>) -> bool {
        matches!(token, Token::Mark(mark) if *mark == self)
    }
}

impl Wanted for Keyword {
    ghost wants = { is_keyword };

    fn is(self, token: &Token<'_>) -> bool {
        matches!(token, Token::Keyword(keyword) if *keyword == self)
    }
}

// A token where it stands: the place of its first byte, and the place behind its last.
#[derive(Clone, Copy)]
pub struct Found<'a> {
    pub token: Token<'a>,
    pub place: usize,
    pub after: usize,
}
