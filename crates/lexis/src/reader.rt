ghost use Rattle.std.specs.Prelude.{◌≡◌, ◌<◌, ◌≤◌, ◌^◌, ◌-◌, length, drop};
ghost use Rattle.grammar.specs.Spelling.{mark_of};
ghost use Rattle.grammar.specs.Tokens.{letter, digit, run, read_word, read_number, read_mark, token_at, next_is, goes_on};
ghost use Rattle.lexis.specs.Meaning.{reading, text_of, place_of};

use crate::classes::{is_blank, is_digit, is_letter, run_end};
use crate::keywords::keyword_of;
use crate::marks::mark_of;
use crate::numbers::{has_leading_zero, value_of};
use crate::token::{Found, Token, Wanted};
use grammar::Refusal;

// The letters of a name, at most.
const NAME_LENGTH: usize = 8;

// Reads a text, from a place on that moves with each token.
#[derive(Drop)]
pub struct Reader<'a> {
    text: &'a [u8],
    place: usize,
}

impl<'a> Reader<'a> {
    // At the start of a text.
    pub fn new(text: &'a [u8]) -> Self
        ensures text { text_of result ≡ text.now }
        ensures place { place_of result ≡ 0 }
    {
        Reader { text, place: 0 }
    }

    // Where reading goes on.
    pub fn place(&self) -> usize
        ensures { result ≡ place_of self.now }
    {
        self.place
    }

    // The next token, which stays to be read.
    pub fn peek(&self) -> Result<Found<'a>, Refusal>
        ensures { reading result ≡ token_at (text_of self.now) (place_of self.now) }
    {
        let text = self.text;
        let place = run_end(text, self.place, is_blank);
        match text.get(place) {
            None => Ok(Found {
                token: Token::End,
                place,
                after: place,
            }),
            Some(byte) if is_letter(byte) => read_word(text, place),
            Some(byte) if is_digit(byte) => read_number(text, place),
            Some(byte) => read_mark(*byte, place),
        }
    }

    // Takes the next token. Where none can be read, the place stays.
    pub fn next(&mut self) -> Result<Found<'a>, Refusal>
        ensures value { reading result ≡ token_at (text_of self.old) (place_of self.old) }
        ensures text { text_of self.new ≡ text_of self.old }
        ensures place { place_of self.new ≡ goes_on (place_of self.old) (reading result) }
    {
        let found = self.peek()?;
        self.place = found.after;
        Ok(found)
    }

    // Whether the next token is this mark, or this keyword.
    pub fn next_is<W: Wanted>(&self, wanted: W) -> bool
        ensures { result ≡ next_is (text_of self.now) (place_of self.now) (W.wants wanted) }
    {
        match self.peek() {
            Ok(found) => found.token.is(wanted),
            Err(_) => false,
        }
    }
}

// The keyword or the name that stands at `place`.
fn read_word<'a>(text: &'a [u8], place: usize) -> Result<Found<'a>, Refusal>
    requires { place ≤ length text.now }
    ensures { reading result ≡ read_word place (run letter (drop place text.now)) }
{
    let after = run_end(text, place, is_letter);
    let letters = &text[place..after];
    if letters.len() > NAME_LENGTH {
        return Err(Refusal::NoToken(place));
    }
    let token = match keyword_of(letters) {
        Some(keyword) => Token::Keyword(keyword),
        None => Token::Name(letters),
    };
    Ok(Found {
        token,
        place,
        after,
    })
}

// The number that stands at `place`.
fn read_number<'a>(text: &'a [u8], place: usize) -> Result<Found<'a>, Refusal>
    requires { place ≤ length text.now }
    ensures { reading result ≡ read_number place (run digit (drop place text.now)) }
{
    let after = run_end(text, place, is_digit);
    let digits = &text[place..after];
    if has_leading_zero(digits) {
        return Err(Refusal::NoToken(place));
    }
    let value = value_of(digits).ok_or(Refusal::NoToken(place))?;
    Ok(Found {
        token: Token::Number { digits, value },
        place,
        after,
    })
}

// The mark that stands at `place`, as this byte.
fn read_mark<'a>(byte: u8, place: usize) -> Result<Found<'a>, Refusal>
    requires { place < 2 ^ 64 - 1 }
    ensures { reading result ≡ read_mark place (mark_of byte) }
{
    let mark = mark_of(byte).ok_or(Refusal::NoToken(place))?;
    Ok(Found {
        token: Token::Mark(mark),
        place,
        after: place + 1,
    })
}
