// The small steps of reading.
ghost use Rattle.std.specs.Prelude.{◌≡◌};
ghost use Rattle.grammar.specs.Tokens.{goes_on};
ghost use Rattle.grammar.specs.Steps.{expect, a_name, a_number};
ghost use Rattle.lexis.specs.Meaning.{reading, text_of, place_of};
ghost use Rattle.clauses.specs.Outcomes.{seen, letters, itself};

use grammar::Refusal;
use lexis::{Found, Reader, Token, Wanted};

// A name's letters or a number that was read, and its place.
#[derive(Clone, Copy)]
pub struct Placed<T> {
    pub value: T,
    pub place: usize,
}

// The next token, which has to be this mark or this keyword.
pub fn expect<'a, W: Wanted>(reader: &mut Reader<'a>, wanted: W) -> Result<Found<'a>, Refusal>
    ensures value { reading result ≡ expect (text_of reader.old) (W.wants wanted) (place_of reader.old) }
    ensures text { text_of reader.new ≡ text_of reader.old }
    ensures place { place_of reader.new ≡ goes_on (place_of reader.new) (reading result) }
{
    let found = reader.next()?;
    if !found.token.is(wanted) {
        return Err(Refusal::Unexpected(found.place));
    }
    Ok(found)
}

// The next token, which has to be a name.
pub fn read_name<'a>(reader: &mut Reader<'a>) -> Result<Placed<&'a [u8]>, Refusal>
    ensures value { seen letters (place_of reader.new) result ≡ a_name (text_of reader.old) (place_of reader.old) }
    ensures text { text_of reader.new ≡ text_of reader.old }
{
    let found = reader.next()?;
    match found.token {
        Token::Name(value) => {
            let place = found.place;
            Ok(Placed { value, place })
        }
        _ => Err(Refusal::Unexpected(found.place)),
    }
}

// The next token, which has to be a number.
pub(crate) fn read_number(reader: &mut Reader<'_>) -> Result<Placed<u32>, Refusal>
    ensures value { seen itself (place_of reader.new) result ≡ a_number (text_of reader.old) (place_of reader.old) }
    ensures text { text_of reader.new ≡ text_of reader.old }
{
    let found = reader.next()?;
    match found.token {
        Token::Number { digits: _, value } => Ok(Placed {
            value,
            place: found.place,
        }),
        _ => Err(Refusal::Unexpected(found.place)),
    }
}
