// What a token does in a block: it begins a statement, or closes the block.
ghost use Rattle.std.specs.Prelude.{◌≡◌};
ghost use Rattle.grammar.specs.Steps.{opening};
ghost use Rattle.lexis.specs.Meaning.{meaning};

use grammar::{Keyword, Opening};
use lexis::Token;

// The statement that a token begins, if it begins one. It is no `TryFrom`, since both types are of other crates.
pub(crate) fn opening_of(token: Token<'_>) -> Option<Opening>
    ensures { result ≡ opening (meaning token.entry) }
{
    match token {
        Token::Keyword(Keyword::Var) => Some(Opening::Var),
        Token::Keyword(Keyword::Set) => Some(Opening::Set),
        Token::Keyword(Keyword::If) => Some(Opening::If),
        Token::Keyword(Keyword::When) => Some(Opening::When),
        Token::Keyword(Keyword::Vendors) => Some(Opening::Vendors),
        Token::Keyword(Keyword::Each) => Some(Opening::Each),
        Token::Keyword(Keyword::Add) => Some(Opening::Add),
        Token::Keyword(Keyword::Drop) => Some(Opening::Drop),
        Token::Keyword(Keyword::Alter) => Some(Opening::Alter),
        _ => None,
    }
}
