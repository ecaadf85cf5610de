ghost use Rattle.std.specs.Prelude.{◌≡◌};
ghost use Rattle.grammar.specs.Spelling.{mark_of};

use grammar::Mark;

// The mark that this byte is, if it is one. Taken as a char, as the project's forms want it.
pub(crate) fn mark_of(byte: u8) -> Option<Mark>
    ensures { result ≡ mark_of byte }
{
    match byte as char {
        '{' => Some(Mark::OpenBrace),
        '}' => Some(Mark::CloseBrace),
        '[' => Some(Mark::OpenBracket),
        ']' => Some(Mark::CloseBracket),
        '(' => Some(Mark::OpenParen),
        ')' => Some(Mark::CloseParen),
        ';' => Some(Mark::Semicolon),
        ',' => Some(Mark::Comma),
        '.' => Some(Mark::Dot),
        '=' => Some(Mark::Equals),
        '<' => Some(Mark::LessThan),
        '+' => Some(Mark::Plus),
        '-' => Some(Mark::Minus),
        '@' => Some(Mark::AtSign),
        _ => None,
    }
}
