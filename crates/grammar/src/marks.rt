ghost use Rattle.std.specs.Prelude.{◌≡◌, ◌==◌, Decides};
ghost use Rattle.grammar.specs.Spelling.{byte};
ghost use Rattle.std.specs.Cmp.Rules.{comparing};
ghost use Rattle.std.proofs.Common.{rules};

// A token of one byte.
#[derive(Clone, Copy, Eq)]
pub enum Mark {
    OpenBrace,
    CloseBrace,
    OpenBracket,
    CloseBracket,
    OpenParen,
    CloseParen,
    Semicolon,
    Comma,
    Dot,
    Equals,
    LessThan,
    Plus,
    Minus,
    AtSign,
}

impl PartialEq for Mark {
    ghost eq = { λ a b. byte a == byte b };

    ghost laws = { Prim.search (comparing, rules) };

    fn eq(&self, other: &Mark) -> bool
        ensures answer { result ≡ (byte self.now == byte other.now) }
        ensures decides { Decides result (self.now ≡ other.now) }
    {
        *self as u8 == *other as u8
    }
}
