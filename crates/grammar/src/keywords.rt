ghost use Rattle.std.specs.Prelude.{◌≡◌, Decides};
ghost use Rattle.grammar.specs.Spelling.{letters};
ghost use Rattle.std.specs.Str.{bytes_eq};
ghost use Rattle.std.specs.Cmp.Rules.{comparing};
ghost use Rattle.std.proofs.Common.{rules};

// A word of the grammar. It is never a name.
#[derive(Clone, Copy, Eq)]
pub enum Keyword {
    Var,
    At,
    Set,
    If,
    Else,
    When,
    Vendors,
    Each,
    In,
    Add,
    Drop,
    Where,
    Alter,
    Open,
    Me,
    Min,
    Max,
}

impl PartialEq for Keyword {
    ghost eq = { λ a b. bytes_eq (letters a) (letters b) };

    ghost laws = { Prim.search (comparing, rules) };

    fn eq(&self, other: &Keyword) -> bool
        ensures answer { result ≡ bytes_eq (letters self.now) (letters other.now) }
        ensures decides { Decides result (self.now ≡ other.now) }
    {
        *self as u8 == *other as u8
    }
}
