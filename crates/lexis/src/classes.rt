// The kinds of bytes that come in runs.
ghost use Rattle.std.specs.Prelude.{◌≡◌, ℕ, ◌+◌, Bool, drop};
ghost use Rattle.std.specs.Fn.{FnReturnsAt};
ghost use Rattle.std.specs.List.{prefix_len};
ghost use Rattle.grammar.specs.Tokens.{blank, letter, digit};

pub(crate) fn is_blank(byte: &u8) -> bool
    ensures { result ≡ blank byte.now }
{
    matches!(*byte, b' ' | b'\n')
}

pub(crate) fn is_letter(byte: &u8) -> bool
    ensures { result ≡ letter byte.now }
{
    matches!(*byte, b'a'..=b'z')
}

pub(crate) fn is_digit(byte: &u8) -> bool
    ensures { result ≡ digit byte.now }
{
    matches!(*byte, b'0'..=b'9')
}

// Where the longest run of such bytes ends that stands at `from`.
pub(crate) fn run_end<P: Fn(&u8) -> bool>(text: &[u8], from: usize, such: P) -> usize
    requires callable { (f : _) (byte : _) → P.pre f byte }
    ensures { (holds : ℕ → Bool) → ((b : ℕ) (r : Bool) → FnReturnsAt P.Fn such b r → r ≡ holds b) → result ≡ from + prefix_len holds (drop from text.now) }
{
    if from >= text.len() {
        return from;
    }
    from + text[from..].iter().copied().take_while(such).count()
}
