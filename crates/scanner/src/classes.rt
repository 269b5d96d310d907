// Classes of bytes.
ghost use Rattle.std.specs.Prelude.{◌≡◌, ℕ, ◌<◌, ◌≤◌, Bool, length};
ghost use Rattle.std.specs.List.{prefix_len};
ghost use Rattle.scanner.specs.Classes.{letter, digit, word};

// An ASCII letter or `_`.
pub(crate) fn is_letter(byte: u8) -> bool
    ensures { result ≡ letter byte }
{
    matches!(byte as char, 'a'..='z' | 'A'..='Z' | '_')
}

pub(crate) fn is_digit(byte: u8) -> bool
    ensures { result ≡ digit byte }
{
    matches!(byte as char, '0'..='9')
}

// A letter, `_` or a digit.
pub(crate) fn is_word(byte: u8) -> bool
    ensures { result ≡ word byte }
{
    is_letter(byte) || is_digit(byte)
}

// How many bytes from the front on pass.
pub(crate) fn run_len<P: Fn(u8) -> bool>(text: &[u8], passes: P) -> usize
    requires { P.IsAlwaysCallable passes }
    ensures within { result ≤ length text.now }
    ensures value { (test : ℕ → Bool) → ((x : ℕ) (b : Bool) → P.post passes x b → b ≡ test x) → result ≡ prefix_len test text.now }
{
    text.iter().take_while(|b| passes(**b)).count()
}
