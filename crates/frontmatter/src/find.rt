// Searches over the bytes of a script. They take and give places in it, as the rules do: a slice of its text would have
// its start to be added back at each use.
ghost use Rattle.std.specs.Prelude.{◌≡◌, ℕ, ◌≤◌, Bool, length};
ghost use Rattle.frontmatter.specs.Searches.{first, past_last};
ghost use Rattle.frontmatter.specs.Lines.{at, line_end, dash_end};

// The first byte from `from` on, before `end`, that passes; `end` where there is none.
pub(crate) fn find<F: Fn(u8) -> bool>(bytes: &[u8], from: usize, end: usize, passes: F) -> usize
    requires range { (from ≤ end) × (end ≤ length bytes.now) }
    requires callable { F.IsAlwaysCallable passes }
    ensures value { (t : ℕ → Bool) → ((b : ℕ) (r : Bool) → F.post passes b r → r ≡ t b) → result ≡ first (at t bytes.now) from end }
    ensures low { from ≤ result }
    ensures high { result ≤ end }
{
    for place in from..end {
        if passes(bytes[place]) {
            return place;
        }
    }
    end
}

// The place after the last byte from `from` on, before `end`, that passes; `from` where there is none.
pub(crate) fn find_back<F: Fn(u8) -> bool>(
    bytes: &[u8],
    from: usize,
    end: usize,
    passes: F,
) -> usize
    requires range { (from ≤ end) × (end ≤ length bytes.now) }
    requires callable { F.IsAlwaysCallable passes }
    ensures value { (t : ℕ → Bool) → ((b : ℕ) (r : Bool) → F.post passes b r → r ≡ t b) → result ≡ past_last (at t bytes.now) from end }
    ensures low { from ≤ result }
    ensures high { result ≤ end }
{
    for place in (from..end).rev() {
        if passes(bytes[place]) {
            return place + 1;
        }
    }
    from
}

// Where the line that goes on at the place ends: at its LF, or at the end of the bytes.
pub(crate) fn line_end(bytes: &[u8], from: usize) -> usize
    requires { from ≤ length bytes.now }
    ensures value { result ≡ line_end bytes.now from }
    ensures low { from ≤ result }
    ensures high { result ≤ length bytes.now }
{
    find(bytes, from, bytes.len(), |byte| byte == b'\n')
}

// Where the dashes that stand at the place end.
pub(crate) fn dash_end(bytes: &[u8], from: usize) -> usize
    requires { from ≤ length bytes.now }
    ensures value { result ≡ dash_end bytes.now from }
    ensures low { from ≤ result }
    ensures high { result ≤ length bytes.now }
{
    find(bytes, from, bytes.len(), |byte| byte != b'-')
}
