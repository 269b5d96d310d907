// Joint marks: one bit for each entry, 64 to a word.
ghost use Rattle.std.specs.Prelude.{◌≡◌, ◌/◌, ◌%◌, ◌<◌, ◌==◌, cond, length, slice_index, slice_set};
ghost use Rattle.input.specs.Marks.{marked, raised};

// Whether entry n is marked.
pub(crate) fn is_marked(joint: &[u64], n: usize) -> bool
    requires { n / 64 < length joint.now }
    ensures { result ≡ marked joint.now n }
{
    joint[n / 64] >> (n % 64) & 1 == 1
}

// Marks entry n.
#[tactic(auto, using(crate::proofs::Bits::set_raised))]
pub(crate) fn mark(joint: &mut [u64], n: usize)
    requires { n / 64 < length joint.old }
    ensures { joint.new ≡ slice_set joint.old (n / 64) (raised (slice_index joint.old (n / 64)) (n % 64)) }
{
    joint[n / 64] |= 1 << (n % 64);
}

// Clears the word of entry n where the entry is the word's first: the word may hold anything till then.
pub(crate) fn begin(joint: &mut [u64], n: usize)
    requires { n / 64 < length joint.old }
    ensures { joint.new ≡ cond (n % 64 == 0) (slice_set joint.old (n / 64) 0) joint.old }
{
    if n % 64 == 0 {
        joint[n / 64] = 0;
    }
}
