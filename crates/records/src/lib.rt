//! Records in order, and the one search through them: how many lie before what is sought.
#![tactic(auto)]

ghost use Rattle.std.specs.Prelude.{◌≡◌, ℕ, Bool, map, nat_lt};
ghost use Rattle.records.specs.Cuts.{bisect, Partitioned, Cuts};
ghost use Rattle.records.specs.Keys.{Ascending, first, searched};

// What is sought among records: a record lies before it or not. A trait and not a closure, since the clauses of the
// search name the answer at each record (`before`), and a closure's `post` only relates answers.
pub trait Probe<R> {
    ghost before: { Self → R → Bool };

    fn is_before(&self, item: &R) -> bool
        ensures { result ≡ before self.now item.now };
}

// A record that carries a number.
pub trait Keyed {
    ghost key: { Self → ℕ };

    fn key(&self) -> u32
        ensures { result ≡ key self.now };
}

// The number that is sought among records that carry one.
#[derive(Clone, Copy, Debug, PartialEq, Eq)]
pub struct Number {
    pub number: u32,
}

impl<R: Keyed> Probe<R> for Number {
    ghost before = { λ sought item. nat_lt (R.Keyed.key item) sought.number };

    fn is_before(&self, item: &R) -> bool {
        item.key() < self.number
    }
}

// How many records at the front lie before what is sought.
// A loop, since std's `partition_point` says its place for parted records alone, and `value` for any.
pub fn cut_point<R, P: Probe<R>>(records: &[R], probe: &P) -> usize
    ensures value { result ≡ bisect (P.Probe.before probe.now) records.now }
    ensures cuts { Partitioned (map (P.Probe.before probe.now) records.now) → Cuts (map (P.Probe.before probe.now) records.now) result }
{
    let mut low = 0;
    let mut high = records.len();
    while low < high {
        let mid = low + (high - low) / 2;
        if probe.is_before(&records[mid]) {
            low = mid + 1;
        } else {
            high = mid;
        }
    }
    low
}

// The place of the first record that carries the number.
pub fn first_at<R: Keyed>(records: &[R], number: u32) -> Option<usize>
    ensures value { result ≡ searched R.Keyed.key number records.now }
    ensures first { Ascending (map R.Keyed.key records.now) → result ≡ first number (map R.Keyed.key records.now) }
{
    let place = cut_point(records, &Number { number });
    let here = records
        .get(place)
        .is_some_and(|record| record.key() == number);
    here.then_some(place)
}
