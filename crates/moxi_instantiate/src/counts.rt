// Counts that stop just above every limit, since the counted system may be exponential in the
// script.
ghost use Rattle.std.specs.Prelude.{◌≡◌, ◌+◌, ◌-◌, ◌*◌, ◌/◌, ◌≤◌, max};
ghost use Rattle.moxi_instantiate.specs.Counting.{capped, known};

/// The number at which counting stops: one above the largest size that a flat system may have.
pub const MOST: u64 = 2_000_001;

#[tactic(auto, using(crate::proofs::Capping::capped_low, crate::proofs::Capping::capped_high))]
pub(crate) fn cap(n: u64) -> u64
    ensures value { result ≡ capped n }
    ensures bound { result ≤ MOST }
{
    if n < MOST { n } else { MOST }
}

pub(crate) fn sum(a: u64, b: u64) -> u64
    requires first { a ≤ MOST }
    requires second { b ≤ MOST }
    ensures value { result ≡ capped (a + b) }
    ensures bound { result ≤ MOST }
{
    cap(a + b)
}

pub(crate) fn greater(a: u64, b: u64) -> u64
    requires first { a ≤ MOST }
    requires second { b ≤ MOST }
    ensures value { result ≡ max a b }
    ensures bound { result ≤ MOST }
{
    a.max(b)
}

// The number of neighbouring pairs among this many elements.
pub(crate) fn neighbours(n: usize) -> u64
    ensures value { result ≡ capped (n - 1) }
    ensures bound { result ≤ MOST }
{
    if n == 0 { cap(0) } else { cap(n as u64 - 1) }
}

// The number of pairs among this many elements.
pub(crate) fn pairs(n: usize) -> u64
    ensures value { result ≡ capped (n * (n - 1) / 2) }
    ensures bound { result ≤ MOST }
{
    if n == 0 {
        0
    } else if n > 4_000 {
        MOST
    } else {
        let count = n as u64;
        cap(count * (count - 1) / 2)
    }
}

// The count for this number, or 0 beyond the counted numbers.
pub(crate) fn known(counts: &[u64], n: u32) -> u64
    ensures value { result ≡ capped (known counts.now n) }
    ensures bound { result ≤ MOST }
{
    match counts.get(n as usize) {
        Some(count) => cap(*count),
        None => cap(0),
    }
}
