// Sets of programs as masks, a bit each: whether a set has a program, how many it has, all of them, and the smallest.
#![tactic(auto)]

ghost use Rattle.std.specs.Prelude.{◌≡◌, true, cond, ◌+◌, ◌^◌, ◌<◌, ◌≤◌};
ghost use Rattle.base.specs.Words.{count};
ghost use Rattle.base.specs.Masks.{word_bits, has_bit, mask_of, Least};

// Whether a set has program k.
#[tactic(auto, using(base::proofs::Masks::bit_is))]
pub fn has(mask: u64, k: usize) -> bool
    requires { k < word_bits }
    ensures { result ≡ has_bit mask k }
{
    mask >> k & 1 == 1
}

// A set of programs below k, with k or without.
#[tactic(auto, using(base::proofs::Masks::bit_in))]
pub fn with_bit(mask: u64, k: usize, set: bool) -> u64
    requires { (k < word_bits) × (mask < 2 ^ k) }
    ensures { result ≡ mask + cond set (2 ^ k) 0 }
{
    if set { mask | 1 << k } else { mask }
}

// How many of the first n programs a set has.
#[tactic(auto, using(base::proofs::Counts::count_le), unfolding(base::specs::Words::count))]
pub fn count(mask: u64, n: usize) -> usize
    requires { n ≤ word_bits }
    ensures { (result ≡ count (has_bit mask) n) × (result ≤ n) }
{
    let mut found = 0;
    for k in 0..n {
        found += usize::from(has(mask, k));
    }
    found
}

// The set of the first n programs.
#[tactic(auto, using(base::proofs::Masks::mask_all, base::proofs::Masks::shifted))]
pub fn all(n: usize) -> u64
    requires { n ≤ word_bits }
    ensures { result ≡ mask_of (λ k. true) n }
{
    if n == 64 { u64::MAX } else { (1 << n) - 1 }
}

// The smallest program of a set that has one.
pub fn least(mask: u64) -> usize
    requires { (0 < mask) × (mask < 2 ^ word_bits) }
    ensures { Least mask result }
{
    mask.trailing_zeros() as usize
}
