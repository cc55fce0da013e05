// Text in a buffer: a page that is written from its front on, and numbers in decimal, written and read.
#![tactic(auto)]

ghost use Rattle.std.specs.Prelude.{◌≡◌, cond, ◌+◌, ◌-◌, ◌*◌, ◌≤◌, length, Ok, Err};
ghost use Rattle.text.specs.Decimal.{digit, decimal, is_digit, all_digits, leads, value, numeral, over, capped};
ghost use Rattle.text.specs.declared.Misread.TheVariants.{NoNumber};

mod page;

pub use page::Page;

// Why a word is no number that is meant.
#[derive(Clone, Copy, PartialEq, Eq)]
pub enum Misread {
    TooLarge,
    NoNumber,
}

// How many digits a number has in decimal: one, and one more for each time that it can be divided by 10.
#[tactic(auto, using(crate::proofs::Decimals::length_small, crate::proofs::Decimals::length_at))]
pub fn decimal_length(n: u32) -> usize
    ensures { result ≡ length (decimal n) }
{
    if n == 0 { 1 } else { n.ilog10() as usize + 1 }
}

// Whether it is one byte, or several of which the first is not the digit 0.
#[tactic(auto, using(crate::proofs::Reading::leads_none, crate::proofs::Reading::leads_one, crate::proofs::Reading::leads_long))]
fn leads(word: &[u8]) -> bool
    ensures { result ≡ leads word.now }
{
    match word {
        [] => false,
        [_] => true,
        [first, ..] => *first != b'0',
    }
}

// 2^32: more than any number of 32 bits.
const OVER: u64 = 4294967296;

// A number with a digit more behind it, as far as 2^32.
#[tactic(auto, unfolding(crate::specs::Decimal::is_digit))]
fn with_digit(v: u64, byte: u8) -> Result<u64, Misread>
    requires { v ≤ over }
    ensures { result ≡ cond (is_digit byte) (Ok (capped (10 * v + (byte - digit 0)))) (Err NoNumber) }
{
    if !byte.is_ascii_digit() {
        return Err(Misread::NoNumber);
    }
    Ok(OVER.min(10 * v + (byte - b'0') as u64))
}

// The number that the digits of a word are, as far as 2^32.
fn value_of(word: &[u8]) -> Result<u64, Misread>
    ensures { result ≡ cond (all_digits word.now) (Ok (capped (value word.now))) (Err NoNumber) }
{
    let mut v = 0;
    for &byte in word {
        v = with_digit(v, byte)?;
    }
    Ok(v)
}

// Reads a word as a number up to the largest that is meant. How it begins is asked first, so that one that begins with a 0 is not read through.
pub fn number_of(word: &[u8], largest: u32) -> Result<u32, Misread>
    ensures { result ≡ numeral largest word.now }
{
    if !leads(word) {
        return Err(Misread::NoNumber);
    }
    let v = value_of(word)?;
    if (largest as u64) < v {
        return Err(Misread::TooLarge);
    }
    Ok(v as u32)
}
