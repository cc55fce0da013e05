// Guarded cells (document 02, ask 5): a word read as a signed number, the guard list, and which values it lets into a cell.
#![tactic(auto)]

ghost use Rattle.std.specs.Prelude.{◌≡◌, ◌+◌, ◌*◌, ◌<◌, length, int_lt};
ghost use Rattle.guard.specs.Signed.{signed};
ghost use Rattle.guard.specs.Guards.{guard_words, pairs_for, admits, full_end, full_range};

// The smallest signed number and the largest, as words: the two ends of the full range.
pub const LOWEST: u32 = 2147483648;

pub const HIGHEST: u32 = 2147483647;

// How many words a cell has in a guard list: its low end and its high one.
pub const ENDS: usize = 2;

// Whether a word is less than another, both read as signed numbers: with 2^31 added to both, modulo 2^32, their order is that of words.
#[tactic(auto, using(crate::proofs::Laws::signed_order))]
pub fn less(x: u32, y: u32) -> bool
    ensures { result ≡ int_lt (signed x) (signed y) }
{
    x.wrapping_add(LOWEST) < y.wrapping_add(LOWEST)
}

// Check 14: whether a list has a pair for each of so many cells.
#[tactic(auto, unfolding(crate::specs::Guards::pairs_for))]
pub fn pairs_for(cells: usize, guards: &[u32]) -> bool
    requires { cells < 65536 }
    ensures { result ≡ pairs_for cells guards.now }
{
    guards.len() == ENDS * cells
}

// Whether a cell's guard lets a value in.
#[tactic(auto, unfolding(crate::specs::Guards::admits))]
pub fn admits(guards: &[u32], cell: usize, value: u32) -> bool
    requires { guard_words cell + 1 < length guards.now }
    ensures { result ≡ admits guards.now cell value }
{
    let at = ENDS * cell;
    if less(value, guards[at]) {
        return false;
    }
    !less(guards[at + 1], value)
}

// The end of the full range that stands at a place of a list.
#[tactic(auto, unfolding(crate::specs::Guards::full_end))]
fn full_end(at: usize) -> u32
    ensures { result ≡ full_end at }
{
    if at % ENDS == 0 { LOWEST } else { HIGHEST }
}

// The list becomes one that lets every value into every cell.
#[tactic(auto, using(base::proofs::Tables::tabulate_is))]
pub fn full_range(guards: &mut [u32])
    ensures { guards.new ≡ full_range (length guards.old) }
{
    for (i, end) in guards.iter_mut().enumerate() {
        *end = full_end(i);
    }
}
