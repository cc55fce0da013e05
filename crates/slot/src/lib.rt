// A program's slot in the work area: where its words lie, its states, and how a run writes its log into it (document 01, "The work area").
#![tactic(auto)]

ghost use Rattle.std.specs.Prelude.{◌≡◌, ◌+◌, ◌<◌, ◌≤◌, length, replicate, IfSome};
ghost use Rattle.base.specs.Words.{words};
ghost use Rattle.slot.specs.States.{waiting, can_settle, is_in};
ghost use Rattle.slot.specs.Layout.{count_word, first_word, list_words};
ghost use Rattle.slot.specs.Log.{place_in, found_place, layout, log_of, with_read, with_store, Holds, newest_in};

// Where the words of a slot lie: named here and nowhere else.
pub const STATE: usize = 0;

pub const DETAIL: usize = 1;

pub const READ_COUNT: usize = 2;

pub const STORE_COUNT: usize = 3;

// Each list has room for an entry per instruction.
pub const LIST: usize = image::Image::INSTRUCTIONS;

pub const READS: usize = 4;

pub const STORES: usize = READS + LIST;

pub const VALUES: usize = STORES + LIST;

pub const WORDS: usize = VALUES + LIST;

// The states. They stay numbers: words of the area that C lends and reads, by the names of include/sheetbendle.h.
pub const WAITING: u32 = 0;

pub const GATHERED: u32 = 1;

pub const REJECTED: u32 = 2;

pub const FAULTED: u32 = 3;

pub const COMMITTED: u32 = 4;

pub const CARRIED: u32 = 5;

// In the states from this one on a program is done with in this batch.
pub const FIRST_END: u32 = REJECTED;

// Check 7 refuses a state over this one.
pub const LAST_STATE: u32 = CARRIED;

// Whether a program in this state is to be settled.
#[tactic(auto, unfolding(crate::specs::States::can_settle))]
pub fn can_settle(state: u32) -> bool
    ensures { result ≡ can_settle state }
{
    state == GATHERED
}

// The programs that the listed order names, and those that the next image has.
#[derive(Clone, Copy)]
pub enum Group {
    Committed,
    Carried,
}

// Whether a state is one of a group's.
#[tactic(auto, unfolding(crate::specs::States::is_in, crate::specs::States::is_committed, crate::specs::States::is_carried))]
pub fn is_in(group: Group, state: u32) -> bool
    ensures { result ≡ is_in group state }
{
    match group {
        Group::Committed => state == COMMITTED,
        Group::Carried => state == CARRIED,
    }
}

// The lists of a slot that name cells.
#[derive(Clone, Copy)]
pub enum ListKind {
    Reads,
    Stores,
}

// Where a list's count stands.
pub fn count_word(list: ListKind) -> usize
    ensures { result ≡ count_word list }
{
    match list {
        ListKind::Reads => READ_COUNT,
        ListKind::Stores => STORE_COUNT,
    }
}

// Where its first cell stands.
pub fn first_word(list: ListKind) -> usize
    ensures { result ≡ first_word list }
{
    match list {
        ListKind::Reads => READS,
        ListKind::Stores => STORES,
    }
}

// Every word is 0.
pub fn clear(words: &mut [u32])
    ensures { words.new ≡ replicate (length words.old) 0 }
{
    words.fill(0);
}

// Where x stands among the n words from the word at on: its last place there, since the newest is looked at first.
fn newest_place(slot: &[u32], at: usize, n: usize, x: u32) -> Option<usize>
    requires { at + n ≤ length slot.now }
    ensures { result ≡ found_place (newest_in x (words at n slot.now)) }
{
    slot[at..at + n].iter().rposition(|word| *word == x)
}

// How a run knows what it has stored: the place of cell c among the stored ones, if it is there.
#[tactic(auto, using(crate::proofs::Noted::stored_found, crate::proofs::Noted::stored_below))]
pub fn stored_place(slot: &[u32], c: u32) -> Option<usize>
    requires { Holds slot.now }
    ensures place { result ≡ found_place (place_in c (log_of slot.now).cells) }
    ensures below { IfSome result (λ k. k < list_words) }
{
    newest_place(slot, STORES, slot[STORE_COUNT] as usize, c)
}

// The run stores v to cell c: at its place among the stored cells, or as a new one.
#[tactic(auto, using(crate::proofs::Noted::store_new, crate::proofs::Noted::store_old))]
pub fn note_store(slot: &mut [u32], c: u32, v: u32)
    requires { Holds slot.old }
    ensures { slot.new ≡ layout waiting 0 (with_store (log_of slot.old) c v) }
{
    match stored_place(slot, c) {
        Some(k) => slot[VALUES + k] = v,
        None => {
            let n = slot[STORE_COUNT] as usize;
            slot[STORES + n] = c;
            slot[VALUES + n] = v;
            slot[STORE_COUNT] = (n + 1) as u32;
        }
    }
}

// The run reads cell c, which it has not stored: the cell is among the reads, once.
#[tactic(auto, using(crate::proofs::Noted::read_new, crate::proofs::Noted::read_old))]
pub fn note_read(slot: &mut [u32], c: u32)
    requires { Holds slot.old × (place_in c (log_of slot.old).cells ≡ 0) }
    ensures { slot.new ≡ layout waiting 0 (with_read (log_of slot.old) c) }
{
    let n = slot[READ_COUNT] as usize;
    if newest_place(slot, READS, n, c).is_none() {
        slot[READS + n] = c;
        slot[READ_COUNT] = (n + 1) as u32;
    }
}
