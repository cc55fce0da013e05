// What is said of a program that has ended (document 02, asks 3 and 5): a line that a script can read, and behind it why, in words. In each text a # is the
// next of the numbers behind it.
#![tactic(auto)]

ghost use Rattle.std.specs.Prelude.{◌++◌};
ghost use Rattle.text.specs.Filled.{filled};
ghost use Rattle.text.specs.Paper.{Put, Fits};
ghost use Rattle.sentences.specs.Sentences.{free, turned, waw, raw, raw_with_war, more_batches, again, rejected, load_fault, store_fault};
ghost use Rattle.sentences.specs.Sentences.{signed_text, then_signed, not_admitted, guard_fault};

// The most bytes of what is said of one program, where each number has at most 10 digits: the line and the words of reason 3, and behind them what comes of
// the program.
pub const LONGEST: usize = 52 + 199 + 10 * 13 + 103 + 10 * 2;

// Two texts, one behind the other: a script's line, and the words.
fn put_both(page: &mut text::Page, line: &[u8], numbers: &[u32], words: &[u8], others: &[u32])
    requires { Fits page.old (filled line.now numbers.now ++ filled words.now others.now) }
    ensures { Put page.old (filled line.now numbers.now ++ filled words.now others.now) page.new }
{
    page.filled(line, numbers);
    page.filled(words, others)
}

// A committed program without RAW.
#[tactic(auto, unfolding(crate::specs::Sentences::committed_line, crate::specs::Sentences::free))]
pub fn put_free(page: &mut text::Page, number: u32)
    requires { Fits page.old (free number) }
    ensures { Put page.old (free number) page.new }
{
    put_both(
        page,
        b"# committed\n",
        &[number],
        b"  No earlier program stores a cell that it reads or stores, so its stores are in the table.\n",
        &[],
    )
}

// A committed program with RAW: it counts as if it had run before the one that stores what it read.
#[tactic(auto, unfolding(crate::specs::Sentences::committed_line, crate::specs::Sentences::turned))]
pub fn put_turned(page: &mut text::Page, number: u32, cause: causes::Cause)
    requires { Fits page.old (turned number cause) }
    ensures { Put page.old (turned number cause) page.new }
{
    put_both(
        page,
        b"# committed\n",
        &[number],
        b"  It read cell # as it was when the batch was opened, while program # stores it,\n  \
          so it comes before program # (# -> #), and its stores are in the table.\n",
        &[
            cause.cell,
            cause.program,
            cause.program,
            cause.program,
            number,
        ],
    )
}

// A program that was carried for reason 1. It and the next differ in their two texts alone, and `put_both` is what they have in common.
#[tactic(auto, unfolding(crate::specs::Sentences::waw_line, crate::specs::Sentences::waw))]
pub fn put_waw(page: &mut text::Page, number: u32, cause: causes::Cause)
    requires { Fits page.old (waw number cause) }
    ensures { Put page.old (waw number cause) page.new }
{
    put_both(
        page,
        b"# carried waw cell # program #\n",
        &[number, cause.cell, cause.program],
        b"  It stores cell #, and so does program #, which comes first: the two cannot both count in one batch.\n",
        &[cause.cell, cause.program],
    )
}

// A program that was carried for reason 2.
#[tactic(auto, unfolding(crate::specs::Sentences::raw_line, crate::specs::Sentences::raw))]
pub fn put_raw(page: &mut text::Page, number: u32, cause: causes::Cause)
    requires { Fits page.old (raw number cause) }
    ensures { Put page.old (raw number cause) page.new }
{
    put_both(
        page,
        b"# carried raw cell # program #\n",
        &[number, cause.cell, cause.program],
        b"  It read cell # as it was when the batch was opened, while program #, which comes first, stores it.\n",
        &[cause.cell, cause.program],
    )
}

// A program that was carried for reason 3: it would have to come before one program and after another.
#[tactic(auto, unfolding(crate::specs::Sentences::raw_with_war_line, crate::specs::Sentences::raw_with_war))]
pub fn put_raw_with_war(page: &mut text::Page, number: u32, raw: causes::Cause, war: causes::Cause)
    requires { Fits page.old (raw_with_war number raw war) }
    ensures { Put page.old (raw_with_war number raw war) page.new }
{
    put_both(
        page,
        b"# carried raw cell # program # war cell # program #\n",
        &[number, raw.cell, raw.program, war.cell, war.program],
        b"  It would have to come before program #, which stores cell # that it read as it was (RAW, # -> #),\n  \
          and after program #, which read cell # that it stores (WAR, # -> #): the two can close a circle.\n",
        &[
            raw.program,
            raw.cell,
            raw.program,
            number,
            war.program,
            war.cell,
            number,
            war.program,
        ],
    )
}

// How many batches it takes at most.
#[tactic(auto, unfolding(crate::specs::Sentences::more_batches))]
fn put_batches(page: &mut text::Page, batches: u32)
    requires { Fits page.old (more_batches batches) }
    ensures { Put page.old (more_batches batches) page.new }
{
    if batches == 1 {
        return page.filled(b"# more batch.\n", &[batches]);
    }
    page.filled(b"# more batches.\n", &[batches])
}

// What comes of a carried program: its number in the next batch, and within how many batches it ends.
#[tactic(auto, unfolding(crate::specs::Sentences::again))]
pub fn put_again(page: &mut text::Page, place: u32, batches: u32)
    requires { Fits page.old (again place batches) }
    ensures { Put page.old (again place batches) page.new }
{
    page.filled(
        b"  Its reservations stay; it runs again in the next batch, as number #, and ends within ",
        &[place],
    );
    put_batches(page, batches)
}

// A program that rejected.
#[tactic(auto, unfolding(crate::specs::Sentences::rejected_line, crate::specs::Sentences::rejected))]
pub fn put_rejected(page: &mut text::Page, number: u32, code: u32)
    requires { Fits page.old (rejected number code) }
    ensures { Put page.old (rejected number code) page.new }
{
    put_both(
        page,
        b"# rejected code #\n",
        &[number, code],
        b"  It rejected with code #, so it stores nothing, reserves nothing and is not carried.\n",
        &[code],
    )
}

// A program that faulted at a load.
#[tactic(auto, unfolding(crate::specs::Sentences::load_fault_line, crate::specs::Sentences::load_fault))]
pub fn put_load_fault(page: &mut text::Page, number: u32, place: u32, last: u32)
    requires { Fits page.old (load_fault number place last) }
    ensures { Put page.old (load_fault number place last) page.new }
{
    put_both(
        page,
        b"# faulted load at #\n",
        &[number, place],
        b"  Its instruction #, counted from 0, loads a cell outside the table, whose last cell is #.\n  \
          It stores nothing, reserves nothing and is not carried.\n",
        &[place, last],
    )
}

// A program that faulted at a store. Apart from that of a load: one function with both texts as its parameters would be no shorter.
#[tactic(auto, unfolding(crate::specs::Sentences::store_fault_line, crate::specs::Sentences::store_fault))]
pub fn put_store_fault(page: &mut text::Page, number: u32, place: u32, last: u32)
    requires { Fits page.old (store_fault number place last) }
    ensures { Put page.old (store_fault number place last) page.new }
{
    put_both(
        page,
        b"# faulted store at #\n",
        &[number, place],
        b"  Its instruction #, counted from 0, stores to a cell outside the table, whose last cell is #.\n  \
          It stores nothing, reserves nothing and is not carried.\n",
        &[place, last],
    )
}

// 2^32: a word that is a negative number is so much less.
const WORDS: u64 = 4294967296;

// A word read as a signed number, in decimal: a minus stands before the digits of a negative one.
#[tactic(auto, using(crate::proofs::Signs::no_sign, crate::proofs::Signs::minus_sign))]
fn put_signed(page: &mut text::Page, word: u32)
    requires { Fits page.old (signed_text word) }
    ensures { Put page.old (signed_text word) page.new }
{
    if word < guard::LOWEST {
        return page.decimal(word as u64);
    }
    page.byte(b'-');
    page.decimal(WORDS - word as u64)
}

// A text with numbers in it, and behind it a word read as a signed number.
#[tactic(auto, unfolding(crate::specs::Sentences::then_signed))]
fn put_then_signed(page: &mut text::Page, text: &[u8], numbers: &[u32], word: u32)
    requires { Fits page.old (then_signed text.now numbers.now word) }
    ensures { Put page.old (then_signed text.now numbers.now word) page.new }
{
    page.filled(text, numbers);
    put_signed(page, word)
}

// The words of a store that a guard did not admit: the value, the cell, and the guard's two ends.
#[tactic(auto, unfolding(crate::specs::Sentences::not_admitted))]
fn put_not_admitted(page: &mut text::Page, place: u32, store: machine::Store, low: u32, high: u32)
    requires { Fits page.old (not_admitted place store low high) }
    ensures { Put page.old (not_admitted place store low high) page.new }
{
    put_then_signed(
        page,
        b"  Its instruction #, counted from 0, stores ",
        &[place],
        store.value,
    );
    put_then_signed(
        page,
        b" to cell #, whose guard asks for at least ",
        &[store.cell],
        low,
    );
    put_then_signed(page, b" and at most ", &[], high);
    page.bytes(b".\n  It stores nothing, reserves nothing and is not carried.\n")
}

// A program that faulted at a store which the cell's guard did not admit.
#[tactic(auto, unfolding(crate::specs::Sentences::guard_fault_line, crate::specs::Sentences::guard_fault))]
pub fn put_guard_fault(
    page: &mut text::Page,
    number: u32,
    place: u32,
    store: machine::Store,
    low: u32,
    high: u32,
)
    requires { Fits page.old (guard_fault number place store low high) }
    ensures { Put page.old (guard_fault number place store low high) page.new }
{
    page.filled(b"# faulted guard at #\n", &[number, place]);
    put_not_admitted(page, place, store, low, high)
}
