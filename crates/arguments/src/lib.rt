// The arguments of the programs `cells` and `guards` as words, and what is said of those that are none: one line, however long the argument and whatever its
// bytes. All that differs between the two programs is told by the kind of their arguments.
#![tactic(auto)]

ghost use Rattle.std.specs.Prelude.{◌≡◌, ◌<◌, ◌≤◌, length, map, ◌==◌, slice_index};
ghost use Rattle.text.specs.Decimal.{numeral};
ghost use Rattle.text.specs.Writing.{PageSays};
ghost use Rattle.text.specs.Paper.{Put, Fits};
ghost use Rattle.guard.specs.Signed.{lowest};
ghost use Rattle.arguments.specs.Kinds.{per_cell, most_arguments, largest};
ghost use Rattle.arguments.specs.Readings.{minus, negative, negated, upwards, downwards, reading};
ghost use Rattle.arguments.specs.Words.{none_words, noun, many_words, odd_words, whole_cells, count_words};
ghost use Rattle.arguments.specs.Words.{shown_byte, shown_word, no_word_text, no_word_words, most_words, ArgumentSays};

use text::{Misread, Page};

// What the arguments are: the cells of a table, or the ends of its guards, low and high of each cell in turn.
#[derive(Clone, Copy)]
pub enum Kind {
    Cells,
    Ends,
}

// How many there are for each cell.
fn per_cell(kind: Kind) -> usize
    ensures { (result ≡ per_cell kind) × (1 ≤ result) × (result ≤ 2) }
{
    match kind {
        Kind::Cells => 1,
        Kind::Ends => guard::ENDS,
    }
}

// How many there are at most.
fn most_arguments(kind: Kind) -> usize
    ensures { (result ≡ most_arguments kind) × (result ≤ most_arguments Kind.Ends) }
{
    image::Image::CELLS * per_cell(kind)
}

// The largest number.
fn largest(kind: Kind) -> u32
    ensures { result ≡ largest kind }
{
    match kind {
        Kind::Cells => u32::MAX,
        Kind::Ends => guard::HIGHEST,
    }
}

// ---- an argument as a word

// Why an argument is no word of its kind: a number that is too large or too small, or no number.
#[derive(Clone, Copy, PartialEq, Eq)]
pub enum NoWord {
    Over,
    Under,
    NoNumber,
}

fn minus_first(word: &[u8]) -> bool
    ensures { result ≡ (slice_index word.now 0 == minus) }
{
    word.first() == Some(&b'-')
}

// Whether a minus stands before the number.
#[tactic(auto, unfolding(crate::specs::Readings::negative))]
fn negative(kind: Kind, word: &[u8]) -> bool
    ensures { result ≡ negative kind word.now }
{
    match kind {
        Kind::Cells => false,
        Kind::Ends => minus_first(word),
    }
}

// The word that is -n as a signed number.
fn negated(n: u32) -> u32
    ensures { result ≡ negated n }
{
    n.wrapping_neg()
}

// A number as a word.
#[tactic(auto, unfolding(crate::specs::Readings::upwards))]
fn upwards(word: &[u8], largest: u32) -> Result<u32, NoWord>
    ensures { result ≡ upwards (numeral largest word.now) }
{
    match text::number_of(word, largest) {
        Ok(n) => Ok(n),
        Err(Misread::TooLarge) => Err(NoWord::Over),
        Err(Misread::NoNumber) => Err(NoWord::NoNumber),
    }
}

// The number behind a minus as a word.
#[tactic(auto, unfolding(crate::specs::Readings::downwards))]
fn downwards(word: &[u8]) -> Result<u32, NoWord>
    ensures { result ≡ downwards (numeral lowest word.now) }
{
    match text::number_of(word, guard::LOWEST) {
        Ok(n) => Ok(negated(n)),
        Err(Misread::TooLarge) => Err(NoWord::Under),
        Err(Misread::NoNumber) => Err(NoWord::NoNumber),
    }
}

// An argument as a word of its kind.
#[tactic(auto, unfolding(crate::specs::Readings::reading, crate::specs::Readings::negative))]
fn read(kind: Kind, word: &[u8]) -> Result<u32, NoWord>
    ensures { result ≡ reading kind word.now }
{
    if negative(kind, word) {
        return downwards(&word[1..]);
    }
    upwards(word, largest(kind))
}

// ---- what is said of how many there are

// The most bytes of the words.
pub const MOST: usize = 100;

// There is none.
#[tactic(auto, unfolding(crate::specs::Words::none_words))]
fn put_none(page: &mut Page, kind: Kind)
    requires { Fits page.old (none_words kind) }
    ensures { Put page.old (none_words kind) page.new }
{
    let numbers = [image::Image::LEAST_CELLS as u32, image::Image::CELLS as u32];
    match kind {
        Kind::Cells => page.filled(b"give the table's cells, # to # numbers", &numbers),
        Kind::Ends => page.filled(
            b"give the low end and the high end of each cell, # to # pairs",
            &numbers,
        ),
    }
}

#[tactic(auto, unfolding(crate::specs::Words::noun))]
fn put_noun(page: &mut Page, kind: Kind)
    requires { Fits page.old (noun kind) }
    ensures { Put page.old (noun kind) page.new }
{
    match kind {
        Kind::Cells => page.bytes(b" cells"),
        Kind::Ends => page.bytes(b" ends"),
    }
}

// There are too many.
#[tactic(auto, unfolding(crate::specs::Words::many_words))]
fn put_many(page: &mut Page, kind: Kind, count: usize)
    requires { Fits page.old (many_words kind count) }
    ensures { Put page.old (many_words kind count) page.new }
{
    page.decimal(count as u64);
    put_noun(page, kind);
    page.filled(
        b", and a table has at most #",
        &[most_arguments(kind) as u32],
    );
}

// There is a low end without its high one.
#[tactic(auto, unfolding(crate::specs::Words::odd_words))]
fn put_odd(page: &mut Page, count: usize)
    requires { (count ≤ most_arguments Kind.Ends) × Fits page.old (odd_words count) }
    ensures { Put page.old (odd_words count) page.new }
{
    page.filled(
        b"the last cell, number #, has no high end",
        &[(count / guard::ENDS) as u32],
    );
}

// Whether each cell has all of its arguments.
#[tactic(auto, unfolding(crate::specs::Words::whole_cells))]
fn whole_cells(kind: Kind, count: usize) -> bool
    ensures { result ≡ whole_cells kind count }
{
    count % per_cell(kind) == 0
}

// So many arguments: nothing is said where that is a number of them that is good.
#[tactic(auto, using(text::proofs::Pages::page_done, crate::proofs::Said::none_short, crate::proofs::Said::many_short, crate::proofs::Said::odd_short), unfolding(crate::specs::Words::count_words))]
pub fn put_count(kind: Kind, out: &mut [u8], count: usize) -> usize
    requires { most_words ≤ length out.old }
    ensures { PageSays (count_words kind count) out.old result out.new }
{
    let mut page = Page::new(out);
    if count == 0 {
        put_none(&mut page, kind);
    } else if most_arguments(kind) < count {
        put_many(&mut page, kind, count);
    } else if !whole_cells(kind, count) {
        put_odd(&mut page, count);
    }
    page.end()
}

// ---- what is said of one

// A byte as it is shown: one that is no letter, digit or sign of ASCII as a question mark.
#[tactic(auto, unfolding(crate::specs::Words::shown_byte))]
fn shown_byte(byte: u8) -> u8
    ensures { result ≡ shown_byte byte }
{
    match byte {
        b' '..=b'~' => byte,
        _ => b'?',
    }
}

// How many bytes of an argument are shown.
const MOST_SHOWN: usize = 40;

// The first bytes of an argument.
fn put_shown_bytes(page: &mut Page, word: &[u8])
    requires { Fits page.old (map shown_byte word.now) }
    ensures { Put page.old (map shown_byte word.now) page.new }
{
    for &byte in word {
        page.byte(shown_byte(byte));
    }
}

// An argument as it is shown.
#[tactic(auto, unfolding(crate::specs::Words::shown_word))]
fn put_word(page: &mut Page, word: &[u8])
    requires { Fits page.old (shown_word word.now) }
    ensures { Put page.old (shown_word word.now) page.new }
{
    let shown = word.len().min(MOST_SHOWN);
    put_shown_bytes(page, &word[..shown]);
    if shown < word.len() {
        page.bytes(b"...");
    }
}

// What is said of the argument at a place, from 1, by why it is no word: a text with numbers in it, and behind it the argument.
#[tactic(auto, unfolding(crate::specs::Words::no_word_text, crate::specs::Words::no_word_words))]
fn put_no_word(page: &mut Page, kind: Kind, none: NoWord, place: u32, word: &[u8])
    requires { Fits page.old (no_word_words kind none place word.now) }
    ensures { Put page.old (no_word_words kind none place word.now) page.new }
{
    match none {
        NoWord::Over => page.filled(b"argument # is over #: ", &[place, largest(kind)]),
        NoWord::Under => page.filled(b"argument # is under -#: ", &[place, guard::LOWEST]),
        NoWord::NoNumber => page.filled(b"argument # is no number: ", &[place]),
    }
    put_word(page, word);
}

// ---- an argument as word k of a list

// Its word goes there and nothing is said, or it is said why it is none, and the list stays.
#[tactic(auto, using(text::proofs::Pages::page_done, crate::proofs::Said::no_word_short), unfolding(crate::specs::Words::argument_words, crate::specs::Words::with_word))]
pub fn take(kind: Kind, list: &mut [u32], k: usize, word: &[u8], out: &mut [u8]) -> usize
    requires { (k < length list.old) × (k < most_arguments Kind.Ends) × (most_words ≤ length out.old) }
    ensures { ArgumentSays kind word.now k list.old out.old result list.new out.new }
{
    let mut page = Page::new(out);
    match read(kind, word) {
        Ok(w) => list[k] = w,
        Err(none) => put_no_word(&mut page, kind, none, (k + 1) as u32, word),
    }
    page.end()
}
