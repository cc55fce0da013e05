// What the programs share that read standard input: the input is read into a room, a page is made of it and printed, and words are said beside it. Where no
// page is made, a complaint says why, and that is all.
#![tactic(auto)]

ghost use Rattle.std.specs.Prelude.{◌≡◌, ◌≤◌, ◌<◌, ◌^◌, length, IfOk};

// The words about an input that is longer than any that is taken; the number is `converted::LONGEST_INPUT`.
pub const TOO_LONG: [u8; 38] = *b"the input is longer than 1048576 bytes";

// The words about a batch that has no programs.
pub const NO_PROGRAMS: [u8; 25] = *b"the batch has no programs";

// Why no page is made of an input.
#[derive(Clone, Copy)]
pub enum NoPage {
    TooLong,
    NoPrograms,
}

impl NoPage {
    fn words(self) -> &'static [u8] {
        match self {
            NoPage::TooLong => &TOO_LONG,
            NoPage::NoPrograms => &NO_PROGRAMS,
        }
    }
}

// Runs a program of a name, in rooms for the longest input, the longest page and the most words.
pub fn run<
    const INPUT: usize,
    const PAGE: usize,
    const WORDS: usize,
    P: FnOnce(&[u8], &mut [u8]) -> Result<usize, NoPage>,
    S: FnOnce(&[u8], &mut [u8]) -> usize,
>(rt: &impl Input, name: &[u8], page: P, said: S)
    requires rooms { (INPUT < 2 ^ 63) × (PAGE < 2 ^ 63) × (WORDS < 2 ^ 63) }
    requires page_may { (i : _) (o : _) → length o.now ≡ PAGE → P.pre page i o }
    requires page_fits { (i : _) (o : _) (r : _) (u : _) → length o.now ≡ PAGE → P.post page i o r u → IfOk r (λ end. end ≤ PAGE) }
    requires said_may { (i : _) (o : _) → length o.now ≡ WORDS → S.pre said i o }
    requires said_fits { (i : _) (o : _) (n : _) (u : _) → length o.now ≡ WORDS → S.post said i o n u → n ≤ WORDS }
{
    let mut bytes = [0u8; INPUT];
    let n = input::read_input(rt, name, &mut bytes);
    let mut out = [0u8; PAGE];
    match page(&bytes[..n], &mut out) {
        Ok(end) => output::print(name, &out[..end]),
        Err(none) => return output::complain(name, none.words()),
    }
    let mut words = [0u8; WORDS];
    let end = said(&bytes[..n], &mut words);
    output::say(&words[..end]);
}
