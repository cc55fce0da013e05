// The input of a batch (document 01, "Bench sheet"): T in two bytes, T cells of four bytes, then the image; or, where it has guards (document 02, ask 5), T pairs
// of them before the image. It is read from standard input, and taken apart.
#![tactic(auto)]

ghost use Rattle.std.specs.Prelude.{◌≡◌, ◌+◌, ◌*◌, ◌≤◌, length, IfSome};
ghost use Rattle.io.specs.Counts.{IsPrefixLen};
ghost use Rattle.image.specs.Limits.{max_cells};
ghost use Rattle.guard.specs.Guards.{guard_words};
ghost use Rattle.prefix.specs.Prefix.{prefix_bytes};
ghost use Rattle.input.specs.Prefix.{word_at, words_from, table_in, guards_in, guards_end, image_from, cells_of};

use std::io::Read;

const COUNT_BYTES: usize = 2;

const CELL_BYTES: usize = 4;

// The longest input that is told from a longer one: one byte more than the largest image on the largest table.
pub const LONGEST: usize = COUNT_BYTES + CELL_BYTES * image::Image::CELLS + image::Image::BYTES + 1;

// The same where there are guards before the image.
pub const LONGEST_GUARDED: usize = LONGEST + CELL_BYTES * guard::ENDS * image::Image::CELLS;

// Reads until what is lent is full or nothing more comes, and answers how many bytes came. A read that fails is told, and ends it. A `while`,
// since each read says how far it came.
pub fn read_full<F: FnOnce()>(reader: &mut impl Read, room: &mut [u8], failed: F) -> usize
    requires { F.IsAlwaysCallable failed }
    ensures { IsPrefixLen result room.new }
{
    let mut there = 0;
    while there < room.len() {
        match reader.read(&mut room[there..]) {
            Ok(0) => break,
            Ok(more) => there += more,
            Err(_) => {
                failed();
                return there;
            }
        }
    }
    there
}

// Standard input, into what is lent.
pub fn read_input(rt: &impl Input, program: &[u8], input: &mut [u8]) -> usize
    ensures { IsPrefixLen result input.new }
{
    read_full(&mut rt.reader(), input, || {
        output::complain(program, b"standard input cannot be read")
    })
}

// T, where the prefix is good: the input has the bytes that it needs, and T is within 1 to 256.
#[tactic(auto, unfolding(crate::specs::Prefix::cells_of, crate::specs::Prefix::prefix_good, image::specs::Image::number_at))]
pub fn cells_of(input: &[u8]) -> Option<usize>
    ensures named { result ≡ cells_of input.now }
    ensures there { IfSome result (λ T. (T ≤ max_cells) × (prefix_bytes T ≤ length input.now)) }
{
    if input.len() < COUNT_BYTES {
        return None;
    }
    let cells = usize::from(u16::from_le_bytes([input[0], input[1]]));
    if !(image::Image::LEAST_CELLS..=image::Image::CELLS).contains(&cells) {
        return None;
    }
    if input.len() < COUNT_BYTES + CELL_BYTES * cells {
        return None;
    }
    Some(cells)
}

// The word of four bytes at a place, low first.
#[tactic(auto, unfolding(crate::specs::Prefix::word_at))]
fn word_at(input: &[u8], at: usize) -> u32
    requires { at + 4 ≤ length input.now }
    ensures { result ≡ word_at input.now at }
{
    u32::from_le_bytes([input[at], input[at + 1], input[at + 2], input[at + 3]])
}

// The words from a place on, as many as fill what is lent.
#[tactic(auto, using(base::proofs::Tables::tabulate_is))]
fn read_words(input: &[u8], at: usize, words: &mut [u32])
    requires { at + 4 * length words.old ≤ length input.now }
    ensures { words.new ≡ words_from input.now at (length words.old) }
{
    for (i, word) in words.iter_mut().enumerate() {
        *word = word_at(input, at + CELL_BYTES * i);
    }
}

// The cells of the prefix, into the table.
pub fn read_cells(input: &[u8], table: &mut [u32])
    requires { prefix_bytes (length table.old) ≤ length input.now }
    ensures { table.new ≡ table_in input.now (length table.old) }
{
    read_words(input, COUNT_BYTES, table);
}

// The guards of so many cells, into a list with a pair for each.
pub fn read_guards(input: &[u8], cells: usize, guards: &mut [u32])
    requires { (guards_end cells ≤ length input.now) × (length guards.old ≡ guard_words cells) }
    ensures { guards.new ≡ guards_in input.now cells }
{
    read_words(input, COUNT_BYTES + CELL_BYTES * cells, guards);
}

// Where so many cells end, and where their guards do.
pub fn cells_end(cells: usize) -> usize
    requires { cells ≤ max_cells }
    ensures { result ≡ prefix_bytes cells }
{
    COUNT_BYTES + CELL_BYTES * cells
}

pub fn guards_end(cells: usize) -> usize
    requires { cells ≤ max_cells }
    ensures { result ≡ guards_end cells }
{
    cells_end(cells) + CELL_BYTES * (guard::ENDS * cells)
}

// The image, which is all that is behind so many bytes.
pub fn image_behind(input: &[u8], start: usize) -> &[u8]
    requires { start ≤ length input.now }
    ensures { result.now ≡ image_from input.now start }
{
    &input[start..]
}
