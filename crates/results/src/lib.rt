// The page of the program `batch` (document 01, "Bench sheet"): what came of each program of a settled batch, the listed order and the table, as text in
// a buffer.
#![tactic(auto)]

ghost use Rattle.std.specs.Prelude.{◌≡◌, ◌≤◌, length};
ghost use Rattle.text.specs.Paper.{Put, Fits};
ghost use Rattle.text.specs.Filled.{texts};
ghost use Rattle.image.specs.Limits.{max_cells};
ghost use Rattle.area.specs.Checks.{Measured, HasSlot};
ghost use Rattle.results.specs.Listing.{rule_in_force, first_line, word_of, program_line, program_lines};
ghost use Rattle.results.specs.Listing.{order_entry, order_line, cell_lines, IsMeasured, listed_by, listing_of};

use area::Batch;
use text::Page;

// How many bytes a listing has at most: each text, and ten digits for each number in it, which has 32 bits.
const DIGITS: usize = 10;

const FIRST_BYTES: usize = 12 + 3 * DIGITS;

const PROGRAM_BYTES: usize = 14 + 2 * DIGITS;

const ORDER_BYTES: usize = 6 + image::Image::PROGRAMS * (2 + DIGITS);

const CELL_BYTES: usize = 4 + 2 * DIGITS;

pub const BYTES: usize = FIRST_BYTES
    + image::Image::PROGRAMS * PROGRAM_BYTES
    + ORDER_BYTES
    + image::Image::CELLS * CELL_BYTES;

// The rule in force.
fn rule_in_force(image: &[u8]) -> u32
    ensures { result ≡ rule_in_force image.now }
{
    if image::second_rule(image) { 2 } else { 1 }
}

// Cells, programs, rule in force.
#[tactic(auto, unfolding(crate::specs::Listing::first_line))]
fn put_first(page: &mut Page, image: &[u8], table: &[u32])
    requires { (length table.now ≤ max_cells) × Fits page.old (first_line image.now table.now) }
    ensures { Put page.old (first_line image.now table.now) page.new }
{
    let cells = table.len() as u32;
    let programs = image::count(image) as u32;
    page.filled(b"batch # # #\n", &[cells, programs, rule_in_force(image)]);
}

// A state's word in the work area's list.
#[tactic(auto, unfolding(crate::specs::Listing::word_of))]
fn put_word(page: &mut Page, state: u32)
    requires { Fits page.old (word_of state) }
    ensures { Put page.old (word_of state) page.new }
{
    match state {
        slot::WAITING => page.bytes(b"waiting"),
        slot::GATHERED => page.bytes(b"gathered"),
        slot::REJECTED => page.bytes(b"rejected"),
        slot::FAULTED => page.bytes(b"faulted"),
        slot::COMMITTED => page.bytes(b"committed"),
        _ => page.bytes(b"carried"),
    }
}

// A program's number, state and detail.
#[tactic(auto, unfolding(crate::specs::Listing::program_line))]
fn put_program(page: &mut Page, area: &[u32], cells: usize, number: usize)
    requires { HasSlot cells number area.now × Fits page.old (program_line cells area.now number) }
    ensures { Put page.old (program_line cells area.now number) page.new }
{
    page.filled(b"# ", &[number as u32]);
    put_word(page, area::state(area, cells, number));
    page.filled(b" #\n", &[area::detail(area, cells, number)]);
}

// The line of each of n programs.
#[tactic(auto, using(text::proofs::Fillings::turns))]
fn put_programs(page: &mut Page, area: &[u32], cells: usize, n: usize)
    requires { Measured cells n area.now × Fits page.old (program_lines cells n area.now) }
    ensures { Put page.old (program_lines cells n area.now) page.new }
{
    for k in 0..n {
        put_program(page, area, cells, k);
    }
}

// Every entry of the listed order.
#[tactic(auto, using(text::proofs::Fillings::turns), unfolding(crate::specs::Listing::order_entry))]
fn put_entries(page: &mut Page, order: &[u32])
    requires { Fits page.old (texts (order_entry order.now) (length order.now)) }
    ensures { Put page.old (texts (order_entry order.now) (length order.now)) page.new }
{
    for program in order {
        page.filled(b" #", &[*program]);
    }
}

// The listed order.
#[tactic(auto, unfolding(crate::specs::Listing::order_line))]
fn put_order(page: &mut Page, order: &[u32])
    requires { Fits page.old (order_line order.now) }
    ensures { Put page.old (order_line order.now) page.new }
{
    page.bytes(b"order");
    put_entries(page, order);
    page.bytes(b"\n");
}

// The line of each cell: the cell and its value.
#[tactic(auto, using(text::proofs::Fillings::turns), unfolding(crate::specs::Listing::cell_line))]
fn put_cells(page: &mut Page, table: &[u32])
    requires { (length table.now ≤ max_cells) × Fits page.old (cell_lines table.now) }
    ensures { Put page.old (cell_lines table.now) page.new }
{
    for (cell, value) in table.iter().enumerate() {
        page.filled(b"# #\n", &[cell as u32, *value]);
    }
}

// The listing with this order.
#[tactic(auto, unfolding(crate::specs::Listing::listing_with))]
fn put_with(page: &mut Page, order: &[u32], batch: Batch)
    requires { IsMeasured batch × Fits page.old (listed_by order.now batch) }
    ensures { Put page.old (listed_by order.now batch.entry) page.new }
{
    put_first(page, batch.image, batch.table);
    put_programs(
        page,
        batch.area,
        batch.table.len(),
        image::count(batch.image),
    );
    put_order(page, order);
    put_cells(page, batch.table);
}

// All that came of a settled batch; where it has no listed order, the refusal.
#[tactic(auto, unfolding(crate::specs::Listing::listing, listing::specs::Listing::order_answer, listing::specs::Listing::order_list, image::specs::Refusals::unless))]
pub fn put_listing(page: &mut Page, batch: Batch)
    requires { IsMeasured batch × Fits page.old (listing_of batch) }
    ensures { Put page.old (listing_of batch.entry) page.new }
{
    let mut order = [0u32; image::Image::PROGRAMS];
    match listing::order(
        batch.image,
        batch.table,
        batch.guards,
        batch.area,
        &mut order,
    ) {
        Ok(count) => put_with(page, &order[..count], batch),
        Err(refusal) => refused::put_refused(page, refusal),
    }
}
