// The work of the programs `batch` (document 01, "Bench sheet") and `why` (document 02, ask 3), and of `guarded` and `guarded_why`, whose inputs have guards (ask
// 5): a batch is run from its input, and then a page is made of the image, the table, the guards and the area. Which instruction is bad, all of them say beside
// it (ask 2).
#![tactic(auto)]

ghost use Rattle.std.specs.Prelude.{◌≡◌, ◌≤◌, length};
ghost use Rattle.text.specs.Writing.{PageSays};
ghost use Rattle.text.specs.Paper.{Put, Fits};
ghost use Rattle.image.specs.Limits.{max_programs, max_cells};
ghost use Rattle.guard.specs.Guards.{guard_words};
ghost use Rattle.area.specs.Layout.{area_words};
ghost use Rattle.area.specs.Checks.{Paired};
ghost use Rattle.prefix.specs.Prefix.{prefix_bytes};
ghost use Rattle.input.specs.Prefix.{table_in};
ghost use Rattle.results.specs.Listing.{most_listing};
ghost use Rattle.reasons.specs.Reasons.{longest_page, CanTell, CanTellOf};
ghost use Rattle.refused.specs.Refused.{refused_line, most_refused};
ghost use Rattle.refused.specs.Where.{most_where};
ghost use Rattle.report.specs.Batch.{lent, gather_first, settle_first, image_start, guards_for};
ghost use Rattle.report.specs.Batch.{page_of, page_text, told_of, page_most, batch_page, reasons_page, said};
ghost use Rattle.report.specs.Runs.{Leaves, RunsIn, programs_in, Room, Runs, RunsTable, RanSays};

use area::Batch;
use image::Refusal;
use text::Page;

// Where the guards of a batch come from: they are the full range for every cell, or the input has them behind its cells.
#[derive(Clone, Copy)]
pub enum Guards {
    FullRange,
    FromInput,
}

// How many cells and words of what was lent are the table and the area of a settled batch.
#[derive(Clone, Copy)]
struct Used {
    cells: usize,
    words: usize,
}

// Gathers the first n programs in number order.
#[tactic(auto, using(crate::proofs::Batches::turns))]
fn gather_all(image: &[u8], table: &[u32], guards: &[u32], area: &mut [u32], n: usize)
    ensures { area.new ≡ gather_first image.now table.now guards.now area.old n }
{
    for k in 0..n {
        let _ = sheetbendle::gather(image, table, guards, area, k);
    }
}

// Settles the first n programs in number order; one that was rejected or faulted keeps its state and detail.
#[tactic(auto, using(crate::proofs::Batches::turns))]
fn settle_all(image: &[u8], table: &mut [u32], guards: &[u32], area: &mut [u32], n: usize)
    ensures { Leaves (settle_first image.now guards.now (lent table.old area.old) n) table.new area.new }
{
    for k in 0..n {
        let _ = sheetbendle::settle(image, table, guards, area, k);
    }
}

// Opens, gathers and settles in number order, unless opening is refused.
#[tactic(auto, unfolding(crate::specs::Batch::batch_on))]
fn run_in(image: &[u8], table: &mut [u32], guards: &[u32], area: &mut [u32]) -> Result<(), Refusal>
    ensures { RunsIn image.now table.old guards.now area.old result table.new area.new }
{
    sheetbendle::open(image, table, guards, area)?;
    let n = image::count(image);
    gather_all(image, table, guards, area, n);
    settle_all(image, table, guards, area, n);
    Ok(())
}

// The same, in the first words of what is lent.
fn run_on(
    image: &[u8],
    table: &mut [u32],
    guards: &[u32],
    areas: &mut [u32],
    words: usize,
) -> Result<(), Refusal>
    requires { Room image.now table.old areas.old words }
    ensures { Runs image.now table.old guards.now words result table.new areas.new }
{
    run_in(image, table, guards, &mut areas[..words])
}

// How many programs the header names, 0 where that is over the limit, for which no area is needed: opening then refuses the image before it looks at one.
#[tactic(auto, unfolding(crate::specs::Runs::programs_in))]
fn programs_in(image: &[u8]) -> u16
    ensures { (result ≡ programs_in image.now) × (result ≤ max_programs) }
{
    let n = image::Image::header(image).count;
    if image::Image::PROGRAMS < n as usize {
        return 0;
    }
    n
}

// How many words an area for this image has on a table of so many cells.
fn words_for(image: &[u8], cells: usize) -> usize
    requires { cells ≤ max_cells }
    ensures { (result ≡ area_words cells (programs_in image.now)) × (result ≤ area_words max_cells max_programs) }
{
    sheetbendle::area_words(cells as u16, programs_in(image))
}

// Where the image of an input with so many cells begins.
fn image_start(from: Guards, cells: usize) -> usize
    requires { cells ≤ max_cells }
    ensures { result ≡ image_start from cells }
{
    match from {
        Guards::FullRange => input::cells_end(cells),
        Guards::FromInput => input::guards_end(cells),
    }
}

// The guards of a table of an input, into the list that is lent.
fn lend_guards(from: Guards, input: &[u8], table: &[u32], guards: &mut [u32])
    requires { (image_start from (length table.now) ≤ length input.now) × (length table.now ≤ max_cells) × Paired table.now guards.old }
    ensures { guards.new ≡ guards_for from input.now table.now }
{
    match from {
        Guards::FullRange => sheetbendle::full_range(guards),
        Guards::FromInput => input::read_guards(input, table.len(), guards),
    }
}

// Reads the table from the input, and runs the batch on it.
fn run_table(
    from: Guards,
    input: &[u8],
    image: &[u8],
    table: &mut [u32],
    guards: &mut [u32],
    areas: &mut [u32],
    words: usize,
) -> Result<(), Refusal>
    requires { (prefix_bytes (length table.old) ≤ length input.now) × (image_start from (length table.old) ≤ length input.now) × (length table.old ≤ max_cells) × Paired table.old guards.old × Room image.now table.old areas.old words }
    ensures { RunsTable from input.now image.now (table_in input.now (length table.old)) words result table.new guards.new areas.new }
{
    input::read_cells(input, table);
    lend_guards(from, input, table, guards);
    run_on(image, table, guards, areas, words)
}

// Runs the batch that the input holds, in the rooms that are lent.
#[tactic(auto, unfolding(crate::specs::Batch::input_refusal, crate::specs::Batch::guards_there, crate::specs::Batch::batch_of, input::specs::Prefix::cells_of, image::specs::Refusals::check))]
fn run_input(
    from: Guards,
    input: &[u8],
    tables: &mut [u32],
    guards: &mut [u32],
    areas: &mut [u32],
) -> Result<Used, Refusal>
    requires { (max_cells ≤ length tables.old) × (guard_words max_cells ≤ length guards.old) × (area_words max_cells max_programs ≤ length areas.old) }
    ensures { RanSays from input.now result tables.new guards.new areas.new }
{
    let Some(cells) = input::cells_of(input) else {
        return Err(Refusal::TableSize);
    };
    let start = image_start(from, cells);
    if input.len() < start {
        return Err(Refusal::Guards);
    }
    let image = input::image_behind(input, start);
    let words = words_for(image, cells);
    run_table(
        from,
        input,
        image,
        &mut tables[..cells],
        &mut guards[..guard::ENDS * cells],
        areas,
        words,
    )?;
    Ok(Used { cells, words })
}

// The guards of the largest table.
const GUARD_WORDS: usize = guard::ENDS * image::Image::CELLS;

// What is wanted of a batch: what came of it, or why.
#[derive(Clone, Copy)]
enum Wanted {
    Results,
    Reasons,
}

// The page that is wanted; `opening` is the table as it was when the batch was opened.
fn put_page(wanted: Wanted, page: &mut Page, opening: &[u32], batch: Batch)
    requires { CanTellOf opening.now batch × Fits page.old (told_of (page_text wanted) opening.now batch) }
    ensures { Put page.old (told_of (page_text wanted) opening.now batch.entry) page.new }
{
    match wanted {
        Wanted::Results => results::put_listing(page, batch),
        Wanted::Reasons => reasons::put_reasons(page, opening, batch),
    }
}

// The page of a settled batch, for which the table as it was is read again.
fn put_settled(
    wanted: Wanted,
    out: &mut [u8],
    input: &[u8],
    image: &[u8],
    table: &[u32],
    guards: &[u32],
    area: &[u32],
) -> usize
    requires { (prefix_bytes (length table.now) ≤ length input.now) × CanTell image.now (table_in input.now (length table.now)) table.now guards.now area.now × (page_most wanted ≤ length out.old) }
    ensures { PageSays (page_text wanted image.now (table_in input.now (length table.now)) table.now guards.now area.now) out.old result out.new }
{
    let mut room = [0u32; image::Image::CELLS];
    let opening = &mut room[..table.len()];
    input::read_cells(input, opening);
    let mut page = Page::new(out);
    let batch = Batch {
        image,
        table,
        guards,
        area,
    };
    put_page(wanted, &mut page, opening, batch);
    page.end()
}

// The line of a refusal.
#[tactic(auto, using(crate::proofs::Pages::rooms))]
fn refused_page(refusal: Refusal, out: &mut [u8]) -> usize
    requires { most_refused ≤ length out.old }
    ensures { PageSays (refused_line refusal) out.old result out.new }
{
    let mut page = Page::new(out);
    refused::put_refused(&mut page, refusal);
    page.end()
}

// Runs the batch that the input holds and makes the page that is wanted of it, or the refusal's line.
#[tactic(auto, using(crate::proofs::Pages::rooms), unfolding(crate::specs::Batch::page_of, image::specs::Refusals::unless))]
fn make_page(wanted: Wanted, from: Guards, input: &[u8], out: &mut [u8]) -> usize
    requires { page_most wanted ≤ length out.old }
    ensures { PageSays (page_of (page_text wanted) from input.now) out.old result out.new }
{
    let mut tables = [0u32; image::Image::CELLS];
    let mut guards = [0u32; GUARD_WORDS];
    let mut areas = [0u32; sheetbendle::AREA_WORDS];
    match run_input(from, input, &mut tables, &mut guards, &mut areas) {
        Ok(used) => {
            let image = input::image_behind(input, image_start(from, used.cells));
            put_settled(
                wanted,
                out,
                input,
                image,
                &tables[..used.cells],
                &guards[..guard::ENDS * used.cells],
                &areas[..used.words],
            )
        }
        Err(refusal) => refused_page(refusal, out),
    }
}

// The page of `batch` and of `guarded`: what came of the batch.
pub fn batch_page(from: Guards, input: &[u8], out: &mut [u8]) -> usize
    requires { most_listing ≤ length out.old }
    ensures { PageSays (batch_page from input.now) out.old result out.new }
{
    make_page(Wanted::Results, from, input, out)
}

// The page of `why` and of `guarded_why`: why each of its programs ended as it did.
pub fn reasons_page(from: Guards, input: &[u8], out: &mut [u8]) -> usize
    requires { longest_page ≤ length out.old }
    ensures { PageSays (reasons_page from input.now) out.old result out.new }
{
    make_page(Wanted::Reasons, from, input, out)
}

// What all of them say of an input on standard error: the place of its image's bad instruction, or nothing.
#[tactic(auto, unfolding(crate::specs::Batch::said, crate::specs::Batch::guards_there, input::specs::Prefix::cells_of))]
pub fn said(from: Guards, input: &[u8], out: &mut [u8]) -> usize
    requires { most_where ≤ length out.old }
    ensures { PageSays (said from input.now) out.old result out.new }
{
    let Some(cells) = input::cells_of(input) else {
        return 0;
    };
    let start = image_start(from, cells);
    if input.len() < start {
        return 0;
    }
    let image = input::image_behind(input, start);
    refused::image_where(image, out)
}
