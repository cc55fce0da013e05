// The work area: where its words lie, its checks, and what its marks say (document 01, "The work area").
#![tactic(auto)]

ghost use Rattle.std.specs.Prelude.{◌≡◌, ◌+◌, ◌<◌, ◌≤◌, length};
ghost use Rattle.base.specs.Words.{words};
ghost use Rattle.base.specs.Masks.{mask_of};
ghost use Rattle.image.specs.Limits.{max_programs};
ghost use Rattle.image.specs.Image.{refusal_of};
ghost use Rattle.area.specs.Layout.{area_words, marks_at, slot_start, span_of, list_of, state_of, detail_of, in_group, with_state};
ghost use Rattle.area.specs.Marks.{lower, reserve, earlier, named, lower_cell, lowest_of, lowest, below, stored_by, committed_table};
ghost use Rattle.area.specs.Checks.{table_good, all_below, list_good, slot_good, slots_good, words_good, states_from};
ghost use Rattle.area.specs.Checks.{room_refusal, open_refusal, call_refusal, ended_refusal, Measured, HasSlot, Slotted, Names, Searched, Storing};

use image::{ImageRefusal, Refusal};

// The kinds of marks: who stores a cell, and who reads it.
#[derive(Clone, Copy)]
pub enum MarkKind {
    Write,
    Read,
}

// What is lent to read of a batch: its image, its table with the guards, and its area.
#[derive(Clone, Copy)]
pub struct Batch<'a> {
    pub image: &'a [u8],
    pub table: &'a [u32],
    pub guards: &'a [u32],
    pub area: &'a [u32],
}

// Where the marks of a kind begin.
pub fn marks_start(marks: MarkKind, cells: usize) -> usize
    ensures { result ≡ marks_at marks cells }
{
    match marks {
        MarkKind::Write => 0,
        MarkKind::Read => cells,
    }
}

// Where slot `number` begins; an area of n programs ends where slot n would.
pub fn slot_start(cells: usize, number: usize) -> usize
    requires { (cells < 65536) × (number < 65536) }
    ensures { result ≡ slot_start cells number }
{
    2 * cells + slot::WORDS * number
}

// The same of the largest area: how many words it has.
pub const AREA_WORDS: usize = 2 * image::Image::CELLS + slot::WORDS * image::Image::PROGRAMS;

// How many words an area has.
pub fn area_words(cells: u16, programs: u16) -> usize
    ensures { result ≡ area_words cells programs }
{
    slot_start(cells as usize, programs as usize)
}

// Where a list lies, and how many cells it counts.
#[derive(Clone, Copy)]
pub struct Span {
    pub at: usize,
    pub count: usize,
}

// Where a program's list of a kind lies, and how many cells it counts.
pub fn span_of(area: &[u32], cells: usize, number: usize, list: slot::ListKind) -> Span
    requires { HasSlot cells number area.now }
    ensures { result ≡ span_of list cells number area.now }
{
    let start = slot_start(cells, number);
    let counted = start + slot::count_word(list);
    let at = start + slot::first_word(list);
    let count = area[counted] as usize;
    Span { at, count }
}

// A mark that is 0 or larger becomes k.
#[tactic(auto, unfolding(crate::specs::Marks::lower))]
fn lowered(m: u32, k: u32) -> u32
    ensures { result ≡ lower m k }
{
    if m == 0 || k < m { k } else { m }
}

// The program reserves each cell of the list of count words at a place, in the marks that begin at `marks`. By index, since the list is read from the
// very area that is written.
#[tactic(auto, using(crate::proofs::Loops::reserve_none))]
fn reserve_cells(area: &mut [u32], marks: usize, at: usize, count: usize, number: usize)
    requires { Names marks at count area.old × (number < max_programs) }
    ensures { area.new ≡ reserve marks (words at count area.old) number area.old }
{
    for i in 0..count {
        let mark = marks + area[at + i] as usize;
        area[mark] = lowered(area[mark], (number + 1) as u32);
    }
}

// Whether a mark names a program earlier than number.
#[tactic(auto, unfolding(crate::specs::Marks::earlier))]
fn earlier(m: u32, number: usize) -> bool
    ensures { result ≡ earlier m number }
{
    m != 0 && m as usize <= number
}

// The program that a mark names.
pub fn named(m: u32) -> u32
    requires { 0 < m }
    ensures { result ≡ named m }
{
    m - 1
}

// The lower of two cells, the second of which counts if its mark names an earlier program.
#[tactic(auto, unfolding(crate::specs::Marks::lower_cell))]
fn lower_cell(area: &[u32], marks: usize, number: usize, found: usize, cell: usize) -> usize
    requires { marks + cell < length area.now }
    ensures { result ≡ lower_cell marks number area.now found cell }
{
    if cell < found && earlier(area[marks + cell], number) {
        cell
    } else {
        found
    }
}

// The lowest cell of the list whose mark names an earlier program; `cells`, which is above all of them, where there is none: so one comparison tells
// which of two is lower.
#[tactic(auto, using(crate::proofs::LowestCells::lowest_none))]
fn lowest_of(
    area: &[u32],
    cells: usize,
    marks: usize,
    at: usize,
    count: usize,
    number: usize,
) -> usize
    requires { Searched cells marks at count area.now }
    ensures { result ≡ lowest_of cells marks (words at count area.now) number area.now }
{
    let mut found = cells;
    for cell in &area[at..at + count] {
        found = lower_cell(area, marks, number, found, *cell as usize);
    }
    found
}

// The stores of the list go into the table.
#[tactic(auto, using(crate::proofs::Loops::store_none))]
fn store_all(table: &mut [u32], area: &[u32], cells: usize, values: usize, count: usize)
    requires { Storing cells values count area.now table.old }
    ensures { table.new ≡ stored_by cells values count area.now table.old }
{
    let stored = area[cells..cells + count].iter();
    for (cell, value) in stored.zip(&area[values..values + count]) {
        table[*cell as usize] = *value;
    }
}

// The lowest cell of the program's list of a kind whose mark of a kind names an earlier program, where there is one.
#[tactic(auto, unfolding(crate::specs::Layout::list_of, crate::specs::Marks::lowest))]
pub fn lowest(
    area: &[u32],
    cells: usize,
    number: usize,
    list: slot::ListKind,
    marks: MarkKind,
) -> Option<usize>
    requires { Slotted cells number area.now }
    ensures { result ≡ below cells (lowest list marks cells number area.now) }
{
    let s = span_of(area, cells, number, list);
    let start = marks_start(marks, cells);
    let found = lowest_of(area, cells, start, s.at, s.count, number);
    if found < cells { Some(found) } else { None }
}

// The program reserves the cells of its list of a kind in the marks of a kind.
#[tactic(auto, unfolding(crate::specs::Layout::list_of))]
pub fn reserve(area: &mut [u32], cells: usize, number: usize, list: slot::ListKind, marks: MarkKind)
    requires { Slotted cells number area.old }
    ensures { area.new ≡ reserve (marks_at marks cells) (list_of list cells number area.old) number area.old }
{
    let s = span_of(area, cells, number, list);
    reserve_cells(area, marks_start(marks, cells), s.at, s.count, number);
}

// The program's stores go into the table.
#[tactic(auto, using(crate::proofs::Places::stores_list), unfolding(crate::specs::Layout::list_of, crate::specs::Layout::values_of))]
pub fn commit(table: &mut [u32], area: &[u32], number: usize)
    requires { Slotted (length table.old) number area.now }
    ensures { table.new ≡ committed_table (length table.old) number area.now table.old }
{
    let s = span_of(area, table.len(), number, slot::ListKind::Stores);
    let values = slot_start(table.len(), number) + slot::VALUES;
    store_all(table, area, s.at, values, s.count);
}

// The program's state and detail are these.
#[tactic(auto, unfolding(crate::specs::Layout::with_state))]
pub fn write_state(area: &mut [u32], cells: usize, number: usize, state: u32, detail: u32)
    requires { HasSlot cells number area.old }
    ensures { area.new ≡ with_state cells number state detail area.old }
{
    let at = slot_start(cells, number);
    area[at] = state;
    area[at + slot::DETAIL] = detail;
}

// The program's state.
#[tactic(auto, unfolding(crate::specs::Layout::state_of))]
pub fn state(area: &[u32], cells: usize, number: usize) -> u32
    requires { HasSlot cells number area.now }
    ensures { result ≡ state_of cells number area.now }
{
    let at = slot_start(cells, number);
    area[at]
}

// The program's detail.
#[tactic(auto, unfolding(crate::specs::Layout::detail_of))]
pub fn detail(area: &[u32], cells: usize, number: usize) -> u32
    requires { HasSlot cells number area.now }
    ensures { result ≡ detail_of cells number area.now }
{
    let at = slot_start(cells, number) + slot::DETAIL;
    area[at]
}

// Whether none of n programs has a state below this one.
#[tactic(auto, using(base::proofs::Numbers::every_none, base::proofs::Numbers::every_more), unfolding(crate::specs::Checks::states_from))]
pub fn states_from(area: &[u32], cells: usize, n: usize, least: u32) -> bool
    requires { Measured cells n area.now }
    ensures { result ≡ states_from least cells n area.now }
{
    for k in 0..n {
        if state(area, cells, k) < least {
            return false;
        }
    }
    true
}

// The programs of a group, a bit each.
#[tactic(auto, using(base::proofs::Masks::mask_lt, base::proofs::Masks::mask_next), unfolding(crate::specs::Layout::in_group))]
pub fn members(area: &[u32], cells: usize, n: usize, group: slot::Group) -> u64
    requires { Measured cells n area.now }
    ensures { result ≡ mask_of (in_group group cells area.now) n }
{
    let mut mask: u64 = 0;
    for k in 0..n {
        let state = state(area, cells, k);
        mask = masks::with_bit(mask, k, slot::is_in(group, state));
    }
    mask
}

// Check 5.
#[tactic(auto, unfolding(crate::specs::Checks::table_good))]
fn table_good(table: &[u32]) -> bool
    ensures { result ≡ table_good table.now }
{
    (image::Image::LEAST_CELLS..=image::Image::CELLS).contains(&table.len())
}

// Whether each of count words from a place on is below a bound.
fn all_below(area: &[u32], bound: u32, at: usize, count: usize) -> bool
    requires { at + count ≤ length area.now }
    ensures { result ≡ all_below bound at count area.now }
{
    area[at..at + count].iter().all(|word| *word < bound)
}

// Check 7 of a list of slot k: its count, and the cells that it counts.
#[tactic(auto, unfolding(crate::specs::Checks::list_good))]
fn list_good(area: &[u32], cells: usize, k: usize, list: slot::ListKind) -> bool
    requires { HasSlot cells k area.now }
    ensures { result ≡ list_good list cells k area.now }
{
    let s = span_of(area, cells, k, list);
    s.count <= slot::LIST && all_below(area, cells as u32, s.at, s.count)
}

// Check 7 of slot k.
#[tactic(auto, unfolding(crate::specs::Checks::slot_good))]
fn slot_good(area: &[u32], cells: usize, k: usize) -> bool
    requires { HasSlot cells k area.now }
    ensures { result ≡ slot_good cells k area.now }
{
    state(area, cells, k) <= slot::LAST_STATE
        && list_good(area, cells, k, slot::ListKind::Reads)
        && list_good(area, cells, k, slot::ListKind::Stores)
}

// And of every slot.
#[tactic(auto, using(base::proofs::Numbers::every_none, base::proofs::Numbers::every_more), unfolding(crate::specs::Checks::slots_good))]
fn slots_good(area: &[u32], cells: usize, n: usize) -> bool
    requires { Measured cells n area.now }
    ensures { result ≡ slots_good cells n area.now }
{
    for k in 0..n {
        if !slot_good(area, cells, k) {
            return false;
        }
    }
    true
}

// Check 7.
#[tactic(auto, unfolding(crate::specs::Checks::words_good))]
fn words_good(area: &[u32], cells: usize, n: usize) -> bool
    requires { Measured cells n area.now }
    ensures { result ≡ words_good cells n area.now }
{
    let over = n as u32 + 1;
    all_below(area, over, marks_start(MarkKind::Write, cells), cells)
        && all_below(area, over, marks_start(MarkKind::Read, cells), cells)
        && slots_good(area, cells, n)
}

// Checks 5, 14 and 6, for n programs.
#[tactic(auto, using(crate::proofs::Checks::room_by_check), unfolding(crate::specs::Checks::room_refusal, crate::specs::Checks::size_is))]
fn room_refusal(n: usize, table: &[u32], guards: &[u32], area: &[u32]) -> Result<(), Refusal>
    requires { n ≤ max_programs }
    ensures { result ≡ room_refusal n table.now guards.now area.now }
{
    if !table_good(table) {
        return Err(Refusal::TableSize);
    }
    if !guard::pairs_for(table.len(), guards) {
        return Err(Refusal::Guards);
    }
    if area.len() != slot_start(table.len(), n) {
        return Err(Refusal::AreaSize);
    }
    Ok(())
}

// Checks 1 to 5, 14, 6. The caller makes 1 to 4 first and hands over what they said, so that their stack does not come on top of this one's.
#[tactic(auto, using(crate::proofs::Checks::open_by_check), unfolding(crate::specs::Checks::open_refusal))]
pub fn open_refusal(
    checked: Result<(), ImageRefusal>,
    image: &[u8],
    table: &[u32],
    guards: &[u32],
    area: &[u32],
) -> Result<(), Refusal>
    requires { checked ≡ refusal_of image.now }
    ensures { result ≡ open_refusal image.now table.now guards.now area.now }
{
    checked?;
    room_refusal(image::count(image), table, guards, area)
}

// Checks 1 to 5, 14, 6, 7, after the same four.
#[tactic(auto, using(crate::proofs::Checks::words_by_check), unfolding(crate::specs::Checks::call_refusal))]
pub fn call_refusal(
    checked: Result<(), ImageRefusal>,
    image: &[u8],
    table: &[u32],
    guards: &[u32],
    area: &[u32],
) -> Result<(), Refusal>
    requires { checked ≡ refusal_of image.now }
    ensures { result ≡ call_refusal image.now table.now guards.now area.now }
{
    open_refusal(checked, image, table, guards, area)?;
    if !words_good(area, table.len(), image::count(image)) {
        return Err(Refusal::Area);
    }
    Ok(())
}

// The same, and 9 as the listed order and the next image make it.
#[tactic(auto, using(crate::proofs::Checks::words_by_check), unfolding(crate::specs::Checks::ended_refusal))]
pub fn ended_refusal(
    image: &[u8],
    table: &[u32],
    guards: &[u32],
    area: &[u32],
) -> Result<(), Refusal>
    ensures { result ≡ ended_refusal image.now table.now guards.now area.now }
{
    call_refusal(image::image_refusal(image), image, table, guards, area)?;
    if !states_from(area, table.len(), image::count(image), slot::FIRST_END) {
        return Err(Refusal::State);
    }
    Ok(())
}
