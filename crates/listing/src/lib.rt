// The listed order: document 01, "Listed order".
#![tactic(auto)]

ghost use Rattle.std.specs.Prelude.{◌≡◌, ◌+◌, ◌*◌, ◌%◌, ◌^◌, ◌<◌, ◌≤◌, length, replicate, All, MatchOption};
ghost use Rattle.base.specs.Words.{first};
ghost use Rattle.image.specs.Limits.{max_programs, max_cells};
ghost use Rattle.area.specs.Layout.{in_group, list_of, stores_of};
ghost use Rattle.area.specs.Checks.{Measured, Slotted};
ghost use Rattle.slot.specs.declared.Group.TheVariants.{Committed};
ghost use Rattle.listing.specs.Listing.{list_refusal, overwritten, OrderSays, Lists};
ghost use Rattle.base.specs.Masks.{word_bits};
ghost use Rattle.listing.specs.Readers.{octet_size, with_bits, bits_for, committed_reads, Octet, ReadersOf, SetIn, Added, Blockers, ToList};
ghost use Rattle.listing.specs.Masks.{free, picks, Out, Slots};
ghost use Rattle.std.specs.Iterator.{at_most};

use image::Refusal;

// How many programs a group has: those of them that read a cell are the bits of a byte.
const OCTET: usize = 8;

// For each cell, the programs of a group that read it, a bit each.
type Readers = [u8; image::Image::CELLS];

// The programs of a set, one after another, the smallest first.
#[derive(Drop)]
struct Members(u64);

impl Iterator for Members {
    type Item = usize;

    ghost next_gives = { λ s r t. MatchOption r (s.0 ≡ 0) (λ i. Out s.0 i t.0) };

    ghost remaining = { λ s. at_most s.0 };

    #[tactic(auto, using(crate::proofs::Masks::least_out))]
    fn next(&mut self) -> Option<usize> {
        if self.0 == 0 {
            return None;
        }
        let i = masks::least(self.0);
        self.0 &= self.0 - 1;
        Some(i)
    }
}

// The cells that program i's list of a kind counts.
#[tactic(auto, using(crate::proofs::Readers::list_cells), unfolding(area::specs::Layout::list_of, base::specs::Words::words))]
fn cells_of(area: &[u32], cells: usize, i: usize, list: slot::ListKind) -> &[u32]
    requires { Slotted cells i area.now }
    ensures counted { result.now ≡ list_of list cells i area.now }
    ensures in_table { All (λ c. c < max_cells) result.now }
{
    let s = area::span_of(area, cells, i, list);
    &area[s.at..s.at + s.count]
}

// Sets a bit for each of the cells.
fn set_bits(cells: &[u32], bit: u8, readers: &mut Readers)
    requires { All (λ c. c < max_cells) cells.now }
    ensures { readers.new ≡ with_bits bit cells.now readers.old }
{
    for cell in cells {
        readers[*cell as usize] |= bit;
    }
}

// The bits that are set for one of the cells.
fn bits_for(cells: &[u32], readers: &Readers) -> u8
    requires { All (λ c. c < max_cells) cells.now }
    ensures { result ≡ bits_for readers.now 0 cells.now }
{
    cells
        .iter()
        .fold(0, |found, cell| found | readers[*cell as usize])
}

// Whether program i is committed.
#[tactic(auto, unfolding(area::specs::Layout::in_group))]
fn is_committed(area: &[u32], cells: usize, i: usize) -> bool
    requires { Slotted cells i area.now }
    ensures { result ≡ in_group Committed cells area.now i }
{
    let state = area::state(area, cells, i);
    slot::is_in(slot::Group::Committed, state)
}

// Program `number`, where it is committed, is marked as a reader of the cells that it reads; its bit says its place in the group.
#[tactic(auto, using(base::proofs::Masks::shifted_byte), unfolding(crate::specs::Readers::committed_reads))]
fn add_reader(area: &[u32], cells: usize, number: usize, bit: usize, readers: &mut Readers)
    requires { Slotted cells number area.now × (bit < octet_size) }
    ensures { readers.new ≡ with_bits (2 ^ bit) (committed_reads cells area.now number) readers.old }
{
    if is_committed(area, cells, number) {
        let reads = cells_of(area, cells, number, slot::ListKind::Reads);
        set_bits(reads, 1 << bit, readers);
    }
}

// The programs of the group that read a cell which program i stores.
fn readers_of(area: &[u32], cells: usize, i: usize, readers: &Readers) -> u8
    requires { Slotted cells i area.now }
    ensures { result ≡ bits_for readers.now 0 (stores_of cells i area.now) }
{
    bits_for(cells_of(area, cells, i, slot::ListKind::Stores), readers)
}

// Marks, for each cell, its readers among the programs from start up to end.
#[tactic(auto, using(crate::proofs::Readers::readers_next))]
fn find_readers(area: &[u32], cells: usize, start: usize, end: usize, readers: &mut Readers)
    requires { Slots area.now cells end × Octet start end × (readers.old ≡ replicate max_cells 0) }
    ensures { ReadersOf (committed_reads cells area.now) start end readers.new }
{
    for number in start..end {
        add_reader(area, cells, number, number - start, readers);
    }
}

// A byte's bits, moved up to bit `start` of a word.
fn raised(bits: u8, start: usize) -> u64
    requires { start < word_bits }
    ensures { result ≡ (bits * 2 ^ start) % 2 ^ word_bits }
{
    u64::from(bits) << start
}

// Adds, to the readers of what each program of a set stores, those of the group that begins at start.
fn add_blockers(
    area: &[u32],
    cells: usize,
    start: usize,
    set: u64,
    readers: &Readers,
    blockers: &mut [u64; image::Image::PROGRAMS],
)
    requires { SetIn cells set area.now × (start < word_bits) }
    ensures { Added cells set start area.now readers.now blockers.old blockers.new }
{
    for i in Members(set) {
        blockers[i] |= raised(readers_of(area, cells, i, readers), start);
    }
}

// The same, where the readers are still to be found.
fn add_octet(
    area: &[u32],
    cells: usize,
    start: usize,
    end: usize,
    set: u64,
    blockers: &mut [u64; image::Image::PROGRAMS],
)
    requires { Slots area.now cells end × Octet start end × SetIn cells set area.now × Blockers cells set start area.now blockers.old }
    ensures { Blockers cells set end area.now blockers.new }
{
    let mut readers: Readers = [0; image::Image::CELLS];
    find_readers(area, cells, start, end, &mut readers);
    add_blockers(area, cells, start, set, &readers, blockers);
}

// Fills in, for each program of a set, the committed programs that read what it stores.
fn fill_blockers(
    area: &[u32],
    cells: usize,
    n: usize,
    set: u64,
    blockers: &mut [u64; image::Image::PROGRAMS],
)
    requires { Slots area.now cells n × SetIn cells set area.now × (blockers.old ≡ replicate max_programs 0) }
    ensures { Blockers cells set n area.now blockers.new }
{
    for start in (0..n).step_by(OCTET) {
        add_octet(area, cells, start, (start + OCTET).min(n), set, blockers);
    }
}

// The first program that is left and that no other that is left keeps back.
#[tactic(auto, using(crate::proofs::Masks::program_by_program))]
fn next_free(blockers: &[u64; image::Image::PROGRAMS], left: u64) -> Option<usize>
    ensures { MatchOption result (first (free blockers.now left) word_bits ≡ 0) (λ i. first (free blockers.now left) word_bits ≡ i + 1) }
{
    for i in Members(left) {
        if blockers[i] & (left ^ 1 << i) == 0 {
            return Some(i);
        }
    }
    None
}

// Takes programs until none is free; returns those that are taken, in their order.
#[tactic(auto, using(crate::proofs::Turns::taking, std::proofs::lemmas::Grind::common_steps))]
fn pick_all<'a>(
    blockers: &[u64; image::Image::PROGRAMS],
    all: u64,
    n: usize,
    order: &'a mut [u8; image::Image::PROGRAMS],
) -> &'a [u8]
    requires { n ≤ max_programs }
    ensures { result.now ≡ picks n blockers.now all }
{
    let mut left = all;
    // counted, since the programs taken so far are lent out where no other is free
    for taken in 0..n {
        let Some(i) = next_free(blockers, left) else {
            return &order[..taken];
        };
        order[taken] = i as u8;
        left ^= 1 << i;
    }
    &order[..n]
}

// Copies the order to the front of the list.
#[tactic(auto, using(crate::proofs::Turns::copy_more))]
fn copy_order(order: &[u8], list: &mut [u32])
    requires { length order.now ≤ length list.old }
    ensures { list.new ≡ overwritten order.now list.old }
{
    for (k, program) in order.iter().enumerate() {
        list[k] = u32::from(*program);
    }
}

// The order and its count, or check 12, where it is known who keeps whom back.
fn list_all(
    area: &[u32],
    cells: usize,
    n: usize,
    all: u64,
    blockers: &[u64; image::Image::PROGRAMS],
    list: &mut [u32],
) -> Result<usize, Refusal>
    requires { ToList cells n all area.now blockers.now list.old }
    ensures { Lists cells n area.now list.old result list.new }
{
    let mut taken: [u8; image::Image::PROGRAMS] = [0; image::Image::PROGRAMS];
    let order = pick_all(blockers, all, n, &mut taken);
    if order.len() != masks::count(all, n) {
        return Err(Refusal::NoOrder);
    }
    copy_order(order, list);
    Ok(order.len())
}

// The same, where checks 1 to 10 have been made.
pub fn order_checked(
    area: &[u32],
    cells: usize,
    n: usize,
    list: &mut [u32],
) -> Result<usize, Refusal>
    requires { Measured cells n area.now × Slots area.now cells n × (n ≤ length list.old) }
    ensures { Lists cells n area.now list.old result list.new }
{
    let mut blockers: [u64; image::Image::PROGRAMS] = [0; image::Image::PROGRAMS];
    let all = area::members(area, cells, n, slot::Group::Committed);
    fill_blockers(area, cells, n, all, &mut blockers);
    list_all(area, cells, n, all, &blockers, list)
}

// Checks 1 to 10.
#[tactic(auto, unfolding(crate::specs::Listing::list_refusal, image::specs::Refusals::after, image::specs::Refusals::check))]
fn list_refusal(
    image: &[u8],
    table: &[u32],
    guards: &[u32],
    area: &[u32],
    list: &[u32],
) -> Result<(), Refusal>
    ensures { result ≡ list_refusal image.now table.now guards.now area.now list.now }
{
    area::ended_refusal(image, table, guards, area)?;
    if list.len() < image::count(image) {
        return Err(Refusal::TooShort);
    }
    Ok(())
}

// The listed order of a batch whose programs are all settled: each committed program once, and how many there are.
#[tactic(auto, using(crate::proofs::Orders::order_refused))]
pub fn order(
    image: &[u8],
    table: &[u32],
    guards: &[u32],
    area: &[u32],
    list: &mut [u32],
) -> Result<usize, Refusal>
    ensures { OrderSays image.now table.now guards.now area.now list.old result list.new }
{
    list_refusal(image, table, guards, area, list)?;
    order_checked(area, table.len(), image::count(image), list)
}
