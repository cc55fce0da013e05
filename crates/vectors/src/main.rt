// Runs the stored inputs of data/ through the work of `batch`, and then of `why`, or of `guarded` and `guarded_why` where they have guards; its output is held to
// what an independent implementation printed (tests/vectors). A pack is a list of inputs: four bytes of length, low first, and then the bytes.
#![tactic(auto)]

ghost use Rattle.std.specs.Prelude.{◌≤◌};

use report::Guards;
use std::fs::File;
use std::io::Read;
use std::rt::Files;

const OUT: i32 = 1;

// Room for the longest input of a pack.
const ROOM: usize = 16384;

// What is printed of an input: what came of its programs, or why.
#[derive(Clone, Copy)]
enum Page {
    Results,
    Reasons,
}

// The line above an input's page.
fn print_heading(name: &[u8], page: Page, number: u64) {
    io::write_all(OUT, name);
    io::write_all(
        OUT,
        match page {
            Page::Results => b" ",
            Page::Reasons => b" why ",
        },
    );
    io::print_decimal(OUT, number);
    io::write_all(OUT, b"\n");
}

// The page of `batch`, or of `guarded`, for an input.
fn print_results(from: Guards, input: &[u8]) {
    let mut page = [0u8; results::BYTES];
    let end = report::batch_page(from, input, &mut page);
    output::print(b"vectors", &page[..end]);
}

// The page of `why`, or of `guarded_why`, for an input.
fn print_reasons(from: Guards, input: &[u8]) {
    let mut page = [0u8; reasons::PAGE];
    let end = report::reasons_page(from, input, &mut page);
    output::print(b"vectors", &page[..end]);
}

// The length of the next input, ROOM where it is longer.
fn length_of(head: [u8; 4]) -> usize
    ensures { result ≤ 16384 }
{
    ROOM.min(u32::from_le_bytes(head) as usize)
}

// Runs the next input of a pack, and answers whether there was one.
fn run_next(pack: &mut impl Read, name: &[u8], from: Guards, page: Page, number: u64) -> bool {
    let mut head = [0u8; 4];
    if input::read_full(pack, &mut head, || {}) < 4 {
        return false;
    }
    print_heading(name, page, number);
    let mut room = [0u8; ROOM];
    let got = input::read_full(pack, &mut room[..length_of(head)], || {});
    match page {
        Page::Results => print_results(from, &room[..got]),
        Page::Reasons => print_reasons(from, &room[..got]),
    }
    true
}

// Runs every input of a pack. No pack has as many as the loop would take.
fn run_all(pack: &mut impl Read, name: &[u8], from: Guards, page: Page) {
    for number in 0..1000000 {
        if !run_next(pack, name, from, page, number) {
            return;
        }
    }
}

// Opens a pack and runs it.
fn run_pack(rt: &(impl Files + Eprint), file: &str, name: &[u8], from: Guards, page: Page) {
    match File::open(rt, file) {
        Ok(mut pack) => run_all(&mut pack, name, from, page),
        Err(error) => {
            let _ = eprintln!(rt; "{file}: {error}");
        }
    }
}

// Runs the packs whose inputs have no guards, and then the one whose inputs do.
fn run_packs(rt: &(impl Files + Eprint), page: Page) {
    run_pack(rt, "bench.pack", b"bench", Guards::FullRange, page);
    run_pack(rt, "good.pack", b"good", Guards::FullRange, page);
    run_pack(rt, "edge.pack", b"edge", Guards::FullRange, page);
    run_pack(rt, "damaged.pack", b"damaged", Guards::FullRange, page);
    run_pack(rt, "guarded.pack", b"guarded", Guards::FromInput, page);
}

fn main(rt: HostRuntime) {
    run_packs(&rt, Page::Results);
    run_packs(&rt, Page::Reasons);
}
