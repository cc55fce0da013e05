// The smallest program over the library: README, "In a program of your own", shows it whole.
#![tactic(auto)]

use sheetbendle::{Refusal, RefusalNumbers};

// The image: two programs on two cells, the heater's set point and the beacon's copy of it.
//   two programs, Rule 2; where each begins, and the end
//   program 0: set r1 to 25; store r1 to cell number r0, which is 0
//   program 1: load r1 from cell number r0; set r2 to 1; store r1 to cell number r2
const IMAGE: [u8; 30] = *b"\x02\x00\x02\x00\x0a\x00\x12\x00\x1e\x00\
    \x01\x01\x00\x19\x03\x00\x01\x00\
    \x02\x01\x00\x00\x01\x02\x00\x01\x03\x02\x01\x00";

fn print(text: &[u8], number: u32) {
    io::write_all(1, text);
    io::print_decimal(1, number as u64);
    io::write_all(1, b"\n");
}

// The guards: the set point stays between -20 and 45, and the copy may be any number. -20 is written as 2^32 - 20.
const GUARDS: [u32; 4] = [4294967276, 45, sheetbendle::LOWEST, sheetbendle::HIGHEST];

// Runs the batch. Both programs are committed, so the list is full: as if the first had run, and then the other.
fn run(table: &mut [u32], area: &mut [u32]) -> Result<(), Refusal> {
    sheetbendle::open(&IMAGE, table, &GUARDS, area)?;
    sheetbendle::gather(&IMAGE, table, &GUARDS, area, 0)?;
    sheetbendle::gather(&IMAGE, table, &GUARDS, area, 1)?;
    sheetbendle::settle(&IMAGE, table, &GUARDS, area, 0)?;
    sheetbendle::settle(&IMAGE, table, &GUARDS, area, 1)?;
    let mut list = [0u32; 2];
    sheetbendle::order(&IMAGE, table, &GUARDS, area, &mut list)?;
    print(b"first program ", list[0]);
    print(b"then program ", list[1]);
    Ok(())
}

fn main() {
    let mut table = [20u32, 0];
    // room for the largest work area; of it, the words of one for two cells and two programs
    let mut room = [0u32; sheetbendle::AREA_WORDS];
    let words = sheetbendle::area_words(2, 2);
    if let Err(refusal) = run(&mut table, &mut room[0..words]) {
        print(b"refused ", RefusalNumbers::from(refusal).number);
        return;
    }
    print(b"set point ", table[0]);
    print(b"beacon's copy ", table[1]);
}
