// Earns each row of the refusal table that a sheet or its image can earn (document 02, asks 1 and 2), on both sides, in their order, and prints what was
// asked and what came back. Each line of the output is one call.
#![tactic(auto)]

use sheetbendle::{Refusal, RefusalNumbers, Unwritten};

// Room for the image of a sheet of 64 programs without instructions, and of one program of 32.
const ROOM: usize = 136;

// The first line of a sheet, and one program.
const RULE: usize = 7;

const PROGRAM: usize = 8;

const END: usize = 10;

// A sheet of 65 programs, and one of a program of 33 instructions; without the last line they have 64 and 32.
const MANY: [u8; RULE + 65 * PROGRAM] = *b"rule 1\n\
    program\nprogram\nprogram\nprogram\nprogram\nprogram\nprogram\nprogram\n\
    program\nprogram\nprogram\nprogram\nprogram\nprogram\nprogram\nprogram\n\
    program\nprogram\nprogram\nprogram\nprogram\nprogram\nprogram\nprogram\n\
    program\nprogram\nprogram\nprogram\nprogram\nprogram\nprogram\nprogram\n\
    program\nprogram\nprogram\nprogram\nprogram\nprogram\nprogram\nprogram\n\
    program\nprogram\nprogram\nprogram\nprogram\nprogram\nprogram\nprogram\n\
    program\nprogram\nprogram\nprogram\nprogram\nprogram\nprogram\nprogram\n\
    program\nprogram\nprogram\nprogram\nprogram\nprogram\nprogram\nprogram\n\
    program\n";

const LONG: [u8; RULE + PROGRAM + 33 * END] = *b"rule 1\nprogram\n\
    end 0 0 0\nend 0 0 0\nend 0 0 0\nend 0 0 0\nend 0 0 0\nend 0 0 0\nend 0 0 0\nend 0 0 0\n\
    end 0 0 0\nend 0 0 0\nend 0 0 0\nend 0 0 0\nend 0 0 0\nend 0 0 0\nend 0 0 0\nend 0 0 0\n\
    end 0 0 0\nend 0 0 0\nend 0 0 0\nend 0 0 0\nend 0 0 0\nend 0 0 0\nend 0 0 0\nend 0 0 0\n\
    end 0 0 0\nend 0 0 0\nend 0 0 0\nend 0 0 0\nend 0 0 0\nend 0 0 0\nend 0 0 0\nend 0 0 0\n\
    end 0 0 0\n";

fn print_number(words: &[u8], number: u64) {
    io::write_all(1, words);
    io::print_decimal(1, number);
}

// The number, and which instruction is bad: 0 and 0 where it is none.
fn print_refusal(refusal: Refusal) {
    let numbers = RefusalNumbers::from(refusal);
    print_number(b": ", numbers.number as u64);
    print_number(b", program ", numbers.program as u64);
    print_number(b", instruction ", numbers.instruction as u64);
}

fn print_answer(asked: &[u8], answer: Result<usize, Unwritten>) {
    io::write_all(1, asked);
    match answer {
        Ok(length) => print_number(b": 0, length ", length as u64),
        Err(Unwritten::BadLine(line)) => print_number(b": 51, line ", line as u64),
        Err(Unwritten::Refused(refusal)) => print_refusal(refusal),
    }
    io::write_all(1, b"\n");
}

// The image of a sheet, in room enough.
fn image(asked: &[u8], sheet: &[u8]) {
    let mut out = [0u8; ROOM];
    print_answer(asked, sheetbendle::image_of(sheet, &mut out));
}

// The same in so little room.
fn short_image(asked: &[u8], sheet: &[u8]) {
    let mut out = [0u8; 13];
    print_answer(asked, sheetbendle::image_of(sheet, &mut out));
}

// The sheet of an image, in the room of a sheet of one program and one instruction.
fn sheet(asked: &[u8], image: &[u8]) {
    let mut out = [0u8; RULE + PROGRAM + END];
    let answer = sheetbendle::sheet_of(image, &mut out);
    print_answer(asked, answer.map_err(Unwritten::Refused));
}

fn lines() {
    image(b"an empty sheet", b"");
    image(b"a first line that is no rule", b"program\n");
    image(b"rule 3", b"rule 3\n");
    image(b"a rule with a leading zero", b"rule 01\n");
    image(b"an unended first line", b"rule 1");
    image(b"rule 1", b"rule 1\n");
    image(
        b"an instruction before the first program",
        b"rule 1\nend 0 0 0\n",
    );
    image(b"a blank line", b"rule 1\nprogram\n\n");
    image(b"a second rule", b"rule 1\nprogram\nrule 1\n");
    image(b"an unknown name", b"rule 1\nprogram\njump 0 0 0\n");
    image(b"a byte over 255", b"rule 1\nprogram\nset 0 0 256\n");
    image(b"two spaces", b"rule 1\nprogram\nset  0 0 0\n");
    image(b"a carriage return", b"rule 1\nprogram\r\n");
    image(b"an unended last line", b"rule 1\nprogram\nend 0 0 0");
}

fn sizes() {
    image(b"65 programs", &MANY);
    image(b"64 programs", &MANY[0..RULE + 64 * PROGRAM]);
    image(b"a program of 33 instructions", &LONG);
    image(
        b"a program of 32 instructions",
        &LONG[0..RULE + PROGRAM + 32 * END],
    );
}

fn instructions() {
    image(b"a register over 7", b"rule 1\nprogram\nset 8 0 0\n");
    image(b"register 7", b"rule 1\nprogram\nset 7 0 0\n");
    image(
        b"an unused byte that is not 0",
        b"rule 1\nprogram\nend 0 0 1\n",
    );
    image(b"a skip past the end", b"rule 1\nprogram\nskipless 0 0 1\n");
    image(b"a skip to the end", b"rule 1\nprogram\nskipless 0 0 0\n");
}

fn places() {
    image(
        b"a register over 7 in program 1, instruction 2",
        b"rule 1\nprogram\nprogram\nend 0 0 0\nend 0 0 0\nset 8 0 0\nprogram\n",
    );
    image(
        b"an unused byte that is not 0 in program 2, instruction 0",
        b"rule 1\nprogram\nprogram\nend 0 0 0\nprogram\nload 0 0 1\n",
    );
    image(
        b"a skip past the end in program 0, instruction 1",
        b"rule 1\nprogram\nend 0 0 0\nskipequal 0 0 2\nend 0 0 0\nprogram\n",
    );
    image(
        b"a skip past the end, and then a register over 7",
        b"rule 1\nprogram\nend 0 0 0\nskipequal 0 0 9\nset 8 0 0\nprogram\nset 8 0 0\n",
    );
    image(
        b"a register over 7 and an unused byte that is not 0",
        b"rule 1\nprogram\nload 8 0 1\n",
    );
}

fn rooms() {
    short_image(
        b"an output one byte short",
        b"rule 1\nprogram\nprogram\nend 0 0 0\n",
    );
    short_image(
        b"an output that is long enough",
        b"rule 1\nprogram\nend 0 0 0\n",
    );
}

fn sheets() {
    sheet(b"the sheet of an image of 5 bytes", b"\x00\x00\x01\x00\x06");
    sheet(
        b"the sheet of an image under rule 3",
        b"\x00\x00\x03\x00\x06\x00",
    );
    sheet(
        b"the sheet of an image with a bad offset",
        b"\x00\x00\x01\x00\x07\x00",
    );
    sheet(
        b"the sheet of an image with operation 9",
        b"\x01\x00\x01\x00\x08\x00\x0c\x00\x09\x00\x00\x00",
    );
    sheet(
        b"the sheet of an image with a register over 7 in program 1, instruction 1",
        b"\x02\x00\x01\x00\x0a\x00\x0a\x00\x12\x00\x00\x00\x00\x00\x02\x08\x00\x00",
    );
    sheet(
        b"a sheet that does not fit",
        b"\x01\x00\x01\x00\x08\x00\x0c\x00\x03\x00\x00\x00",
    );
    sheet(
        b"a sheet that fits",
        b"\x01\x00\x01\x00\x08\x00\x0c\x00\x00\x00\x00\x00",
    );
}

fn main() {
    lines();
    sizes();
    instructions();
    places();
    rooms();
    sheets();
}
