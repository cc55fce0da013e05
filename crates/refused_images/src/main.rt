// Earns the rows of the refusal table that are about an image (document 01, and document 02's ask 2): 1, 2, 3 and 41 to 44, as a fresh image 21, 22, 23 and
// 61 to 64, and 8 of a program's number. Each line of the output is one call: what was asked and the number that came back, and of a bad instruction also
// its program and its number there.
#![tactic(auto)]

ghost use Rattle.std.specs.Prelude.{◌≡◌, ◌<◌, ◌≤◌, length};

use sheetbendle::{Refusal, RefusalNumbers};

// The good image's header, three programs of three instructions, and the whole.
const HEAD: usize = 12;

const PROGRAMS: usize = 3;

const PROGRAM: usize = 3 * sheetbendle::Image::INSTRUCTION_BYTES;

const IMAGE: usize = HEAD + PROGRAMS * PROGRAM;

// One byte more than the largest image has.
const LONG: usize = sheetbendle::Image::BYTES + 1;

// An image with one program of 33 instructions.
const OVER: usize = 140;

// The good image, under Rule 1: each program loads cell 0, adds register 0 to it and stores the sum there.
fn example() -> [u8; IMAGE]
    ensures { 48 ≡ length result }
{
    *b"\x03\x00\x01\x00\x0c\x00\x18\x00\x24\x00\x30\x00\
        \x02\x01\x00\x00\x04\x01\x01\x00\x03\x00\x01\x00\
        \x02\x01\x00\x00\x04\x01\x01\x00\x03\x00\x01\x00\
        \x02\x01\x00\x00\x04\x01\x01\x00\x03\x00\x01\x00"
}

// An image without programs; a batch of it is settled from the start.
fn no_programs() -> [u8; sheetbendle::Image::LEAST_BYTES]
    ensures { 6 ≡ length result }
{
    *b"\x00\x00\x01\x00\x06\x00"
}

// Puts a byte at a place of the image.
fn put(image: &mut [u8], at: usize, value: u8)
    requires { at < length image.old }
    ensures { length image.new ≡ length image.old }
{
    image[at] = value;
}

// Puts another instruction i into program p of the good image.
fn put_instruction(image: &mut [u8], p: usize, i: usize, instruction: [u8; 4])
    requires { (p < 3) × (i < 3) × (48 ≡ length image.old) }
    ensures { 48 ≡ length image.new }
{
    let at = HEAD + PROGRAM * p + sheetbendle::Image::INSTRUCTION_BYTES * i;
    put(image, at, instruction[0]);
    put(image, at + 1, instruction[1]);
    put(image, at + 2, instruction[2]);
    put(image, at + 3, instruction[3]);
}

// Prints the number that came back, and of a bad instruction its place.
fn show(answer: Result<(), Refusal>) {
    let numbers = RefusalNumbers::from(answer);
    io::write_all(1, b": ");
    io::print_decimal(1, numbers.number as u64);
    if 41 <= numbers.number {
        io::write_all(1, b" at ");
        io::print_decimal(1, numbers.program as u64);
        io::write_all(1, b" ");
        io::print_decimal(1, numbers.instruction as u64);
    }
    io::write_all(1, b"\n");
}

// Shows what handing back a program says.
fn show_program(what: &[u8], image: &[u8], number: usize) {
    io::write_all(1, what);
    show(sheetbendle::program_refusal(image, number));
}

// Shows what opening says, with one cell and an area for three programs.
fn show_open(what: &[u8], image: &[u8]) {
    let mut room = [0; sheetbendle::AREA_WORDS];
    let words = sheetbendle::area_words(1, PROGRAMS as u16);
    io::write_all(1, what);
    io::write_all(1, b", opened");
    show(sheetbendle::open(image, &[0], &[0, 0], &mut room[0..words]));
}

// Shows what the next image says of a fresh one, after a batch without programs on one cell.
fn show_fresh(what: &[u8], fresh: &[u8]) {
    let image = no_programs();
    let mut out = [0; IMAGE];
    io::write_all(1, what);
    io::write_all(1, b", fresh");
    let answer = sheetbendle::next_image(&image, &[0], &[0, 0], &[0, 0], fresh, &mut out);
    show(answer.map(|_| ()));
}

// Shows what the three calls say of an image.
fn show_image(what: &[u8], image: &[u8]) {
    show_program(what, image, 0);
    show_open(what, image);
    show_fresh(what, image);
}

// The same of the first n bytes of the good image.
fn show_cut(what: &[u8], n: usize)
    requires { n ≤ 48 }
{
    let image = example();
    show_image(what, &image[0..n]);
}

// The same of the good image with one byte changed.
fn show_changed(what: &[u8], at: usize, value: u8)
    requires { at < 48 }
{
    let mut image = example();
    image[at] = value;
    show_image(what, &image);
}

// The same of the good image with another instruction i of program p.
fn show_instruction(what: &[u8], p: usize, i: usize, instruction: [u8; 4])
    requires { (p < 3) × (i < 3) }
{
    let mut image = example();
    put_instruction(&mut image, p, i, instruction);
    show_image(what, &image);
}

// The same with operation 9 as instruction j of program q as well.
fn show_both(what: &[u8], p: usize, i: usize, instruction: [u8; 4], q: usize, j: usize)
    requires { (p < 3) × (i < 3) × (q < 3) × (j < 3) }
{
    let mut image = example();
    put_instruction(&mut image, p, i, instruction);
    put_instruction(&mut image, q, j, [9, 0, 0, 0]);
    show_image(what, &image);
}

// Row 1: under 6 or over 8326 bytes.
fn of_size() {
    let long = [0; LONG];
    show_cut(b"a good image", IMAGE);
    show_cut(b"an image of 5 bytes", 5);
    show_image(b"an image of 8327 bytes", &long);
}

// Row 2: count over 64, rule over 2, or byte 3 not 0.
fn of_header() {
    show_changed(b"65 programs", 0, 65);
    show_changed(b"rule 3", 2, 3);
    show_changed(b"byte 3 not 0", 3, 1);
}

// Row 3: under 2n+6 bytes, or an offset rule broken.
fn of_offsets() {
    show_cut(b"an image under 2n+6 bytes", HEAD - 1);
    show_changed(b"a first offset past the header", 4, 16);
    show_changed(b"offsets that fall", 6, 8);
    show_changed(b"a length that is no multiple of 4", 6, 22);
    show_cut(b"a last offset past the image", IMAGE - 1);
}

// Row 3, by a length over 128.
fn of_length() {
    let mut image = [0; OVER];
    image[0] = 1;
    image[4] = 8;
    image[6] = OVER as u8;
    show_image(b"a program of 33 instructions", &image);
}

// Row 41: unknown operation.
fn of_operations() {
    show_instruction(
        b"operation 9 in instruction 0 of program 0",
        0,
        0,
        [9, 0, 0, 0],
    );
    show_instruction(
        b"operation 10 in instruction 1 of program 1",
        1,
        1,
        [10, 0, 0, 0],
    );
    show_instruction(
        b"operation 255 in instruction 2 of program 2",
        2,
        2,
        [255, 255, 255, 255],
    );
}

// Row 42: register over 7.
fn of_registers() {
    show_instruction(
        b"a set of register 8 in instruction 1 of program 0",
        0,
        1,
        [1, 8, 0, 0],
    );
    show_instruction(
        b"a store of register 255 in instruction 2 of program 1",
        1,
        2,
        [3, 0, 255, 0],
    );
    show_instruction(
        b"an add of register 8 in instruction 0 of program 2",
        2,
        0,
        [4, 7, 7, 8],
    );
}

// Row 43: an unused byte not 0.
fn of_unused_bytes() {
    show_instruction(
        b"an end with byte a not 0 in instruction 2 of program 0",
        0,
        2,
        [0, 1, 0, 0],
    );
    show_instruction(
        b"a reject with byte b not 0 in instruction 0 of program 1",
        1,
        0,
        [8, 255, 1, 0],
    );
    show_instruction(
        b"a load with byte c not 0 in instruction 1 of program 2",
        2,
        1,
        [2, 0, 0, 255],
    );
}

// Row 44: skip past the end. The last line is no refusal, since this skip lands on m.
fn of_skips() {
    show_instruction(
        b"skipless past the end in instruction 2 of program 0",
        0,
        2,
        [6, 0, 0, 1],
    );
    show_instruction(
        b"skipequal past the end in instruction 1 of program 1",
        1,
        1,
        [7, 0, 0, 2],
    );
    show_instruction(
        b"skipless past the end in instruction 0 of program 2",
        2,
        0,
        [6, 0, 0, 3],
    );
    show_instruction(
        b"skipless to the end in instruction 0 of program 2",
        2,
        0,
        [6, 0, 0, 2],
    );
}

// An instruction that is bad in two ways: the first in the list counts.
fn of_two_ways() {
    show_instruction(
        b"a store of register 8 with byte c not 0 in instruction 2 of program 1",
        1,
        2,
        [3, 0, 8, 1],
    );
    show_instruction(
        b"skipless of register 8 past the end in instruction 1 of program 2",
        2,
        1,
        [6, 8, 0, 255],
    );
}

// Two bad instructions: the first in image order counts.
fn of_two_places() {
    show_both(
        b"a load with byte c not 0 in instruction 2 of program 0, operation 9 in instruction 0 of program 1",
        0,
        2,
        [2, 0, 0, 1],
        1,
        0,
    );
    show_both(
        b"skipequal past the end in instruction 0 of program 2, operation 9 in instruction 1 of program 2",
        2,
        0,
        [7, 0, 0, 3],
        2,
        1,
    );
}

// Row 8: program number n or more; the image's own refusal comes before it.
fn of_numbers() {
    let image = example();
    let none = no_programs();
    show_program(b"program 2 of three", &image, 2);
    show_program(b"program 3 of three", &image, PROGRAMS);
    show_program(b"program 0 of none", &none, 0);
    show_program(b"program 3 of an image of 5 bytes", &image[0..5], PROGRAMS);
}

fn of_instructions() {
    of_operations();
    of_registers();
    of_unused_bytes();
    of_skips();
    of_two_ways();
    of_two_places();
}

// The rows, in the order of the checks.
fn main() {
    of_size();
    of_header();
    of_offsets();
    of_length();
    of_instructions();
    of_numbers();
}
