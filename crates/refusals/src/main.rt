// Earns the rows 5 to 15 of the refusal table (document 01, and document 02's asks 3 and 5), with everything before them in order, and prints what was asked
// and the number that came back; `refused_images` earns the rows about an image. Each line of the output is one call. The batch is the bench sheet's case 2, on
// the cells x, y and z.
#![tactic(auto)]

ghost use Rattle.std.specs.Prelude.{◌≡◌, ◌<◌, ◌≤◌, length};
ghost use Rattle.area.specs.Layout.{area_words, slot_start};

use sheetbendle::{Refusal, RefusalNumbers};

const CELLS: usize = 3;

const PROGRAMS: usize = 3;

// The words of guards for so many cells, and guards that let every value in.
const GUARDS: usize = 2 * CELLS;

const FREE: [u32; GUARDS] = [
    sheetbendle::LOWEST,
    sheetbendle::HIGHEST,
    sheetbendle::LOWEST,
    sheetbendle::HIGHEST,
    sheetbendle::LOWEST,
    sheetbendle::HIGHEST,
];

// The bytes of case 2's image.
const IMAGE: usize = 80;

// The bytes of an image of 64 programs without instructions.
const EMPTY: usize = 134;

// Room for the next image: a header of 14 bytes, the carried program of 24 and the three fresh ones of 68.
const ROOM: usize = 106;

// The first word of the work area is a mark.
const MARK: usize = 0;

// Case 2's image: 004's Example 1 under Rule 2, programs of 5, 6 and 6 instructions behind a header of 12 bytes.
fn example() -> [u8; IMAGE]
    ensures { 80 ≡ length result }
{
    *b"\x03\x00\x02\x00\x0c\x00\x20\x00\x38\x00\x50\x00\
        \x01\x00\x00\x00\x02\x01\x00\x00\x01\x02\x00\x01\x04\x01\x01\x02\x03\x00\x01\x00\
        \x01\x00\x00\x00\x02\x01\x00\x00\x01\x02\x00\x01\x02\x03\x02\x00\x05\x01\x01\x03\x03\x02\x01\x00\
        \x01\x00\x00\x00\x02\x01\x00\x00\x01\x02\x00\x01\x02\x03\x02\x00\x04\x01\x01\x03\x03\x00\x01\x00"
}

// An image of 64 programs without instructions: its 65 offsets all name its end.
fn empty_programs() -> [u8; EMPTY]
    ensures { 134 ≡ length result }
{
    *b"\x40\x00\x01\x00\
        \x86\x00\x86\x00\x86\x00\x86\x00\x86\x00\x86\x00\x86\x00\x86\x00\
        \x86\x00\x86\x00\x86\x00\x86\x00\x86\x00\x86\x00\x86\x00\x86\x00\
        \x86\x00\x86\x00\x86\x00\x86\x00\x86\x00\x86\x00\x86\x00\x86\x00\
        \x86\x00\x86\x00\x86\x00\x86\x00\x86\x00\x86\x00\x86\x00\x86\x00\
        \x86\x00\x86\x00\x86\x00\x86\x00\x86\x00\x86\x00\x86\x00\x86\x00\
        \x86\x00\x86\x00\x86\x00\x86\x00\x86\x00\x86\x00\x86\x00\x86\x00\
        \x86\x00\x86\x00\x86\x00\x86\x00\x86\x00\x86\x00\x86\x00\x86\x00\
        \x86\x00\x86\x00\x86\x00\x86\x00\x86\x00\x86\x00\x86\x00\x86\x00\
        \x86\x00"
}

// A table of one cell too many.
fn long_table() -> [u32; sheetbendle::Image::CELLS + 1]
    ensures { 257 ≡ length result }
{
    [0; sheetbendle::Image::CELLS + 1]
}

// How many words the work area has.
fn words() -> usize
    ensures { result ≡ area_words 3 3 }
{
    sheetbendle::area_words(CELLS as u16, PROGRAMS as u16)
}

// Where a program's slot begins in it.
fn slot_of(number: usize) -> usize
    requires { number < 3 }
    ensures { result ≡ slot_start 3 number }
{
    area::slot_start(CELLS, number)
}

// Puts a word at a place of the area.
fn put(area: &mut [u32], at: usize, value: u32)
    requires { at < length area.old }
    ensures { length area.new ≡ length area.old }
{
    area[at] = value;
}

// The number of an answer, 0 where it is no refusal.
fn number_of<T: Copy>(answer: Result<T, Refusal>) -> u32 {
    RefusalNumbers::from(answer.map(|_| ())).number
}

// Prints what was asked and the number that came back.
fn show(what: &[u8], number: u32) {
    io::write_all(1, what);
    io::write_all(1, b": ");
    io::print_decimal(1, number as u64);
    io::write_all(1, b"\n");
}

// Shows what opening says with case 2's image.
fn show_open(what: &[u8], table: &[u32], guards: &[u32], area: &mut [u32]) {
    let image = example();
    show(
        what,
        number_of(sheetbendle::open(&image, table, guards, area)),
    );
}

// Shows what gathering says with case 2's image.
fn show_gather(what: &[u8], table: &[u32], area: &mut [u32], number: usize) {
    let image = example();
    let answer = sheetbendle::gather(&image, table, &FREE, area, number);
    show(what, sheetbendle::of_gathered(answer).refusal.number);
}

// Shows what settling says with case 2's image.
fn show_settle(what: &[u8], table: &mut [u32], area: &mut [u32], number: usize) {
    let image = example();
    let answer = sheetbendle::settle(&image, table, &FREE, area, number);
    show(what, sheetbendle::of_settled(answer).refusal.number);
}

// Shows what why says with case 2's image.
fn show_why(what: &[u8], table: &[u32], area: &[u32], number: usize) {
    let image = example();
    let answer = sheetbendle::why(&image, table, &FREE, area, number);
    show(what, sheetbendle::of_why(answer).refusal.number);
}

// Shows what the listed order says with case 2's image, into a list of so many entries.
fn show_order(what: &[u8], table: &[u32], area: &[u32], entries: usize)
    requires { entries ≤ 3 }
{
    let image = example();
    let mut list = [0; PROGRAMS];
    let answer = sheetbendle::order(&image, table, &FREE, area, &mut list[0..entries]);
    show(what, number_of(answer));
}

// Shows what the next image says with case 2's image and a fresh one, into an output of so many bytes.
fn show_next(what: &[u8], table: &[u32], area: &[u32], fresh: &[u8], room: usize)
    requires { room ≤ 106 }
{
    let image = example();
    let mut out = [0; ROOM];
    let answer = sheetbendle::next_image(&image, table, &FREE, area, fresh, &mut out[0..room]);
    show(what, number_of(answer));
}

// Row 5, at opening.
fn of_table_size() {
    let long = long_table();
    show_open(b"open with no table", &[], &[], &mut []);
    show_open(b"open with 257 cells", &long, &[], &mut []);
}

// Row 14, at opening, in an area that breaks row 6 too.
fn of_guards(table: &[u32]) {
    show_open(b"open with no guards", table, &[], &mut []);
    show_open(
        b"open with an end of a guard too few",
        table,
        &FREE[0..GUARDS - 1],
        &mut [],
    );
}

// Row 6, at opening.
fn of_area_size(table: &[u32], area: &mut [u32])
    requires { area_words 3 3 ≡ length area.old }
{
    let short = area.len() - 1;
    show_open(
        b"open with an area too short",
        table,
        &FREE,
        &mut area[0..short],
    );
    show_open(b"open", table, &FREE, area);
}

// Shows what gathering program 0 says of an area with one word changed; program 1 counts one read in it.
fn show_spoilt(what: &[u8], table: &[u32], at: usize, value: u32)
    requires { at < area_words 3 3 }
{
    let mut room = [0u32; sheetbendle::AREA_WORDS];
    let end = words();
    let area = &mut room[0..end];
    put(area, slot_of(1) + slot::READ_COUNT, 1);
    put(area, at, value);
    show_gather(what, table, area, 0);
}

// Row 7: a mark, a state, a count, a counted cell.
fn of_area_words(table: &[u32]) {
    let state = slot_of(0) + slot::STATE;
    let count = slot_of(1) + slot::READ_COUNT;
    let read = slot_of(1) + slot::READS;
    show_spoilt(b"gather with a mark over n", table, MARK, 4);
    show_spoilt(b"gather with a state over 5", table, state, 6);
    show_spoilt(b"gather with a count over 32", table, count, 33);
    show_spoilt(b"gather with a cell of T among the counted", table, read, 3);
}

// Rows 8 and 9, at gathering.
fn of_gathering(table: &[u32], area: &mut [u32]) {
    show_gather(b"gather 3 of three", table, area, PROGRAMS);
    show_gather(b"gather 0", table, area, 0);
    show_gather(b"gather 0 again", table, area, 0);
}

// Row 9 at settling, and the gatherings that it waits for.
fn of_waiting(table: &mut [u32], area: &mut [u32]) {
    show_settle(b"settle 0 while others wait", table, area, 0);
    show_gather(b"gather 1", table, area, 1);
    show_gather(b"gather 2", table, area, 2);
}

// Rows 8 and 9, at settling.
fn of_settling(table: &mut [u32], area: &mut [u32]) {
    show_settle(b"settle 3 of three", table, area, PROGRAMS);
    show_settle(b"settle 0", table, area, 0);
    show_settle(b"settle 0 again", table, area, 0);
}

// Row 9, at why, the listed order and the next image.
fn of_unsettled(table: &[u32], area: &[u32]) {
    let fresh = example();
    show_why(b"why 0 while two are gathered", table, area, 0);
    show_order(b"order while two are gathered", table, area, PROGRAMS);
    show_next(
        b"next image while two are gathered",
        table,
        area,
        &fresh,
        ROOM,
    );
}

// The settlings that these wait for.
fn of_settled(table: &mut [u32], area: &mut [u32]) {
    show_settle(b"settle 1", table, area, 1);
    show_settle(b"settle 2", table, area, 2);
}

// Row 10, at the listed order.
fn of_order(table: &[u32], area: &[u32]) {
    show_order(b"order into two entries", table, area, 2);
    show_order(b"order", table, area, PROGRAMS);
}

// Rows 8 and 13, at why: program 0 is committed, program 2 carried for reason 1.
fn of_why(table: &[u32], area: &[u32]) {
    show_why(b"why 3 of three", table, area, PROGRAMS);
    show_why(b"why 0, which is committed", table, area, 0);
    show_why(b"why 2", table, area, 2);
}

// Rows 11 and 10, at the next image.
fn of_next(table: &[u32], area: &[u32]) {
    let many = empty_programs();
    let fresh = example();
    show_next(b"one carried and 64 fresh", table, area, &many, ROOM);
    show_next(b"next image into 105 bytes", table, area, &fresh, ROOM - 1);
    show_next(b"next image into 106 bytes", table, area, &fresh, ROOM);
}

// Row 15, at why.
fn of_detail(table: &[u32], area: &mut [u32])
    requires { area_words 3 3 ≡ length area.old }
{
    put(area, slot_of(2) + slot::DETAIL, 2);
    show_why(b"why 2 with another reason's detail", table, area, 2);
}

// Row 12, in areas that the calls never make: with program 2 committed each of the three waits for another, and without program 1 the other two do.
fn of_knots(table: &[u32], area: &mut [u32])
    requires { area_words 3 3 ≡ length area.old }
{
    put(area, slot_of(2) + slot::STATE, slot::COMMITTED);
    show_order(b"order of a knot of three", table, area, PROGRAMS);
    put(area, slot_of(1) + slot::STATE, slot::REJECTED);
    show_order(b"order of a knot of two", table, area, PROGRAMS);
}

// The steps up to the first settling.
fn of_steps(table: &mut [u32], area: &mut [u32])
    requires { area_words 3 3 ≡ length area.old }
{
    of_guards(table);
    of_area_size(table, area);
    of_area_words(table);
    of_gathering(table, area);
    of_waiting(table, area);
}

// The settlings, and what is asked before the last of them.
fn of_settlings(table: &mut [u32], area: &mut [u32]) {
    of_settling(table, area);
    of_unsettled(table, area);
    of_settled(table, area);
}

// What is asked of the settled batch.
fn of_end(table: &[u32], area: &[u32]) {
    of_order(table, area);
    of_why(table, area);
    of_next(table, area);
}

// The batch, step by step, on a table and in an area of its size; at its end words of the area are changed.
fn run_batch(table: &mut [u32], area: &mut [u32])
    requires { area_words 3 3 ≡ length area.old }
{
    of_steps(table, area);
    of_settlings(table, area);
    of_end(table, area);
    of_detail(table, area);
    of_knots(table, area);
}

// The rows, in the order in which the batch of case 2 can earn them: x is 9 and y is 4.
fn main() {
    of_table_size();
    let mut table = [9u32, 4, 0];
    let mut room = [0u32; sheetbendle::AREA_WORDS];
    let end = words();
    run_batch(&mut table, &mut room[0..end]);
}
