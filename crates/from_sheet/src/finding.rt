// Which line of a sheet an instruction is, and which byte of it is wrong: document 02, ask 2.
ghost use Rattle.std.specs.Prelude.{◌≡◌, ◌≤◌, ◌<◌, ◌^◌, length};
ghost use Rattle.text.specs.Writing.{PageSays, Room};
ghost use Rattle.image.specs.Limits.{max_program_bytes};
ghost use Rattle.image.specs.Instruction.{instructions_of, wrong_byte};
ghost use Rattle.sheet.specs.Sheet.{leading, programs};
ghost use Rattle.from_sheet.specs.Passes.{lines_from};
ghost use Rattle.from_sheet.specs.Lines.{lines_left};
ghost use Rattle.from_sheet.specs.WrongLines.{begins, wrong_line, Begins, Stands};

use crate::lines::Lines;
use crate::writing::put_body;
use text::Page;

// A line of a sheet by its number, from 1, and the byte that is wrong with its instruction.
#[derive(Clone, Copy)]
pub struct WrongLine {
    pub line: usize,
    pub byte: u8,
}

// Whether a line begins a program.
#[tactic(auto, unfolding(crate::specs::WrongLines::begins))]
fn begins(line: sheet::Line) -> bool
    ensures { result ≡ begins line }
{
    matches!(line, sheet::Line::Program)
}

// The number of the line that begins program p, which is there, from 1; what is left are the lines behind it. A `for` would not say what it leaves.
fn beginning_of(lines: &mut Lines<'_>, p: usize) -> usize
    requires { (p < length (programs (lines_left lines.old))) × (p < 65536) × (length (lines_left lines.old) ≤ 2 ^ 63) }
    ensures { Begins (lines_left lines.old) p result (lines_left lines.new) }
{
    let mut left = p;
    let mut number: usize = 0;
    while let Some(line) = lines.next() {
        number += 1;
        if begins(line) {
            if left == 0 {
                return number;
            }
            left -= 1;
        }
    }
    number
}

// The bytes of the instructions of the lines that are left, up to the next program.
fn read_program(room: &mut [u8], lines: Lines<'_>) -> usize
    requires { Room room.old 0 (leading (lines_left lines)) }
    ensures { PageSays (leading (lines_left lines.entry)) room.old result room.new }
{
    let mut page = Page::new(room);
    for line in lines {
        if begins(line) {
            break;
        }
        put_body(&mut page, line);
    }
    page.end()
}

// The byte that is wrong with instruction i of the program whose lines are left.
fn wrong_in(lines: Lines<'_>, i: usize) -> u8
    requires { (length (leading (lines_left lines)) ≤ max_program_bytes) × (i < instructions_of (leading (lines_left lines))) }
    ensures { result ≡ wrong_byte (leading (lines_left lines.entry)) i }
{
    let mut room = [0u8; image::Image::PROGRAM_BYTES];
    let used = read_program(&mut room, lines);
    image::wrong_byte(&room[..used], i)
}

// The line of instruction i of program p, which is there, and its wrong byte.
pub fn wrong_line(sheet: &[u8], p: usize, i: usize) -> WrongLine
    requires { Stands sheet.now p i }
    ensures { result ≡ wrong_line sheet.now p i }
{
    let mut lines = Lines::of(sheet);
    let begun = beginning_of(&mut lines, p);
    WrongLine {
        line: begun + 1 + i,
        byte: wrong_in(lines, i),
    }
}
