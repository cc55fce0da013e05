// The checks 41 to 44 of a sheet: its programs are read one after another into a room for the longest, and looked at there.
ghost use Rattle.std.specs.Prelude.{◌≡◌, ◌+◌, ◌-◌, ◌≤◌, length, take, []};
ghost use Rattle.image.specs.Limits.{max_program_bytes};
ghost use Rattle.image.specs.Instruction.{program_fault};
ghost use Rattle.from_sheet.specs.Passes.{lines_from, body_of, InRoom, Reads, Readable, still_fault};

use crate::lines::Lines;
use image::BadInstruction;

// How many bytes of the program that is being read stand in the room, and how many programs have begun.
#[derive(Clone, Copy)]
pub struct Reading {
    pub used: usize,
    pub begun: usize,
}

// The first bad instruction of the program that has been read.
fn read_fault(room: &[u8], reading: Reading) -> Result<(), BadInstruction>
    requires { InRoom room.now reading }
    ensures { result ≡ program_fault (reading.begun - 1) (take reading.used room.now) }
{
    image::program_fault(&room[..reading.used], reading.begun.saturating_sub(1))
}

// A line more: where it begins a program, the one before it is looked at.
#[tactic(auto, unfolding(crate::specs::Passes::line_opened))]
fn read_line(
    room: &mut [u8],
    reading: Reading,
    line: sheet::Line,
) -> Result<Reading, BadInstruction>
    requires { InRoom room.old reading × (reading.used + length (body_of line) ≤ length room.old) }
    ensures { Reads room.old reading line room.new result }
{
    let used = reading.used;
    match line {
        sheet::Line::Program => {
            read_fault(room, reading)?;
            Ok(Reading {
                used: 0,
                begun: reading.begun + 1,
            })
        }
        sheet::Line::Instruction(i) => {
            room[used..used + 4].copy_from_slice(&i.bytes());
            Ok(Reading {
                used: used + 4,
                begun: reading.begun,
            })
        }
        sheet::Line::Rule(_) | sheet::Line::Other => Ok(reading),
    }
}

// The first bad instruction of a sheet, which has not too many programs, and none that is too long.
fn first_fault(sheet: &[u8], room: &mut [u8]) -> Result<(), BadInstruction>
    requires { Readable 0 [] (lines_from 0 sheet.now) × (length room.old ≡ max_program_bytes) }
    ensures { result ≡ still_fault 0 [] (lines_from 0 sheet.now) }
{
    let mut reading = Reading { used: 0, begun: 0 };
    for line in Lines::of(sheet) {
        reading = read_line(room, reading, line)?;
    }
    read_fault(room, reading)
}

// The same, in a room of its own.
pub fn code_fault(sheet: &[u8]) -> Result<(), BadInstruction>
    requires { Readable 0 [] (lines_from 0 sheet.now) }
    ensures { result ≡ still_fault 0 [] (lines_from 0 sheet.now) }
{
    let mut room = [0u8; image::Image::PROGRAM_BYTES];
    first_fault(sheet, &mut room)
}
