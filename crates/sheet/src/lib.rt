// A sheet: document 02, ask 1. What its lines say, and how they are read.
#![tactic(auto)]

ghost use Rattle.std.specs.Prelude.{◌≡◌, ◌<◌};
ghost use Rattle.sheet.specs.Sheet.{operations, name_of};

mod reading;

use image::{ImageRefusal, Refusal};
pub use reading::{line_of, part_end};

// An instruction: its operation, a number from 0 to 8 that has a name, and its three bytes.
#[derive(Clone, Copy)]
pub struct Instruction {
    pub op: u8,
    pub a: u8,
    pub b: u8,
    pub c: u8,
}

impl Instruction {
    ghost use Rattle.sheet.specs.Sheet.{bytes_of};

    // As it stands in an image.
    pub fn bytes(self) -> [u8; 4]
        ensures { result ≡ bytes_of self }
    {
        [self.op, self.a, self.b, self.c]
    }
}

// What a line says; any other line says nothing that a sheet can hold.
#[derive(Clone, Copy)]
pub enum Line {
    Rule(u8),
    Program,
    Instruction(Instruction),
    Other,
}

// Why a call that reads a sheet or an image and writes the other writes nothing: as other calls, or for a line that its place does not allow, with
// its number, from 1.
#[derive(Clone, Copy, PartialEq, Eq)]
pub enum Unwritten {
    Refused(Refusal),
    BadLine(usize),
}

impl From<Refusal> for Unwritten {
    ghost use Rattle.sheet.specs.declared.Unwritten.TheVariants.{Refused};

    ghost from_gives = { λ refusal r. r ≡ Refused refusal };

    fn from(refusal: Refusal) -> Unwritten {
        Unwritten::Refused(refusal)
    }
}

impl From<ImageRefusal> for Unwritten {
    ghost use Rattle.image.specs.declared.refusals.Refusal.TheVariants.{Image};
    ghost use Rattle.sheet.specs.declared.Unwritten.TheVariants.{Refused};

    ghost from_gives = { λ image r. r ≡ Refused (Image image) };

    fn from(image: ImageRefusal) -> Unwritten {
        Unwritten::Refused(Refusal::Image(image))
    }
}

// How many operations there are: document 01, "Instructions".
pub const OPERATIONS: usize = 9;

// How many bytes the longest of their names has.
pub const NAME_BYTES: usize = 9;

// The names of the operations, each in the place of its number.
static NAMES: [&[u8]; OPERATIONS] = [
    b"end",
    b"set",
    b"load",
    b"store",
    b"add",
    b"sub",
    b"skipless",
    b"skipequal",
    b"reject",
];

// The name of an operation, which has one.
#[tactic(auto, unfolding(crate::specs::Sheet::name_of, crate::specs::Sheet::names))]
pub fn name_of(op: u8) -> &'static [u8]
    requires { op < operations }
    ensures { result.now ≡ name_of op }
{
    NAMES[op as usize]
}
