// Which instruction is good, and what is wrong with one that is not: document 01, "Instructions", and document 02, ask 2.
ghost use Rattle.std.specs.Prelude.{◌≡◌, cond, ◌&&◌, ◌≤◌, ◌<◌, length};
ghost use Rattle.image.specs.Limits.{max_instructions, max_program_bytes};
ghost use Rattle.image.specs.Refusals.{passes, placed};
ghost use Rattle.image.specs.Instruction.{register_good, unused_good, skip_good, fault_of, wrong_of, instructions_of, instruction_of};
ghost use Rattle.image.specs.Instruction.{fault_at, wrong_byte, place_good};
ghost use Rattle.image.specs.Bits.{packed, bits_of, row_of, ByKind};

use crate::Image;
use crate::refusals::{BadInstruction, Fault};

// The kinds of a byte, each by the bits that are 0 in a good one: a register is below 8, an unused byte is 0, a skip's length is below 32, since no
// program is longer, and the last kind may be any byte. They stay numbers: as an enum, which was tried, they make the check of an image slower.
const REGISTER: u8 = 248;

const UNUSED: u8 = 255;

const SKIP: u8 = 224;

const FREE: u8 = 0;

// The same of a known operation, which is below 16, and the bits of one that is not known, which stand for no row.
const OPERATION: u8 = 240;

const UNKNOWN: u32 = 255;

// Whether all three hold.
fn all(x: bool, y: bool, z: bool) -> bool
    ensures { result ≡ x && y && z }
{
    x && y && z
}

// Four bytes as one number: those of an instruction, or the kinds of a row.
fn packed(op: u8, a: u8, b: u8, c: u8) -> u32
    ensures { result ≡ packed op a b c }
{
    op as u32 + 256 * a as u32 + 65536 * b as u32 + 16777216 * c as u32
}

// The bits that are 0 in a good instruction, by its operation: the table, row by row. Operations 9 to 255 are bad.
#[tactic(auto, using(crate::proofs::Bytes::no_bits), unfolding(crate::proofs::Bytes::table))]
fn bits_of(op: u8) -> u32
    ensures { result ≡ bits_of op }
{
    match op {
        0 => packed(OPERATION, UNUSED, UNUSED, UNUSED),
        1 => packed(OPERATION, REGISTER, FREE, FREE),
        2 => packed(OPERATION, REGISTER, REGISTER, UNUSED),
        3 => packed(OPERATION, REGISTER, REGISTER, UNUSED),
        4 => packed(OPERATION, REGISTER, REGISTER, REGISTER),
        5 => packed(OPERATION, REGISTER, REGISTER, REGISTER),
        6 => packed(OPERATION, REGISTER, REGISTER, SKIP),
        7 => packed(OPERATION, REGISTER, REGISTER, SKIP),
        8 => packed(OPERATION, FREE, UNUSED, UNUSED),
        9..=255 => UNKNOWN,
    }
}

// A row of the table, the kinds of a, b and c.
#[derive(Clone, Copy)]
struct Row {
    a: u8,
    b: u8,
    c: u8,
}

// The row of an operation, where there is one.
#[tactic(auto, using(crate::proofs::Bytes::no_bits_row, crate::proofs::Bytes::bits_row))]
fn row_of(op: u8) -> Option<Row>
    ensures { result ≡ row_of op }
{
    let bits = bits_of(op);
    if bits == UNKNOWN {
        return None;
    }
    Some(Row {
        a: (bits / 256 % 256) as u8,
        b: (bits / 65536 % 256) as u8,
        c: (bits / 16777216 % 256) as u8,
    })
}

// Whether a byte, if it names a register, names one that there is.
#[tactic(auto, using(crate::proofs::Bytes::by_kind), unfolding(crate::specs::Bits::zeros, crate::specs::Instruction::register_good))]
fn register_good(kind: u8, byte: u8) -> bool
    ensures { ByKind kind (λ k. register_good k byte) result }
{
    if kind == REGISTER {
        return (byte as usize) < Image::REGISTERS;
    }
    true
}

// Whether a byte, if it is unused, is 0.
#[tactic(auto, using(crate::proofs::Bytes::by_kind), unfolding(crate::specs::Bits::zeros, crate::specs::Instruction::unused_good))]
fn unused_good(kind: u8, byte: u8) -> bool
    ensures { ByKind kind (λ k. unused_good k byte) result }
{
    if kind == UNUSED {
        return byte == 0;
    }
    true
}

// Whether a byte, if it is the length of a skip at place i of m, stays in the program.
#[tactic(auto, using(crate::proofs::Bytes::by_kind), unfolding(crate::specs::Bits::zeros, crate::specs::Instruction::skip_good))]
fn skip_good(i: usize, m: usize, kind: u8, byte: u8) -> bool
    requires { i < m }
    ensures { ByKind kind (λ k. skip_good i m k byte) result }
{
    if kind == SKIP {
        return (byte as usize) < m - i;
    }
    true
}

// What stands in for the row of an operation that has none: whatever byte is good there.
const NO_ROW: Row = Row {
    a: FREE,
    b: FREE,
    c: FREE,
};

// The first of three bytes that does not pass.
fn first_bad(x: bool, y: bool, a: u8, b: u8, c: u8) -> u8
    ensures { result ≡ cond x (cond y c b) a }
{
    if x { if y { c } else { b } } else { a }
}

// Four bytes: operation, a, b, c.
#[derive(Clone, Copy)]
pub struct Instruction {
    pub op: u8,
    pub a: u8,
    pub b: u8,
    pub c: u8,
}

impl Instruction {
    // Instruction i of a program.
    pub fn at(program: &[u8], i: usize) -> Instruction
        requires { i < instructions_of program.now }
        ensures { result ≡ instruction_of program.now i }
    {
        let at = Image::INSTRUCTION_BYTES * i;
        Instruction {
            op: program[at],
            a: program[at + 1],
            b: program[at + 2],
            c: program[at + 3],
        }
    }

    // What is wrong with it at place i of m: the first in the list of document 02, or nothing.
    fn fault(self, i: usize, m: usize) -> Result<(), Fault>
        requires { i < m }
        ensures { result ≡ fault_of self.op self.a self.b self.c i m }
    {
        let row = row_of(self.op).ok_or(Fault::Operation)?;
        if !all(
            register_good(row.a, self.a),
            register_good(row.b, self.b),
            register_good(row.c, self.c),
        ) {
            return Err(Fault::Register);
        }
        if !all(
            unused_good(row.a, self.a),
            unused_good(row.b, self.b),
            unused_good(row.c, self.c),
        ) {
            return Err(Fault::Unused);
        }
        if !all(
            skip_good(i, m, row.a, self.a),
            skip_good(i, m, row.b, self.b),
            skip_good(i, m, row.c, self.c),
        ) {
            return Err(Fault::Skip);
        }
        Ok(())
    }

    // Whether it is good at place i of m: first all bits that have to be 0, at once, and of a skip then where it lands. A known operation is below 16, so
    // that its own byte can be one of the four.
    #[tactic(auto, using(crate::proofs::Bytes::by_bits))]
    fn is_good(self, i: usize, m: usize) -> bool
        requires { (i < m) × (m ≤ max_instructions) }
        ensures { result ≡ passes (fault_of self.op self.a self.b self.c i m) }
    {
        let bits = bits_of(self.op);
        if bits == UNKNOWN {
            return false;
        }
        if packed(self.op, self.a, self.b, self.c) & bits != 0 {
            return false;
        }
        skip_good(i, m, (bits / 16777216 % 256) as u8, self.c)
    }

    // The byte that is wrong with it at place i of m, by its fault.
    #[tactic(auto, using(crate::proofs::Bytes::by_row), unfolding(crate::specs::Instruction::wrong_of, crate::specs::Bits::zeros))]
    fn wrong(self, found: Result<(), Fault>, i: usize, m: usize) -> u8
        requires { i < m }
        ensures { result ≡ wrong_of found self.op self.a self.b self.c i m }
    {
        let Instruction { op, a, b, c } = self;
        let row = row_of(op).unwrap_or(NO_ROW);
        match found {
            Err(Fault::Operation) => op,
            Err(Fault::Register) => {
                first_bad(register_good(row.a, a), register_good(row.b, b), a, b, c)
            }
            Err(Fault::Unused) => first_bad(unused_good(row.a, a), unused_good(row.b, b), a, b, c),
            Err(Fault::Skip) => {
                first_bad(
                    skip_good(i, m, row.a, a),
                    skip_good(i, m, row.b, b),
                    a,
                    b,
                    c,
                )
            }
            Ok(()) => c,
        }
    }
}

// Whether instruction i of a program is good.
#[tactic(auto, unfolding(crate::specs::Instruction::fault_at, crate::specs::Instruction::place_good))]
pub fn place_good(program: &[u8], i: usize) -> bool
    requires { (i < instructions_of program.now) × (length program.now ≤ max_program_bytes) }
    ensures { result ≡ place_good program.now i }
{
    Instruction::at(program, i).is_good(i, program.len() / Image::INSTRUCTION_BYTES)
}

// What is wrong with instruction i of a program.
#[tactic(auto, unfolding(crate::specs::Instruction::fault_at))]
fn fault_at(program: &[u8], i: usize) -> Result<(), Fault>
    requires { i < instructions_of program.now }
    ensures { result ≡ fault_at program.now i }
{
    Instruction::at(program, i).fault(i, program.len() / Image::INSTRUCTION_BYTES)
}

// What is wrong with instruction i of program p, with its place.
pub fn refused_at(program: &[u8], p: usize, i: usize) -> Result<(), BadInstruction>
    requires { (i < instructions_of program.now) × (length program.now ≤ max_program_bytes) × (p < 65536) }
    ensures { result ≡ placed p i (fault_at program.now i) }
{
    fault_at(program, i).map_err(|fault| BadInstruction {
        fault,
        program: p as u32,
        instruction: i as u32,
    })
}

// The byte that is wrong with instruction i of a program.
#[tactic(auto, unfolding(crate::specs::Instruction::wrong_byte))]
pub fn wrong_byte(program: &[u8], i: usize) -> u8
    requires { i < instructions_of program.now }
    ensures { result ≡ wrong_byte program.now i }
{
    Instruction::at(program, i).wrong(
        fault_at(program, i),
        i,
        program.len() / Image::INSTRUCTION_BYTES,
    )
}
