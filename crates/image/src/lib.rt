// The image reader: document 01, "Sizes" and "The image: counts and offsets".
#![tactic(auto)]

ghost use Rattle.std.specs.Prelude.{◌≡◌, true, ◌+◌, ◌*◌, ◌<◌, ◌≤◌, length};
ghost use Rattle.image.specs.Limits.{max_program_bytes, head_bytes};
ghost use Rattle.image.specs.Instruction.{program_fault};
ghost use Rattle.image.specs.Image.{byte_at, count_of, rule_byte, header_of, second_rule, offset_of, part_of, Lies, Part, start_of};
ghost use Rattle.image.specs.Image.{size_good, header_good, extent_good, extents_good, offsets_good, code_refusal, refusal_of, fresh_refusal_of};
ghost use Rattle.image.specs.Image.{ProgramSays, ProgramRefusalSays};

mod instruction;
mod refusals;

pub use instruction::{Instruction, wrong_byte};
pub use refusals::{BadInstruction, Fault, ImageRefusal, Refusal, RefusalNumbers};

// An image's header: how many programs it has, its rule byte and the byte that is 0.
#[derive(Clone, Copy)]
pub struct Image {
    pub count: u16,
    pub rule: u8,
    pub zero: u8,
}

// The limits, named here and nowhere else; those that follow from others are computed from them.
impl Image {
    pub const PROGRAMS: usize = 64;

    pub const INSTRUCTIONS: usize = 32;

    pub const REGISTERS: usize = 8;

    pub const LEAST_CELLS: usize = 1;

    pub const CELLS: usize = 256;

    pub const INSTRUCTION_BYTES: usize = 4;

    pub const PROGRAM_BYTES: usize = Image::INSTRUCTIONS * Image::INSTRUCTION_BYTES;

    pub const LEAST_BYTES: usize = 6;

    pub const BYTES: usize = Image::LEAST_BYTES + Image::PROGRAMS * (2 + Image::PROGRAM_BYTES);

    // The header of an image, 0 where bytes are missing, as its definition has it: the check of the size comes first.
    #[tactic(auto, unfolding(crate::specs::Image::number_at))]
    pub fn header(bytes: &[u8]) -> Image
        ensures { result ≡ header_of bytes.now }
    {
        Image {
            count: number(byte_at(bytes, 0), byte_at(bytes, 1)),
            rule: byte_at(bytes, 2),
            zero: byte_at(bytes, 3),
        }
    }

    // Check 2.
    #[tactic(auto, unfolding(crate::specs::Image::header_good))]
    fn valid(self) -> bool
        ensures { result ≡ header_good self }
    {
        self.count as usize <= Image::PROGRAMS && self.rule <= 2 && self.zero == 0
    }
}

// The byte at a place, 0 past the end: a number, as in the definitions, so that a reader of four bytes needs no four answers.
pub fn byte_at(bytes: &[u8], at: usize) -> u8
    ensures { result ≡ byte_at bytes.now at }
{
    bytes.get(at).copied().unwrap_or(0)
}

// The number of 16 bits that two bytes are, low byte first.
fn number(low: u8, high: u8) -> u16
    ensures { result ≡ low + 256 * high }
{
    u16::from_le_bytes([low, high])
}

// The program count.
pub fn count(bytes: &[u8]) -> usize
    ensures { (result ≡ count_of bytes.now) × (result < 65536) }
{
    Image::header(bytes).count as usize
}

// The rule byte.
pub fn rule(bytes: &[u8]) -> u8
    ensures { result ≡ rule_byte bytes.now }
{
    Image::header(bytes).rule
}

// Whether Rule 2 is in force; otherwise it is Rule 1.
pub fn second_rule(bytes: &[u8]) -> bool
    ensures { result ≡ second_rule bytes.now }
{
    rule(bytes) == 2
}

// How many bytes stand before the programs of an image that has n: the first offset.
pub fn head_bytes(n: usize) -> usize
    requires { n < 65536 }
    ensures { result ≡ head_bytes n }
{
    2 * n + Image::LEAST_BYTES
}

// Offset p of the image, which stands in it.
#[tactic(auto, unfolding(crate::specs::Image::number_at))]
fn offset(bytes: &[u8], p: usize) -> usize
    requires { (head_bytes p ≤ length bytes.now) × (p ≤ 65536) }
    ensures { (result ≡ offset_of bytes.now p) × (result < 65536) }
{
    let at = 4 + 2 * p;
    number(bytes[at], bytes[at + 1]) as usize
}

// Whether program p's offsets do not fall and its length is a multiple of 4 and at most 128.
#[tactic(auto, unfolding(crate::specs::Image::extent_good))]
fn extent_good(bytes: &[u8], p: usize) -> bool
    requires { (head_bytes (p + 1) ≤ length bytes.now) × (p < 65536) }
    ensures { result ≡ extent_good bytes.now p }
{
    let start = offset(bytes, p);
    let end = offset(bytes, p + 1);
    start <= end
        && (end - start) % Image::INSTRUCTION_BYTES == 0
        && end - start <= Image::PROGRAM_BYTES
}

// Whether that holds of every program.
#[tactic(auto, using(base::proofs::Numbers::every_none, base::proofs::Numbers::every_more), unfolding(crate::specs::Image::extents_good))]
fn extents_good(bytes: &[u8], n: usize) -> bool
    requires { (n ≡ count_of bytes.now) × (head_bytes n ≤ length bytes.now) × (n < 65536) }
    ensures { result ≡ extents_good bytes.now }
{
    for p in 0..n {
        if !extent_good(bytes, p) {
            return false;
        }
    }
    true
}

// Check 3.
#[tactic(auto, unfolding(crate::specs::Image::offsets_good))]
fn offsets_good(bytes: &[u8], n: usize) -> bool
    requires { (n ≡ count_of bytes.now) × (n < 65536) }
    ensures { result ≡ offsets_good bytes.now }
{
    let first = head_bytes(n);
    if bytes.len() < first {
        return false;
    }
    if offset(bytes, 0) != first {
        return false;
    }
    if !extents_good(bytes, n) {
        return false;
    }
    offset(bytes, n) == bytes.len()
}

// The part of the image that program p is.
#[tactic(auto, unfolding(crate::specs::Image::part_of, base::specs::Words::words))]
pub fn part_of(bytes: &[u8], p: usize) -> &[u8]
    requires { Lies bytes.now p × (p < 65536) }
    ensures { Part bytes.entry (offset_of bytes.now p) (part_of bytes.now p) result }
{
    let start = offset(bytes, p);
    let end = offset(bytes, p + 1);
    &bytes[start..end]
}

// Check 4: it stops at the first bad instruction of the first bad program, and hands out what is wrong with it.
#[tactic(auto, using(crate::proofs::Laws::program_by_program))]
fn code_refusal(bytes: &[u8], n: usize) -> Result<(), BadInstruction>
    requires { (offsets_good bytes.now ≡ true) × (n ≡ count_of bytes.now) × (n < 65536) }
    ensures { result ≡ code_refusal bytes.now }
{
    let mut found = Ok(());
    'programs: for p in 0..n {
        let part = part_of(bytes, p);
        let m = part.len() / Image::INSTRUCTION_BYTES;
        for i in 0..m {
            if !instruction::place_good(part, i) {
                found = program_fault(part, p);
                break 'programs;
            }
        }
    }
    found
}

// The first bad instruction of program p, with what is wrong with it.
#[tactic(auto, using(crate::proofs::Faults::instruction_by_instruction))]
pub fn program_fault(program: &[u8], p: usize) -> Result<(), BadInstruction>
    requires { (length program.now ≤ max_program_bytes) × (p < 65536) }
    ensures { result ≡ program_fault p program.now }
{
    let m = program.len() / Image::INSTRUCTION_BYTES;
    for i in 0..m {
        if !instruction::place_good(program, i) {
            return instruction::refused_at(program, p, i);
        }
    }
    Ok(())
}

// Check 1.
#[tactic(auto, unfolding(crate::specs::Image::size_good))]
fn size_good(bytes: &[u8]) -> bool
    ensures { result ≡ size_good bytes.now }
{
    Image::LEAST_BYTES <= bytes.len() && bytes.len() <= Image::BYTES
}

// The refusal of an image: of the first of the checks 1 to 4 that fails.
#[tactic(auto, using(crate::proofs::Refusing::checking), unfolding(crate::specs::Image::refusal_of))]
pub fn image_refusal(bytes: &[u8]) -> Result<(), ImageRefusal>
    ensures { result ≡ refusal_of bytes.now }
{
    if !size_good(bytes) {
        return Err(ImageRefusal::Size);
    }
    let image = Image::header(bytes);
    if !image.valid() {
        return Err(ImageRefusal::Header);
    }
    let n = image.count as usize;
    if !offsets_good(bytes, n) {
        return Err(ImageRefusal::Offsets);
    }
    code_refusal(bytes, n)?;
    Ok(())
}

// The refusal of a fresh image: checks 21 to 23 and 61 to 64.
pub fn fresh_refusal(bytes: &[u8]) -> Result<(), Refusal>
    ensures { result ≡ fresh_refusal_of bytes.now }
{
    image_refusal(bytes).map_err(Refusal::Fresh)
}

// Why no program is handed back: checks 1 to 4 and 8.
#[tactic(auto, using(crate::proofs::Refusing::checking), unfolding(crate::specs::Image::program_refusal_of))]
pub fn program_refusal(image: &[u8], number: usize) -> Result<(), Refusal>
    ensures { ProgramRefusalSays image.now number result }
{
    image_refusal(image)?;
    if count(image) <= number {
        return Err(Refusal::Number);
    }
    Ok(())
}

// The program, as that very part of the image; empty on a refusal.
#[tactic(auto, using(crate::proofs::Laws::handed_when, crate::proofs::Refusing::refused_is, crate::proofs::Laws::handed_nothing))]
pub fn program(image: &[u8], number: usize) -> &[u8]
    ensures { ProgramSays image.entry number result }
{
    if program_refusal(image, number).is_ok() {
        part_of(image, number)
    } else {
        &image[..0]
    }
}

// Where that part begins in the image; 0 on a refusal, as the header for C says of it.
#[tactic(auto, using(crate::proofs::Laws::handed_when, crate::proofs::Refusing::refused_is, crate::proofs::Laws::handed_nothing))]
pub fn program_start(image: &[u8], number: usize) -> usize
    ensures { result ≡ start_of image.now number }
{
    if program_refusal(image, number).is_ok() {
        offset(image, number)
    } else {
        0
    }
}
