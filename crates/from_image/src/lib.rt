// The sheet of an image: document 02, ask 1.
#![tactic(auto)]

ghost use Rattle.std.specs.Prelude.{◌≡◌, true, [], ◌∷◌, ◌*◌, ◌<◌, ◌≤◌, length};
ghost use Rattle.text.specs.Paper.{Put, Fits};
ghost use Rattle.text.specs.Writing.{PageSays, Room};
ghost use Rattle.image.specs.Limits.{max_instructions};
ghost use Rattle.image.specs.Instruction.{instructions_of};
ghost use Rattle.image.specs.Refusals.{passed};
ghost use Rattle.image.specs.Image.{refusal_of};
ghost use Rattle.writer.specs.Picked.{picked};
ghost use Rattle.sheet.specs.declared.Line.TheVariants as line;
ghost use Rattle.sheet.specs.Sheet.{operations, sheet_text};
ghost use Rattle.from_image.specs.FromImage.{instruction_at, first_lines, program_lines, programs_lines, sheet_of_image, sheet_of_refusal, SheetOfSays};
ghost use Rattle.from_image.specs.Longest.{longest_sheet};
ghost use Rattle.from_image.specs.Typing.{Good, Programs, most_line, most_lines};

use image::Refusal;
use text::Page;

// ---- writing

// The line "rule R".
#[tactic(auto, using(crate::proofs::Lines::rule_line_lem))]
fn put_rule_line(page: &mut Page, rule: u8)
    requires { Fits page.old (sheet_text (line.Rule rule ∷ [])) }
    ensures { Put page.old (sheet_text (line.Rule rule ∷ [])) page.new }
{
    page.filled(b"rule #\n", &[rule as u32]);
}

// An instruction's line: its name and its three bytes.
fn put_instruction_line(page: &mut Page, i: sheet::Instruction)
    requires { (i.op < operations) × Fits page.old (sheet_text (line.Instruction i ∷ [])) }
    ensures { Put page.old (sheet_text (line.Instruction i ∷ [])) page.new }
{
    page.bytes(sheet::name_of(i.op));
    page.filled(b" # # #\n", &[i.a as u32, i.b as u32, i.c as u32]);
}

// Instruction i of a program.
fn instruction_at(program: &[u8], i: usize) -> sheet::Instruction
    requires { i < instructions_of program.now }
    ensures { result ≡ instruction_at program.now i }
{
    let at = image::Image::INSTRUCTION_BYTES * i;
    sheet::Instruction {
        op: program[at],
        a: program[at + 1],
        b: program[at + 2],
        c: program[at + 3],
    }
}

// A line for each instruction of a program.
#[tactic(auto, using(crate::proofs::Sheets::first_texts, text::proofs::Fillings::turns))]
fn put_instructions(page: &mut Page, program: &[u8])
    requires { Good program.now × Fits page.old (sheet_text (first_lines program.now (instructions_of program.now))) }
    ensures { Put page.old (sheet_text (first_lines program.now (instructions_of program.now))) page.new }
{
    for i in 0..program.len() / image::Image::INSTRUCTION_BYTES {
        put_instruction_line(page, instruction_at(program, i));
    }
}

// A program: the line "program", and its instructions.
#[tactic(auto, using(crate::proofs::Sheets::program_text_lem, crate::proofs::Lines::program_line_lem))]
fn put_program(page: &mut Page, program: &[u8])
    requires { Good program.now × Fits page.old (sheet_text (program_lines program.now)) }
    ensures { Put page.old (sheet_text (program_lines program.now)) page.new }
{
    page.bytes(b"program\n");
    put_instructions(page, program);
}

// The first n programs of an image.
#[tactic(auto, using(crate::proofs::Sheets::programs_texts, text::proofs::Pages::text_room, text::proofs::Fillings::turns))]
fn put_programs(page: &mut Page, image: &[u8], n: usize)
    requires { Programs image.now n × Fits page.old (sheet_text (programs_lines (picked (λ k. true) image.now n))) }
    ensures { Put page.old (sheet_text (programs_lines (picked (λ k. true) image.now n))) page.new }
{
    for k in 0..n {
        put_program(page, image::part_of(image, k));
    }
}

// The sheet, where all checks have been made.
pub fn write_sheet(image: &[u8], out: &mut [u8]) -> usize
    requires { (refusal_of image.now ≡ passed) × Room out.old 0 (sheet_of_image image.now) }
    ensures { PageSays (sheet_of_image image.now) out.old result out.new }
{
    let mut page = Page::new(out);
    put_rule_line(&mut page, image::rule(image));
    put_programs(&mut page, image, image::count(image));
    page.end()
}

// ---- measuring

// The bytes of the line "program", and those of the line "rule R" but for its number; each with its newline.
const PROGRAM_LINE: usize = 8;

const RULE_LINE: usize = 6;

// How many bytes an instruction's line has: its name, three numbers with a space before each, and the newline.
#[tactic(auto, using(crate::proofs::Lines::instruction_length, crate::proofs::Lines::name_short, text::proofs::Decimals::byte_short))]
fn instruction_length(i: sheet::Instruction) -> usize
    requires { i.op < operations }
    ensures { (result ≡ length (sheet_text (line.Instruction i ∷ []))) × (result ≤ most_line) }
{
    let name = sheet::name_of(i.op).len();
    let a = text::decimal_length(i.a as u32);
    let b = text::decimal_length(i.b as u32);
    let c = text::decimal_length(i.c as u32);
    name + a + b + c + 4
}

// How many bytes the lines of a program's instructions have.
#[tactic(auto, using(crate::proofs::Sheets::lines_long))]
fn instructions_length(program: &[u8]) -> usize
    requires { Good program.now }
    ensures { (result ≡ length (sheet_text (first_lines program.now (instructions_of program.now)))) × (result ≤ most_line * max_instructions) }
{
    let mut size = 0;
    for i in 0..program.len() / image::Image::INSTRUCTION_BYTES {
        size += instruction_length(instruction_at(program, i));
    }
    size
}

// How many bytes the lines of the first n programs have.
#[tactic(auto, using(crate::proofs::Sheets::programs_long))]
fn programs_length(image: &[u8], n: usize) -> usize
    requires { Programs image.now n }
    ensures { (result ≡ length (sheet_text (programs_lines (picked (λ k. true) image.now n)))) × (result ≤ most_lines * n) }
{
    let mut size = 0;
    for k in 0..n {
        size += PROGRAM_LINE + instructions_length(image::part_of(image, k));
    }
    size
}

// How many bytes the sheet has, for check 10.
#[tactic(auto, using(crate::proofs::Sheets::length_sheet_of, crate::proofs::Sheets::good_programs, text::proofs::Decimals::decimal_short))]
fn sheet_length(image: &[u8]) -> usize
    requires { refusal_of image.now ≡ passed }
    ensures { result ≡ length (sheet_of_image image.now) }
{
    let rule = text::decimal_length(image::rule(image) as u32);
    let programs = programs_length(image, image::count(image));
    RULE_LINE + rule + programs
}

// ---- the longest sheet

// The line of a skip with the longest name, over two registers, that goes 10 instructions on or more: "skipequal 7 7 10" and its newline. Only so many
// instructions of the longest program stand far enough from its end for that; a skip from one of the others has a byte less, and no other line is as long.
const FAR_LINE: usize = 17;

const FAR_LINES: usize = image::Image::INSTRUCTIONS - 10;

const LONGEST_PROGRAM: usize = PROGRAM_LINE
    + FAR_LINES * FAR_LINE
    + (image::Image::INSTRUCTIONS - FAR_LINES) * (FAR_LINE - 1);

// The bytes of the longest sheet: an output that has them is never too short.
pub const LONGEST_SHEET: usize = RULE_LINE + 1 + image::Image::PROGRAMS * LONGEST_PROGRAM;

// The same as a call, whose contract holds the number to its definition.
#[tactic(auto, unfolding(crate::specs::Longest::longest_sheet))]
pub fn longest_sheet() -> usize
    ensures { result ≡ longest_sheet }
{
    LONGEST_SHEET
}

// ---- the call

// Checks 1 to 4, then 10.
#[tactic(auto, unfolding(crate::specs::FromImage::sheet_of_refusal, image::specs::Opened::opened))]
fn sheet_refusal(image: &[u8], out: &[u8]) -> Result<(), Refusal>
    ensures { result ≡ sheet_of_refusal image.now out.now }
{
    image::image_refusal(image)?;
    if out.len() < sheet_length(image) {
        return Err(Refusal::TooShort);
    }
    Ok(())
}

// The sheet of an image: its length, and its bytes at the front of the output.
#[tactic(auto, using(crate::proofs::Checks::sheet_shows, crate::proofs::Checks::sheet_refused_lem, crate::proofs::Checks::sheet_done))]
pub fn sheet_of(image: &[u8], out: &mut [u8]) -> Result<usize, Refusal>
    ensures { SheetOfSays image.now out.old result out.new }
{
    sheet_refusal(image, out)?;
    Ok(write_sheet(image, out))
}
