// What a program prints of a refusal: its line, and the place of a bad instruction in words.
#![tactic(auto)]

ghost use Rattle.std.specs.Prelude.{[], ◌∷◌, ◌≤◌, length};
ghost use Rattle.text.specs.Filled.{filled};
ghost use Rattle.text.specs.Writing.{PageSays};
ghost use Rattle.text.specs.Paper.{Put, Fits};
ghost use Rattle.refused.specs.Refused.{refused_line, refused_at_line};
ghost use Rattle.refused.specs.Where.{wrong_text, where_text, where_at_line, image_where, most_where};

use image::{BadInstruction, Fault, ImageRefusal, Refusal, RefusalNumbers};
use text::Page;

// "refused 2".
#[tactic(auto, unfolding(crate::specs::Refused::refused_line))]
pub fn put_refused(page: &mut Page, refusal: Refusal)
    requires { Fits page.old (refused_line refusal) }
    ensures { Put page.old (refused_line refusal) page.new }
{
    page.filled(b"refused #\n", &[RefusalNumbers::from(refusal).number]);
}

// "refused 51 line 3". The line's number may have 64 bits.
#[tactic(auto, unfolding(crate::specs::Refused::refused_at_line))]
pub fn put_refused_at(page: &mut Page, refusal: RefusalNumbers, line: usize)
    requires { Fits page.old (refused_at_line refusal line) }
    ensures { Put page.old (refused_at_line refusal line) page.new }
{
    page.filled(b"refused # line ", &[refusal.number]);
    page.decimal(line as u64);
    page.byte(b'\n');
}

// How many bytes the place of a bad instruction has at most in words: its text, and ten digits for each of three numbers.
pub const WHERE_BYTES: usize = 26 + 31 + 3 * 10;

// With its line in a sheet, whose number may have 64 bits.
pub const WHERE_AT_BYTES: usize = 7 + 20 + WHERE_BYTES;

// What is wrong with a byte, by its fault.
#[tactic(auto, unfolding(crate::specs::Where::wrong_text))]
fn put_wrong(page: &mut Page, fault: Fault, byte: u8)
    requires { Fits page.old (filled (wrong_text fault) (byte ∷ [])) }
    ensures { Put page.old (filled (wrong_text fault) (byte ∷ [])) page.new }
{
    let numbers = [byte as u32];
    match fault {
        Fault::Operation => page.filled(b"unknown operation #\n", &numbers),
        Fault::Register => page.filled(b"register # is over 7\n", &numbers),
        Fault::Unused => page.filled(b"an unused byte is #, not 0\n", &numbers),
        Fault::Skip => page.filled(b"a skip by # lands past the end\n", &numbers),
    }
}

// "program 2, instruction 5: register 9 is over 7".
#[tactic(auto, unfolding(crate::specs::Where::where_text))]
pub fn put_where(page: &mut Page, bad: BadInstruction, byte: u8)
    requires { Fits page.old (where_text bad byte) }
    ensures { Put page.old (where_text bad byte) page.new }
{
    page.filled(
        b"program #, instruction #: ",
        &[bad.program, bad.instruction],
    );
    put_wrong(page, bad.fault, byte);
}

// "line 14, program 2, instruction 5: register 9 is over 7".
#[tactic(auto, unfolding(crate::specs::Where::where_at_line))]
pub fn put_where_at(page: &mut Page, bad: BadInstruction, line: usize, byte: u8)
    requires { Fits page.old (where_at_line bad line byte) }
    ensures { Put page.old (where_at_line bad line byte) page.new }
{
    page.bytes(b"line ");
    page.decimal(line as u64);
    page.bytes(b", ");
    put_where(page, bad, byte);
}

// The place in an image, nothing where its refusal has no place.
#[tactic(auto, unfolding(crate::specs::Where::said_of, crate::specs::Where::image_where))]
pub fn image_where(image: &[u8], out: &mut [u8]) -> usize
    requires { most_where ≤ length out.old }
    ensures { PageSays (image_where image.now) out.old result out.new }
{
    let Err(ImageRefusal::Instruction(bad)) = image::image_refusal(image) else {
        return 0;
    };
    let program = image::part_of(image, bad.program as usize);
    let byte = image::wrong_byte(program, bad.instruction as usize);
    let mut page = Page::new(out);
    put_where(&mut page, bad, byte);
    page.end()
}
