// What the programs `to_image` and `to_sheet` print (document 02, ask 1): the image or the sheet, or the line of a refusal as the whole output. And what
// `to_image` says beside it (ask 2): which line of the sheet is bad; of an image `refused` says it.
#![tactic(auto)]

ghost use Rattle.std.specs.Prelude.{◌≡◌, ◌≤◌, length};
ghost use Rattle.image.specs.Limits.{max_bytes};
ghost use Rattle.from_image.specs.Longest.{longest_sheet};
ghost use Rattle.refused.specs.Refused.{most_refused};
ghost use Rattle.refused.specs.Where.{most_where_at_line};
ghost use Rattle.converted.specs.Converted.{too_long, unwritten_line, image_page, sheet_said, sheet_page};
ghost use Rattle.text.specs.Writing.{PageSays};

use image::{ImageRefusal, Refusal, RefusalNumbers};
use sheet::Unwritten;
use text::Page;

// The longest input that the two programs take.
pub const LONGEST_INPUT: usize = 1048576;

// The room that one is read into: a byte more, by which a longer one is told.
pub const INPUT: usize = LONGEST_INPUT + 1;

// Whether an input is longer.
pub fn too_long(input: &[u8]) -> bool
    ensures { result ≡ too_long input.now }
{
    LONGEST_INPUT < input.len()
}

// What `to_image` prints of a sheet.
#[tactic(auto, using(crate::proofs::Pages::images), unfolding(crate::specs::Converted::image_page, from_sheet::specs::FromSheet::image_of_answer, from_sheet::specs::FromSheet::image_of_output, image::specs::Refusals::unless))]
pub fn image_page(sheet: &[u8], out: &mut [u8]) -> usize
    requires { max_bytes ≤ length out.old }
    ensures { PageSays (image_page sheet.now) out.old result out.new }
{
    match from_sheet::image_of(sheet, out) {
        Ok(length) => length,
        Err(unwritten) => unwritten_page(unwritten, out),
    }
}

// The line of a sheet that has no image.
#[tactic(auto, using(crate::proofs::Pages::rooms), unfolding(crate::specs::Converted::unwritten_line))]
fn unwritten_page(unwritten: Unwritten, out: &mut [u8]) -> usize
    requires { most_refused ≤ length out.old }
    ensures { PageSays (unwritten_line unwritten) out.old result out.new }
{
    let mut page = Page::new(out);
    match unwritten {
        Unwritten::Refused(refusal) => refused::put_refused(&mut page, refusal),
        Unwritten::BadLine(line) => {
            refused::put_refused_at(&mut page, RefusalNumbers::LINE, line)
        }
    }
    page.end()
}

// What it says of a sheet on standard error: the line and the place of its bad instruction, or nothing.
#[tactic(auto, unfolding(crate::specs::Converted::said_of, crate::specs::Converted::sheet_said))]
pub fn sheet_said(sheet: &[u8], out: &mut [u8]) -> usize
    requires { most_where_at_line ≤ length out.old }
    ensures { PageSays (sheet_said sheet.now) out.old result out.new }
{
    let Err(Unwritten::Refused(Refusal::Image(ImageRefusal::Instruction(bad)))) =
        from_sheet::sheet_refusal(sheet) else {
        return 0;
    };
    let wrong = from_sheet::wrong_line(sheet, bad.program as usize, bad.instruction as usize);
    let mut page = Page::new(out);
    refused::put_where_at(&mut page, bad, wrong.line, wrong.byte);
    page.end()
}

// What `to_sheet` prints of an image.
#[tactic(auto, using(from_image::proofs::Longest::sheet_short), unfolding(crate::specs::Converted::sheet_page, from_image::specs::Longest::longest_sheet, image::specs::Refusals::unless))]
pub fn sheet_page(image: &[u8], out: &mut [u8]) -> usize
    requires { longest_sheet ≤ length out.old }
    ensures { PageSays (sheet_page image.now) out.old result out.new }
{
    match image::image_refusal(image) {
        Ok(()) => from_image::write_sheet(image, out),
        Err(refusal) => unwritten_page(Unwritten::from(refusal), out),
    }
}
