// The image of a sheet: document 02, ask 1; and of one that has none, which of its lines is to be mended: ask 2.
#![tactic(auto)]

ghost use Rattle.std.specs.Prelude.{◌≡◌, length};
ghost use Rattle.image.specs.Refusals.{passed};
ghost use Rattle.from_sheet.specs.FromSheet.{image_of_sheet, programs_of, programs_refusal, sheet_refusal, ImageOfSays};
ghost use Rattle.from_sheet.specs.Passes.{Sized, Checks};

mod checking;
mod counting;
mod finding;
mod lines;
mod writing;

use counting::Sizes;
pub use finding::{WrongLine, wrong_line};
use image::{ImageRefusal, Refusal};
use sheet::Unwritten;

const NEWLINE: u8 = b'\n';

// Checks 2, 3 and 41 to 44.
fn programs_refusal(sheet: &[u8], sizes: Sizes) -> Result<(), ImageRefusal>
    requires { Sized sheet.now sizes }
    ensures { result ≡ programs_refusal (programs_of sheet.now) }
{
    if image::Image::PROGRAMS < sizes.programs {
        return Err(ImageRefusal::Header);
    }
    if image::Image::INSTRUCTIONS < sizes.longest {
        return Err(ImageRefusal::Offsets);
    }
    checking::code_fault(sheet)?;
    Ok(())
}

// The sizes of a sheet that is not refused: checks 51, 2, 3, 41 to 44.
#[tactic(auto, using(crate::proofs::Says::sized), unfolding(crate::specs::FromSheet::sheet_refusal, image::specs::Opened::opened))]
fn checked(sheet: &[u8]) -> Result<Sizes, Unwritten>
    ensures { Checks sheet.now result }
{
    let sizes = counting::survey_of(sheet).map_err(Unwritten::BadLine)?;
    programs_refusal(sheet, sizes)?;
    Ok(sizes)
}

// The refusal of a sheet.
pub fn sheet_refusal(sheet: &[u8]) -> Result<(), Unwritten>
    ensures { result ≡ sheet_refusal sheet.now }
{
    checked(sheet)?;
    Ok(())
}

// The image's length, for check 10.
fn image_length(sheet: &[u8], sizes: Sizes) -> usize
    requires { Sized sheet.now sizes × (sheet_refusal sheet.now ≡ passed) }
    ensures { result ≡ length (image_of_sheet sheet.now) }
{
    image::head_bytes(sizes.programs) + image::Image::INSTRUCTION_BYTES * sizes.instructions
}

// Reads a sheet and writes its image: how many bytes it has.
pub fn image_of(sheet: &[u8], out: &mut [u8]) -> Result<usize, Unwritten>
    ensures { ImageOfSays sheet.now out.old result out.new }
{
    let sizes = checked(sheet)?;
    if out.len() < image_length(sheet, sizes) {
        return Err(Unwritten::Refused(Refusal::TooShort));
    }
    Ok(writing::write_image(out, sheet, sizes.programs))
}
