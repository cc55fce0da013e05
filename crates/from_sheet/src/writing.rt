// The image of a sheet, written from its lines: the header, the offsets, the instructions.
ghost use Rattle.std.specs.Prelude.{◌≡◌, ◌+◌, ◌≤◌, length};
ghost use Rattle.text.specs.Paper.{Put, Fits};
ghost use Rattle.text.specs.Writing.{PageSays};
ghost use Rattle.image.specs.Limits.{max_bytes};
ghost use Rattle.sheet.specs.Sheet.{rule_of};
ghost use Rattle.from_sheet.specs.FromSheet.{image_of_sheet};
ghost use Rattle.from_sheet.specs.Passes.{lines_from, body_of, bodies, offset_at, offsets_from, Writable};

use crate::lines::Lines;
use text::Page;

// The offset that a line brings, if it begins a program; and where the program ends with it, of which so much stands before the line.
#[tactic(auto, using(text::proofs::Pages::put_none), unfolding(crate::specs::Passes::offset_at, crate::specs::Passes::body_of))]
fn put_offset(page: &mut Page, end: usize, line: sheet::Line) -> usize
    requires { Fits page.old (offset_at end line) × (end ≤ max_bytes) }
    ensures put { Put page.old (offset_at end line) page.new }
    ensures end { result ≡ end + length (body_of line) }
{
    match line {
        sheet::Line::Program => {
            writer::put_number(page, end);
            end
        }
        sheet::Line::Instruction(_) => end + image::Image::INSTRUCTION_BYTES,
        sheet::Line::Rule(_) | sheet::Line::Other => end,
    }
}

// All offsets, of which the first is given.
fn put_offsets(page: &mut Page, sheet: &[u8], first: usize)
    requires { Fits page.old (offsets_from first (lines_from 0 sheet.now)) × (first + length (bodies (lines_from 0 sheet.now)) ≤ max_bytes) }
    ensures { Put page.old (offsets_from first (lines_from 0 sheet.now)) page.new }
{
    let mut end = first;
    for line in Lines::of(sheet) {
        end = put_offset(page, end, line);
    }
    writer::put_number(page, end);
}

// The bytes of a line's instruction.
#[tactic(auto, using(text::proofs::Pages::put_none), unfolding(crate::specs::Passes::body_of))]
pub fn put_body(page: &mut Page, line: sheet::Line)
    requires { Fits page.old (body_of line) }
    ensures { Put page.old (body_of line) page.new }
{
    if let sheet::Line::Instruction(i) = line {
        page.bytes(&i.bytes());
    }
}

// The bytes of all instructions.
fn put_bodies(page: &mut Page, sheet: &[u8])
    requires { Fits page.old (bodies (lines_from 0 sheet.now)) }
    ensures { Put page.old (bodies (lines_from 0 sheet.now)) page.new }
{
    for line in Lines::of(sheet) {
        put_body(page, line);
    }
}

// The rule byte that the first line says.
#[tactic(auto, unfolding(sheet::specs::Sheet::rule_of, sheet::specs::Sheet::rule_in))]
fn rule_of(sheet: &[u8]) -> u8
    ensures { result ≡ rule_of (lines_from 0 sheet.now) }
{
    match Lines::of(sheet).next() {
        Some(sheet::Line::Rule(rule)) => rule,
        _ => 0,
    }
}

// The image of a sheet that has so many programs, where all checks have been made.
#[tactic(auto, using(crate::proofs::Pieces::pieces_fit, crate::proofs::Pieces::ends_short, writer::proofs::Programs::length_number))]
pub fn write_image(out: &mut [u8], sheet: &[u8], programs: usize) -> usize
    requires { Writable sheet.now out.old programs }
    ensures { PageSays (image_of_sheet sheet.now) out.old result out.new }
{
    let mut page = Page::new(out);
    writer::put_number(&mut page, programs);
    page.bytes(&[rule_of(sheet), 0]);
    put_offsets(&mut page, sheet, image::head_bytes(programs));
    put_bodies(&mut page, sheet);
    page.end()
}
