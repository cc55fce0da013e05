// Writing an image: document 01, "The image: counts and offsets". The header, then where each program ends, then the programs' bytes; the programs
// are those of an image that a mask has.
#![tactic(auto)]

ghost use Rattle.std.specs.Prelude.{◌≡◌, ◌*◌, ◌<◌, ◌≤◌, length};
ghost use Rattle.base.specs.Masks.{has_bit};
ghost use Rattle.text.specs.Paper.{Put, Fits};
ghost use Rattle.image.specs.Limits.{max_program_bytes};
ghost use Rattle.writer.specs.Joined.{number, joined};
ghost use Rattle.writer.specs.Picked.{pick, picked};
ghost use Rattle.writer.specs.Writing.{header, Ended, EndRoom, Source};

// A number of 16 bits, low byte first.
#[tactic(auto, unfolding(crate::specs::Joined::number))]
pub fn put_number(page: &mut text::Page, v: usize)
    requires { Fits page.old (number v) }
    ensures { Put page.old (number v) page.new }
{
    page.bytes(&v.to_le_bytes()[..2])
}

// Count, rule and zero byte, and the first offset.
#[tactic(auto, unfolding(crate::specs::Writing::header))]
pub fn put_header(page: &mut text::Page, count: usize, rule: u8)
    requires { Fits page.old (header count rule) × (count < 65536) }
    ensures { Put page.old (header count rule) page.new }
{
    put_number(page, count);
    page.bytes(&[rule, 0]);
    put_number(page, image::head_bytes(count))
}

// Program i's bytes, none where the mask does not have it.
#[tactic(auto, using(crate::proofs::Programs::taken))]
fn taken_part(image: &[u8], n: usize, mask: u64, i: usize) -> &[u8]
    requires { Source image.now n mask × (i < n) }
    ensures { result.now ≡ joined (pick (has_bit mask) image.now i) }
{
    if masks::has(mask, i) {
        image::part_of(image, i)
    } else {
        &image[..0]
    }
}

// How many bytes the programs have that the mask has.
#[tactic(auto, using(crate::proofs::Programs::sizes))]
pub fn taken_bytes(image: &[u8], n: usize, mask: u64) -> usize
    requires { Source image.now n mask }
    ensures { (result ≡ length (joined (picked (has_bit mask) image.now n))) × (result ≤ max_program_bytes * n) }
{
    let mut size = 0;
    for i in 0..n {
        size += taken_part(image, n, mask, i).len();
    }
    size
}

// Where program i ends, if the mask has it; the program before it ends where it begins.
#[tactic(auto, using(crate::proofs::Programs::taken))]
fn put_end(
    page: &mut text::Page,
    start: usize,
    image: &[u8],
    n: usize,
    mask: u64,
    i: usize,
) -> usize
    requires { Source image.now n mask × (i < n) × EndRoom page.old start (pick (has_bit mask) image.now i) }
    ensures { Ended page.old start (pick (has_bit mask) image.now i) page.new result }
{
    if !masks::has(mask, i) {
        return start;
    }
    let end = start + image::part_of(image, i).len();
    put_number(page, end);
    end
}

// Where each program ends that the mask has, of which the first begins at the start; and where the last ends.
#[tactic(auto, using(crate::proofs::Programs::turns))]
pub fn put_ends(page: &mut text::Page, start: usize, image: &[u8], n: usize, mask: u64) -> usize
    requires { Source image.now n mask × EndRoom page.old start (picked (has_bit mask) image.now n) }
    ensures { Ended page.old start (picked (has_bit mask) image.now n) page.new result }
{
    let mut end = start;
    for i in 0..n {
        end = put_end(page, end, image, n, mask, i);
    }
    end
}

// The bytes of the programs that the mask has, one program after another.
#[tactic(auto, using(crate::proofs::Programs::turns))]
pub fn put_bodies(page: &mut text::Page, image: &[u8], n: usize, mask: u64)
    requires { Source image.now n mask × Fits page.old (joined (picked (has_bit mask) image.now n)) }
    ensures { Put page.old (joined (picked (has_bit mask) image.now n)) page.new }
{
    for i in 0..n {
        page.bytes(taken_part(image, n, mask, i));
    }
}
