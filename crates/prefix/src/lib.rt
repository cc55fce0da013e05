// What stands before the image in a batch's input (document 01, "Bench sheet"): T in two bytes and T cells of four, low byte first. And the guards of a table
// (document 02, ask 5): four bytes for each end, low byte first.
#![tactic(auto)]

ghost use Rattle.std.specs.Prelude.{◌*◌, ◌≤◌, length};
ghost use Rattle.text.specs.Paper.{Put, Fits};
ghost use Rattle.text.specs.Writing.{PageSays};
ghost use Rattle.image.specs.Limits.{max_cells};
ghost use Rattle.prefix.specs.Prefix.{fours, prefix, prefix_bytes};

// The bytes of the longest prefix.
pub const MOST: usize = 2 + 4 * image::Image::CELLS;

// Words, one behind the other: four bytes each, low first.
#[tactic(auto, using(crate::proofs::Prefixes::cells))]
fn put_fours(page: &mut text::Page, words: &[u32])
    requires { Fits page.old (fours words.now) }
    ensures { Put page.old (fours words.now) page.new }
{
    for word in words {
        page.bytes(&word.to_le_bytes());
    }
}

// The prefix of a table, at the front of what is lent.
#[tactic(auto, using(crate::proofs::Prefixes::cells), unfolding(crate::specs::Prefix::prefix))]
pub fn put_prefix(out: &mut [u8], cells: &[u32]) -> usize
    requires { (length cells.now ≤ max_cells) × (prefix_bytes (length cells.now) ≤ length out.old) }
    ensures { PageSays (prefix cells.now) out.old result out.new }
{
    let mut page = text::Page::new(out);
    page.bytes(&(cells.len() as u16).to_le_bytes());
    put_fours(&mut page, cells);
    page.end()
}

// The bytes of the most guards.
pub const MOST_GUARDS: usize = 4 * guard::ENDS * image::Image::CELLS;

// The guards of a table, at the front of what is lent.
#[tactic(auto, using(crate::proofs::Prefixes::cells))]
pub fn put_guards(out: &mut [u8], guards: &[u32]) -> usize
    requires { 4 * length guards.now ≤ length out.old }
    ensures { PageSays (fours guards.now) out.old result out.new }
{
    let mut page = text::Page::new(out);
    put_fours(&mut page, guards);
    page.end()
}
