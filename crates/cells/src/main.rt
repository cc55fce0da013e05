// Writes what stands before the image in a batch's input, from a table's cells as arguments in decimal: document 01, "Bench sheet". Where they are no cells
// there is a line on standard error, and nothing is written.
#![tactic(auto)]

use arguments::Kind;
use image::Image;

fn main(rt: HostRuntime) {
    from_arguments::run::<{ Image::CELLS }, { prefix::MOST }, _>(
        &rt,
        b"cells",
        Kind::Cells,
        |cells, page| { prefix::put_prefix(page, cells) },
    );
}
