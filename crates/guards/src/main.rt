// Writes the guards of a table, from the low end and the high end of each cell as arguments in decimal: document 02, ask 5. Where they are no ends there is a
// line on standard error, and nothing is written.
#![tactic(auto)]

use arguments::Kind;

const ENDS: usize = guard::ENDS * image::Image::CELLS;

fn main(rt: HostRuntime) {
    from_arguments::run::<ENDS, { prefix::MOST_GUARDS }, _>(
        &rt,
        b"guards",
        Kind::Ends,
        |ends, page| { prefix::put_guards(page, ends) },
    );
}
