// As `batch`, where the input has guards behind its cells, before the image: document 02, ask 5. The page is made in a buffer and written once.
#![tactic(auto)]

use report::Guards;

fn main(rt: HostRuntime) {
    programs::run::<{ input::LONGEST_GUARDED }, { results::BYTES }, { refused::WHERE_BYTES }, _, _>(
        &rt,
        b"guarded",
        |input, page| Ok(report::batch_page(Guards::FromInput, input, page)),
        |input, words| report::said(Guards::FromInput, input, words),
    );
}
