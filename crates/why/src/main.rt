// Reads a batch from standard input, runs it and says of each program why it ended as it did: document 02, ask 3. The page is made in a buffer and written
// once.
#![tactic(auto)]

use programs::NoPage;
use report::Guards;

fn main(rt: HostRuntime) {
    programs::run::<{ input::LONGEST }, { reasons::PAGE }, { refused::WHERE_BYTES }, _, _>(
        &rt,
        b"why",
        |input, page| match report::reasons_page(Guards::FullRange, input, page) {
            0 => Err(NoPage::NoPrograms),
            end => Ok(end),
        },
        |input, words| report::said(Guards::FullRange, input, words),
    );
}
