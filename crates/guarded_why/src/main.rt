// As `why`, where the input has guards behind its cells, before the image: document 02, ask 5. The page is made in a buffer and written once.
#![tactic(auto)]

use programs::NoPage;
use report::Guards;

fn main(rt: HostRuntime) {
    programs::run::<{ input::LONGEST_GUARDED }, { reasons::PAGE }, { refused::WHERE_BYTES }, _, _>(
        &rt,
        b"guarded_why",
        |input, page| match report::reasons_page(Guards::FromInput, input, page) {
            0 => Err(NoPage::NoPrograms),
            end => Ok(end),
        },
        |input, words| report::said(Guards::FromInput, input, words),
    );
}
