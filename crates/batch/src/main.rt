// Reads a batch from standard input, runs it and prints what came of it: document 01, "Bench sheet". The page is made in a buffer and written once.
#![tactic(auto)]

use report::Guards;

fn main(rt: HostRuntime) {
    programs::run::<{ input::LONGEST }, { results::BYTES }, { refused::WHERE_BYTES }, _, _>(
        &rt,
        b"batch",
        |input, page| Ok(report::batch_page(Guards::FullRange, input, page)),
        |input, words| report::said(Guards::FullRange, input, words),
    );
}
