// Reads an image from standard input and writes its sheet: document 02, ask 1. The page is made in a buffer and written once.
#![tactic(auto)]

use programs::NoPage;

#[tactic(auto, unfolding(from_image::specs::Longest::longest_sheet))]
fn main(rt: HostRuntime) {
    programs::run::<
        { converted::INPUT },
        { from_image::LONGEST_SHEET },
        { refused::WHERE_BYTES },
        _,
        _,
    >(
        &rt,
        b"to_sheet",
        |image, page| {
            if converted::too_long(image) {
                return Err(NoPage::TooLong);
            }
            Ok(converted::sheet_page(image, page))
        },
        |image, words| refused::image_where(image, words),
    );
}
