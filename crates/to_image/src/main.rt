// Reads a sheet from standard input and writes its image: document 02, ask 1. The page is made in a buffer and written once.
#![tactic(auto)]

use image::Image;
use programs::NoPage;

fn main(rt: HostRuntime) {
    programs::run::<{ converted::INPUT }, { Image::BYTES }, { refused::WHERE_AT_BYTES }, _, _>(
        &rt,
        b"to_image",
        |sheet, page| {
            if converted::too_long(sheet) {
                return Err(NoPage::TooLong);
            }
            Ok(converted::image_page(sheet, page))
        },
        |sheet, words| converted::sheet_said(sheet, words),
    );
}
