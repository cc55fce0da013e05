// The library for C: include/sheetbendle.h declares these functions. A slice is a pointer and a length there.
#![tactic(auto)]

ghost use Rattle.std.specs.Prelude.{◌≡◌, ◌^◌, ◌<◌};
ghost use Rattle.sheetbendle_c.specs.Calls.{PartTells, ProgramRefusalTells, OpenTells, GatherTells, SettleTells};
ghost use Rattle.sheetbendle_c.specs.Calls.{WhyTells, OrderTells, NextTells};
ghost use Rattle.sheet.specs.Answers.{numbers_of_written};
ghost use Rattle.sheetbendle_c.specs.Calls.{line_shown, TextTells, ImageOfTells, SheetOfTells};

use image::RefusalNumbers;
use sheet::Unwritten;

// Where a program's part of the image begins, and how long it is.
#[repr(C)]
#[derive(Clone, Copy)]
pub struct PartNumbers {
    pub start: usize,
    pub length: usize,
}

// The refusal, or none with the length written; of refusal 51 also the line.
#[repr(C)]
#[derive(Clone, Copy)]
pub struct TextNumbers {
    pub refusal: RefusalNumbers,
    pub length: u32,
    pub line: u32,
}

#[unsafe(no_mangle)]
pub extern "C" fn sheetbendle_program(image: &[u8], number: usize) -> PartNumbers
    ensures { PartTells image.now number result }
{
    let length = image::program(image, number).len();
    let start = image::program_start(image, number);
    PartNumbers { start, length }
}

#[unsafe(no_mangle)]
pub extern "C" fn sheetbendle_program_refusal(image: &[u8], number: usize) -> RefusalNumbers
    ensures { ProgramRefusalTells image.now number result }
{
    RefusalNumbers::from(image::program_refusal(image, number))
}

#[unsafe(no_mangle)]
pub extern "C" fn sheetbendle_open(
    image: &[u8],
    table: &[u32],
    guards: &[u32],
    area: &mut [u32],
) -> RefusalNumbers
    ensures { OpenTells image.now table.now guards.now area.old result area.new }
{
    RefusalNumbers::from(steps::open(image, table, guards, area))
}

#[unsafe(no_mangle)]
pub extern "C" fn sheetbendle_gather(
    image: &[u8],
    table: &[u32],
    guards: &[u32],
    area: &mut [u32],
    number: usize,
) -> numbers::StepNumbers
    ensures { GatherTells image.now table.now guards.now area.old number result area.new }
{
    numbers::of_gathered(steps::gather(image, table, guards, area, number))
}

#[unsafe(no_mangle)]
pub extern "C" fn sheetbendle_settle(
    image: &[u8],
    table: &mut [u32],
    guards: &[u32],
    area: &mut [u32],
    number: usize,
) -> numbers::StepNumbers
    ensures { SettleTells image.now table.old guards.now area.old number result table.new area.new }
{
    numbers::of_settled(steps::settle(image, table, guards, area, number))
}

#[unsafe(no_mangle)]
pub extern "C" fn sheetbendle_why(
    image: &[u8],
    table: &[u32],
    guards: &[u32],
    area: &[u32],
    number: usize,
) -> numbers::CauseNumbers
    ensures { WhyTells image.now table.now guards.now area.now number result }
{
    numbers::of_why(causes::why(image, table, guards, area, number))
}

#[unsafe(no_mangle)]
#[tactic(auto, using(crate::proofs::Small::order_small))]
pub extern "C" fn sheetbendle_order(
    image: &[u8],
    table: &[u32],
    guards: &[u32],
    area: &[u32],
    list: &mut [u32],
) -> numbers::CountNumbers
    ensures { OrderTells image.now table.now guards.now area.now list.old result list.new }
{
    numbers::of_count(listing::order(image, table, guards, area, list))
}

#[unsafe(no_mangle)]
#[tactic(auto, using(crate::proofs::Small::next_small))]
pub extern "C" fn sheetbendle_next_image(
    image: &[u8],
    table: &[u32],
    guards: &[u32],
    area: &[u32],
    fresh: &[u8],
    out: &mut [u8],
) -> numbers::CountNumbers
    ensures { NextTells image.now table.now guards.now area.now fresh.now out.old result out.new }
{
    numbers::of_count(carry::next_image(image, table, guards, area, fresh, out))
}

// A line's number as far as 32 bits show it.
fn line_shown(line: usize) -> u32
    ensures { result ≡ line_shown line }
{
    line.min(u32::MAX as usize) as u32
}

// The numbers of an answer that has a text's length.
fn of_written(answer: Result<usize, Unwritten>) -> TextNumbers
    requires { (numbers_of_written answer).length < 2 ^ 32 }
    ensures { TextTells (numbers_of_written answer) result }
{
    match answer {
        Ok(length) => TextNumbers {
            refusal: RefusalNumbers::NONE,
            length: length as u32,
            line: 0,
        },
        Err(Unwritten::Refused(refusal)) => TextNumbers {
            refusal: RefusalNumbers::from(refusal),
            length: 0,
            line: 0,
        },
        Err(Unwritten::BadLine(line)) => TextNumbers {
            refusal: RefusalNumbers::LINE,
            length: 0,
            line: line_shown(line),
        },
    }
}

#[unsafe(no_mangle)]
#[tactic(auto, using(from_sheet::proofs::Says::image_small))]
pub extern "C" fn sheetbendle_image_of(sheet: &[u8], out: &mut [u8]) -> TextNumbers
    ensures { ImageOfTells sheet.now out.old result out.new }
{
    of_written(from_sheet::image_of(sheet, out))
}

#[unsafe(no_mangle)]
#[tactic(auto, using(crate::proofs::Small::sheet_of_small))]
pub extern "C" fn sheetbendle_sheet_of(image: &[u8], out: &mut [u8]) -> TextNumbers
    ensures { SheetOfTells image.now out.old result out.new }
{
    of_written(from_image::sheet_of(image, out).map_err(Unwritten::Refused))
}
