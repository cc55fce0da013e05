// Sheetbendle runs one batch of small programs against a table of 32-bit cells, by the two phases of the Aria paper. A board lends the image (the
// programs), the table, its guards, and a work area of `area_words(T, n)` words for T cells and n programs, and makes these calls in this order:
//
//   open         clears the work area for this image and this table.
//   gather       runs one program on the table and writes down what it reads and stores; once for each program, in any order.
//   settle       decides one gathered program, once all are gathered; a committed one's stores go into the table; in any order.
//   order        lists the committed programs in an order in which running them one after another gives the same table.
//   next_image   makes the next batch's image: the carried programs, then those of a fresh image.
//
// The guards are two words for each cell, its low end and then its high one, read as signed numbers: a program that stores a value below low or above
// high faults. `full_range` makes a list that lets every value in. Each of the calls above is lent the same guards.
// Once all are settled, `why` says why a program was carried, and `comes_before` before whom a program comes that read a cell as it was.
// A sheet is an image as a text that can be typed: `image_of` reads a sheet and writes its image, `sheet_of` reads an image and writes its sheet.
// Beside these, `program` hands back one program as a part of the image, and `program_refusal` says why it does not.
// `second_rule` says whether Rule 2 is in force; `of_gathered`, `of_settled` and `of_why` give the numbers of an answer. Where an answer comes by its
// numbers, as from another board, they take a `RefusalNumbers` of any three, the first two an `Ended` of any state and detail, and the first a
// `FaultNumbers` of any kind and instruction number.
// Every call answers for every input. A refusal changes nothing that was lent; `RefusalNumbers::from` gives its number in document 01, of `Ok(())` 0.
#![tactic(auto)]

pub use area::area_words;
pub use carry::next_image;
pub use causes::{Cause, Why, comes_before, why};
pub use from_image::{LONGEST_SHEET, sheet_of};
pub use from_sheet::image_of;
pub use guard::full_range;
pub use image::{
    BadInstruction, Fault, Image, ImageRefusal, Refusal, RefusalNumbers, program, program_refusal,
    second_rule,
};
pub use listing::order;
pub use machine::{FaultKind, Run};
pub use numbers::{
    CauseNumbers, Ended, FaultNumbers, GatherAnswer, SettleAnswer, StepNumbers, WhyAnswer,
    of_gathered, of_settled, of_why,
};
pub use sheet::Unwritten;
pub use steps::{Reason, Settled, gather, open, settle};

// A program's slot in the work area, and the most words that an area has.
pub const SLOT_WORDS: usize = slot::WORDS;

pub const AREA_WORDS: usize = area::AREA_WORDS;

// The states of a program, as an answer's numbers have them.
pub const WAITING: u32 = slot::WAITING;

pub const GATHERED: u32 = slot::GATHERED;

pub const REJECTED: u32 = slot::REJECTED;

pub const FAULTED: u32 = slot::FAULTED;

pub const COMMITTED: u32 = slot::COMMITTED;

pub const CARRIED: u32 = slot::CARRIED;

// The two ends of the full range, as a guard list has them.
pub const LOWEST: u32 = guard::LOWEST;

pub const HIGHEST: u32 = guard::HIGHEST;

// A faulted program's detail is KIND_UNIT × kind + instruction number; the kinds are a load and a store of a cell outside the table, and a store that
// a guard does not admit.
pub const KIND_UNIT: u32 = machine::KIND_UNIT;

pub const LOAD_FAULT: u8 = machine::LOAD_FAULT;

pub const STORE_FAULT: u8 = machine::STORE_FAULT;

pub const GUARD_FAULT: u8 = machine::GUARD_FAULT;
