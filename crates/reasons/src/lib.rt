// The page of the program `why` (document 02, asks 3 and 5): why each program of a settled batch ended as it did. What is asked of the library stands here, what
// is then said in `sentences`.
#![tactic(auto)]

ghost use Rattle.std.specs.Prelude.{◌≡◌, cond, ◌+◌, ◌≤◌, ◌<◌, get_or};
ghost use Rattle.text.specs.Paper.{Put, Fits};
ghost use Rattle.image.specs.Limits.{max_programs, max_cells};
ghost use Rattle.slot.specs.declared.Group.TheVariants.{Carried};
ghost use Rattle.slot.specs.States.{is_in};
ghost use Rattle.area.specs.Checks.{HasSlot};
ghost use Rattle.reasons.specs.Reasons.{committed_text, why_text, carried_text, faulted_text, place_of, ended_of, program_of, reasons_of};
ghost use Rattle.reasons.specs.Reasons.{guard_faulted, last_store, guard_text, CanTellOf, CanRerun, CanEnd, CanStop};

use area::Batch;
use causes::{Cause, Why};
use image::Refusal;
use text::Page;

// The most bytes of a page.
pub const PAGE: usize = image::Image::PROGRAMS * sentences::LONGEST;

// A committed program, by before whom it comes.
#[tactic(auto, unfolding(crate::specs::Reasons::committed_text))]
fn put_committed(page: &mut Page, answer: Result<Option<Cause>, Refusal>, number: u32)
    requires { Fits page.old (committed_text answer number) }
    ensures { Put page.old (committed_text answer number) page.new }
{
    match answer {
        Ok(None) => sentences::put_free(page, number),
        Ok(Some(cause)) => sentences::put_turned(page, number, cause),
        Err(refusal) => refused::put_refused(page, refusal),
    }
}

// Why a carried program was carried.
#[tactic(auto, unfolding(crate::specs::Reasons::why_text))]
fn put_why(page: &mut Page, why: Why, number: u32)
    requires { Fits page.old (why_text why number) }
    ensures { Put page.old (why_text why number) page.new }
{
    match why {
        Why::Waw(cause) => sentences::put_waw(page, number, cause),
        Why::Raw(cause) => sentences::put_raw(page, number, cause),
        Why::RawWithWar(raw, war) => sentences::put_raw_with_war(page, number, raw, war),
    }
}

// A carried program, and what comes of it: in place p of the next batch it ends within p + 1 batches.
#[tactic(auto, unfolding(crate::specs::Reasons::carried_text, crate::specs::Reasons::again_text))]
fn put_carried(page: &mut Page, answer: Result<Why, Refusal>, number: u32, place: u32)
    requires { (place < max_programs) × Fits page.old (carried_text answer number place) }
    ensures { Put page.old (carried_text answer number place) page.new }
{
    match answer {
        Ok(why) => {
            put_why(page, why, number);
            sentences::put_again(page, place, place + 1);
        }
        Err(refusal) => refused::put_refused(page, refusal),
    }
}

// A program that faulted on a table of so many cells, by its detail; one that no load and no store outside the table leaves is refused.
#[tactic(auto, unfolding(crate::specs::Reasons::faulted_text))]
fn put_faulted(page: &mut Page, number: u32, detail: u32, cells: usize)
    requires { (0 < cells) × (cells ≤ max_cells) × Fits page.old (faulted_text number detail cells) }
    ensures { Put page.old (faulted_text number detail cells) page.new }
{
    let kind = detail / machine::KIND_UNIT;
    let place = detail % machine::KIND_UNIT;
    let last = (cells - 1) as u32;
    if kind == machine::LOAD_FAULT as u32 {
        return sentences::put_load_fault(page, number, place, last);
    }
    if kind == machine::STORE_FAULT as u32 {
        return sentences::put_store_fault(page, number, place, last);
    }
    refused::put_refused(page, Refusal::Reason)
}

// One more than so many, if the state is that of a carried program.
fn with_carried(count: u32, state: u32) -> u32
    requires { count < max_programs }
    ensures { result ≡ cond (is_in Carried state) 1 0 + count }
{
    if slot::is_in(slot::Group::Carried, state) {
        return count + 1;
    }
    count
}

// How many of the programs before this one are carried: its number in the next batch, if it is carried.
#[tactic(auto, using(crate::proofs::Pages::places))]
fn place_of(area: &[u32], cells: usize, number: usize) -> u32
    requires { HasSlot cells number area.now }
    ensures { result ≡ place_of cells number area.now }
{
    let mut count: u32 = 0;
    for k in 0..number {
        count = with_carried(count, area::state(area, cells, k));
    }
    count
}

// One program, by the state that it ended in; one that has not ended is refused.
#[tactic(auto, using(crate::proofs::Pages::places), unfolding(crate::specs::Reasons::ended_text, area::specs::Layout::in_group))]
fn put_program(page: &mut Page, batch: Batch, number: usize)
    requires { CanEnd batch number × Fits page.old (ended_of batch number) }
    ensures { Put page.old (ended_of batch.entry number) page.new }
{
    let cells = batch.table.len();
    let state = area::state(batch.area, cells, number);
    let detail = area::detail(batch.area, cells, number);
    let shown = number as u32;
    if state == slot::REJECTED {
        return sentences::put_rejected(page, shown, detail);
    }
    if state == slot::FAULTED {
        return put_faulted(page, shown, detail, cells);
    }
    if slot::is_in(slot::Group::Committed, state) {
        let answer = causes::comes_before(
            batch.image,
            batch.table,
            batch.guards,
            batch.area,
            number,
        );
        return put_committed(page, answer, shown);
    }
    if slot::is_in(slot::Group::Carried, state) {
        let answer = causes::why(batch.image, batch.table, batch.guards, batch.area, number);
        return put_carried(page, answer, shown, place_of(batch.area, cells, number));
    }
    refused::put_refused(page, Refusal::State)
}

// Whether a program faulted at a guard.
#[tactic(auto, unfolding(crate::specs::Reasons::guard_faulted))]
fn guard_faulted(area: &[u32], cells: usize, number: usize) -> bool
    requires { HasSlot cells number area.now }
    ensures { result ≡ guard_faulted cells number area.now }
{
    if area::state(area, cells, number) != slot::FAULTED {
        return false;
    }
    area::detail(area, cells, number) / machine::KIND_UNIT == machine::GUARD_FAULT as u32
}

// A word of the guards, 0 past the end, as the page's definition reads it: a faulted store has its guard.
fn end_at(guards: &[u32], at: usize) -> u32
    ensures { result ≡ get_or guards.now at 0 }
{
    guards.get(at).copied().unwrap_or(0)
}

// The store at which a program's run stopped, which was on the table as it was when the batch was opened: the program is run again, in a slot of its own.
fn last_store(image: &[u8], opening: &[u32], guards: &[u32], number: usize) -> machine::Store
    requires { CanRerun image.now opening.now guards.now number }
    ensures { result ≡ last_store image.now opening.now guards.now number }
{
    let part = image::part_of(image, number);
    let mut slot = [0u32; slot::WORDS];
    machine::last_store(part, opening, guards, &mut slot)
}

// A program that faulted at a guard, with the place that its detail has.
#[tactic(auto, using(area::proofs::Checks::few), unfolding(crate::specs::Reasons::guard_text))]
fn put_guard_fault(
    page: &mut Page,
    image: &[u8],
    opening: &[u32],
    guards: &[u32],
    number: usize,
    place: u32,
)
    requires { CanRerun image.now opening.now guards.now number × Fits page.old (guard_text image.now opening.now guards.now number place) }
    ensures { Put page.old (guard_text image.now opening.now guards.now number place) page.new }
{
    let store = last_store(image, opening, guards, number);
    let first = guard::ENDS * store.cell as usize;
    let low = end_at(guards, first);
    let high = end_at(guards, first + 1);
    sentences::put_guard_fault(page, number as u32, place, store, low, high);
}

// One program: one that a guard stopped, or any other. `opening` is the table as it was when the batch was opened.
#[tactic(auto, unfolding(crate::specs::Reasons::program_text))]
fn put_one(page: &mut Page, opening: &[u32], batch: Batch, number: usize)
    requires { CanStop opening.now batch number × CanEnd batch number × Fits page.old (program_of opening.now batch number) }
    ensures { Put page.old (program_of opening.now batch.entry number) page.new }
{
    let cells = batch.table.len();
    if !guard_faulted(batch.area, cells, number) {
        return put_program(page, batch, number);
    }
    let place = area::detail(batch.area, cells, number) % machine::KIND_UNIT;
    put_guard_fault(page, batch.image, opening, batch.guards, number, place)
}

// Every program of a settled batch, in number order; `opening` is the table as it was when the batch was opened.
#[tactic(auto, using(text::proofs::Fillings::turns), unfolding(crate::specs::Reasons::reasons_text))]
pub fn put_reasons(page: &mut Page, opening: &[u32], batch: Batch)
    requires { CanTellOf opening.now batch × Fits page.old (reasons_of opening.now batch) }
    ensures { Put page.old (reasons_of opening.now batch.entry) page.new }
{
    for k in 0..image::count(batch.image) {
        put_one(page, opening, batch, k);
    }
}
