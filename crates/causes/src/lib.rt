// Why a program was carried: the reason with its cause (document 02, ask 3).
#![tactic(auto)]

ghost use Rattle.std.specs.Prelude.{◌≡◌, ◌<◌};
ghost use Rattle.image.specs.Image.{count_of};
ghost use Rattle.area.specs.Checks.{Checked, Slotted};
ghost use Rattle.causes.specs.Causes.{cause_at, NamesOne};
ghost use Rattle.causes.specs.Why.{told_by, NamesAll, ask_refusal, carried_refusal, before_of, WhySays, Explains, BeforeSays};

mod answers;

pub use answers::{Cause, Why};
use image::Refusal;

// The cause that a cell shows: with it, the program that its mark of a kind names.
fn cause_at(area: &[u32], cells: usize, cell: usize, marks: area::MarkKind) -> Cause
    requires { NamesOne marks cells cell area.now }
    ensures { result ≡ cause_at marks cells cell area.now }
{
    let at = area::marks_start(marks, cells) + cell;
    let program = area::named(area[at]);
    let cell = cell as u32;
    Cause { cell, program }
}

// The reason of a decision with its cause; a decision to commit has none.
#[tactic(auto, unfolding(crate::specs::Why::told_by))]
fn with_cause(verdict: steps::Verdict, area: &[u32], cells: usize) -> Result<Why, Refusal>
    requires { NamesAll verdict cells area.now }
    ensures { result ≡ told_by verdict cells area.now }
{
    let write = area::MarkKind::Write;
    match verdict {
        steps::Verdict::Commit => Err(Refusal::Reason),
        steps::Verdict::Waw(cell) => Ok(Why::Waw(cause_at(area, cells, cell, write))),
        steps::Verdict::Raw(cell) => Ok(Why::Raw(cause_at(area, cells, cell, write))),
        steps::Verdict::RawWithWar(cell, other) => {
            let raw = cause_at(area, cells, cell, write);
            let war = cause_at(area, cells, other, area::MarkKind::Read);
            Ok(Why::RawWithWar(raw, war))
        }
    }
}

// Why a program was carried, where the checks up to 13 have been made: the decision is settling's, and its reason has to be the detail.
#[tactic(auto, using(crate::proofs::Says::other_detail, crate::proofs::Says::same_detail))]
pub fn why_checked(image: &[u8], table: &[u32], area: &[u32], number: usize) -> Result<Why, Refusal>
    requires { Checked image.now table.now area.now × (number < count_of image.now) }
    ensures { Explains image.now table.now area.now number result }
{
    let cells = table.len();
    let verdict = steps::judge(image, area, cells, number);
    let reason = steps::detail_of(steps::settled_by(verdict));
    if area::detail(area, cells, number) != reason {
        return Err(Refusal::Reason);
    }
    with_cause(verdict, area, cells)
}

// Checks 1 to 9 of a question about one program of a batch that has ended.
#[tactic(auto, using(crate::proofs::Refusals::asking), unfolding(crate::specs::Why::ask_refusal))]
fn ask_refusal(
    image: &[u8],
    table: &[u32],
    guards: &[u32],
    area: &[u32],
    number: usize,
) -> Result<(), Refusal>
    ensures { result ≡ ask_refusal image.now table.now guards.now area.now number }
{
    steps::step_refusal(image, table, guards, area, number)?;
    if !area::states_from(area, table.len(), image::count(image), slot::FIRST_END) {
        return Err(Refusal::State);
    }
    Ok(())
}

// And 13.
#[tactic(auto, using(crate::proofs::Refusals::carrying), unfolding(crate::specs::Why::carried_refusal, area::specs::Layout::in_group))]
fn carried_refusal(
    image: &[u8],
    table: &[u32],
    guards: &[u32],
    area: &[u32],
    number: usize,
) -> Result<(), Refusal>
    ensures { result ≡ carried_refusal image.now table.now guards.now area.now number }
{
    ask_refusal(image, table, guards, area, number)?;
    let state = area::state(area, table.len(), number);
    if !slot::is_in(slot::Group::Carried, state) {
        return Err(Refusal::NotCarried);
    }
    Ok(())
}

// Why a program of a settled batch was carried: the reason with its cause.
#[tactic(auto, using(crate::proofs::Refusals::carried_shows, crate::proofs::Says::why_refused, crate::proofs::Says::why_done))]
pub fn why(
    image: &[u8],
    table: &[u32],
    guards: &[u32],
    area: &[u32],
    number: usize,
) -> Result<Why, Refusal>
    ensures { WhySays image.now table.now guards.now area.now number result }
{
    carried_refusal(image, table, guards, area, number)?;
    why_checked(image, table, area, number)
}

// RAW of a program, with its cause, where it has one.
#[tactic(auto, using(crate::proofs::Naming::by_cells), unfolding(crate::specs::Why::before_of, crate::specs::Causes::cause_of))]
fn before_whom(area: &[u32], cells: usize, number: usize) -> Option<Cause>
    requires { Slotted cells number area.now }
    ensures { result ≡ before_of cells number area.now }
{
    let reads = slot::ListKind::Reads;
    let write = area::MarkKind::Write;
    let cell = area::lowest(area, cells, number, reads, write)?;
    Some(cause_at(area, cells, cell, write))
}

// Before whom a program of a settled batch comes, if it comes before one: it read a cell as it was, which an earlier program stores.
#[tactic(auto, using(crate::proofs::Says::before_refused, crate::proofs::Says::before_done))]
pub fn comes_before(
    image: &[u8],
    table: &[u32],
    guards: &[u32],
    area: &[u32],
    number: usize,
) -> Result<Option<Cause>, Refusal>
    ensures { BeforeSays image.now table.now guards.now area.now number result }
{
    ask_refusal(image, table, guards, area, number)?;
    Ok(before_whom(area, table.len(), number))
}
