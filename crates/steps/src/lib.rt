// Opening, gathering and settling: document 01, "The steps".
#![tactic(auto)]

ghost use Rattle.std.specs.Prelude.{◌≡◌, ◌<◌, length};
ghost use Rattle.image.specs.Image.{count_of};
ghost use Rattle.area.specs.Checks.{Checked, Paired, Measured, Slotted};
ghost use Rattle.steps.specs.Answers.{state_of_settled, detail_of_settled, reason_number};
ghost use Rattle.steps.specs.Opening.{OpenSays};
ghost use Rattle.steps.specs.Gathering.{step_refusal, gather_refusal, GatherSays, Gathers, RunsInto};
ghost use Rattle.steps.specs.Settling.{is_ready, settle_refusal, verdict, with_cells, settled_by, settled_table, SettleSays, Settles};

use image::Refusal;

// Why a program is carried: one reason out of three.
#[derive(Clone, Copy, PartialEq, Eq)]
pub enum Reason {
    Waw,
    Raw,
    RawWithWar,
}

// What settling answers.
#[derive(Clone, Copy, PartialEq, Eq)]
pub enum Settled {
    Committed,
    Carried(Reason),
}

// What settling decides, with the lowest cell that shows each dependency of the reason: of RAW with WAR that of RAW first.
#[derive(Clone, Copy)]
pub enum Verdict {
    Commit,
    Waw(usize),
    Raw(usize),
    RawWithWar(usize, usize),
}

// Opening sets the whole area to 0.
#[tactic(auto, using(crate::proofs::Refusals::done_by_check), unfolding(crate::specs::Opening::open_area))]
pub fn open(image: &[u8], table: &[u32], guards: &[u32], area: &mut [u32]) -> Result<(), Refusal>
    ensures { OpenSays image.now table.now guards.now area.old result area.new }
{
    area::open_refusal(image::image_refusal(image), image, table, guards, area)?;
    slot::clear(area);
    Ok(())
}

// Checks 1 to 8, with 14 in its place, which every step begins with.
#[tactic(auto, using(crate::proofs::Refusals::step_by_check), unfolding(crate::specs::Gathering::step_refusal))]
pub fn step_refusal(
    image: &[u8],
    table: &[u32],
    guards: &[u32],
    area: &[u32],
    number: usize,
) -> Result<(), Refusal>
    ensures { result ≡ step_refusal image.now table.now guards.now area.now number }
{
    area::call_refusal(image::image_refusal(image), image, table, guards, area)?;
    if image::count(image) <= number {
        return Err(Refusal::Number);
    }
    Ok(())
}

// Checks 1 to 9 of gathering.
#[tactic(auto, using(crate::proofs::Refusals::step_by_check), unfolding(crate::specs::Gathering::gather_refusal, crate::specs::Gathering::waits))]
fn gather_refusal(
    image: &[u8],
    table: &[u32],
    guards: &[u32],
    area: &[u32],
    number: usize,
) -> Result<(), Refusal>
    ensures { result ≡ gather_refusal image.now table.now guards.now area.now number }
{
    step_refusal(image, table, guards, area, number)?;
    if area::state(area, table.len(), number) != slot::WAITING {
        return Err(Refusal::State);
    }
    Ok(())
}

// The program's run, from its part of the image into its slot.
#[tactic(auto, using(machine::proofs::Laws::part_runnable))]
fn run_into(
    image: &[u8],
    table: &[u32],
    guards: &[u32],
    area: &mut [u32],
    number: usize,
) -> machine::Run
    requires { Checked image.now table.now area.old × (number < count_of image.now) × Paired table.now guards.now }
    ensures { RunsInto image.now table.now guards.now area.old number result area.new }
{
    let part = image::part_of(image, number);
    let at = area::slot_start(table.len(), number);
    let end = at + slot::WORDS;
    machine::run_program(part, table, guards, &mut area[at..end])
}

// Gathering, where the checks have been made.
#[tactic(auto, using(crate::proofs::Says::after_run, crate::proofs::Says::after_stores, crate::proofs::Says::after_reads))]
pub fn gather_checked(
    image: &[u8],
    table: &[u32],
    guards: &[u32],
    area: &mut [u32],
    number: usize,
) -> machine::Run
    requires { Checked image.now table.now area.old × (number < count_of image.now) × Paired table.now guards.now }
    ensures { Gathers image.now table.now guards.now area.old number result area.new }
{
    let run = run_into(image, table, guards, area, number);
    let cells = table.len();
    area::reserve(
        area,
        cells,
        number,
        slot::ListKind::Stores,
        area::MarkKind::Write,
    );
    area::reserve(
        area,
        cells,
        number,
        slot::ListKind::Reads,
        area::MarkKind::Read,
    );
    run
}

// Gathering runs one waiting program on the table with its guards, rewrites its slot and makes all its reservations.
#[tactic(auto, using(crate::proofs::Refusals::done_by_check), unfolding(crate::specs::Gathering::gather_answer, crate::specs::Gathering::gather_area))]
pub fn gather(
    image: &[u8],
    table: &[u32],
    guards: &[u32],
    area: &mut [u32],
    number: usize,
) -> Result<machine::Run, Refusal>
    ensures { GatherSays image.now table.now guards.now area.old number result area.new }
{
    gather_refusal(image, table, guards, area, number)?;
    Ok(gather_checked(image, table, guards, area, number))
}

// Check 9 of settling: whether no program of n waits, and this one is to be settled.
#[tactic(auto, unfolding(crate::specs::Settling::is_ready))]
fn is_ready(area: &[u32], cells: usize, n: usize, number: usize) -> bool
    requires { Measured cells n area.now × (number < n) }
    ensures { result ≡ is_ready cells n number area.now }
{
    if !area::states_from(area, cells, n, slot::GATHERED) {
        return false;
    }
    slot::can_settle(area::state(area, cells, number))
}

// Checks 1 to 9 of settling.
#[tactic(auto, using(crate::proofs::Refusals::step_by_check), unfolding(crate::specs::Settling::settle_refusal))]
fn settle_refusal(
    image: &[u8],
    table: &[u32],
    guards: &[u32],
    area: &[u32],
    number: usize,
) -> Result<(), Refusal>
    ensures { result ≡ settle_refusal image.now table.now guards.now area.now number }
{
    step_refusal(image, table, guards, area, number)?;
    if !is_ready(area, table.len(), image::count(image), number) {
        return Err(Refusal::State);
    }
    Ok(())
}

// The decision on a program, by the marks and the rule: WAW is looked at first, and WAR only where Rule 2 has found RAW.
#[tactic(auto, using(crate::proofs::Says::deciding))]
pub fn judge(image: &[u8], area: &[u32], cells: usize, number: usize) -> Verdict
    requires { Slotted cells number area.now }
    ensures { result ≡ with_cells (verdict image.now cells number area.now) cells number area.now }
{
    let reads = slot::ListKind::Reads;
    let stores = slot::ListKind::Stores;
    let write = area::MarkKind::Write;
    if let Some(waw) = area::lowest(area, cells, number, stores, write) {
        return Verdict::Waw(waw);
    }
    let Some(raw) = area::lowest(area, cells, number, reads, write) else {
        return Verdict::Commit;
    };
    if !image::second_rule(image) {
        return Verdict::Raw(raw);
    }
    match area::lowest(area, cells, number, stores, area::MarkKind::Read) {
        Some(war) => Verdict::RawWithWar(raw, war),
        None => Verdict::Commit,
    }
}

// The decision alone.
pub fn settled_by(verdict: Verdict) -> Settled
    ensures { result ≡ settled_by verdict }
{
    match verdict {
        Verdict::Commit => Settled::Committed,
        Verdict::Waw(_) => Settled::Carried(Reason::Waw),
        Verdict::Raw(_) => Settled::Carried(Reason::Raw),
        Verdict::RawWithWar(_, _) => Settled::Carried(Reason::RawWithWar),
    }
}

// The reason's number in document 01.
pub fn reason_number(reason: Reason) -> u32
    ensures { result ≡ reason_number reason }
{
    match reason {
        Reason::Waw => 1,
        Reason::Raw => 2,
        Reason::RawWithWar => 3,
    }
}

// The state that a decision leaves.
pub fn state_of(settled: Settled) -> u32
    ensures { result ≡ state_of_settled settled }
{
    match settled {
        Settled::Committed => slot::COMMITTED,
        Settled::Carried(_) => slot::CARRIED,
    }
}

// The detail that it leaves.
pub fn detail_of(settled: Settled) -> u32
    ensures { result ≡ detail_of_settled settled }
{
    match settled {
        Settled::Committed => 0,
        Settled::Carried(reason) => reason_number(reason),
    }
}

// The table takes the stores of a program that is committed.
#[tactic(auto, unfolding(crate::specs::Settling::settled_table))]
fn store_committed(settled: Settled, table: &mut [u32], area: &[u32], number: usize)
    requires { Slotted (length table.old) number area.now }
    ensures { table.new ≡ settled_table settled number area.now table.old }
{
    match settled {
        Settled::Committed => area::commit(table, area, number),
        Settled::Carried(_) => {}
    }
}

// Settling, where the checks have been made.
#[tactic(auto, using(crate::proofs::Says::cells_dropped), unfolding(crate::specs::Settling::settled_area))]
pub fn settle_checked(image: &[u8], table: &mut [u32], area: &mut [u32], number: usize) -> Settled
    requires { Checked image.now table.old area.old × (number < count_of image.now) }
    ensures { Settles image.now table.old area.old number result table.new area.new }
{
    let cells = table.len();
    let settled = settled_by(judge(image, area, cells, number));
    store_committed(settled, table, area, number);
    area::write_state(area, cells, number, state_of(settled), detail_of(settled));
    settled
}

// Settling decides one gathered program; a committed one's stores go into the table.
#[tactic(auto, using(crate::proofs::Refusals::done_by_check), unfolding(crate::specs::Settling::settle_answer, crate::specs::Settling::settle_table, crate::specs::Settling::settle_area))]
pub fn settle(
    image: &[u8],
    table: &mut [u32],
    guards: &[u32],
    area: &mut [u32],
    number: usize,
) -> Result<Settled, Refusal>
    ensures { SettleSays image.now table.old guards.now area.old number result table.new area.new }
{
    settle_refusal(image, table, guards, area, number)?;
    Ok(settle_checked(image, table, area, number))
}
