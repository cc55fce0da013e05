// The machine: eight registers and the place, the nine instructions, and the run of one program (document 01, "Instructions").
#![tactic(auto)]

ghost use Rattle.std.specs.Prelude.{◌≡◌, ◌+◌, ◌*◌, ◌<◌, ◌≤◌, length, ◌==◌, nat_lt};
ghost use Rattle.image.specs.Limits.{registers, instruction_bytes, max_instructions, max_program_bytes};
ghost use Rattle.guard.specs.Guards.{guard_words, admits};
ghost use Rattle.slot.specs.States.{waiting};
ghost use Rattle.slot.specs.Layout.{slot_words};
ghost use Rattle.slot.specs.Log.{empty, layout, log_of};
ghost use Rattle.machine.specs.Asks.{start, reg, written, passed, skipped, added, subtracted, byte_here, ask_of};
ghost use Rattle.machine.specs.Runs.{kind_number, stop, next, loading, storing, perform, run_of, state_of_run, detail_of_run, keeps, kept, turned};
ghost use Rattle.machine.specs.Runs.{store_at, Named, Ready, Did, Begins, Ends, CanRun, RunSays, LastStore};

use image::Instruction;

// The eight registers and the place: the number of the instruction that is next.
#[derive(Clone, Copy)]
pub struct Machine {
    pub registers: [u32; image::Image::REGISTERS],
    pub place: usize,
}

// The kinds of a fault: a load, or a store, of a cell outside the table, and a store of a value that the cell's guard does not admit.
#[derive(Clone, Copy, PartialEq, Eq)]
pub enum FaultKind {
    Load = 1,
    Store = 2,
    Guard = 3,
}

impl FaultKind {
    // A kind's number in a detail.
    pub fn number(self) -> u8
        ensures { result ≡ kind_number self }
    {
        self as u8
    }
}

// The kinds' numbers, for who reads a detail back.
pub const LOAD_FAULT: u8 = FaultKind::Load as u8;

pub const STORE_FAULT: u8 = FaultKind::Store as u8;

pub const GUARD_FAULT: u8 = FaultKind::Guard as u8;

// How a run ended.
#[derive(Clone, Copy, PartialEq, Eq)]
pub enum Run {
    Finished,
    Rejected(u8),
    Faulted { kind: FaultKind, at: u8 },
}

// A fault's detail is so many times its kind, and then the instruction number.
pub const KIND_UNIT: u32 = 256;

// A store: to which cell, and of which value.
#[derive(Clone, Copy)]
pub struct Store {
    pub cell: u32,
    pub value: u32,
}

// What a turn gives: how the run ended, if it stops, and the machine.
#[derive(Clone, Copy)]
pub struct Turned {
    pub stopped: Option<Run>,
    pub machine: Machine,
}

// Every instruction takes the eight registers and the place, and gives both back.
impl Machine {
    // Eight registers, all 0, at the first instruction.
    fn new() -> Machine
        ensures { result ≡ start }
    {
        Machine {
            registers: [0u32; image::Image::REGISTERS],
            place: 0,
        }
    }

    fn register(self, a: u8) -> u32
        requires { a < registers }
        ensures { result ≡ reg self a }
    {
        self.registers[a as usize]
    }

    // The register that a byte names, 0 where it names none: as the definition reads a program that no image would hold.
    fn named(self, a: u8) -> u32
        requires { length self.registers ≡ registers }
        ensures { result ≡ reg self a }
    {
        self.registers.get(a as usize).copied().unwrap_or(0)
    }

    // A byte of the instruction at this place, 0 past the end, as the definition reads it.
    fn byte_here(self, program: &[u8], k: usize) -> u8
        requires { (length program.now ≤ max_program_bytes) × (k < instruction_bytes) }
        ensures { result ≡ byte_here program.now self k }
    {
        if self.place < image::Image::INSTRUCTIONS {
            image::byte_at(program, image::Image::INSTRUCTION_BYTES * self.place + k)
        } else {
            0
        }
    }

    // The store that the instruction at this place names.
    fn store_here(self, program: &[u8]) -> Store
        requires { (length program.now ≤ max_program_bytes) × (length self.registers ≡ registers) }
        ensures { result ≡ store_at program.now self }
    {
        Store {
            cell: self.named(self.byte_here(program, 1)),
            value: self.named(self.byte_here(program, 2)),
        }
    }

    // On to the next instruction, with v in register a.
    fn written(self, a: u8, v: u32) -> Machine
        requires { (a < registers) × (self.place < max_instructions) }
        ensures { result ≡ written self a v }
    {
        let mut next = self.passed();
        next.registers[a as usize] = v;
        next
    }

    // On to the next instruction.
    fn passed(self) -> Machine
        requires { self.place < max_instructions }
        ensures { result ≡ passed self }
    {
        let mut next = self;
        next.place += 1;
        next
    }

    // If the test holds, past the next c instructions.
    fn skipped(self, test: bool, c: u8) -> Machine
        requires { self.place < max_instructions }
        ensures { result ≡ skipped test self c }
    {
        let mut next = self.passed();
        if test {
            next.place += c as usize;
        }
        next
    }

    fn set(self, a: u8, b: u8, c: u8) -> Machine
        requires { (a < registers) × (self.place < max_instructions) }
        ensures { result ≡ written self a (256 * b + c) }
    {
        self.written(a, 256 * u32::from(b) + u32::from(c))
    }

    fn add(self, a: u8, b: u8, c: u8) -> Machine
        requires { (a < registers) × (b < registers) × (c < registers) × (self.place < max_instructions) }
        ensures { result ≡ written self a (added (reg self b) (reg self c)) }
    {
        self.written(a, self.register(b).wrapping_add(self.register(c)))
    }

    fn sub(self, a: u8, b: u8, c: u8) -> Machine
        requires { (a < registers) × (b < registers) × (c < registers) × (self.place < max_instructions) }
        ensures { result ≡ written self a (subtracted (reg self b) (reg self c)) }
    {
        self.written(a, self.register(b).wrapping_sub(self.register(c)))
    }

    fn skip_less(self, a: u8, b: u8, c: u8) -> Machine
        requires { (a < registers) × (b < registers) × (self.place < max_instructions) }
        ensures { result ≡ skipped (nat_lt (reg self a) (reg self b)) self c }
    {
        self.skipped(self.register(a) < self.register(b), c)
    }

    fn skip_equal(self, a: u8, b: u8, c: u8) -> Machine
        requires { (a < registers) × (b < registers) × (self.place < max_instructions) }
        ensures { result ≡ skipped (reg self a == reg self b) self c }
    {
        self.skipped(self.register(a) == self.register(b), c)
    }

    // The run goes on.
    fn goes(self) -> Turned
        ensures { result ≡ turned self (next self empty) }
    {
        Turned {
            stopped: None,
            machine: self,
        }
    }

    // The run stops.
    fn stops(self, run: Run) -> Turned
        ensures { result ≡ turned self (stop run empty) }
    {
        Turned {
            stopped: Some(run),
            machine: self,
        }
    }

    // The run stops with a fault at this place.
    fn faults(self, kind: FaultKind) -> Turned
        requires { self.place < max_instructions }
        ensures { result ≡ turned self (stop (Run.Faulted kind self.place) empty) }
    {
        let at = self.place as u8;
        self.stops(Run::Faulted { kind, at })
    }

    // Register a gets cell number r[b]: the value that the run has stored there, or the table's, which is then a read.
    #[tactic(auto, using(slot::proofs::Noted::fresh_value, slot::proofs::Noted::own_value, slot::proofs::Noted::own_read))]
    fn load(self, a: u8, b: u8, table: &[u32], slot: &mut [u32]) -> Turned
        requires { Ready self slot.old × (a < registers) × (b < registers) }
        ensures { Did self (loading table.now self (log_of slot.old) a (reg self b)) result slot.new }
    {
        let c = self.register(b);
        let i = c as usize;
        if i >= table.len() {
            return self.faults(FaultKind::Load);
        }
        match slot::stored_place(slot, c) {
            Some(k) => self.written(a, slot[slot::VALUES + k]).goes(),
            None => {
                slot::note_read(slot, c);
                self.written(a, table[i]).goes()
            }
        }
    }

    // Cell number r[a] gets r[b], where its guard admits that value.
    fn store(self, a: u8, b: u8, table: &[u32], guards: &[u32], slot: &mut [u32]) -> Turned
        requires { Ready self slot.old × (a < registers) × (b < registers) × (length guards.now ≡ guard_words (length table.now)) }
        ensures { Did self (storing (admits guards.now) table.now self (log_of slot.old) (reg self a) (reg self b)) result slot.new }
    {
        let c = self.register(a);
        let v = self.register(b);
        let i = c as usize;
        if i >= table.len() {
            return self.faults(FaultKind::Store);
        }
        if !guard::admits(guards, i, v) {
            return self.faults(FaultKind::Guard);
        }
        slot::note_store(slot, c, v);
        self.passed().goes()
    }

    // One turn.
    #[tactic(auto, unfolding(crate::specs::Asks::ask_of, crate::specs::Runs::perform))]
    fn step(self, i: Instruction, table: &[u32], guards: &[u32], slot: &mut [u32]) -> Turned
        requires { Ready self slot.old × Named i.op i.a i.b i.c × (length guards.now ≡ guard_words (length table.now)) }
        ensures { Did self (perform (admits guards.now) table.now self (log_of slot.old) (ask_of i.op i.a i.b i.c self)) result slot.new }
    {
        let Instruction { op, a, b, c } = i;
        match op {
            0 => self.stops(Run::Finished),
            1 => self.set(a, b, c).goes(),
            2 => self.load(a, b, table, slot),
            3 => self.store(a, b, table, guards, slot),
            4 => self.add(a, b, c).goes(),
            5 => self.sub(a, b, c).goes(),
            6 => self.skip_less(a, b, c).goes(),
            7 => self.skip_equal(a, b, c).goes(),
            8 => self.stops(Run::Rejected(a)),
            9..=255 => self.stops(Run::Finished),
        }
    }
}

// How a run ended, and the machine at its end.
#[derive(Clone, Copy)]
struct Ended {
    run: Run,
    machine: Machine,
}

// The turns of a run, from an empty log. Every turn goes forward; arriving at m is an end. A `while`, since a skip moves the place.
fn take_turns(program: &[u8], table: &[u32], guards: &[u32], slot: &mut [u32]) -> Ended
    requires { Begins program.now table.now guards.now slot.old }
    ensures { Ends (run_of program.now table.now guards.now) result slot.new }
{
    let count = program.len() / image::Image::INSTRUCTION_BYTES;
    let mut machine = Machine::new();
    while machine.place < count {
        let turned = machine.step(Instruction::at(program, machine.place), table, guards, slot);
        machine = turned.machine;
        if let Some(run) = turned.stopped {
            return Ended { run, machine };
        }
    }
    Ended {
        run: Run::Finished,
        machine,
    }
}

// The state that a run's end leaves.
pub fn state_of(run: Run) -> u32
    ensures { result ≡ state_of_run run }
{
    match run {
        Run::Finished => slot::GATHERED,
        Run::Rejected(_) => slot::REJECTED,
        Run::Faulted { .. } => slot::FAULTED,
    }
}

// The detail that it leaves: the reject code, or 256 × kind + instruction number.
pub fn detail_of(run: Run) -> u32
    ensures { result ≡ detail_of_run run }
{
    match run {
        Run::Finished => 0,
        Run::Rejected(code) => u32::from(code),
        Run::Faulted { kind, at } => KIND_UNIT * u32::from(kind.number()) + u32::from(at),
    }
}

// Whether a run keeps what it read and stored.
fn keeps(run: Run) -> bool
    ensures { result ≡ keeps run }
{
    matches!(run, Run::Finished)
}

// A run that rejects or faults keeps nothing of it.
#[tactic(auto, using(slot::proofs::Slots::layout_waiting))]
fn drop_log(slot: &mut [u32], run: Run)
    requires { (length slot.old ≡ slot_words) × (slot.old ≡ layout waiting 0 (log_of slot.old)) }
    ensures { slot.new ≡ layout waiting 0 (kept run (log_of slot.old)) }
{
    if !keeps(run) {
        slot::clear(slot);
    }
}

// The slot of a run that has ended: a rejected or faulted one has only state and detail.
#[tactic(auto, using(slot::proofs::Slots::layout_again))]
fn finish(slot: &mut [u32], run: Run)
    requires { (length slot.old ≡ slot_words) × (slot.old ≡ layout waiting 0 (log_of slot.old)) }
    ensures { slot.new ≡ layout (state_of_run run) (detail_of_run run) (kept run (log_of slot.old)) }
{
    drop_log(slot, run);
    slot[slot::STATE] = state_of(run);
    slot[slot::DETAIL] = detail_of(run);
}

// The run of a program on a table, with the table's guards: its answer, and its whole slot.
#[tactic(auto, using(crate::proofs::Ends::outcome_log, crate::proofs::Ends::outcome_words, crate::proofs::Ends::end_is))]
pub fn run_program(program: &[u8], table: &[u32], guards: &[u32], slot: &mut [u32]) -> Run
    requires { CanRun program.now table.now guards.now slot.old }
    ensures { RunSays program.now table.now guards.now result slot.new }
{
    slot::clear(slot);
    let run = take_turns(program, table, guards, slot).run;
    finish(slot, run);
    run
}

// The store at which a program's run stopped, where it did: the cell and the value that the instruction at its end names. It runs the program again,
// in a slot that is lent for it.
#[tactic(auto, using(crate::proofs::Laws::last_registers))]
pub fn last_store(program: &[u8], table: &[u32], guards: &[u32], slot: &mut [u32]) -> Store
    requires { CanRun program.now table.now guards.now slot.old }
    ensures { LastStore program.now table.now guards.now result slot.new }
{
    slot::clear(slot);
    take_turns(program, table, guards, slot)
        .machine
        .store_here(program)
}
