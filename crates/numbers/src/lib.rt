// The numbers of what gathering and settling answer (document 01, "What each refusal says") and of why a program was carried (document 02, ask 3).
// Each is asked of an answer of this library, or of numbers that come from elsewhere, whichever they are.
#![tactic(auto)]

ghost use Rattle.std.specs.Prelude.{◌<◌, ◌^◌};
ghost use Rattle.image.specs.Refusals.{numbers_of_count};
ghost use Rattle.steps.specs.Answers.{Numbers, done_with};
ghost use Rattle.causes.specs.Why.{WhyNumbers, numbers_for};
ghost use Rattle.numbers.specs.Numbers.{Tells, CauseTells, CountTells, refused_as, ended_as, fault_as, no_reason_as};

use causes::{Cause, Why};
use image::{Refusal, RefusalNumbers};
use machine::Run;
use steps::{Reason, Settled};

// The refusal, or none with the slot's state and detail.
#[repr(C)]
#[derive(Clone, Copy)]
pub struct StepNumbers {
    pub refusal: RefusalNumbers,
    pub state: u32,
    pub detail: u32,
}

impl StepNumbers {
    fn refused(refusal: RefusalNumbers) -> StepNumbers
        ensures { Tells (refused_as refusal) result }
    {
        StepNumbers {
            refusal,
            state: 0,
            detail: 0,
        }
    }

    fn done(state: u32, detail: u32) -> StepNumbers
        ensures { Tells (done_with state detail) result }
    {
        StepNumbers {
            refusal: RefusalNumbers::NONE,
            state,
            detail,
        }
    }
}

// How a program ended, by its numbers: a state and a detail, whichever they are.
#[derive(Clone, Copy)]
pub struct Ended {
    pub state: u32,
    pub detail: u32,
}

// A fault by its numbers: a kind and an instruction number, whichever they are.
#[derive(Clone, Copy)]
pub struct FaultNumbers {
    pub kind: u8,
    pub at: u8,
}

// An answer of gathering; where it comes by its numbers, they are those of a refusal, of a fault, or of how the program ended.
pub trait GatherAnswer {
    ghost numbers: { Self → Numbers };

    // Its numbers.
    fn numbers(self) -> StepNumbers
        ensures { Tells (numbers self) result };
}

impl GatherAnswer for Result<Run, Refusal> {
    ghost use Rattle.steps.specs.Answers.{numbers_of_gathered};

    ghost numbers = { numbers_of_gathered };

    fn numbers(self) -> StepNumbers {
        match self {
            Ok(run) => StepNumbers::done(machine::state_of(run), machine::detail_of(run)),
            Err(refusal) => StepNumbers::refused(RefusalNumbers::from(refusal)),
        }
    }
}

impl GatherAnswer for RefusalNumbers {
    ghost numbers = { refused_as };

    fn numbers(self) -> StepNumbers {
        StepNumbers::refused(self)
    }
}

impl GatherAnswer for Ended {
    ghost numbers = { ended_as };

    fn numbers(self) -> StepNumbers {
        StepNumbers::done(self.state, self.detail)
    }
}

impl GatherAnswer for FaultNumbers {
    ghost numbers = { fault_as };

    fn numbers(self) -> StepNumbers {
        let detail = machine::KIND_UNIT * u32::from(self.kind) + u32::from(self.at);
        StepNumbers::done(slot::FAULTED, detail)
    }
}

// Of gathering.
pub fn of_gathered<A: GatherAnswer>(answer: A) -> StepNumbers
    ensures { Tells (A.numbers answer) result }
{
    answer.numbers()
}

// An answer of settling, or its numbers, likewise.
pub trait SettleAnswer {
    ghost numbers: { Self → Numbers };

    // Its numbers.
    fn numbers(self) -> StepNumbers
        ensures { Tells (numbers self) result };
}

impl SettleAnswer for Result<Settled, Refusal> {
    ghost use Rattle.steps.specs.Answers.{numbers_of_settled};

    ghost numbers = { numbers_of_settled };

    fn numbers(self) -> StepNumbers {
        match self {
            Ok(settled) => StepNumbers::done(steps::state_of(settled), steps::detail_of(settled)),
            Err(refusal) => StepNumbers::refused(RefusalNumbers::from(refusal)),
        }
    }
}

impl SettleAnswer for RefusalNumbers {
    ghost numbers = { refused_as };

    fn numbers(self) -> StepNumbers {
        StepNumbers::refused(self)
    }
}

impl SettleAnswer for Ended {
    ghost numbers = { ended_as };

    fn numbers(self) -> StepNumbers {
        StepNumbers::done(self.state, self.detail)
    }
}

// Of settling.
pub fn of_settled<A: SettleAnswer>(answer: A) -> StepNumbers
    ensures { Tells (A.numbers answer) result }
{
    answer.numbers()
}

// The refusal, or none with the reason and its cause; the second pair is that of WAR.
#[repr(C)]
#[derive(Clone, Copy)]
pub struct CauseNumbers {
    pub refusal: RefusalNumbers,
    pub reason: u32,
    pub cell: u32,
    pub program: u32,
    pub war_cell: u32,
    pub war_program: u32,
}

impl CauseNumbers {
    fn refused(refusal: RefusalNumbers) -> CauseNumbers
        ensures { CauseTells (no_reason_as refusal) result }
    {
        CauseNumbers {
            refusal,
            reason: 0,
            cell: 0,
            program: 0,
            war_cell: 0,
            war_program: 0,
        }
    }

    fn carried(reason: Reason, cause: Cause, war: Cause) -> CauseNumbers
        ensures { CauseTells (numbers_for reason cause war) result }
    {
        CauseNumbers {
            refusal: RefusalNumbers::NONE,
            reason: steps::reason_number(reason),
            cell: cause.cell,
            program: cause.program,
            war_cell: war.cell,
            war_program: war.program,
        }
    }
}

// An answer of `why`, or the numbers of a refusal.
pub trait WhyAnswer {
    ghost numbers: { Self → WhyNumbers };

    // Its numbers.
    fn numbers(self) -> CauseNumbers
        ensures { CauseTells (numbers self) result };
}

// Reasons 1 and 2 leave the second pair 0.
impl WhyAnswer for Result<Why, Refusal> {
    ghost use Rattle.causes.specs.Why.{numbers_of_why};

    ghost numbers = { numbers_of_why };

    fn numbers(self) -> CauseNumbers {
        let none = Cause {
            cell: 0,
            program: 0,
        };
        match self {
            Ok(Why::Waw(cause)) => CauseNumbers::carried(Reason::Waw, cause, none),
            Ok(Why::Raw(cause)) => CauseNumbers::carried(Reason::Raw, cause, none),
            Ok(Why::RawWithWar(raw, war)) => CauseNumbers::carried(Reason::RawWithWar, raw, war),
            Err(refusal) => CauseNumbers::refused(RefusalNumbers::from(refusal)),
        }
    }
}

impl WhyAnswer for RefusalNumbers {
    ghost numbers = { no_reason_as };

    fn numbers(self) -> CauseNumbers {
        CauseNumbers::refused(self)
    }
}

// Of why a program was carried.
pub fn of_why<A: WhyAnswer>(answer: A) -> CauseNumbers
    ensures { CauseTells (A.numbers answer) result }
{
    answer.numbers()
}

// The refusal, or none with a count: of the listed order how many programs it has, of the next image how many bytes.
#[repr(C)]
#[derive(Clone, Copy)]
pub struct CountNumbers {
    pub refusal: RefusalNumbers,
    pub count: u32,
}

// Of a call that counts.
pub fn of_count(answer: Result<usize, Refusal>) -> CountNumbers
    requires { (numbers_of_count answer).count < 2 ^ 32 }
    ensures { CountTells (numbers_of_count answer) result }
{
    match answer {
        Ok(count) => CountNumbers {
            refusal: RefusalNumbers::NONE,
            count: count as u32,
        },
        Err(refusal) => CountNumbers {
            refusal: RefusalNumbers::from(refusal),
            count: 0,
        },
    }
}
