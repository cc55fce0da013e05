// Why a call is refused, here and nowhere else: document 01, "What each refusal says", and document 02.
ghost use Rattle.std.specs.Prelude.{◌≡◌};
ghost use Rattle.image.specs.Refusals.{fault_number, numbers_of_image, of_fresh, refusing};

// What is wrong with an instruction: document 02, ask 2.
#[derive(Clone, Copy, PartialEq, Eq)]
pub enum Fault {
    Operation,
    Register,
    Unused,
    Skip,
}

// A bad instruction: what is wrong with it, its program and its number there.
#[derive(Clone, Copy, PartialEq, Eq)]
pub struct BadInstruction {
    pub fault: Fault,
    pub program: u32,
    pub instruction: u32,
}

// Why an image is none, by the first of the checks 1 to 4 that fails.
#[derive(Clone, Copy, PartialEq, Eq)]
pub enum ImageRefusal {
    Size,
    Header,
    Offsets,
    Instruction(BadInstruction),
}

// Why a call is refused; `Fresh` is about the fresh image of a next one.
#[derive(Clone, Copy, PartialEq, Eq)]
pub enum Refusal {
    Image(ImageRefusal),
    TableSize,
    AreaSize,
    Area,
    Number,
    State,
    TooShort,
    TooMany,
    NoOrder,
    NotCarried,
    Guards,
    Reason,
    Fresh(ImageRefusal),
}

// A refusal as the documents' numbers, which C gets: of a bad instruction with its program and its number there, otherwise with 0 and 0. Number 0 is none.
#[repr(C)]
#[derive(Clone, Copy)]
pub struct RefusalNumbers {
    pub number: u32,
    pub program: u32,
    pub instruction: u32,
}

impl From<BadInstruction> for ImageRefusal {
    ghost use Rattle.image.specs.declared.refusals.ImageRefusal.TheVariants.{Instruction};

    ghost from_gives = { λ bad r. r ≡ Instruction bad };

    fn from(bad: BadInstruction) -> ImageRefusal {
        ImageRefusal::Instruction(bad)
    }
}

impl From<ImageRefusal> for Refusal {
    ghost use Rattle.image.specs.declared.refusals.Refusal.TheVariants.{Image};

    ghost from_gives = { λ image r. r ≡ Image image };

    fn from(image: ImageRefusal) -> Refusal {
        Refusal::Image(image)
    }
}

impl Fault {
    // Its number in document 02.
    fn number(self) -> u32
        ensures { result ≡ fault_number self }
    {
        match self {
            Fault::Operation => 41,
            Fault::Register => 42,
            Fault::Unused => 43,
            Fault::Skip => 44,
        }
    }
}

impl RefusalNumbers {
    pub const NONE: RefusalNumbers = RefusalNumbers {
        number: 0,
        program: 0,
        instruction: 0,
    };

    // A refusal of a sheet's line: document 02, ask 1.
    pub const LINE: RefusalNumbers = RefusalNumbers {
        number: 51,
        program: 0,
        instruction: 0,
    };

    // What a refusal of an image adds to its number where the fresh image earns it.
    pub const FRESH: u32 = 20;

    // A number that has no place.
    fn of(number: u32) -> RefusalNumbers
        ensures { result ≡ refusing number }
    {
        RefusalNumbers {
            number,
            program: 0,
            instruction: 0,
        }
    }

    // The numbers of an image's refusal, as the fresh image earns it.
    fn of_fresh(refusal: ImageRefusal) -> RefusalNumbers
        ensures { result ≡ of_fresh (numbers_of_image refusal) }
    {
        let numbers = RefusalNumbers::from(refusal);
        RefusalNumbers {
            number: RefusalNumbers::FRESH + numbers.number,
            program: numbers.program,
            instruction: numbers.instruction,
        }
    }
}

impl From<ImageRefusal> for RefusalNumbers {
    ghost use Rattle.image.specs.Refusals.{numbers_of_image};

    ghost from_gives = { λ r n. n ≡ numbers_of_image r };

    fn from(refusal: ImageRefusal) -> RefusalNumbers {
        match refusal {
            ImageRefusal::Size => RefusalNumbers::of(1),
            ImageRefusal::Header => RefusalNumbers::of(2),
            ImageRefusal::Offsets => RefusalNumbers::of(3),
            ImageRefusal::Instruction(bad) => RefusalNumbers {
                number: bad.fault.number(),
                program: bad.program,
                instruction: bad.instruction,
            },
        }
    }
}

impl From<Refusal> for RefusalNumbers {
    ghost use Rattle.image.specs.Refusals.{numbers_of};

    ghost from_gives = { λ r n. n ≡ numbers_of r };

    fn from(refusal: Refusal) -> RefusalNumbers {
        match refusal {
            Refusal::Image(image) => RefusalNumbers::from(image),
            Refusal::TableSize => RefusalNumbers::of(5),
            Refusal::AreaSize => RefusalNumbers::of(6),
            Refusal::Area => RefusalNumbers::of(7),
            Refusal::Number => RefusalNumbers::of(8),
            Refusal::State => RefusalNumbers::of(9),
            Refusal::TooShort => RefusalNumbers::of(10),
            Refusal::TooMany => RefusalNumbers::of(11),
            Refusal::NoOrder => RefusalNumbers::of(12),
            Refusal::NotCarried => RefusalNumbers::of(13),
            Refusal::Guards => RefusalNumbers::of(14),
            Refusal::Reason => RefusalNumbers::of(15),
            Refusal::Fresh(image) => RefusalNumbers::of_fresh(image),
        }
    }
}

impl From<Result<(), Refusal>> for RefusalNumbers {
    ghost use Rattle.image.specs.Refusals.{told};

    ghost from_gives = { λ r n. n ≡ told r };

    fn from(checks: Result<(), Refusal>) -> RefusalNumbers {
        match checks {
            Ok(()) => RefusalNumbers::NONE,
            Err(refusal) => RefusalNumbers::from(refusal),
        }
    }
}
