// What the calls answer.

// What shows a dependency: the lowest cell that does, and the program that its mark names.
#[derive(Clone, Copy, PartialEq, Eq)]
pub struct Cause {
    pub cell: u32,
    pub program: u32,
}

// Why a program was carried; of RAW with WAR the first pair is that of RAW.
#[derive(Clone, Copy, PartialEq, Eq)]
pub enum Why {
    Waw(Cause),
    Raw(Cause),
    RawWithWar(Cause, Cause),
}
