// The first pass over a sheet: its first bad line, and its sizes.
ghost use Rattle.std.specs.Prelude.{◌≡◌, ◌<◌, ◌^◌};
ghost use Rattle.sheet.specs.Sheet.{allowed};
ghost use Rattle.from_sheet.specs.Passes.{counted, last_bad, checked_line, Small, Surveys};

use crate::NEWLINE;

// How many programs a sheet has, how many instructions, how many in the program that is being read, and how many in the longest.
#[derive(Clone, Copy)]
pub struct Sizes {
    pub programs: usize,
    pub instructions: usize,
    pub current: usize,
    pub longest: usize,
}

// Whether a place allows a line.
#[tactic(auto, unfolding(sheet::specs::Sheet::allowed))]
fn allowed(place: usize, line: sheet::Line) -> bool
    ensures { result ≡ allowed place line }
{
    match line {
        sheet::Line::Rule(_) => place == 0,
        sheet::Line::Program => 0 < place,
        sheet::Line::Instruction(_) => 1 < place,
        sheet::Line::Other => false,
    }
}

// The last line, where something stands behind the last newline, and a first line that is missing, are not allowed: their number.
#[tactic(auto, unfolding(crate::specs::Passes::last_bad, crate::specs::Passes::checked_line))]
fn last_checked(place: usize, rest: usize) -> Result<(), usize>
    requires { place < 2 ^ 63 }
    ensures { result ≡ checked_line (last_bad place rest) }
{
    if place == 0 {
        return Err(1);
    }
    if rest == 0 { Ok(()) } else { Err(place + 1) }
}

// The sizes with a line more.
#[tactic(auto, unfolding(crate::specs::Passes::counted))]
fn counted(sizes: Sizes, line: sheet::Line) -> Sizes
    requires { Small sizes (2 ^ 63) }
    ensures { result ≡ counted sizes line }
{
    match line {
        sheet::Line::Program => Sizes {
            programs: sizes.programs + 1,
            current: 0,
            ..sizes
        },
        sheet::Line::Instruction(_) => Sizes {
            instructions: sizes.instructions + 1,
            current: sizes.current + 1,
            longest: sizes.longest.max(sizes.current + 1),
            ..sizes
        },
        sheet::Line::Rule(_) | sheet::Line::Other => sizes,
    }
}

// Goes through a sheet until a line is not allowed, and answers with its number, from 1, or with the sizes. Where a line ends is asked here: the last part
// is no line, and nothing may stand there.
pub fn survey_of(sheet: &[u8]) -> Result<Sizes, usize>
    ensures { Surveys sheet.now result }
{
    let mut sizes = Sizes {
        programs: 0,
        instructions: 0,
        current: 0,
        longest: 0,
    };
    let mut at = 0;
    let mut place: usize = 0;
    let mut end = sheet::part_end(sheet, 0, NEWLINE);
    while end < sheet.len() {
        let line = sheet::line_of(&sheet[at..end]);
        if !allowed(place, line) {
            return Err(place + 1);
        }
        sizes = counted(sizes, line);
        at = end + 1;
        place += 1;
        end = sheet::part_end(sheet, at, NEWLINE);
    }
    last_checked(place, end - at)?;
    Ok(sizes)
}
