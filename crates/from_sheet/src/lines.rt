// The lines of a sheet, one after another.
ghost use Rattle.std.specs.Prelude.{◌≡◌};
ghost use Rattle.std.specs.Iterator.{YieldsFirst, item_count};
ghost use Rattle.from_sheet.specs.Passes.{lines_from};
ghost use Rattle.from_sheet.specs.Lines.{lines_left};

use crate::NEWLINE;

// Those of a sheet that begin at a place or behind it.
#[derive(Drop)]
pub struct Lines<'a> {
    sheet: &'a [u8],
    at: usize,
}

impl<'a> Lines<'a> {
    // All of them.
    pub fn of(sheet: &'a [u8]) -> Lines<'a>
        ensures { lines_left result ≡ lines_from 0 sheet.now }
    {
        Lines { sheet, at: 0 }
    }
}

impl Iterator for Lines<'_> {
    type Item = sheet::Line;

    ghost next_gives = { YieldsFirst lines_left };

    ghost remaining = { item_count lines_left };

    #[tactic(auto, using(crate::proofs::Passing::lines_none, crate::proofs::Passing::lines_next))]
    fn next(&mut self) -> Option<sheet::Line> {
        if self.sheet.len() < self.at {
            return None;
        }
        let end = sheet::part_end(self.sheet, self.at, NEWLINE);
        let line = sheet::line_of(&self.sheet[self.at..end]);
        self.at = end + 1;
        Some(line)
    }
}
