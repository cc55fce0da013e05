// The next image: document 01, "Next image". The carried programs in number order, then the fresh image's programs, with the fresh image's rule byte.
#![tactic(auto)]

ghost use Rattle.std.specs.Prelude.{◌≡◌, ◌≤◌, length};
ghost use Rattle.text.specs.Writing.{Wrote};
ghost use Rattle.image.specs.Limits.{max_programs};
ghost use Rattle.image.specs.Refusals.{passed};
ghost use Rattle.image.specs.Image.{refusal_of};
ghost use Rattle.area.specs.Checks.{Checked};
ghost use Rattle.carry.specs.Next.{lent_refusal, size_refusal, NextSays};

use image::Refusal;

// What goes into the next image: of an image's n programs those that a mask has, and the same of the fresh one's; and how many they are together.
#[derive(Clone, Copy)]
pub struct Chosen<'a> {
    image: &'a [u8],
    n: usize,
    mask: u64,
    fresh: &'a [u8],
    m: usize,
    all: u64,
    programs: usize,
}

impl<'a> Chosen<'a> {
    ghost use Rattle.carry.specs.Sources.{ByMask, Choice, Sources, image_from};

    // Of an image's n programs those that a mask has, and all m of the fresh image's, where it is counted already how many they are together.
    pub fn by_mask(
        image: &'a [u8],
        n: usize,
        mask: u64,
        fresh: &'a [u8],
        m: usize,
        programs: usize,
    ) -> Chosen<'a>
        requires { m ≤ max_programs }
        ensures { ByMask image.now n mask fresh.now m programs result }
    {
        Chosen {
            image,
            n,
            mask,
            fresh,
            m,
            all: masks::all(m),
            programs,
        }
    }

    // The carried programs and all of the fresh image's, where the checks of all that is lent have been made.
    #[tactic(auto, using(area::proofs::Checks::few))]
    pub fn of(image: &'a [u8], table: &[u32], area: &[u32], fresh: &'a [u8]) -> Chosen<'a>
        requires { Checked image.now table.now area.now × (refusal_of fresh.now ≡ passed) }
        ensures { Choice image.now (length table.now) area.now fresh.now result }
    {
        let n = image::count(image);
        let m = image::count(fresh);
        let mask = area::members(area, table.len(), n, slot::Group::Carried);
        Chosen::by_mask(image, n, mask, fresh, m, masks::count(mask, n) + m)
    }

    // The next image's length, for check 10.
    #[tactic(auto, using(crate::proofs::Sources::from_length))]
    fn length(&self) -> usize
        requires { Sources self.now }
        ensures { result ≡ length (image_from self.now) }
    {
        let old = writer::taken_bytes(self.image, self.n, self.mask);
        let new = writer::taken_bytes(self.fresh, self.m, self.all);
        image::head_bytes(self.programs) + old + new
    }

    // Checks 11, 10.
    #[tactic(auto, using(image::proofs::Refusing::checking), unfolding(crate::specs::Next::size_refusal))]
    fn size_refusal(&self, out: &[u8]) -> Result<(), Refusal>
        requires { Sources self.now }
        ensures { result ≡ size_refusal self.now.programs (image_from self.now) out.now }
    {
        if image::Image::PROGRAMS < self.programs {
            return Err(Refusal::TooMany);
        }
        if out.len() < self.length() {
            return Err(Refusal::TooShort);
        }
        Ok(())
    }

    // The next image, where all checks have been made.
    #[tactic(auto, using(crate::proofs::Pieces::first_pieces))]
    pub fn write(&self, out: &mut [u8]) -> usize
        requires { Sources self.now × (length (image_from self.now) ≤ length out.old) }
        ensures { Wrote out.old 0 (image_from self.now) out.new result }
    {
        let first = image::head_bytes(self.programs);
        let mut page = text::Page::new(out);
        writer::put_header(&mut page, self.programs, image::rule(self.fresh));
        let middle = writer::put_ends(&mut page, first, self.image, self.n, self.mask);
        writer::put_ends(&mut page, middle, self.fresh, self.m, self.all);
        writer::put_bodies(&mut page, self.image, self.n, self.mask);
        writer::put_bodies(&mut page, self.fresh, self.m, self.all);
        page.end()
    }
}

// Checks 1 to 7, 9, 21 to 24.
#[tactic(auto, using(image::proofs::Refusing::checking), unfolding(crate::specs::Next::lent_refusal))]
fn lent_refusal(
    image: &[u8],
    table: &[u32],
    guards: &[u32],
    area: &[u32],
    fresh: &[u8],
) -> Result<(), Refusal>
    ensures { result ≡ lent_refusal image.now table.now guards.now area.now fresh.now }
{
    area::ended_refusal(image, table, guards, area)?;
    image::fresh_refusal(fresh)
}

// The next image: its length, and its bytes at the front of the output.
pub fn next_image(
    image: &[u8],
    table: &[u32],
    guards: &[u32],
    area: &[u32],
    fresh: &[u8],
    out: &mut [u8],
) -> Result<usize, Refusal>
    ensures { NextSays image.now table.now guards.now area.now fresh.now out.old result out.new }
{
    lent_refusal(image, table, guards, area, fresh)?;
    let chosen = Chosen::of(image, table, area, fresh);
    chosen.size_refusal(out)?;
    Ok(chosen.write(out))
}
