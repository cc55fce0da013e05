// How a line is read: cut into words at its spaces.
ghost use Rattle.std.specs.Prelude.{◌≡◌, ◌+◌, ◌<◌, ◌≤◌, length};
ghost use Rattle.sheet.specs.Split.{Ends};
ghost use Rattle.sheet.specs.Sheet.{program_line, rule_line, instruction_line, line_of};
ghost use Rattle.sheet.specs.Reading.{named, numbered, line_for};

use crate::{Instruction, Line, NAMES};

const SPACE: u8 = b' ';

const LARGEST_RULE: u8 = 2;

// Where the part of a text ends that begins at a place: at the next separator, or with the text.
pub fn part_end(text: &[u8], at: usize, separator: u8) -> usize
    requires { at ≤ length text.now }
    ensures { Ends separator text.now at result }
{
    match text[at..].iter().position(|byte| *byte == separator) {
        Some(before) => at + before,
        None => text.len(),
    }
}

// The operation that a word is the name of.
fn operation_of(word: &[u8]) -> Option<u8>
    ensures { result ≡ named word.now }
{
    let op = NAMES.iter().position(|name| word == *name)?;
    Some(op as u8)
}

// The number that a word is, up to a largest one.
#[tactic(auto, unfolding(crate::specs::Reading::numbered, crate::specs::Sheet::is_up_to, text::specs::Decimal::numeral))]
fn up_to(largest: u8, word: &[u8]) -> Option<u8>
    ensures { result ≡ numbered largest word.now }
{
    let number = text::number_of(word, largest as u32).ok()?;
    Some(number as u8)
}

// A line of one word.
#[tactic(auto, using(crate::proofs::Names::same_bytes), unfolding(crate::specs::Sheet::program_line))]
fn program_line(word: &[u8]) -> Line
    ensures { result ≡ program_line word.now }
{
    if word == b"program".as_slice() {
        Line::Program
    } else {
        Line::Other
    }
}

// A line of two words.
#[tactic(auto, using(crate::proofs::Names::same_bytes), unfolding(crate::specs::Sheet::rule_line, crate::specs::Reading::numbered))]
fn rule_line(word: &[u8], r: &[u8]) -> Line
    ensures { result ≡ rule_line word.now r.now }
{
    if word != b"rule".as_slice() {
        return Line::Other;
    }
    up_to(LARGEST_RULE, r).map_or(Line::Other, Line::Rule)
}

// The instruction that four words are.
#[tactic(auto, unfolding(crate::specs::Sheet::instruction_line, crate::specs::Reading::named, crate::specs::Reading::numbered))]
fn instruction_of(word: &[u8], a: &[u8], b: &[u8], c: &[u8]) -> Option<Instruction>
    ensures { line_for result ≡ instruction_line word.now a.now b.now c.now }
{
    Some(Instruction {
        op: operation_of(word)?,
        a: up_to(u8::MAX, a)?,
        b: up_to(u8::MAX, b)?,
        c: up_to(u8::MAX, c)?,
    })
}

// A line of four words.
fn instruction_line(word: &[u8], a: &[u8], b: &[u8], c: &[u8]) -> Line
    ensures { result ≡ instruction_line word.now a.now b.now c.now }
{
    instruction_of(word, a, b, c).map_or(Line::Other, Line::Instruction)
}

// What a line says, its newline apart.
pub fn line_of(text: &[u8]) -> Line
    ensures { result ≡ line_of text.now }
{
    let first = part_end(text, 0, SPACE);
    if first == text.len() {
        return program_line(&text[..first]);
    }
    let second = part_end(text, first + 1, SPACE);
    if second == text.len() {
        return rule_line(&text[..first], &text[first + 1..second]);
    }
    let third = part_end(text, second + 1, SPACE);
    if third == text.len() {
        return Line::Other;
    }
    let fourth = part_end(text, third + 1, SPACE);
    if fourth != text.len() {
        return Line::Other;
    }
    instruction_line(
        &text[..first],
        &text[first + 1..second],
        &text[second + 1..third],
        &text[third + 1..fourth],
    )
}
