// The arguments of a program as words of their kind, read one by one. A number of them that is not good, and the first that is no word, get a line on standard
// error.
#![tactic(auto)]

ghost use Rattle.std.specs.Prelude.{◌≡◌, false, ◌≤◌, ◌<◌, ◌^◌, length, IfSome};
ghost use Rattle.arguments.specs.declared.Kind.TheVariants.{Ends};
ghost use Rattle.arguments.specs.Kinds.{most_arguments};

use arguments::Kind;
use std::env::{Env, FillError};

// How many there are: the first of all is the program's name. With no room lent, one that is there is too long, but where it is empty.
fn count(rt: &impl Env) -> usize {
    for n in 0..usize::MAX {
        if let Err(FillError::NotPresent) = rt.arg(n + 1, &mut []) {
            return n;
        }
    }
    usize::MAX
}

// A complaint about how many there are, or none; answers whether there was one.
#[tactic(auto, using(arguments::proofs::Said::silent_few))]
fn complains_of_count(program: &[u8], kind: Kind, count: usize) -> bool
    ensures { result ≡ false → count ≤ most_arguments kind }
{
    let mut words = [0u8; arguments::MOST];
    let end = arguments::put_count(kind, &mut words, count);
    if end == 0 {
        return false;
    }
    output::complain(program, &words[..end]);
    true
}

// Room for the longest argument that Linux hands over, where its pages have 4096 bytes.
const ARGUMENT: usize = 131072;

// Argument i into what is lent, and how many of its bytes are there: of one that is longer than that as many as fit, which no word has.
fn read_argument(rt: &impl Env, i: usize, room: &mut [u8]) -> usize
    ensures { (result ≤ length room.new) × (length room.new ≡ length room.old) }
{
    match rt.arg(i, room) {
        Ok(n) => n,
        Err(FillError::TooLong) => room.len(),
        Err(FillError::NotPresent) => 0,
    }
}

// An argument as word k of the list, or a complaint about it; answers whether it is one.
fn take(program: &[u8], kind: Kind, list: &mut [u32], k: usize, word: &[u8]) -> bool
    requires { (k < length list.old) × (k < most_arguments Ends) }
    ensures { length list.new ≡ length list.old }
{
    let mut words = [0u8; arguments::MOST];
    let end = arguments::take(kind, list, k, word, &mut words);
    if end == 0 {
        return true;
    }
    output::complain(program, &words[..end]);
    false
}

// Word k of the list, from its argument.
fn read_word(
    rt: &impl Env,
    program: &[u8],
    kind: Kind,
    list: &mut [u32],
    k: usize,
    room: &mut [u8],
) -> bool
    requires { (k < length list.old) × (k < most_arguments Ends) }
    ensures { length list.new ≡ length list.old }
{
    let n = read_argument(rt, k + 1, room);
    take(program, kind, list, k, &room[..n])
}

// Each word of the list, up to the first argument that is none; answers whether all are words.
fn read_words(rt: &impl Env, program: &[u8], kind: Kind, list: &mut [u32]) -> bool
    requires { length list.old ≤ most_arguments Ends }
    ensures { length list.new ≡ length list.old }
{
    let mut room = [0u8; ARGUMENT];
    // an index, since it is the argument's number as well
    for k in 0..list.len() {
        if !read_word(rt, program, kind, list, k, &mut room) {
            return false;
        }
    }
    true
}

// The arguments as words, at the front of what is lent, and how many they are; none after a complaint.
#[tactic(auto, using(arguments::proofs::Said::most_ends))]
pub fn read(rt: &impl Env, program: &[u8], kind: Kind, list: &mut [u32]) -> Option<usize>
    requires { most_arguments kind ≤ length list.old }
    ensures few { IfSome result (λ n. n ≤ most_arguments kind) }
    ensures same_room { length list.new ≡ length list.old }
{
    let n = count(rt);
    if complains_of_count(program, kind, n) {
        return None;
    }
    if read_words(rt, program, kind, &mut list[..n]) {
        Some(n)
    } else {
        None
    }
}

// Runs a program of a name whose arguments are words of a kind, in rooms for the most words and the longest page: the page that is made of the words is
// printed, and nothing after a complaint.
pub fn run<const WORDS: usize, const PAGE: usize, P: FnOnce(&[u32], &mut [u8]) -> usize>(
    rt: &impl Env,
    program: &[u8],
    kind: Kind,
    page: P,
)
    requires rooms { (most_arguments kind ≤ WORDS) × (WORDS < 2 ^ 61) × (PAGE < 2 ^ 63) }
    requires page_may { (i : _) (o : _) → length i.now ≤ most_arguments kind → length o.now ≡ PAGE → P.pre page i o }
    requires page_fits { (i : _) (o : _) (n : _) (u : _) → length i.now ≤ most_arguments kind → length o.now ≡ PAGE → P.post page i o n u → n ≤ PAGE }
{
    let mut list = [0u32; WORDS];
    let Some(n) = read(rt, program, kind, &mut list) else {
        return;
    };
    let mut out = [0u8; PAGE];
    let end = page(&list[..n], &mut out);
    output::print(program, &out[..end]);
}
