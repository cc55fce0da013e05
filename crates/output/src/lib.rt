// What a program says: a page on standard output, written once, and complaints and other words on standard error.
// No contract can say what a call of the operating system writes, so these functions have none: they are proved to be safe and to end. The bytes of
// each page are in the contract of the function that made it.
#![tactic(auto)]

const OUT: i32 = 1;

const ERROR: i32 = 2;

// A line on standard error that begins with the program's name.
pub fn complain(program: &[u8], words: &[u8]) {
    io::write_all(ERROR, program);
    io::write_all(ERROR, b": ");
    io::write_all(ERROR, words);
    io::write_all(ERROR, b"\n");
}

// Words on standard error as they are; nothing where there are none.
pub fn say(words: &[u8]) {
    io::write_all(ERROR, words);
}

// All that the program prints, written once; where that fails, a complaint.
pub fn print(program: &[u8], page: &[u8]) {
    if !io::write_all(OUT, page) {
        complain(program, b"standard output cannot be written");
    }
}
