// What the test program prints: text, numbers, bytes, and whether a buffer was written to.
use refusals::Refusal;
use samplebuffers::{ROOM, filled, same};

pub(crate) fn print(text: &[u8]) {
    io::write_all(1, text);
}

pub(crate) fn print_number(n: u64) {
    io::print_decimal(1, n);
}

// Bytes as two hex digits each, with no blanks.
pub(crate) fn print_bytes(bytes: &[u8]) {
    for byte in bytes {
        io::print_hex(1, *byte as u64, 2);
    }
}

// A word and two numbers, with no line end.
pub(crate) fn print_pair(word: &[u8], first: u64, second: u64) {
    print(word);
    print_number(first);
    print(b" ");
    print_number(second);
}

// A word, and the number and the place of a refusal; 0 and 0 where there is none.
pub(crate) fn print_outcome(word: &[u8], why: Option<Refusal>) {
    match why {
        Some(why) => print_pair(word, why.number() as u64, why.place() as u64),
        None => print_pair(word, 0, 0),
    }
}

// Ends a line by whether a buffer is as it was filled.
pub(crate) fn print_touched(buffer: &[u8; ROOM]) {
    if same(buffer, &filled()) {
        print(b" untouched\n");
    } else {
        print(b" touched\n");
    }
}
