// The text of the test program: bytes and numbers read from it.
//
// Two hex digits are a byte, with blanks between or not. `hh*n` repeats the byte hh n times, and
// `(..)*n` what stands between, which has no such group in it. `++` is a byte that counts from 0, one
// more each time, and `==` is that byte again. Any other character is passed over.
#![tactic(auto)]

ghost use Rattle.std.specs.Prelude.{◌≡◌, ◌+◌, ◌<◌, ◌≤◌, min, max, length, drop};
ghost use Rattle.io.specs.Counts.{IsPrefixLen};
ghost use Rattle.sampletext.specs.Text.{skipped, digit_of, spelled};

// A decimal number of the text, and where it ends.
#[derive(Clone, Copy)]
struct Number {
    value: usize,
    next: usize,
}

// A byte of the text, how often it stands there, where the next item may start, and what `++` counts
// on from.
#[derive(Clone, Copy)]
struct Item {
    byte: u8,
    times: usize,
    next: usize,
    last: u8,
}

// How far a reading is: how many bytes it has put, and what `++` counts on from.
#[derive(Clone, Copy)]
struct Reading {
    bytes: usize,
    last: u8,
}

// The value of a hex digit, and 16 for any other character.
fn digit(c: u8) -> u8
    ensures { (result ≡ digit_of c) × (result ≤ 16) }
{
    match c {
        b'0'..=b'9' => c - b'0',
        b'a'..=b'f' => c - b'a' + 10,
        _ => 16,
    }
}

// The decimal number at a place, of at most ten digits; 0 where none stands there.
fn decimal(text: &[u8], from: usize) -> Number
    requires { from ≤ length text.now }
    ensures bounds { (from ≤ result.next) × (result.next ≤ length text.now) }
    ensures value { result.value ≡ spelled 0 (drop from text.now) }
{
    let mut value: usize = 0;
    for (i, c) in text[from..].iter().enumerate() {
        let d = digit(*c);
        if 9 < d || 999_999_999 < value {
            return Number {
                value,
                next: from + i,
            };
        }
        value = value * 10 + d as usize;
    }
    Number {
        value,
        next: text.len(),
    }
}

// The decimal number after a place, and the largest of 32 bits where it is more.
pub fn number_after(text: &[u8], at: usize) -> u32
    ensures { result ≡ min (spelled 0 (drop (at + 1) text.now)) 4294967295 }
{
    if text.len() <= at {
        return 0;
    }
    decimal(text, at + 1).value.min(0xffff_ffff) as u32
}

// The item at a place; a character that starts none is one that stands there no times.
fn item_at(text: &[u8], at: usize, last: u8) -> Item
    requires { at < length text.now }
    ensures { (at < result.next) × (result.next ≤ length text.now) }
{
    let nothing = Item {
        byte: 0,
        times: 0,
        next: at + 1,
        last: last,
    };
    if text.len() - at < 2 {
        return nothing;
    }
    let first = text[at];
    let second = text[at + 1];
    if first == b'+' && second == b'+' {
        let number = last.wrapping_add(1);
        return Item {
            byte: number,
            times: 1,
            next: at + 2,
            last: number,
        };
    }
    if first == b'=' && second == b'=' {
        return Item {
            byte: last,
            times: 1,
            next: at + 2,
            last: last,
        };
    }
    let high = digit(first);
    let low = digit(second);
    if high == 16 {
        return nothing;
    }
    if low == 16 {
        return nothing;
    }
    let byte = high * 16 + low;
    if text.len() - at < 3 || text[at + 2] != b'*' {
        return Item {
            byte: byte,
            times: 1,
            next: at + 2,
            last: last,
        };
    }
    let n = decimal(text, at + 3);
    Item {
        byte: byte,
        times: n.value,
        next: n.next,
        last: last,
    }
}

// Puts a byte so many times after the n bytes of a buffer, as far as there is room, and answers how
// many bytes it has then.
fn put(buffer: &mut [u8], n: usize, byte: u8, times: usize) -> usize
    requires { n ≤ length buffer.old }
    ensures { result ≤ length buffer.new }
{
    let end = n + times.min(buffer.len() - n);
    buffer[n..end].fill(byte);
    end
}

// Goes on with a reading by the items of a text, in which no group stands.
fn read_items(text: &[u8], buffer: &mut [u8], done: Reading) -> Reading
    requires { done.bytes ≤ length buffer.old }
    ensures { result.bytes ≤ length buffer.new }
{
    let mut n = done.bytes;
    let mut last = done.last;
    let mut i = 0;
    // No `for`: each item says where the next one may start.
    while i < text.len() {
        let item = item_at(text, i, last);
        n = put(buffer, n, item.byte, item.times);
        last = item.last;
        i = item.next;
    }
    Reading {
        bytes: n,
        last: last,
    }
}

// Goes on with a reading by the items of a text, so many times.
fn read_group(text: &[u8], times: usize, buffer: &mut [u8], done: Reading) -> Reading
    requires { done.bytes ≤ length buffer.old }
    ensures { result.bytes ≤ length buffer.new }
{
    let mut reading = done;
    for turn in 0..times {
        reading = read_items(text, buffer, reading);
    }
    reading
}

// The first place from another on where a character stands, or the text's length; where that other
// place is past the text, that place.
pub fn find(text: &[u8], from: usize, wanted: u8) -> usize
    ensures value { result ≡ from + skipped (drop from text.now) wanted }
    ensures bounds { (from ≤ result) × (result ≤ max from (length text.now)) }
{
    let Some(rest) = text.get(from..) else {
        return from;
    };
    match rest.iter().position(|c| *c == wanted) {
        Some(skipped) => from + skipped,
        None => text.len(),
    }
}

// How often the group is repeated that ends at a place: the number after `)*`.
fn times_at(text: &[u8], close: usize) -> Number
    requires { close ≤ length text.now }
    ensures { (close ≤ result.next) × (result.next ≤ length text.now) }
{
    if text.len() - close < 2 {
        return Number {
            value: 1,
            next: text.len(),
        };
    }
    decimal(text, close + 2)
}

// Reads a text into a buffer, and answers how many bytes it has.
pub fn read_bytes(text: &[u8], buffer: &mut [u8]) -> usize
    ensures { IsPrefixLen result buffer.new }
{
    let mut reading = Reading {
        bytes: 0,
        last: 255,
    };
    let mut at = 0;
    // No `for`: each group says where the next one may start.
    while at < text.len() {
        let open = find(text, at, b'(');
        reading = read_items(&text[at..open], buffer, reading);
        if open == text.len() {
            break;
        }
        let close = find(text, open + 1, b')');
        let times = times_at(text, close);
        reading = read_group(&text[open..close], times.value, buffer, reading);
        at = times.next;
    }
    reading.bytes
}
