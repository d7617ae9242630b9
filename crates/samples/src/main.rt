// Reads calls as text from standard input and prints what each answers. A line is one of
//
//   SHEET                  the check of a sheet, and its tidy form
//   most / SHEET           the loading for most bits
//   target N / SHEET       the loading of N bits
//   refit START / SHEET    the re-fit of a starting table
//   step START / SHEET     one step of it
//   limits / SHEET         the limit of each tone, and what set it
//   budgets LIST / SHEET   total bits and total power for each budget of a list
//   guarded / SHEET        the guarded loading
//
// SHEET, START and LIST are bytes as crate sampletext reads them, and `-` where there are none. An empty
// line is skipped, and a line that starts with `#` is written back.
#![tactic(auto)]

mod loads;
mod printing;

ghost use Rattle.io.specs.Counts.{IsPrefixLen};

use loads::Call;
use printing::{print, print_bytes, print_number, print_outcome, print_pair, print_touched};
use samplebuffers::{ROOM, filled, same, within};
use sampletext::read_bytes;

// Prints the tidy form of a sheet, then what tidying does with that form and with too little room.
fn show_tidy(sheet: &[u8]) {
    let mut out = filled();
    let length = loader::tidy(sheet, &mut out).unwrap_or(0);
    let n = within(length, &out);
    print(b"tidy ");
    print_number(length as u64);
    print(b" ");
    print_bytes(&out[..n]);
    print(b"\n");
    show_again(out, n);
    show_short(sheet, n);
}

// Tidies the tidy form, the first n bytes of a buffer, into one that is just long enough. The whole
// buffers are compared: past the form both are as they were filled.
fn show_again(form: [u8; ROOM], n: usize)
    requires { IsPrefixLen n form }
{
    let mut again = filled();
    let room = within(n, &again);
    let length = loader::tidy(&form[..n], &mut again[..room]).unwrap_or(0);
    print(b"again ");
    print_number(length as u64);
    if length == n && same(&form, &again) {
        print(b" same\n");
    } else {
        print(b" differs\n");
    }
}

// Tidies a sheet whose tidy form has n bytes into a buffer one byte too short.
fn show_short(sheet: &[u8], n: usize) {
    if n == 0 {
        return;
    }
    let mut out = filled();
    let room = within(n - 1, &out);
    print_outcome(b"short ", loader::tidy(sheet, &mut out[..room]).err());
    print_touched(&out);
}

fn show_sheet(sheet: &[u8]) {
    match loader::check(sheet) {
        Ok(counts) => {
            print_pair(b"check ", counts.size as u64, counts.described as u64);
            print(b" ");
            print_number(counts.silenced as u64);
            print(b"\n");
            show_tidy(sheet);
        }
        Err(why) => {
            print_outcome(b"refused ", Some(why));
            print(b"\n");
        }
    }
}

// Shows a call: a word that starts with `first`, what stands up to `/`, and a sheet.
fn show_call(first: u8, text: &[u8]) {
    let blank = sampletext::find(text, 0, b' ');
    let slash = sampletext::find(text, blank, b'/');
    let mut sheet = filled();
    let n = read_bytes(&text[slash..], &mut sheet);
    let mut start = filled();
    let m = read_bytes(&text[blank..slash], &mut start);
    let call = match first {
        b'm' => Call::Most,
        b't' => Call::Target(sampletext::number_after(text, blank)),
        b'r' => Call::Refit,
        b'l' => Call::Limits,
        b'b' => Call::Budgets,
        b'g' => Call::Guarded,
        _ => Call::Step,
    };
    loads::show(call, &sheet[..n], &start[..m]);
}

// Shows a sheet: a line of bytes.
fn show_bytes(text: &[u8]) {
    let mut sheet = filled();
    let n = read_bytes(text, &mut sheet);
    show_sheet(&sheet[..n]);
}

fn show_line(text: &[u8]) {
    if text.len() == 0 {
        return;
    }
    let first = text[0];
    match first {
        b'#' => {
            print(text);
            print(b"\n");
        }
        b'm' | b't' | b'r' | b's' | b'l' | b'g' => show_call(first, text),
        b'b' => {
            // A sheet may begin with the digit b; no digit follows it in the word.
            if 1 < text.len() && text[1] == b'u' {
                show_call(first, text);
            } else {
                show_bytes(text);
            }
        }
        _ => show_bytes(text),
    }
}

fn show_lines(text: &[u8]) {
    let mut at = 0;
    while at < text.len() {
        let end = sampletext::find(text, at, b'\n');
        show_line(&text[at..end]);
        if end == text.len() {
            break;
        }
        at = end + 1;
    }
}

fn main() {
    let mut text = samplebuffers::text_buffer();
    let n = io::read_full(0, &mut text);
    show_lines(&text[..n]);
}
