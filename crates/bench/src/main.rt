// The bench program: reads a sheet from standard input, loads it for most bits and prints the table, with what set each tone's limit.
// Document 01, 'Sample line'; document 02, W3.
#![tactic(auto)]

ghost use Rattle.std.specs.Prelude.{◌*◌, ◌≤◌, length};
ghost use Rattle.sizes.specs.Sizes.{most_tones, bytes_a_tone, limit_bytes_a_tone};

use line::SetBy;
use refusals::Refusal;
use sizes::{LIMIT_BYTES, TONE_BYTES, TONES};

// The table of the most tones, in bytes, and their limits.
const TABLE_BYTES: usize = TONE_BYTES * TONES;

const LIMITS_BYTES: usize = LIMIT_BYTES * TONES;

fn print(text: &[u8]) {
    io::write_all(1, text);
}

// Two numbers, with a blank before each.
fn print_two(first: u64, second: u64) {
    print(b" ");
    io::print_decimal(1, first);
    print(b" ");
    io::print_decimal(1, second);
}

// The word for what set a limit, with a blank before it.
fn print_set_by(by: SetBy) {
    match by {
        SetBy::Silent => print(b" silent"),
        SetBy::Cap => print(b" cap"),
        SetBy::Mask => print(b" mask"),
    }
}

// A line for each tone: its number, its bits, its power, and what set its limit.
fn print_table(table: &[u8], limits: &[u8], size: usize)
    requires table_room { bytes_a_tone * size ≤ length table.now }
    requires limits_room { limit_bytes_a_tone * size ≤ length limits.now }
{
    for tone in 0..size {
        io::print_decimal(1, tone as u64);
        print_two(
            bigendian::number_at(table, TONE_BYTES * tone, 1),
            bigendian::number_at(table, TONE_BYTES * tone + 1, 8),
        );
        print_set_by(limits::set_by(limits[LIMIT_BYTES * tone + 1]));
        print(b"\n");
    }
}

fn print_refusal(why: Refusal) {
    print(b"refused");
    print_two(why.number() as u64, why.place() as u64);
    print(b"\n");
}

// Loads an accepted sheet of so many tones.
fn show_loading(sheet: &[u8], size: usize)
    requires { size ≤ most_tones }
{
    let mut table = [0u8; TABLE_BYTES];
    let mut limits = [0u8; LIMITS_BYTES];
    match loader::load_most(sheet, &mut table) {
        Err(why) => print_refusal(why),
        Ok(totals) => {
            // The loading was accepted and the buffer has room, so the limits are written.
            let _ = loader::limits(sheet, &mut limits);
            print_table(&table, &limits, size);
            print(b"total");
            print_two(totals.bits as u64, totals.power);
            print(b"\n");
        }
    }
}

fn show(sheet: &[u8]) {
    match loader::check(sheet) {
        Err(why) => print_refusal(why),
        Ok(counts) => show_loading(sheet, counts.size as usize),
    }
}

// A sheet that is too long arrives as one, whether or not all of it fits the buffer.
fn main() {
    let mut input = io::large_buffer();
    let n = io::read_full(0, &mut input);
    show(&input[..n]);
}
