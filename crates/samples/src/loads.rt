// The loadings, the re-fits, the limits, the totals for many budgets and the guarded loading of the test program: each call made, and what it
// answers printed.
//
//   loaded 6 39              bits and power; of a re-fit `refitted`, and the moves besides; of a guarded loading
//                            `guarded`, and the plain loading's bits besides
//   table 3:21 2:15 1:3      bits:power of each tone
//   exact same               into 9 bytes a tone: the same, and past them the first buffer is untouched
//   short 8 0 untouched      into one byte less: refusal and place
//
// On a refusal the lines before `short` are one, `refused`, its number and place, and `untouched`. Of the limits, 2 bytes a tone, the
// first two lines are one:
//
//   limits 5:mask 2:cap 3:mask   limit:what set it of each tone
//
// and of many budgets, 12 bytes each, they are
//
//   budgets 0:0 6:39             bits:power for each budget
use crate::printing::{print, print_number, print_outcome, print_pair, print_touched};
use line::SetBy;
use refusals::Refusal;
use running::Totals;
use samplebuffers::{ROOM, filled, same, within};
use sizes::{BUDGET_BYTES, LIMIT_BYTES, TONE_BYTES, TOTALS_BYTES};

// A table of more bytes than this, those of 32 tones, is printed as a sum.
const PRINTED_BYTES: usize = 32 * TONE_BYTES;

// A loading, a re-fit, the limits, the totals for many budgets or the guarded loading.
#[derive(Clone, Copy)]
pub(crate) enum Call {
    Most,
    Target(u32),
    Refit,
    Step,
    Limits,
    Budgets,
    Guarded,
}

// What an accepted call answers. The third is a re-fit's moves, or the plain loading's bits beside a guarded one's; a loading has none, and
// the calls that only write have no totals.
#[derive(Clone, Copy, PartialEq, Eq)]
struct Answer {
    bits: u32,
    power: u64,
    third: u32,
}

const NOTHING: Answer = Answer {
    bits: 0,
    power: 0,
    third: 0,
};

fn of_totals(totals: Totals, third: u32) -> Answer {
    Answer {
        bits: totals.bits,
        power: totals.power,
        third,
    }
}

// Makes a call. A re-fit takes a start, and many budgets their list in its place; the others take neither.
fn made(call: Call, sheet: &[u8], start: &[u8], table: &mut [u8]) -> Result<Answer, Refusal> {
    Ok(match call {
        Call::Most => of_totals(loader::load_most(sheet, table)?, 0),
        Call::Target(bits) => of_totals(loader::load_target(sheet, bits, table)?, 0),
        Call::Refit => {
            let refitted = loader::refit(sheet, start, table)?;
            of_totals(refitted.totals, refitted.moves)
        }
        Call::Step => {
            let refitted = loader::refit_step(sheet, start, table)?;
            of_totals(refitted.totals, refitted.moves)
        }
        Call::Limits => {
            loader::limits(sheet, table)?;
            NOTHING
        }
        Call::Budgets => {
            loader::budgets(sheet, start, table)?;
            NOTHING
        }
        Call::Guarded => {
            let guarded = loader::guarded(sheet, table)?;
            of_totals(guarded.totals, guarded.plain)
        }
    })
}

// How many tones a sheet has; 0 for a sheet that is refused.
fn tones_of(sheet: &[u8]) -> u16 {
    match loader::check(sheet) {
        Ok(counts) => counts.size,
        Err(_) => 0,
    }
}

// How many bytes a call writes: so many a tone of its sheet, or a budget of its list.
fn written_bytes(call: Call, sheet: &[u8], start: &[u8]) -> usize {
    match call {
        Call::Limits => LIMIT_BYTES * tones_of(sheet) as usize,
        Call::Budgets => TOTALS_BYTES * (start.len() / BUDGET_BYTES),
        _ => TONE_BYTES * tones_of(sheet) as usize,
    }
}

// Prints what a call answers and writes that is not refused.
fn print_written(call: Call, t: Answer, written: &[u8]) {
    match call {
        Call::Limits => print_limits(written),
        Call::Budgets => print_budgets(written),
        Call::Most | Call::Target(_) => {
            print_pair(b"loaded ", t.bits as u64, t.power);
            print(b"\n");
            print_table(written);
        }
        Call::Refit | Call::Step => {
            print_pair(b"refitted ", t.bits as u64, t.power);
            print_third(t.third, written);
        }
        Call::Guarded => {
            print_pair(b"guarded ", t.bits as u64, t.power);
            print_third(t.third, written);
        }
    }
}

// The third answer, after the other two, and the table.
fn print_third(third: u32, written: &[u8]) {
    print(b" ");
    print_number(third as u64);
    print(b"\n");
    print_table(written);
}

// The word for what set a limit, after a colon.
fn print_set_by(by: SetBy) {
    match by {
        SetBy::Silent => print(b":silent"),
        SetBy::Cap => print(b":cap"),
        SetBy::Mask => print(b":mask"),
    }
}

// Prints limits, 2 bytes a tone, as limit:what set it with a blank before each.
fn print_limits(limits: &[u8]) {
    print(b"limits");
    for limit in limits.chunks_exact(LIMIT_BYTES) {
        print(b" ");
        print_number(limit[0] as u64);
        print_set_by(limits::set_by(limit[1]));
    }
    print(b"\n");
}

// Prints totals, 12 bytes a budget, as bits:power with a blank before each.
fn print_budgets(totals: &[u8]) {
    print(b"budgets");
    for entry in totals.chunks_exact(TOTALS_BYTES) {
        print(b" ");
        print_number(bigendian::number_at(entry, 0, 4));
        print(b":");
        print_number(bigendian::number_at(entry, 4, 8));
    }
    print(b"\n");
}

// The tones of a table, 9 bytes each, as bits:power with a blank before.
fn print_tones(table: &[u8]) {
    for entry in table.chunks_exact(TONE_BYTES) {
        print(b" ");
        print_number(entry[0] as u64);
        print(b":");
        print_number(bigendian::number_at(entry, 1, 8));
    }
}

// The sum of the bytes, each times its place counted from the end, where 1 stands; modulo 2^64.
fn sum(bytes: &[u8]) -> u64 {
    let mut of_bytes: u64 = 0;
    let mut sum: u64 = 0;
    for byte in bytes {
        of_bytes = of_bytes.wrapping_add(*byte as u64);
        sum = sum.wrapping_add(of_bytes);
    }
    sum
}

// Prints a table: each tone's bits and power, or for more than 32 tones a sum over its bytes.
fn print_table(table: &[u8]) {
    print(b"table");
    if table.len() <= PRINTED_BYTES {
        print_tones(table);
    } else {
        print_pair(b" length and sum ", table.len() as u64, sum(table));
    }
    print(b"\n");
}

// Makes a call again, into a buffer that is just long enough. The whole buffers are compared: past
// the table both are as they were filled.
fn show_exact(call: Call, sheet: &[u8], start: &[u8], table: [u8; ROOM], t: Answer, bytes: usize) {
    let mut again = filled();
    let room = within(bytes, &again);
    let equal = match made(call, sheet, start, &mut again[..room]) {
        Ok(u) => t == u,
        Err(_) => false,
    };
    if equal && same(&table, &again) {
        print(b"exact same\n");
    } else {
        print(b"exact differs\n");
    }
}

// Makes a call with a buffer one byte too short, or none for a sheet that is refused.
fn show_short(call: Call, sheet: &[u8], start: &[u8], bytes: usize) {
    let mut table = filled();
    let room = within(bytes.saturating_sub(1), &table);
    print_outcome(
        b"short ",
        made(call, sheet, start, &mut table[..room]).err(),
    );
    print_touched(&table);
}

// Prints what a call answers: the totals and the table, or what else it writes, or the refusal; then what it
// does with just enough room, and with too little.
pub(crate) fn show(call: Call, sheet: &[u8], start: &[u8]) {
    let bytes = written_bytes(call, sheet, start);
    let mut table = filled();
    match made(call, sheet, start, &mut table) {
        Ok(t) => {
            let n = within(bytes, &table);
            print_written(call, t, &table[..n]);
            show_exact(call, sheet, start, table, t, bytes);
        }
        Err(why) => {
            print_outcome(b"refused ", Some(why));
            print_touched(&table);
        }
    }
    show_short(call, sheet, start, bytes);
}
