// The commands of a line sheet, one row for each, and the code that judges their operands: document 01, 'The line sheet' and 'Why a sheet is
// turned down', and document 02, W1, W5, W6, W8 and W9.
#![tactic(auto)]

ghost use Rattle.std.specs.Prelude.{◌≡◌, ◌+◌, ◌≤◌, length};
ghost use Rattle.sizes.specs.Sizes.{longest_sheet, tenths_command, levels_command, silence_command};
ghost use Rattle.refusals.specs.declared.Refusal.TheVariants.{OperandOutOfRange};
ghost use Rattle.rows.specs.Rows.{Known, tenths, row_at};
ghost use Rattle.rows.specs.Codes.{row_of, command_bytes, silence_row};

use gaps::{GAP_UNIT, Gap, MOST_TENTHS};
use refusals::Refusal;
use sizes::{
    BUDGET_COMMAND, END_COMMAND, GAP_COMMAND, HIGH_COMMAND, LEVELS_COMMAND, MOST_POWER,
    RATIO_COMMAND, REST_COMMAND, SILENCE_COMMAND, SIZE_COMMAND, TENTHS_COMMAND, TONE_COMMAND,
    TONES, WORDS,
};

// What the first three commands give: N, the gap and the budget; 0 for what is not given yet. No Options: a command that goes by a part may
// stand only after that is given.
#[derive(Clone, Copy)]
pub struct Header {
    pub size: u16,
    pub gap: Gap,
    pub budget: u64,
}

// What a command does: it ends the sheet, makes a new header, describes a tone, gives one its rest or its high noise, or silences the
// tones of a map. A later command has one of these effects too.
#[derive(Clone, Copy)]
pub enum Command {
    End,
    Head(Header),
    Describe(u16),
    Rest(u16),
    High(u16),
    Silence(u8, u32),
}

// A command or why it is refused, and the place after it.
#[derive(Clone, Copy)]
pub struct Decoded {
    pub command: Result<Command, Refusal>,
    pub next: usize,
}

// Refusal 4, at the place of an operand.
pub fn out_of_range(place: usize) -> Refusal
    requires { place ≤ longest_sheet }
    ensures { result ≡ OperandOutOfRange place }
{
    Refusal::OperandOutOfRange(place as u16)
}

// One of the first three commands, all of whose bytes are there.
pub fn header_command(s: &[u8], at: usize, code: u8, header: Header) -> Result<Command, Refusal>
    requires le_code { 1 ≤ code }
    requires code_bound { code ≤ 3 }
    requires code_in_bounds { at + command_bytes code ≤ length s.now }
    requires s_len_bound { length s.now ≤ longest_sheet }
    ensures { (known : Known) → result ≡ row_at header known s.now at (row_of code) }
{
    if code == 3 {
        let budget = bigendian::number_at(s, at + 1, 8);
        if MOST_POWER < budget {
            return Err(out_of_range(at + 1));
        }
        return Ok(Command::Head(Header { budget, ..header }));
    }
    let n = bigendian::number_at(s, at + 1, 2);
    if code == 2 {
        if n < GAP_UNIT {
            return Err(out_of_range(at + 1));
        }
        return Ok(Command::Head(Header {
            gap: Gap::Parts(n as u16),
            ..header
        }));
    }
    if n < 1 || (TONES as u64) < n {
        return Err(out_of_range(at + 1));
    }
    Ok(Command::Head(Header {
        size: n as u16,
        ..header
    }))
}

// The gap in tenths of a decibel, both of whose bytes are there.
pub fn tenths_command(s: &[u8], at: usize, header: Header) -> Result<Command, Refusal>
    requires tenths_command_in_bounds { at + tenths_command ≤ length s.now }
    requires s_len_bound { length s.now ≤ longest_sheet }
    ensures { (known : Known) → result ≡ row_at header known s.now at tenths }
{
    let place = at + 1;
    let tenths = s[place];
    if MOST_TENTHS < tenths {
        return Err(out_of_range(place));
    }
    Ok(Command::Head(Header {
        gap: Gap::Tenths(tenths),
        ..header
    }))
}

// The silence command, all of whose bytes are there.
pub fn silence_command(s: &[u8], at: usize, header: Header) -> Result<Command, Refusal>
    requires silence_command_in_bounds { at + silence_command ≤ length s.now }
    requires s_len_bound { length s.now ≤ longest_sheet }
    ensures { (known : Known) → result ≡ row_at header known s.now at silence_row }
{
    let word = s[at + 1];
    if WORDS <= word as usize {
        return Err(out_of_range(at + 1));
    }
    let map = bigendian::number_at(s, at + 2, 4) as u32;
    if silence::names_beyond(header.size, word, map) {
        return Err(Refusal::ToneBeyondLine((at + 2) as u16));
    }
    Ok(Command::Silence(word, map))
}

// How many bytes the command of a byte has in all: a twin one more than its short command, and a byte of no command as many as the end. None
// has more than the twin of 09.
pub fn bytes_of(code: u8) -> usize
    ensures { (result ≡ command_bytes code) × (result ≤ levels_command + 1) }
{
    match code {
        1 => SIZE_COMMAND,
        2 => GAP_COMMAND,
        3 => BUDGET_COMMAND,
        4 => TONE_COMMAND,
        5 => TONE_COMMAND,
        6 => SILENCE_COMMAND,
        8 => TENTHS_COMMAND,
        9 => LEVELS_COMMAND,
        10 => RATIO_COMMAND,
        11 => REST_COMMAND,
        12 => HIGH_COMMAND,
        20 => TONE_COMMAND + 1,
        21 => TONE_COMMAND + 1,
        25 => LEVELS_COMMAND + 1,
        26 => RATIO_COMMAND + 1,
        27 => REST_COMMAND + 1,
        28 => HIGH_COMMAND + 1,
        _ => END_COMMAND,
    }
}
