// The command at a place of a line sheet: document 01, 'The line sheet' and 'Why a sheet is turned down', and document 02, W1, W5, W6, W8 and
// W9.
#![tactic(auto)]

ghost use Rattle.std.specs.Prelude.{◌≡◌, ◌+◌, ◌≤◌, length};
ghost use Rattle.sizes.specs.Sizes.{longest_sheet};
ghost use Rattle.gaps.specs.Gap.{parts};
ghost use Rattle.line.specs.Line.{EntryInRange};
ghost use Rattle.places.specs.Places.{entry_noted};
ghost use Rattle.rows.specs.Rows.{Known, row_at, whole_row, with_code};
ghost use Rattle.rows.specs.Codes.{known_noted, ToneCode, RestCode, HighCode, row_of, command_bytes};
ghost use Rattle.command.specs.Format.{is_row, today, command_at};

use places::Noted;
use refusals::Refusal;
use rows::{Command, Decoded, Header};
use sizes::SHEET_BYTES;

// Whether a command byte is allowed after so many of the first three commands.
fn is_allowed(stage: u8, code: u8) -> bool
    ensures { result ≡ is_row (with_code (today.rows stage) code) }
{
    match stage {
        0 => code == 1,
        1 => code == 2 || code == 8,
        2 => code == 3,
        _ => matches!(code, 4..=7 | 9..=12 | 20..=21 | 25..=28),
    }
}

// What a command does that addresses no tone, all of whose bytes are there.
fn line_operands(s: &[u8], at: usize, code: u8, header: Header) -> Result<Command, Refusal>
    requires no_tone { ToneCode code → ⊥ }
    requires no_rest { RestCode code → ⊥ }
    requires no_high { HighCode code → ⊥ }
    requires code_in_bounds { at + command_bytes code ≤ length s.now }
    requires s_len_bound { length s.now ≤ longest_sheet }
    ensures { (known : Known) → result ≡ row_at header known s.now at (row_of code) }
{
    match code {
        1..=3 => rows::header_command(s, at, code, header),
        6 => rows::silence_command(s, at, header),
        8 => rows::tenths_command(s, at, header),
        _ => Ok(Command::End),
    }
}

// What a command does, all of whose bytes are there.
fn operands(s: &[u8], at: usize, code: u8, header: Header, noted: Noted) -> Result<Command, Refusal>
    requires code_in_bounds { at + command_bytes code ≤ length s.now }
    requires s_len_bound { length s.now ≤ longest_sheet }
    requires entry_in_range { EntryInRange (parts header.gap) (entry_noted s.now noted) }
    ensures { result ≡ row_at header (known_noted s.now noted) s.now at (row_of code) }
{
    match addresses::short_of(code) {
        4 | 5 | 9 | 10 => tonerows::tone_command(s, at, code, header, noted),
        11 => addedrows::rest_command(s, at, code, header, noted),
        12 => addedrows::high_command(s, at, code, header, noted),
        _ => line_operands(s, at, code, header),
    }
}

// What the command of a byte does, or why it is refused, and the place after it: 2 where its bytes are not all there, and then its operands
// from left to right.
fn row_at(s: &[u8], at: usize, code: u8, header: Header, noted: Noted) -> Decoded
    requires at_in_bounds { at ≤ length s.now }
    requires s_len_bound { length s.now ≤ longest_sheet }
    requires entry_in_range { EntryInRange (parts header.gap) (entry_noted s.now noted) }
    ensures { result ≡ whole_row header (known_noted s.now noted) s.now at (row_of code) }
{
    let bytes = rows::bytes_of(code);
    if s.len() - at < bytes {
        return Decoded {
            command: Err(Refusal::SheetEnds(s.len() as u16)),
            next: at,
        };
    }
    Decoded {
        command: operands(s, at, code, header, noted),
        next: at + bytes,
    }
}

// The command at a place, and the place after it, with the header so far and what is noted of the tone that the command addresses. What was
// accepted of that tone is in range, since a rest is judged by it.
pub fn decode(s: &[u8], at: usize, stage: u8, header: Header, noted: Noted) -> Decoded
    requires { EntryInRange (parts header.gap) (entry_noted s.now noted) }
    ensures { result ≡ command_at today header (known_noted s.now noted) s.now at stage }
{
    if SHEET_BYTES < s.len() {
        return Decoded {
            command: Err(Refusal::SheetTooLong),
            next: at,
        };
    }
    if s.len() <= at {
        return Decoded {
            command: Err(Refusal::SheetEnds(s.len() as u16)),
            next: at,
        };
    }
    let code = s[at];
    if !is_allowed(stage, code) {
        return Decoded {
            command: Err(Refusal::CommandNotAllowed(at as u16)),
            next: at,
        };
    }
    row_at(s, at, code, header, noted)
}
