// The commands that add to a described tone, all of whose bytes are there: its rest and its high noise. Document 02, W6, W8 and W9.
#![tactic(auto)]

ghost use Rattle.std.specs.Prelude.{◌≡◌, ℕ, ◌+◌, ◌≤◌, ◌<◌, length};
ghost use Rattle.sizes.specs.Sizes.{longest_sheet};
ghost use Rattle.bigendian.specs.Number.{number};
ghost use Rattle.gaps.specs.Gap.{parts};
ghost use Rattle.line.specs.Tone.{InRange};
ghost use Rattle.addresses.specs.Addresses.{number_width};
ghost use Rattle.places.specs.Places.{tone_at};
ghost use Rattle.rows.specs.Rows.{width, row_at};
ghost use Rattle.rows.specs.Codes.{known_at, rest_row, high_row};
ghost use Rattle.addedrows.specs.Adding.{takes_at, adding_to};

use places::Noted;
use refusals::Refusal;
use rows::{Command, Header};

// The number of the tone that a command adds to, or refusals 5 and 14. `own` is where the tone's own command stands, and `had` where it has
// had such a command already, or 0.
fn judge_tone(s: &[u8], at: usize, code: u8, size: u16, own: u16, had: u16) -> Result<u16, Refusal>
    requires code_in_bounds { at + 1 + number_width code ≤ length s.now }
    requires s_len_bound { length s.now ≤ longest_sheet }
    ensures { result ≡ adding_to size (number s.now (at + 1) (number_width code)) (at + 1) (takes_at own had) }
{
    let tone = addresses::tone_number(s, at, code);
    if size <= tone {
        return Err(Refusal::ToneBeyondLine((at + 1) as u16));
    }
    if own < 1 || 0 < had {
        return Err(Refusal::ToneCannotTake((at + 1) as u16));
    }
    Ok(tone)
}

// The command of a byte that gives a rest, short or a twin, where that is what is noted of its tone.
pub fn rest_command(
    s: &[u8],
    at: usize,
    code: u8,
    header: Header,
    noted: Noted,
) -> Result<Command, Refusal>
    requires code_in_bounds { at + 1 + width (rest_row code).operands ≤ length s.now }
    requires s_len_bound { length s.now ≤ longest_sheet }
    requires in_range { 0 < noted.own → InRange (parts header.gap) (tone_at s.now noted.own) }
    ensures { (widened : ℕ) → result ≡ row_at header (known_at s.now noted.own noted.rest widened) s.now at (rest_row code) }
{
    let tone = judge_tone(s, at, code, header.size, noted.own, noted.rest)?;
    let carried = at + 1 + addresses::number_width(code);
    let rest = bigendian::number_at(s, carried, 4) as u32;
    if !places::takes_rest(s, gaps::parts(header.gap), noted.own, rest) {
        return Err(Refusal::RestOutOfRange(carried as u16));
    }
    Ok(Command::Rest(tone))
}

// The command of a byte that gives a high noise, short or a twin, where that is what is noted of its tone.
pub fn high_command(
    s: &[u8],
    at: usize,
    code: u8,
    header: Header,
    noted: Noted,
) -> Result<Command, Refusal>
    requires code_in_bounds { at + 1 + width (high_row code).operands ≤ length s.now }
    requires s_len_bound { length s.now ≤ longest_sheet }
    ensures { (rested : ℕ) → result ≡ row_at header (known_at s.now noted.own rested noted.high) s.now at (high_row code) }
{
    let tone = judge_tone(s, at, code, header.size, noted.own, noted.high)?;
    if !noises::has_noise(s, noted.own) {
        return Err(rows::out_of_range(at + 1));
    }
    let carried = at + 1 + addresses::number_width(code);
    let high = bigendian::number_at(s, carried, 2) as u16;
    if high < noises::noise_at(s, noted.own) {
        return Err(rows::out_of_range(carried));
    }
    Ok(Command::High(tone))
}
