// How many bytes the described tones of the tidy form take, as they are copied from the sheet. Document 01, 'The line sheet', and document
// 02, W5, W6, W8 and W9.
#![tactic(auto)]

ghost use Rattle.std.specs.Prelude.{◌≡◌, ℕ, ◌+◌, ◌*◌, ◌≤◌, length, get_or};
ghost use Rattle.sizes.specs.Sizes.{most_tones, levels_command};
ghost use Rattle.places.specs.Places.{nowhere};
ghost use Rattle.tidyform.specs.Tidy.{tidy_width};
ghost use Rattle.tidylengths.specs.Copies.{Inside, AllInside, kept, tone_copy, entry_copy, copies};

use places::Noted;
use sizes::TONES;

// How many tones a tone number of one byte can name.
const BYTE_TONES: u16 = 256;

// How many bytes the number of a tone has in the tidy form: one where one is enough.
pub fn tidy_width(tone: u16) -> usize
    ensures { (result ≡ tidy_width tone) × (result ≤ 2) }
{
    if tone < BYTE_TONES {
        return 1;
    }
    2
}

// Where the commands of a tone stand that the tidy form keeps: a rest of 0 goes, and so does a high noise that is the tone's own.
#[inline]
pub fn kept(s: &[u8], noted: Noted) -> Noted
    ensures { result ≡ kept s.now noted }
{
    let mut kept = noted;
    if places::rest_at(s, noted.rest) == 0 {
        kept.rest = 0;
    }
    if 0 < noted.high && noises::high_at(s, noted.high) == noises::noise_at(s, noted.own) {
        kept.high = 0;
    }
    kept
}

// How many bytes the command of a tone takes, if one stands at a place of the sheet.
fn command_bytes(s: &[u8], tone: u16, place: u16) -> usize
    requires { Inside s.now place }
    ensures { (result ≡ length (tone_copy s.now tone place)) × (result ≤ levels_command + 2) }
{
    if place < 1 {
        return 0;
    }
    let code = s[place as usize];
    rows::bytes_of(code) - addresses::number_width(code) + tidy_width(tone)
}

// How many bytes the commands of a tone take that the tidy form keeps. Most tones of a line with few described ones have none, so that is asked
// first.
fn tone_bytes(s: &[u8], tone: u16, noted: Noted) -> usize
    requires { AllInside s.now noted }
    ensures { (result ≡ length (entry_copy s.now tone noted.own noted.rest noted.high)) × (result ≤ 3 * (levels_command + 2)) }
{
    if noted.own < 1 && noted.rest < 1 && noted.high < 1 {
        return 0;
    }
    let kept = kept(s, noted);
    command_bytes(s, tone, kept.own)
        + command_bytes(s, tone, kept.rest)
        + command_bytes(s, tone, kept.high)
}

// How many bytes the described tones take, with their rests and their high noises.
pub fn tones_bytes(s: &[u8], size: u16, tones: &[Noted; TONES]) -> usize
    requires size_le_most_tones { size ≤ most_tones }
    requires inside { (i : ℕ) → AllInside s.now (get_or tones.now i nowhere) }
    ensures { (result ≡ length (copies size s.now tones.now)) × (result ≤ 3 * (levels_command + 2) * most_tones) }
{
    let mut bytes: usize = 0;
    for tone in 0..size {
        bytes += tone_bytes(s, tone, tones[tone as usize]);
    }
    bytes
}
