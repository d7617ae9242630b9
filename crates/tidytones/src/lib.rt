// The described tones of the tidy form, written into a lent buffer. Document 01, 'The line sheet', and document 02, W5, W6, W8 and W9.
#![tactic(auto)]

ghost use Rattle.std.specs.Prelude.{◌≡◌, ℕ, ◌+◌, ◌≤◌, ◌<◌, length, get_or};
ghost use Rattle.std.proofs.lemmas.List.Edits.{sets};
ghost use Rattle.sizes.specs.Sizes.{most_tones};
ghost use Rattle.places.specs.Places.{nowhere};
ghost use Rattle.tidylengths.specs.Copies.{Inside, AllInside, command_copy, tone_copy, entry_copy, copies};

use places::Noted;
use sizes::TONES;

// Copies bytes to a place of the buffer.
fn copy(bytes: &[u8], out: &mut [u8], at: usize)
    requires { at + length bytes.now ≤ length out.old }
    ensures { out.new ≡ sets out.old at bytes.now }
{
    for (i, byte) in bytes.iter().enumerate() {
        out[at + i] = *byte;
    }
}

// The command of a tone that stands at a place of the sheet, with the tone's number as the tidy form has it. Answers the place after it in the
// buffer. It is kept apart, so that a place with no command costs no call.
#[inline(never)]
fn put_command(s: &[u8], tone: u16, place: u16, out: &mut [u8], at: usize) -> usize
    requires place_nonzero { 0 < place }
    requires inside { Inside s.now place }
    requires bytes_in_bounds { at + length (command_copy s.now tone place) ≤ length out.old }
    ensures place { result ≡ at + length (command_copy s.now tone place) }
    ensures bytes { out.new ≡ sets out.old at (command_copy s.now tone place) }
{
    let from = place as usize;
    let code = s[from];
    let number = addresses::number_width(code);
    let width = tidylengths::tidy_width(tone);
    out[at] = addresses::code_of(width, addresses::short_of(code));
    bigendian::put_number(out, at + 1, width, tone as u64);
    let carried = &s[from + 1 + number..from + rows::bytes_of(code)];
    let carried_at = at + 1 + width;
    copy(carried, out, carried_at);
    carried_at + carried.len()
}

// The command of a tone, if one stands at a place of the sheet. Answers the place after it.
fn put_any(s: &[u8], tone: u16, place: u16, out: &mut [u8], at: usize) -> usize
    requires inside { Inside s.now place }
    requires bytes_in_bounds { at + length (tone_copy s.now tone place) ≤ length out.old }
    ensures place { result ≡ at + length (tone_copy s.now tone place) }
    ensures bytes { out.new ≡ sets out.old at (tone_copy s.now tone place) }
{
    if place < 1 {
        return at;
    }
    put_command(s, tone, place, out, at)
}

// The commands of a tone that the tidy form keeps, its rest's straight after its own and its high noise's last, from a place on. Answers the
// place after them. Most tones of a line with few described ones have none, so that is asked first.
fn put_tone(s: &[u8], tone: u16, noted: Noted, out: &mut [u8], at: usize) -> usize
    requires inside { AllInside s.now noted }
    requires bytes_in_bounds { at + length (entry_copy s.now tone noted.own noted.rest noted.high) ≤ length out.old }
    ensures place { result ≡ at + length (entry_copy s.now tone noted.own noted.rest noted.high) }
    ensures bytes { out.new ≡ sets out.old at (entry_copy s.now tone noted.own noted.rest noted.high) }
{
    if noted.own < 1 && noted.rest < 1 && noted.high < 1 {
        return at;
    }
    let kept = tidylengths::kept(s, noted);
    let own_end = put_any(s, tone, kept.own, out, at);
    let rest_end = put_any(s, tone, kept.rest, out, own_end);
    put_any(s, tone, kept.high, out, rest_end)
}

// The described tones in rising number, each with its rest and its high noise, from a place on. Answers the place after them.
pub fn put_tones(s: &[u8], size: u16, tones: &[Noted; TONES], out: &mut [u8], at: usize) -> usize
    requires size_le_most_tones { size ≤ most_tones }
    requires inside { (i : ℕ) → AllInside s.now (get_or tones.now i nowhere) }
    requires bytes_in_bounds { at + length (copies size s.now tones.now) ≤ length out.old }
    ensures place { result ≡ at + length (copies size s.now tones.now) }
    ensures bytes { out.new ≡ sets out.old at (copies size s.now tones.now) }
{
    let mut place = at;
    for tone in 0..size {
        place = put_tone(s, tone, tones[tone as usize], out, place);
    }
    place
}
