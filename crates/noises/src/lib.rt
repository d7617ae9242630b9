// The noises of a tone in a sheet, and a tone with another noise: document 02, W9.
#![tactic(auto)]

ghost use Rattle.std.specs.Prelude.{◌≡◌};
ghost use Rattle.line.specs.Tone.{noise_of, has_noise};
ghost use Rattle.places.specs.Places.{tone_at, high_at};
ghost use Rattle.noises.specs.Noises.{numbers_with, with_noise};

use line::{Kind, Numbers, Tone};

// Whether the tone whose command stands at a place has its noise as a whole number: it came by 04, 05 or a twin of theirs.
pub fn has_noise(s: &[u8], place: u16) -> bool
    ensures { result ≡ has_noise (tone_at s.now place).kind }
{
    let short = addresses::short_of(addresses::byte_at(s, place as usize));
    short != 9 && short != 10
}

// The noise of the tone whose command stands at a place, or 0 where it has none as a whole number. Not an Option: the definition has 0 for it,
// and a high noise is compared with one number.
pub fn noise_at(s: &[u8], place: u16) -> u16
    ensures { result ≡ noise_of (tone_at s.now place).kind }
{
    if !has_noise(s, place) {
        return 0;
    }
    let carried = addresses::carried_at(s, place) as usize;
    bigendian::number_at(s, carried, 2) as u16
}

// The high noise whose command stands at a place.
pub fn high_at(s: &[u8], place: u16) -> u16
    ensures { result ≡ high_at s.now place }
{
    let carried = addresses::carried_at(s, place) as usize;
    bigendian::number_at(s, carried, 2) as u16
}

// Whole numbers with another noise.
fn numbers_with(noise: u16, n: Numbers) -> Numbers
    ensures { result ≡ numbers_with noise n }
{
    Numbers { noise, ..n }
}

// A tone with another noise. One with a reading stays as it is.
pub fn with_noise(noise: u16, tone: Tone) -> Tone
    ensures { result ≡ with_noise noise tone }
{
    let kind = match tone.kind {
        Kind::Pair(n) => Kind::Pair(numbers_with(noise, n)),
        Kind::Single(n) => Kind::Single(numbers_with(noise, n)),
        Kind::Read(n) => Kind::Read(n),
    };
    Tone { kind }
}
