// What stands at a place of a sheet: the tone that a command describes and the rest that it gives, decoded where they are wanted. Document 01,
// 'The line sheet', and document 02, W5, W6 and W8.
#![tactic(auto)]

ghost use Rattle.std.specs.Prelude.{◌≡◌};
ghost use Rattle.line.specs.Tone.{is_rest, InRange};
ghost use Rattle.places.specs.Places.{numbers_at, float_at, both_at, levels_at, ratio_at, tone_at, rest_from};

use line::{Kind, Numbers, ReadNumbers, Tone};
use readings::{Levels, Reading};

// Where the commands of a tone stand in a sheet: its own, its rest's and its high noise's; 0 for none, since no command after the first three
// stands there.
#[derive(Clone, Copy)]
pub struct Noted {
    pub own: u16,
    pub rest: u16,
    pub high: u16,
}

impl Noted {
    pub const NOWHERE: Noted = Noted {
        own: 0,
        rest: 0,
        high: 0,
    };
}

// What a tone's command with whole numbers carries, from a place on. What is not there reads as 0, here and below.
fn numbers_at(s: &[u8], place: u32) -> Numbers
    ensures { result ≡ numbers_at s.now place }
{
    let at = place as usize;
    Numbers {
        noise: bigendian::number_at(s, at, 2) as u16,
        gain: bigendian::number_at(s, at + 2, 2) as u16,
        cap: addresses::byte_at(s, at + 4),
        mask: bigendian::number_at(s, at + 5, 8),
    }
}

// The float at a place. One that is not finite or not above zero reads as 0, which is no usable float: so this is not an Option.
fn float_at(s: &[u8], at: usize) -> f32
    ensures { result ≡ float_at s.now at }
{
    let bits = bigendian::number_at(s, at, 4) as u32;
    readings::float_of(bits)
}

// Noise and gain as floats.
fn both_at(s: &[u8], place: u32) -> Levels
    ensures { result ≡ both_at s.now place }
{
    let at = place as usize;
    Levels {
        noise: float_at(s, at),
        gain: float_at(s, at + 4),
    }
}

// What a tone's command with noise and gain as floats carries.
fn levels_at(s: &[u8], place: u32) -> ReadNumbers
    ensures { result ≡ levels_at s.now place }
{
    let at = place as usize;
    ReadNumbers {
        reading: Reading::Both(both_at(s, place)),
        cap: addresses::byte_at(s, at + 8),
        mask: bigendian::number_at(s, at + 9, 8),
    }
}

// What a tone's command with their ratio as a float carries.
fn ratio_at(s: &[u8], place: u32) -> ReadNumbers
    ensures { result ≡ ratio_at s.now place }
{
    let at = place as usize;
    ReadNumbers {
        reading: Reading::Ratio(float_at(s, at)),
        cap: addresses::byte_at(s, at + 4),
        mask: bigendian::number_at(s, at + 5, 8),
    }
}

// The tone whose command stands at a place.
pub fn tone_at(s: &[u8], place: u16) -> Tone
    ensures { result ≡ tone_at s.now place }
{
    let carried = addresses::carried_at(s, place);
    match addresses::short_of(addresses::byte_at(s, place as usize)) {
        5 => Tone {
            kind: Kind::Single(numbers_at(s, carried)),
        },
        9 => Tone {
            kind: Kind::Read(levels_at(s, carried)),
        },
        10 => Tone {
            kind: Kind::Read(ratio_at(s, carried)),
        },
        _ => Tone {
            kind: Kind::Pair(numbers_at(s, carried)),
        },
    }
}

// The rest whose command stands at a place, or 0 where none does. Not an Option: a tone has 'the rest, 0 where none is given'.
pub fn rest_at(s: &[u8], place: u16) -> u32
    ensures { result ≡ rest_from s.now place }
{
    if place < 1 {
        return 0;
    }
    let carried = addresses::carried_at(s, place) as usize;
    bigendian::number_at(s, carried, 4) as u32
}

// Whether the tone whose command stands at a place takes a rest. It is judged by what its cost goes by and by its mask, and not by `tone_at`:
// so that has one caller, and the compiler keeps a tone out of memory where the runs want it.
pub fn takes_rest(s: &[u8], gap: u16, place: u16, rest: u32) -> bool
    requires { InRange gap (tone_at s.now place) }
    ensures { result ≡ is_rest gap (tone_at s.now place) rest }
{
    let carried = addresses::carried_at(s, place);
    let at = carried as usize;
    match addresses::short_of(addresses::byte_at(s, place as usize)) {
        9 => {
            let mask = bigendian::number_at(s, at + 9, 8);
            line::reading_takes(gap, Reading::Both(both_at(s, carried)), mask, rest)
        }
        10 => {
            let mask = bigendian::number_at(s, at + 5, 8);
            line::reading_takes(gap, Reading::Ratio(float_at(s, at)), mask, rest)
        }
        _ => line::numbers_take(gap, numbers_at(s, carried), rest),
    }
}
