// What the rests of a line add up to, by the places of their commands in the sheet: document 02, W6.
#![tactic(auto)]

ghost use Rattle.std.specs.Prelude.{◌≡◌, ◌≤◌, ◌<◌};
ghost use Rattle.sizes.specs.Sizes.{most_tones};
ghost use Rattle.rests.specs.Rests.{sent_at, rests_sent};

use places::Noted;
use sizes::{TONES, WORDS};

// The rest that a tone sends: the one whose command stands at a place, or 0 where none does or the tone is silenced. Not an Option: it is
// added up.
fn sent_rest(s: &[u8], place: u16, maps: &[u32; WORDS], tone: u16) -> u32
    requires { tone < most_tones }
    ensures { result ≡ sent_at s.now place maps.now tone }
{
    if place < 1 {
        return 0;
    }
    if silence::is_silenced(maps, tone) {
        return 0;
    }
    places::rest_at(s, place)
}

// What the rests of so many tones add up to. Most tones have none, and are passed over by their place alone.
pub fn rest_total(s: &[u8], size: u16, noted: &[Noted; TONES], maps: &[u32; WORDS]) -> u64
    requires { size ≤ most_tones }
    ensures { result ≡ rests_sent s.now noted.now maps.now size }
{
    let mut total: u64 = 0;
    for tone in 0..size {
        total += sent_rest(s, noted[tone as usize].rest, maps, tone) as u64;
    }
    total
}
