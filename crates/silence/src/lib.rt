// The silence maps of a line: a word for each 32 tones.
#![tactic(auto)]

ghost use Rattle.std.specs.Prelude.{◌≡◌, ◌<◌, eqb};
ghost use Rattle.sizes.specs.Sizes.{most_tones, word_tones};
ghost use Rattle.silence.specs.Map.{bit, silenced, names_beyond, count};

use sizes::{WORD_TONES, WORDS};

// Whether the maps silence a tone.
pub fn is_silenced(maps: &[u32; WORDS], tone: u16) -> bool
    requires { tone < most_tones }
    ensures { result ≡ silenced maps.now tone }
{
    let tone = tone as u32;
    let word = (tone / WORD_TONES) as usize;
    (maps[word] >> (tone % WORD_TONES)) % 2 == 1
}

// Whether the map of a word names a tone that is `size` or more.
pub fn names_beyond(size: u16, word: u8, map: u32) -> bool
    ensures { result ≡ names_beyond size word map }
{
    let first = word as u32 * WORD_TONES;
    let size = size as u32;
    if size <= first {
        return map != 0;
    }
    let inside = size - first;
    if WORD_TONES <= inside {
        return false;
    }
    map >> inside != 0
}

// How many tones a map names: its ones.
fn tones_in(map: u32) -> u32
    ensures { result ≡ count word_tones (λ k. eqb (bit map k) 1) }
{
    map.count_ones()
}

// How many tones the maps silence: the ones of each map.
pub fn silenced_count(maps: &[u32; WORDS]) -> u32
    ensures { result ≡ count most_tones (silenced maps.now) }
{
    let mut n: u32 = 0;
    for map in maps {
        n += tones_in(*map);
    }
    n
}
