// The table that a loading writes: document 01, 'The line sheet'.
#![tactic(auto)]

ghost use Rattle.std.specs.Prelude.{◌∷◌, ◌≡◌, ◌+◌, ◌*◌, ◌≤◌, length};
ghost use Rattle.std.proofs.lemmas.List.Edits.{sets};
ghost use Rattle.sizes.specs.Sizes.{most_tones, bytes_a_tone};
ghost use Rattle.lists.specs.Joined.{joined_below};
ghost use Rattle.bigendian.specs.Number.{bytes};
ghost use Rattle.line.specs.Arrays.{PowersInRange};
ghost use Rattle.tables.specs.Tables.{steps_entry, WritesTable};

use line::Steps;
use sizes::{TONE_BYTES, TONES};

// The 9 bytes of a tone, from a place on.
fn put_tone(out: &mut [u8], at: usize, bits: u8, power: u64)
    requires { at + bytes_a_tone ≤ length out.old }
    ensures { out.new ≡ sets out.old at (bits ∷ bytes 8 power) }
{
    out[at] = bits;
    bigendian::put_number(out, at + 1, 8, power);
}

// The table of the tones with these bits, from the buffer's start on.
pub fn put_table(out: &mut [u8], tones: &[Steps], bits: &[u8; TONES])
    requires count_le_most_tones { length tones.now ≤ most_tones }
    requires powers_in_range { PowersInRange (length tones.now) tones.now bits.now }
    requires count_in_bounds { bytes_a_tone * length tones.now ≤ length out.old }
    ensures bytes { out.new ≡ sets out.old 0 (joined_below (steps_entry tones.now bits.now) (length tones.now)) }
    ensures table { WritesTable (length tones.now) tones.now bits.now out.old out.new }
{
    for (tone, steps) in tones.iter().enumerate() {
        put_tone(out, TONE_BYTES * tone, bits[tone], steps.power(bits[tone]));
    }
}
