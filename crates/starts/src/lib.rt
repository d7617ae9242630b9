// Where the runs start: the table of no bits, or a starting table. Document 01, 'The loading runs' and refusal 10.
#![tactic(auto)]

ghost use Rattle.std.specs.Prelude.{◌≡◌, ◌≤◌, length};
ghost use Rattle.sizes.specs.Sizes.{most_tones};
ghost use Rattle.steps.specs.Tones.{Tones};
ghost use Rattle.line.specs.Arrays.{RestsInRange, PowersInRange};
ghost use Rattle.starts.specs.Starts.{first_above, SameLimits, none_running, CopiedFrom, StartsAtNone, StartsAt};

use line::Steps;
use running::{Running, Totals};
use sizes::TONES;

// The first tone of a starting table with more bits than its limit, if any.
pub fn first_above(start: &[u8], tones: &[Steps]) -> Option<usize>
    requires { length start.now ≤ length tones.now }
    ensures { (T : Tones) → SameLimits T tones.now (length start.now) → result ≡ first_above T start.now (length start.now) }
{
    start
        .iter()
        .zip(tones)
        .position(|(bits, steps)| steps.limit.bits < *bits)
}

// The running table of no bits: its power is what the rests add up to.
pub fn no_bits(tones: &[Steps]) -> Running
    requires count_le_most_tones { length tones.now ≤ most_tones }
    requires rests_in_range { RestsInRange (length tones.now) tones.now }
    ensures value { result ≡ none_running tones.now }
    ensures stands { StartsAtNone (length tones.now) tones.now result }
{
    let mut power: u64 = 0;
    for steps in tones {
        power += steps.rest as u64;
    }
    Running {
        bits: [0; TONES],
        totals: Totals { bits: 0, power },
    }
}

// The running table of a starting table of the tones, with its totals: they are worked out in the pass that copies the bits, in a local value,
// so that the compiler keeps them out of memory.
pub fn from_start(start: &[u8], tones: &[Steps]) -> Running
    requires start_len_bound { length start.now ≤ most_tones }
    requires powers_in_range { PowersInRange (length start.now) tones.now start.now }
    requires tones_enough { length start.now ≤ length tones.now }
    ensures copied { CopiedFrom tones.now start.now result }
    ensures stands { StartsAt tones.now start.now result }
{
    let mut running = Running {
        bits: [0; TONES],
        totals: Totals { bits: 0, power: 0 },
    };
    let mut totals = running.totals;
    for (tone, (bits, steps)) in start.iter().zip(tones).enumerate() {
        running.bits[tone] = *bits;
        totals.power += steps.power(*bits);
        totals.bits += *bits as u32;
    }
    running.totals = totals;
    running
}
