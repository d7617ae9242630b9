// The rank of a step in the order of all steps: its size × the base of a rank, and the tone's number. So steps are ordered 'by size, then
// by lower tone number', and one comparison tells which of two comes first. Document 01, 'Cost, power and limit of a tone'.
#![tactic(auto)]

ghost use Rattle.std.specs.Prelude.{◌≡◌, suc, ◌*◌, ◌^◌, ◌≤◌, ◌<◌, length, set};
ghost use Rattle.sizes.specs.Sizes.{most_tones};
ghost use Rattle.line.specs.Arrays.{ArraysInRange, Under, StepsRise, step_size};
ghost use Rattle.ranks.specs.Ranks.{free_rank, held_rank, NoneFrom, Ranked};

use line::Steps;
use sizes::TONES;

// The base of a rank, above the number of every tone: the most tones.
pub const RANK_BASE: u64 = TONES as u64;

// The ranks that are kept of each tone: of its earliest free step, and of its latest held one, counted down from the largest number. The
// largest number stands for none. Not an Option: so a rank is one number, and `search` compares eight of them a turn.
#[derive(Drop)]
pub struct Ranks {
    pub free: [u64; TONES],
    pub held: [u64; TONES],
}

// The size of the step at a number of bits: the power of one bit more, less the power.
fn step_size(steps: Steps, bits: u8) -> u64
    requires steps_rise { StepsRise steps.cost steps.doublings steps.rest }
    requires cost_bound { steps.cost < 2 ^ 24 }
    requires bits_bound { steps.doublings * suc bits ≤ 15 }
    requires bits_small { bits < 255 }
    ensures { result ≡ step_size steps.cost steps.doublings steps.rest bits }
{
    steps.power(bits + 1) - steps.power(bits)
}

// The rank of a tone's earliest free step; the largest number where none is free.
fn free_rank(tone: usize, steps: Steps, bits: u8) -> u64
    requires tone_lt_most_tones { tone < most_tones }
    requires cost_bound { steps.cost < 2 ^ 24 }
    requires limit_bound { steps.doublings * steps.limit.bits ≤ 15 }
    requires steps_rise { 0 < steps.limit.bits → StepsRise steps.cost steps.doublings steps.rest }
    ensures { result ≡ free_rank tone steps bits }
{
    if bits < steps.limit.bits {
        return step_size(steps, bits) * RANK_BASE + tone as u64;
    }
    u64::MAX
}

// The rank of a tone's latest held step, counted down from the largest number, which stands for none.
fn held_rank(tone: usize, steps: Steps, bits: u8) -> u64
    requires tone_lt_most_tones { tone < most_tones }
    requires cost_bound { steps.cost < 2 ^ 24 }
    requires bits_bound { steps.doublings * bits ≤ 15 }
    requires steps_rise { 0 < bits → StepsRise steps.cost steps.doublings steps.rest }
    ensures { result ≡ held_rank tone steps bits }
{
    if 0 < bits {
        return u64::MAX - (step_size(steps, bits - 1) * RANK_BASE + tone as u64);
    }
    u64::MAX
}

impl Ranks {
    // Stores the ranks of a tone's earliest free and latest held step at a number of bits. The lengths are promised too: a caller's proof
    // has no other way to know how long a lent array is.
    pub fn put(&mut self, tone: usize, steps: Steps, bits: u8)
        requires tone_lt_most_tones { tone < most_tones }
        requires cost_bound { steps.cost < 2 ^ 24 }
        requires limit_bound { steps.doublings * steps.limit.bits ≤ 15 }
        requires steps_rise { 0 < steps.limit.bits → StepsRise steps.cost steps.doublings steps.rest }
        requires bits_le_limit { bits ≤ steps.limit.bits }
        ensures free { self.new.free ≡ set self.old.free tone (free_rank tone steps bits) }
        ensures held { self.new.held ≡ set self.old.held tone (held_rank tone steps bits) }
        ensures lengths { (length self.old.free ≡ most_tones) × (length self.old.held ≡ most_tones) }
    {
        self.free[tone] = free_rank(tone, steps, bits);
        self.held[tone] = held_rank(tone, steps, bits);
    }

    // The ranks of every tone of a table, where none are kept yet.
    pub fn fill(&mut self, tones: &[Steps], bits: &[u8; TONES])
        requires arrays_in_range { ArraysInRange (length tones.now) tones.now }
        requires under { Under (length tones.now) tones.now bits.now }
        requires free_past { NoneFrom (length tones.now) self.old.free }
        requires held_past { NoneFrom (length tones.now) self.old.held }
        ensures { Ranked (length tones.now) tones.now bits.now self.new.free self.new.held }
    {
        for (tone, steps) in tones.iter().enumerate() {
            self.put(tone, *steps, bits[tone]);
        }
    }
}
