// One tone of a line: document 01, 'Cost, power and limit of a tone'; document 02, W3 to W6.
#![tactic(auto)]

ghost use Rattle.std.specs.Prelude.{◌≡◌, ◌*◌, ◌^◌, ◌≤◌, ◌<◌};
ghost use Rattle.readings.specs.Reading.{Usable, granted_cost};
ghost use Rattle.line.specs.Line.{steps_of};
ghost use Rattle.line.specs.Arrays.{power_of, power_in};
ghost use Rattle.line.specs.Tone.{most_cap, bounds_of, doublings, NumbersInRange, BoundsInRange, InRange, Cost, whole_cost, cost, is_below, limit_of};
ghost use Rattle.line.specs.Tries.{tries};

use gaps::GAP_UNIT;
use readings::Reading;
use sizes::{PAIR_CAP, SINGLE_CAP};

// What a tone with whole numbers carries, of either kind: noise, gain, cap and mask.
#[derive(Clone, Copy)]
pub struct Numbers {
    pub noise: u16,
    pub gain: u16,
    pub cap: u8,
    pub mask: u64,
}

// What a tone carries whose noise and gain came from the line analyser: the reading, cap and mask.
#[derive(Clone, Copy)]
pub struct ReadNumbers {
    pub reading: Reading,
    pub cap: u8,
    pub mask: u64,
}

// A pair tone is two-dimensional, a single tone one-dimensional. A tone with a reading is a pair tone from its cost on.
#[derive(Clone, Copy)]
pub enum Kind {
    Pair(Numbers),
    Single(Numbers),
    Read(ReadNumbers),
}

#[derive(Clone, Copy)]
pub struct Tone {
    pub kind: Kind,
}

// What bounds the bits of a tone, whichever its kind.
#[derive(Clone, Copy)]
struct Bounds {
    cap: u8,
    mask: u64,
}

// What set a tone's limit, each with its number in the bytes that a call writes. A tone that is not described, or is silenced, is silent.
#[derive(Clone, Copy)]
pub enum SetBy {
    Silent = 0,
    Cap = 1,
    Mask = 2,
}

// A tone's limit comes with what set it.
#[derive(Clone, Copy)]
pub struct Limit {
    pub bits: u8,
    pub by: SetBy,
}

// What the search for a limit answers: the limit, and how many powers it tried.
#[derive(Clone, Copy)]
struct Tried {
    limit: Limit,
    tries: u8,
}

// What is found of a tone, whichever its kind: its limit, and for the runs its powers. The power of b bits is the cost, doubled
// `doublings` × b times, less the cost; the power of no bits is the rest.
#[derive(Clone, Copy)]
pub struct Steps {
    pub cost: u32,
    pub rest: u32,
    pub limit: Limit,
    pub doublings: u8,
}

impl Steps {
    // The steps of a tone that takes no bits and sends nothing.
    pub const NONE: Steps = Steps {
        limit: Limit {
            bits: 0,
            by: SetBy::Silent,
        },
        cost: 0,
        doublings: 0,
        rest: 0,
    };

    // The power of a number of bits, of none the rest.
    pub fn power(self, bits: u8) -> u64
        requires cost_bound { self.cost < 2 ^ 24 }
        requires bits_bound { self.doublings * bits ≤ 15 }
        ensures { result ≡ power_in self.cost self.doublings self.rest bits }
    {
        if bits < 1 {
            return self.rest as u64;
        }
        power_of(self.cost, self.doublings, bits)
    }
}

// The largest cap of a tone of either kind.
pub fn most_cap(is_single: bool) -> u8
    ensures { result ≡ most_cap is_single }
{
    if is_single { SINGLE_CAP } else { PAIR_CAP }
}

// The cap and the mask of a tone, whichever its kind.
fn bounds_of(tone: Tone) -> Bounds
    ensures { result ≡ bounds_of tone }
{
    match tone.kind {
        Kind::Pair(n) => Bounds {
            cap: n.cap,
            mask: n.mask,
        },
        Kind::Single(n) => Bounds {
            cap: n.cap,
            mask: n.mask,
        },
        Kind::Read(n) => Bounds {
            cap: n.cap,
            mask: n.mask,
        },
    }
}

// How much one bit more multiplies a step by, as a power of 2: a pair tone's steps double, a single tone's go up fourfold.
fn doublings(tone: Tone) -> u8
    ensures { result ≡ doublings tone }
{
    match tone.kind {
        Kind::Pair(_) => 1,
        Kind::Single(_) => 2,
        Kind::Read(_) => 1,
    }
}

// The cost of whole numbers at a gap in parts of 256: the noise over the gain, with the gap, rounded up.
fn whole_cost(gap: u16, n: Numbers) -> u32
    requires { NumbersInRange n }
    ensures { result ≡ whole_cost gap n }
{
    let top = gap as u64 * n.noise as u64;
    let bottom = GAP_UNIT * n.gain as u64;
    ((top + (bottom - 1)) / bottom) as u32
}

// The cost of a tone at a gap in parts of 256.
fn cost(gap: u16, tone: Tone) -> u32
    requires { InRange gap tone }
    ensures meaning { result ≡ cost gap tone }
    ensures range { Cost result }
{
    match tone.kind {
        Kind::Pair(n) => whole_cost(gap, n),
        Kind::Single(n) => whole_cost(gap, n),
        Kind::Read(n) => readings::cost_of(gap, n.reading),
    }
}

// The power of a number of bits, of one and more: the cost, doubled `doublings` × bits times, less the cost.
fn power_of(cost: u32, doublings: u8, bits: u8) -> u64
    requires cost_bound { cost < 2 ^ 24 }
    requires bits_bound { doublings * bits ≤ 15 }
    ensures { result ≡ power_of cost doublings bits }
{
    let cost = cost as u64;
    (cost << (doublings as u32 * bits as u32)) - cost
}

// The limit of a tone, by trying the powers of 1 bit, 2 bits and so on until the cap or the mask stops it: that one set it. Each power
// comes from the one before it: shifted, and the power of 1 bit added.
fn limit_of(tone: Tone, cost: u32) -> Tried
    requires { Cost cost × BoundsInRange tone }
    ensures limit { result.limit ≡ limit_of tone cost }
    ensures tries { result.tries ≡ tries tone cost }
{
    let bounds = bounds_of(tone);
    let cap = bounds.cap;
    let shift = doublings(tone);
    let first = power_of(cost, shift, 1);
    let mut tries: u8 = 0;
    let mut power: u64 = 0;
    for bits in 0..cap {
        power = (power << shift as u32) + first;
        tries += 1;
        if bounds.mask < power {
            return Tried {
                limit: Limit {
                    bits,
                    by: SetBy::Mask,
                },
                tries,
            };
        }
    }
    Tried {
        limit: Limit {
            bits: cap,
            by: SetBy::Cap,
        },
        tries,
    }
}

// Whether a tone with whole numbers takes a rest: one below its cost and within its mask. The cost is not worked out: a whole number is below
// a fraction rounded up where it is below the fraction.
pub fn numbers_take(gap: u16, n: Numbers, rest: u32) -> bool
    requires { NumbersInRange n }
    ensures { result ≡ is_below (whole_cost gap n) n.mask rest }
{
    let top = gap as u64 * n.noise as u64;
    let bottom = GAP_UNIT * n.gain as u64;
    rest as u64 * bottom < top && rest as u64 <= n.mask
}

// Whether a tone with a reading and a mask takes a rest.
pub fn reading_takes(gap: u16, reading: Reading, mask: u64, rest: u32) -> bool
    requires { Usable reading }
    ensures { result ≡ is_below (granted_cost gap reading) mask rest }
{
    rest < readings::cost_of(gap, reading) && rest as u64 <= mask
}

// What is found of a tone with a rest that is described and not silenced.
pub fn steps_of(gap: u16, tone: Tone, rest: u32) -> Steps
    requires { InRange gap tone }
    ensures { result ≡ steps_of gap tone rest }
{
    let w = cost(gap, tone);
    Steps {
        limit: limit_of(tone, w).limit,
        cost: w,
        doublings: doublings(tone),
        rest,
    }
}
