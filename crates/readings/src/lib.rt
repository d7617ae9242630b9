// The readings of the line analyser: which floats a sheet may have, the ratio of a reading, and its cost, exactly. Document 02, W5.
#![tactic(auto)]

ghost use Rattle.std.specs.Prelude.{false, ◌≡◌, ◌*◌, ◌^◌, ◌<◌};
ghost use Rattle.std.specs.Float.{binary32};
ghost use Rattle.std.specs.Float.Ieee.{of_bits, to_bits};
ghost use Rattle.std.specs.Float.Ieee.Exact.{HasValue};
ghost use Rattle.fractions.specs.Ceiling.{ceiling};
ghost use Rattle.readings.specs.Reading.{is_usable, float_of, Usable, ratio, is_over, granted_cost, SameOrOver};

use sizes::MOST_COST;

// The bits of the infinity. Those below it are the finite floats that are not below zero, in rising order.
const INFINITY: u32 = 0x7f80_0000;

// How many floats have one exponent.
const FRACTIONS: u32 = 0x80_0000;

// Noise and gain as floats.
#[derive(Clone, Copy)]
pub struct Levels {
    pub noise: f32,
    pub gain: f32,
}

// What the analyser delivers of a tone: noise and gain, or their ratio.
#[derive(Clone, Copy)]
pub enum Reading {
    Both(Levels),
    Ratio(f32),
}

// The exact value of a float that is finite and not below zero: the mantissa × 2^exponent / 2^149.
#[derive(Clone, Copy)]
struct Exact {
    mantissa: u32,
    exponent: u32,
}

// Whether 32 bits are those of a float that is finite and above zero.
pub fn is_usable(bits: u32) -> bool
    ensures { result ≡ is_usable bits }
{
    0 < bits && bits < INFINITY
}

// The float of 32 bits, 0 where it is not finite or not above zero. Not an Option: 0 is no usable float.
pub fn float_of(bits: u32) -> f32
    ensures { result ≡ float_of bits }
{
    if is_usable(bits) {
        return f32::from_bits(bits);
    }
    f32::from_bits(0)
}

// The bits of a reading's ratio; of noise and gain it is their one quotient, rounded once.
fn ratio_bits(reading: Reading) -> u32
    requires { Usable reading }
    ensures { result ≡ to_bits binary32 (ratio reading) }
{
    match reading {
        Reading::Both(levels) => (levels.noise / levels.gain).to_bits(),
        Reading::Ratio(x) => x.to_bits(),
    }
}

// The whole mantissa and exponent of a float's bits. The lowest exponent has no leading digit: its floats are the subnormal ones.
fn exact_of(bits: u32) -> Exact
    requires { bits < 0x7f80_0000 }
    ensures value { HasValue (of_bits binary32 bits) false (result.mantissa * 2 ^ result.exponent) (2 ^ 149) }
    ensures range { (result.mantissa < 2 ^ 24) × (result.exponent < 254) }
{
    let field = bits / FRACTIONS;
    let fraction = bits % FRACTIONS;
    if field == 0 {
        return Exact {
            mantissa: fraction,
            exponent: 0,
        };
    }
    Exact {
        mantissa: FRACTIONS + fraction,
        exponent: field - 1,
    }
}

// The smallest whole number not below product × 2^exponent / 2^157, or one over the largest cost where that is over it. A product of one is
// over it after 24 doublings, and none is above one after 40 halvings: no shift goes further.
fn rounded_up(product: u64, exponent: u32) -> u64
    requires product_bound { product < 2 ^ 40 }
    requires exponent_bound { exponent < 254 }
    ensures { SameOrOver result (ceiling (product * 2 ^ exponent) (2 ^ 157)) }
{
    if 157 <= exponent {
        return product << (exponent - 157).min(24);
    }
    let shift = (157 - exponent).min(40);
    let unit: u64 = 1 << shift;
    (product + (unit - 1)) >> shift
}

// The cost of a reading at a gap in parts of 256: g × ratio / 256 rounded up, at least 1. 0 where the ratio is infinite or the cost is over
// the largest. Not an Option: it answers for every usable reading, and no tone costs 0.
pub fn cost_of(gap: u16, reading: Reading) -> u32
    requires { Usable reading }
    ensures { result ≡ granted_cost gap reading }
{
    let bits = ratio_bits(reading);
    if INFINITY <= bits {
        return 0;
    }
    let exact = exact_of(bits);
    let product = gap as u64 * exact.mantissa as u64;
    let cost = rounded_up(product, exact.exponent);
    if (MOST_COST as u64) < cost {
        return 0;
    }
    if cost < 1 {
        return 1;
    }
    cost as u32
}

// Refusal 13: whether a reading's ratio is infinite or its cost is over the largest.
pub fn is_over(gap: u16, reading: Reading) -> bool
    requires { Usable reading }
    ensures { result ≡ is_over gap reading }
{
    cost_of(gap, reading) < 1
}
