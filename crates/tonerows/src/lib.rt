// The commands that describe a tone, all of whose bytes are there, from one operand to the next: document 01, 'The line sheet' and 'Why a
// sheet is turned down', and document 02, W5 and W8.
#![tactic(auto)]

ghost use Rattle.std.specs.Prelude.{List, [], ◌∷◌, ◌≡◌, ℕ, ◌+◌, ◌≤◌, length};
ghost use Rattle.sizes.specs.Sizes.{longest_sheet};
ghost use Rattle.rows.specs.declared.Header.{Header};
ghost use Rattle.rows.specs.Rows.{Known, cap_and_mask, numbers, level_operands, ratio_operands, width, describes_from, row_at};
ghost use Rattle.rows.specs.Codes.{known_at, tone_row};

use places::Noted;
use readings::{Levels, Reading};
use refusals::Refusal;
use rows::{Command, Header};
use sizes::{MOST_POWER, PAIR_CAP};

// The cap and the mask of a tone.
fn from_cap(s: &[u8], at: usize, most: u8, tone: u16) -> Result<Command, Refusal>
    requires at_in_bounds { at + 9 ≤ length s.now }
    requires s_len_bound { length s.now ≤ longest_sheet }
    ensures { (h : Header) → (known : Known) → (values : List ℕ) → result ≡ describes_from h known (tone ∷ values) s.now at (cap_and_mask most) }
{
    if most < s[at] {
        return Err(rows::out_of_range(at));
    }
    if MOST_POWER < bigendian::number_at(s, at + 1, 8) {
        return Err(rows::out_of_range(at + 1));
    }
    Ok(Command::Describe(tone))
}

// Noise and gain as whole numbers, from a place on, and what follows.
fn from_numbers(s: &[u8], at: usize, is_single: bool, tone: u16) -> Result<Command, Refusal>
    requires is_single_in_bounds { at + width (numbers is_single) ≤ length s.now }
    requires s_len_bound { length s.now ≤ longest_sheet }
    ensures { (h : Header) → (known : Known) → result ≡ describes_from h known (tone ∷ []) s.now at (numbers is_single) }
{
    if bigendian::number_at(s, at, 2) < 1 {
        return Err(rows::out_of_range(at));
    }
    if bigendian::number_at(s, at + 2, 2) < 1 {
        return Err(rows::out_of_range(at + 2));
    }
    let most = line::most_cap(is_single);
    from_cap(s, at + 4, most, tone)
}

// Noise and gain as floats, and what follows.
fn from_levels(s: &[u8], at: usize, header: Header, tone: u16) -> Result<Command, Refusal>
    requires level_operands_in_bounds { at + width level_operands ≤ length s.now }
    requires s_len_bound { length s.now ≤ longest_sheet }
    ensures { (known : Known) → result ≡ describes_from header known (tone ∷ []) s.now at level_operands }
{
    let noise = bigendian::number_at(s, at, 4) as u32;
    if !readings::is_usable(noise) {
        return Err(Refusal::FloatOutOfRange(at as u16));
    }
    let gain = bigendian::number_at(s, at + 4, 4) as u32;
    if !readings::is_usable(gain) {
        return Err(Refusal::FloatOutOfRange((at + 4) as u16));
    }
    let levels = Levels {
        noise: readings::float_of(noise),
        gain: readings::float_of(gain),
    };
    if readings::is_over(gaps::parts(header.gap), Reading::Both(levels)) {
        return Err(Refusal::CostOutOfRange(at as u16));
    }
    from_cap(s, at + 8, PAIR_CAP, tone)
}

// Their ratio as a float, and what follows.
fn from_ratio(s: &[u8], at: usize, header: Header, tone: u16) -> Result<Command, Refusal>
    requires ratio_operands_in_bounds { at + width ratio_operands ≤ length s.now }
    requires s_len_bound { length s.now ≤ longest_sheet }
    ensures { (known : Known) → result ≡ describes_from header known (tone ∷ []) s.now at ratio_operands }
{
    let bits = bigendian::number_at(s, at, 4) as u32;
    if !readings::is_usable(bits) {
        return Err(Refusal::FloatOutOfRange(at as u16));
    }
    let ratio = readings::float_of(bits);
    if readings::is_over(gaps::parts(header.gap), Reading::Ratio(ratio)) {
        return Err(Refusal::CostOutOfRange(at as u16));
    }
    from_cap(s, at + 4, PAIR_CAP, tone)
}

// The command of a byte that describes a tone, short or a twin, where that is what is noted of the tone.
pub fn tone_command(
    s: &[u8],
    at: usize,
    code: u8,
    header: Header,
    noted: Noted,
) -> Result<Command, Refusal>
    requires code_in_bounds { at + 1 + width (tone_row code).operands ≤ length s.now }
    requires s_len_bound { length s.now ≤ longest_sheet }
    ensures { (rested widened : ℕ) → result ≡ row_at header (known_at s.now noted.own rested widened) s.now at (tone_row code) }
{
    let tone = addresses::tone_number(s, at, code);
    if header.size <= tone {
        return Err(Refusal::ToneBeyondLine((at + 1) as u16));
    }
    if 0 < noted.own {
        return Err(Refusal::ToneRepeated((at + 1) as u16));
    }
    let carried = at + 1 + addresses::number_width(code);
    match addresses::short_of(code) {
        9 => from_levels(s, carried, header, tone),
        10 => from_ratio(s, carried, header, tone),
        short => from_numbers(s, carried, short == 5, tone),
    }
}
