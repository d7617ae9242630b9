// The sizes that documents 01 and 02 set, each named once. specs/Sizes.antt has the same names for the definitions.
#![tactic(auto)]

// The most tones of a line.
pub const TONES: usize = 1024;

// The words of the silence maps, and the tones of a word.
pub const WORDS: usize = 32;

pub const WORD_TONES: u32 = 32;

// The longest sheet, in bytes.
pub const SHEET_BYTES: usize = 32_768;

// The largest cap of a pair tone and of a single tone.
pub const PAIR_CAP: u8 = 15;

pub const SINGLE_CAP: u8 = 7;

// The most bits of a line: the most tones, each of the largest cap.
pub const MOST_BITS: u32 = TONES as u32 * PAIR_CAP as u32;

// The largest budget and the largest mask: 2^47.
pub const MOST_POWER: u64 = 0x8000_0000_0000;

// The largest cost of a tone.
pub const MOST_COST: u32 = 16_776_705;

// The bytes of each command in all.
pub const SIZE_COMMAND: usize = 3;

pub const GAP_COMMAND: usize = 3;

pub const TENTHS_COMMAND: usize = 2;

pub const BUDGET_COMMAND: usize = 9;

pub const TONE_COMMAND: usize = 15;

pub const LEVELS_COMMAND: usize = 19;

pub const RATIO_COMMAND: usize = 15;

pub const SILENCE_COMMAND: usize = 6;

pub const REST_COMMAND: usize = 6;

pub const HIGH_COMMAND: usize = 4;

pub const END_COMMAND: usize = 1;

// The bytes of a tone in a written table: its bits, and its power in 8 bytes.
pub const TONE_BYTES: usize = 9;

// The bytes of a tone among the limits that a call writes: its limit, and what set it.
pub const LIMIT_BYTES: usize = 2;

// The most budgets of a list, the bytes of each, and the bytes of the totals that a call writes for it: bits in 4, power in 8.
pub const BUDGETS: usize = 32;

pub const BUDGET_BYTES: usize = 8;

pub const TOTALS_BYTES: usize = 12;

// The least room for the answers of a host call, in bytes.
pub const ANSWER_BYTES: usize = 24;
