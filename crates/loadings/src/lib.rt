// The loadings and the re-fit of a line's tones into a lent buffer, with refusals 8 to 11. Document 01, 'The loading runs' and 'Why a sheet
// is turned down'.
#![tactic(auto)]

ghost use Rattle.std.specs.Prelude.{◌≡◌, length};
ghost use Rattle.steps.specs.Tones.{total_bits};
ghost use Rattle.steps.specs.Runs.{most_bits};
ghost use Rattle.loadings.specs.Loads.{most_on, target_on, SomeTones, ForTones, LoadsAs};
ghost use Rattle.loadings.specs.Refits.{RefitsTones};

use line::Steps;
use moves::Rule;
use refusals::Refusal;
use running::{Progress, Totals};
use sizes::{MOST_BITS, TONE_BYTES};

// What a re-fit answers: total bits and total power, and the move count.
#[derive(Clone, Copy)]
pub struct Refitted {
    pub totals: Totals,
    pub moves: u32,
}

// Loads for most bits.
pub fn most(budget: u64, tones: &[Steps], table: &mut [u8]) -> Result<Totals, Refusal>
    requires { SomeTones (length tones.now) budget tones.now }
    ensures { ForTones (length tones.now) budget tones.now (λ T. LoadsAs result table.old table.new (most_on T budget)) }
{
    if table.len() < TONE_BYTES * tones.len() {
        return Err(Refusal::DestinationTooSmall);
    }
    let start = starts::no_bits(tones);
    let ended = wholeruns::run(start, Rule::Add, MOST_BITS, budget, tones);
    tables::put_table(table, tones, &ended.running.bits);
    Ok(ended.running.totals)
}

// The total bits of the loading for most bits, which is not written.
pub fn most_bits(budget: u64, tones: &[Steps]) -> u32
    requires { SomeTones (length tones.now) budget tones.now }
    ensures { ForTones (length tones.now) budget tones.now (λ T. result ≡ total_bits T (most_bits T budget).table) }
{
    let start = starts::no_bits(tones);
    wholeruns::run(start, Rule::Add, MOST_BITS, budget, tones)
        .running
        .totals
        .bits
}

// Loads a set number of bits: a run that is still moving when it has made so many moves.
pub fn target(
    budget: u64,
    tones: &[Steps],
    target: u32,
    table: &mut [u8],
) -> Result<Totals, Refusal>
    requires { SomeTones (length tones.now) budget tones.now }
    ensures { ForTones (length tones.now) budget tones.now (λ T. LoadsAs result table.old table.new (target_on T budget target)) }
{
    if table.len() < TONE_BYTES * tones.len() {
        return Err(Refusal::DestinationTooSmall);
    }
    let start = starts::no_bits(tones);
    let ended = wholeruns::run(start, Rule::Add, target, budget, tones);
    match ended.progress {
        Progress::Finished => Err(Refusal::TargetNotCarried),
        Progress::Moved => {
            tables::put_table(table, tones, &ended.running.bits);
            Ok(ended.running.totals)
        }
    }
}

// Re-fits a starting table by at most so many moves.
pub fn refit(
    budget: u64,
    tones: &[Steps],
    start: &[u8],
    most: u32,
    table: &mut [u8],
) -> Result<Refitted, Refusal>
    requires { SomeTones (length tones.now) budget tones.now }
    ensures { RefitsTones (length tones.now) most budget tones.now start.now result table.old table.new }
{
    if table.len() < TONE_BYTES * tones.len() {
        return Err(Refusal::DestinationTooSmall);
    }
    if start.len() != tones.len() {
        return Err(Refusal::StartLengthWrong);
    }
    if let Some(tone) = starts::first_above(start, tones) {
        return Err(Refusal::StartAboveLimit(tone as u16));
    }
    let from = starts::from_start(start, tones);
    let ended = wholeruns::run(from, Rule::Refit, most, budget, tones);
    tables::put_table(table, tones, &ended.running.bits);
    Ok(Refitted {
        totals: ended.running.totals,
        moves: ended.moves,
    })
}
