// The library: every public call, on bytes. Document 01; document 02, W3, W7 and W9.
#![tactic(auto)]

ghost use Rattle.std.specs.Prelude.{◌≡◌, length};
ghost use Rattle.loadings.specs.Loads.{load_answer, load_numbers, load_outcome, after_loading};
ghost use Rattle.loadings.specs.Refits.{refit_answer, refit_numbers, refit_outcome, RefitsAs};
ghost use Rattle.refusals.specs.Writing.{write_answer, write_numbers, write_outcome, after_writing};
ghost use Rattle.sheet.specs.Reading.{reading};
ghost use Rattle.sheet.specs.Check.{checking, check_numbers, check_outcome};
ghost use Rattle.limits.specs.Limits.{limiting};
ghost use Rattle.budgets.specs.Budgets.{budgeting};
ghost use Rattle.guarded.specs.Guarded.{guarding, plain_bits, guarded_answer, guarded_numbers, guarded_outcome};
ghost use Rattle.tidy.specs.Tidying.{tidying, tidy_answer, tidy_numbers, tidy_outcome};
ghost use Rattle.loader.specs.Calls.{load_most, load_target, refit, one_step, refit_by};
ghost use Rattle.loader.specs.Claims.{MostBitsOn, TargetOn, Demand3On, BudgetsOn, GuardedOn, TidyOn};

use guarded::GuardedLoad;
use line::Steps;
use loadings::Refitted;
use refusals::Refusal;
use running::Totals;
use sheet::Checked;
use sizes::{MOST_BITS, TONES};

// Checks a sheet: N, the number of described tones and the number of silenced tones.
pub fn check(s: &[u8]) -> Result<Checked, Refusal>
    ensures answer { result ≡ checking (reading s.now) }
    ensures numbers { check_numbers result ≡ check_outcome (reading s.now) }
{
    sheet::check(s)
}

// Loads a sheet for most bits.
pub fn load_most(s: &[u8], table: &mut [u8]) -> Result<Totals, Refusal>
    ensures answer { result ≡ load_answer (load_most s.now (length table.old)) }
    ensures numbers { load_numbers result ≡ load_outcome (load_most s.now (length table.old)) }
    ensures bytes { table.new ≡ after_loading (load_most s.now (length table.old)) table.old }
    ensures most_bits { MostBitsOn s.now result table.old table.new }
{
    let mut tones = [Steps::NONE; TONES];
    let header = arrays::read_tones(s, &mut tones)?;
    loadings::most(header.budget, &tones[..header.size as usize], table)
}

// Loads a set number of bits.
pub fn load_target(s: &[u8], target: u32, table: &mut [u8]) -> Result<Totals, Refusal>
    ensures answer { result ≡ load_answer (load_target s.now target (length table.old)) }
    ensures numbers { load_numbers result ≡ load_outcome (load_target s.now target (length table.old)) }
    ensures bytes { table.new ≡ after_loading (load_target s.now target (length table.old)) table.old }
    ensures least_power { TargetOn s.now target result table.old }
{
    let mut tones = [Steps::NONE; TONES];
    let header = arrays::read_tones(s, &mut tones)?;
    loadings::target(header.budget, &tones[..header.size as usize], target, table)
}

// Re-fits a starting table by at most so many moves.
fn refit_up_to(s: &[u8], start: &[u8], most: u32, table: &mut [u8]) -> Result<Refitted, Refusal>
    ensures { RefitsAs result table.old table.new (refit_by most s.now start.now) }
{
    let mut tones = [Steps::NONE; TONES];
    let header = arrays::read_tones(s, &mut tones)?;
    loadings::refit(
        header.budget,
        &tones[..header.size as usize],
        start,
        most,
        table,
    )
}

// Re-fits a starting table, and counts the moves. Demand 3 is its last promise: of every accepted sheet and every starting table
// that keeps its limits, with room enough, the table and the totals are those of the loading for most bits. As many moves as a line can
// have bits are enough.
pub fn refit(s: &[u8], start: &[u8], table: &mut [u8]) -> Result<Refitted, Refusal>
    ensures answer { result ≡ refit_answer (refit s.now start.now (length table.old)) }
    ensures numbers { refit_numbers result ≡ refit_outcome (refit s.now start.now (length table.old)) }
    ensures bytes { table.new ≡ after_loading (refit s.now start.now (length table.old)) table.old }
    ensures demand_3 { Demand3On s.now start.now result table.old table.new }
{
    refit_up_to(s, start, MOST_BITS, table)
}

// One step of a re-fit: its move count is 1 or 0.
pub fn refit_step(s: &[u8], start: &[u8], table: &mut [u8]) -> Result<Refitted, Refusal>
    ensures answer { result ≡ refit_answer (one_step s.now start.now (length table.old)) }
    ensures numbers { refit_numbers result ≡ refit_outcome (one_step s.now start.now (length table.old)) }
    ensures bytes { table.new ≡ after_loading (one_step s.now start.now (length table.old)) table.old }
{
    refit_up_to(s, start, 1, table)
}

// Writes the limit of each tone of a sheet, and what set it.
pub fn limits(s: &[u8], out: &mut [u8]) -> Result<(), Refusal>
    ensures answer { result ≡ write_answer (limiting (reading s.now) (length out.old)) }
    ensures numbers { write_numbers result ≡ write_outcome (limiting (reading s.now) (length out.old)) }
    ensures bytes { out.new ≡ after_writing (limiting (reading s.now) (length out.old)) out.old }
{
    limits::limits(s, out)
}

// Writes total bits and total power of the loading for most bits at each budget of a list, in the place of the sheet's own, in one adding pass.
pub fn budgets(s: &[u8], list: &[u8], out: &mut [u8]) -> Result<(), Refusal>
    ensures answer { result ≡ write_answer (budgeting s.now list.now (length out.old)) }
    ensures numbers { write_numbers result ≡ write_outcome (budgeting s.now list.now (length out.old)) }
    ensures bytes { out.new ≡ after_writing (budgeting s.now list.now (length out.old)) out.old }
    ensures each { BudgetsOn s.now list.now out.old out.new }
{
    budgets::budgets(s, list, out)
}

// Loads a sheet for most bits at every high noise; of its table no choice of noises inside their ranges breaks the limits or the budget. It
// answers the total bits of the plain loading too.
pub fn guarded(s: &[u8], table: &mut [u8]) -> Result<GuardedLoad, Refusal>
    ensures answer { result ≡ guarded_answer (plain_bits (reading s.now)) (guarding (reading s.now) (length table.old)) }
    ensures numbers { guarded_numbers result ≡ guarded_outcome (plain_bits (reading s.now)) (guarding (reading s.now) (length table.old)) }
    ensures bytes { table.new ≡ after_loading (guarding (reading s.now) (length table.old)) table.old }
    ensures guards { GuardedOn s.now result table.old table.new }
{
    guarded::guarded(s, table)
}

// Writes the tidy form of a sheet.
pub fn tidy(s: &[u8], out: &mut [u8]) -> Result<usize, Refusal>
    ensures answer { result ≡ tidy_answer (tidying (reading s.now) (length out.old)) }
    ensures numbers { tidy_numbers result ≡ tidy_outcome (tidying (reading s.now) (length out.old)) }
    ensures bytes { out.new ≡ after_writing (tidying (reading s.now) (length out.old)) out.old }
    ensures tidy_form { TidyOn s.now out.old out.new }
{
    tidy::tidy(s, out)
}
