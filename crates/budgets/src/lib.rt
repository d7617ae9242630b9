// Many budgets on one line, in one adding pass: total bits and total power for each budget of a list. Document 02, W7.
#![tactic(auto)]

ghost use Rattle.std.specs.Prelude.{◌++◌, ◌≡◌, ◌+◌, ◌*◌, ◌≤◌, length};
ghost use Rattle.std.proofs.lemmas.List.Edits.{sets};
ghost use Rattle.sizes.specs.Sizes.{most_tones, totals_bytes};
ghost use Rattle.bigendian.specs.Number.{bytes};
ghost use Rattle.line.specs.Line.{Line};
ghost use Rattle.refusals.specs.Writing.{write_answer, write_numbers, write_outcome, after_writing};
ghost use Rattle.budgetlist.specs.Budgets.{budget_count};
ghost use Rattle.sheet.specs.Reading.{accepted, said};
ghost use Rattle.sheet.specs.Index.{Indexes, Indexed};
ghost use Rattle.sheet.specs.Writes.{writing};
ghost use Rattle.budgets.specs.Budgets.{totals_bytes_of, judged_with, budgeting};
ghost use Rattle.budgets.specs.Pass.{Passable, PassedBy};

use line::Steps;
use moves::Rule;
use ranks::Ranks;
use refusals::Refusal;
use rows::Header;
use running::Totals;
use sheet::Index;
use sizes::{BUDGET_BYTES, MOST_BITS, TONES, TOTALS_BYTES};

// The 12 bytes of a budget, from a place on: total bits, then total power.
fn put_totals(out: &mut [u8], at: usize, totals: Totals)
    requires { at + totals_bytes ≤ length out.old }
    ensures { out.new ≡ sets out.old at (bytes 4 totals.bits ++ bytes 8 totals.power) }
{
    bigendian::put_number(out, at, 4, totals.bits as u64);
    bigendian::put_number(out, at + 4, 8, totals.power);
}

// Adds from no bits up to the first budget, and from there up to the next, and so on, and writes the totals at each: one pass, which makes as
// many moves as the largest budget alone needs. It answers how many.
fn adding_pass(list: &[u8], budgets: usize, tones: &[Steps], out: &mut [u8]) -> u32
    requires { Passable (length tones.now) tones.now list.now budgets out.old }
    ensures { PassedBy (length tones.now) tones.now list.now budgets out.old out.new result }
{
    let mut running = starts::no_bits(tones);
    let mut ranks = Ranks {
        free: [u64::MAX; TONES],
        held: [u64::MAX; TONES],
    };
    ranks.fill(tones, &running.bits);
    let mut moves: u32 = 0;
    for k in 0..budgets {
        let budget = budgetlist::budget_at(list, k);
        let ended = wholeruns::go_on(running, Rule::Add, MOST_BITS, budget, tones, &mut ranks);
        running = ended.running;
        moves += ended.moves;
        put_totals(out, TOTALS_BYTES * k, running.totals);
    }
    moves
}

// The refusals after those of the sheet's bytes, in their order: 4 of the list, 16 against its first budget, 8 of so many bytes of room.
fn judge(s: &[u8], size: u16, list: &[u8], index: &Index, room: usize) -> Result<(), Refusal>
    requires { size ≤ most_tones }
    ensures { (l : Line) → l.size ≡ size → Indexes s.now index.now l → result ≡ write_answer (writing (totals_bytes_of list.now) (judged_with list.now (accepted l)) room) }
{
    let budgets = budgetlist::judge(list)?;
    if budgetlist::budget_at(list, 0) < rests::rest_total(s, size, &index.tones, &index.maps) {
        return Err(Refusal::RestsOverBudget);
    }
    if room < TOTALS_BYTES * budgets {
        return Err(Refusal::DestinationTooSmall);
    }
    Ok(())
}

// The totals of the line that an index of the sheet stands for, at each budget of a list, from the buffer's start on.
fn put_line(s: &[u8], header: Header, list: &[u8], index: &Index, out: &mut [u8])
    requires indexed { Indexed s.now header index.now }
    requires judged { (l : Line) → said s.now ≡ accepted l → judged_with list.now (accepted l) ≡ accepted l }
    requires bytes_in_bounds { totals_bytes * budget_count list.now ≤ length out.old }
    ensures { (l : Line) → said s.now ≡ accepted l → out.new ≡ sets out.old 0 (totals_bytes_of list.now l) }
{
    let mut tones = [Steps::NONE; TONES];
    arrays::fill_arrays(s, header, index, &mut tones);
    let budgets = list.len() / BUDGET_BYTES;
    adding_pass(list, budgets, &tones[..header.size as usize], out);
}

// Writes total bits and total power of a sheet's line for each budget of a list to the start of a lent buffer.
pub fn budgets(s: &[u8], list: &[u8], out: &mut [u8]) -> Result<(), Refusal>
    ensures answer { result ≡ write_answer (budgeting s.now list.now (length out.old)) }
    ensures numbers { write_numbers result ≡ write_outcome (budgeting s.now list.now (length out.old)) }
    ensures bytes { out.new ≡ after_writing (budgeting s.now list.now (length out.old)) out.old }
{
    let mut index = Index::empty();
    let header = sheet::read_commands(s, &mut index)?;
    judge(s, header.size, list, &index, out.len())?;
    put_line(s, header, list, &index, out);
    Ok(())
}
