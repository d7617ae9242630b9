// The one move that a rule names. Document 01, 'The loading runs'.
#![tactic(auto)]

ghost use Rattle.std.specs.Prelude.{◌≡◌, ◌^◌, ◌<◌};
ghost use Rattle.steps.specs.Tones.{Tones, Table};
ghost use Rattle.steps.specs.Runs.{earliest_free, take_if_fits, refit_step};
ghost use Rattle.moves.specs.declared.Rule.TheVariants.{Add, Refit};
ghost use Rattle.moves.specs.Moves.{rule_of, step_at, Knows, CallsFor};

use ranks::RANK_BASE;

// Adding takes the earliest free step; re-fitting exchanges, gives up or takes.
#[derive(Clone, Copy)]
pub enum Rule {
    Add,
    Refit,
}

// A step of a tone, and its size.
#[derive(Clone, Copy)]
pub struct Step {
    pub tone: usize,
    pub size: u64,
}

// One move. An exchange gives up its first step and takes its second.
#[derive(Clone, Copy)]
pub enum Move {
    Take(Step),
    GiveUp(Step),
    Exchange(Step, Step),
}

// The step at a rank.
fn step_at(rank: u64) -> Step
    ensures { result ≡ step_at rank }
{
    Step {
        tone: (rank % RANK_BASE) as usize,
        size: rank / RANK_BASE,
    }
}

// Takes the earliest free step if there is one and it fits the budget.
fn take_if_fits(earliest: u64, power: u64, budget: u64) -> Option<Move>
    requires { power < 2 ^ 63 }
    ensures { (T : Tones) (t : Table) → Knows Add T t power earliest 0 → CallsFor T t result (take_if_fits T budget t (earliest_free T t)) }
{
    if earliest == u64::MAX {
        return None;
    }
    let f = step_at(earliest);
    if budget < power + f.size {
        return None;
    }
    Some(Move::Take(f))
}

// Exchanges the latest held step for the earliest free one if that comes before it; otherwise, above the budget, gives up the latest
// held one; otherwise takes the earliest free one if it fits. With no held step the rank of the latest is 0.
fn refit_move(earliest: u64, latest: u64, power: u64, budget: u64) -> Option<Move>
    requires { power < 2 ^ 63 }
    ensures { (T : Tones) (t : Table) → Knows Refit T t power earliest latest → CallsFor T t result (refit_step T budget t) }
{
    if latest == 0 {
        return take_if_fits(earliest, power, budget);
    }
    if earliest < latest {
        return Some(Move::Exchange(step_at(latest), step_at(earliest)));
    }
    if budget < power {
        return Some(Move::GiveUp(step_at(latest)));
    }
    take_if_fits(earliest, power, budget)
}

// The move that a rule names, if it names one, for a table of this total power, whose earliest free and latest held step have these ranks.
// Adding goes by the earliest alone.
pub fn next_move(rule: Rule, earliest: u64, latest: u64, power: u64, budget: u64) -> Option<Move>
    requires { power < 2 ^ 63 }
    ensures { (T : Tones) (t : Table) → Knows rule T t power earliest latest → CallsFor T t result (rule_of rule T budget t) }
{
    match rule {
        Rule::Add => take_if_fits(earliest, power, budget),
        Rule::Refit => refit_move(earliest, latest, power, budget),
    }
}
