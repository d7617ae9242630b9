// The whole run of a rule: steps until one answers 'finished', counted. Document 01, 'The loading runs': 'Re-fit run. Steps until finished; it
// reports how many moved.'
#![tactic(auto)]

ghost use Rattle.std.specs.Prelude.{length};
ghost use Rattle.ranks.specs.Ranks.{Ranked};
ghost use Rattle.running.specs.Running.{Runnable};
ghost use Rattle.wholeruns.specs.WholeRuns.{RunsBy};

use line::Steps;
use moves::Rule;
use ranks::Ranks;
use running::{Progress, Running, Stepped};
use sizes::TONES;

// The running table comes back from a run with how many of its steps moved, and with 'finished' if the last found nothing to move.
#[derive(Drop)]
pub struct Ended {
    pub running: Running,
    pub moves: u32,
    pub progress: Progress,
}

// Steps of a rule until one answers 'finished', or until `most` of them have moved; the count is of those that answered 'moved'. The kept ranks
// are those of the table that it starts from, and afterwards those of the table that it ends in, so that another run can go on from there.
pub fn go_on(
    start: Running,
    rule: Rule,
    most: u32,
    budget: u64,
    tones: &[Steps],
    ranks: &mut Ranks,
) -> Ended
    requires runnable { Runnable (length tones.now) tones.now start }
    requires ranked { Ranked (length tones.now) tones.now start.bits ranks.old.free ranks.old.held }
    ensures run { RunsBy (length tones.now) tones.now rule most budget start result }
    ensures ranks { Ranked (length tones.now) tones.now result.running.bits ranks.new.free ranks.new.held }
{
    let mut now = Stepped {
        running: start,
        progress: Progress::Moved,
    };
    for moves in 0..most {
        now = now.running.step(rule, budget, tones, ranks);
        if let Progress::Finished = now.progress {
            return Ended {
                running: now.running,
                moves,
                progress: Progress::Finished,
            };
        }
    }
    Ended {
        running: now.running,
        moves: most,
        progress: Progress::Moved,
    }
}

// A run from a running table: it begins with the ranks of that table.
pub fn run(start: Running, rule: Rule, most: u32, budget: u64, tones: &[Steps]) -> Ended
    requires { Runnable (length tones.now) tones.now start }
    ensures { RunsBy (length tones.now) tones.now rule most budget start result }
{
    let mut ranks = Ranks {
        free: [u64::MAX; TONES],
        held: [u64::MAX; TONES],
    };
    ranks.fill(tones, &start.bits);
    go_on(start, rule, most, budget, tones, &mut ranks)
}
