// The running table, the moves that change it, and the step of a rule. Document 01, 'The loading runs': 'The running table goes into a step
// and comes back with the answer 'moved' or 'finished'.'
#![tactic(auto)]

ghost use Rattle.std.specs.Prelude.{◌≡◌, ◌<◌, length};
ghost use Rattle.steps.specs.Runs.{taking, giving_up};
ghost use Rattle.ranks.specs.Ranks.{Ranked};
ghost use Rattle.running.specs.Running.{taken, given_up, exchanged, CanTake, CanGiveUp, NextFree, LastHeld, Leads, RanksFollow, Runnable, StepsBy};

use line::Steps;
use moves::{Move, Rule, Step};
use ranks::Ranks;
use sizes::TONES;

// The sums over the tones of a table's bits and of its powers.
#[derive(Clone, Copy)]
pub struct Totals {
    pub bits: u32,
    pub power: u64,
}

// The running table: the bits of each tone, and its totals.
#[derive(Drop)]
pub struct Running {
    pub bits: [u8; TONES],
    pub totals: Totals,
}

// What a step answers. It goes beside the table, and not into a Result: document 01 has the table come back with it.
#[derive(Clone, Copy)]
pub enum Progress {
    Moved,
    Finished,
}

// The running table comes back from a step with its answer.
#[derive(Drop)]
pub struct Stepped {
    pub running: Running,
    pub progress: Progress,
}

// The moves change a copy of the bits and put it back whole: so the compiler keeps the totals apart from the bits, and a step copies the bits
// twice, in and out, whatever its move.
impl Running {
    // Takes a free step: one bit more on its tone and in all, and its size more power. The tone's kept ranks follow.
    fn take(mut self, f: Step, tones: &[Steps], ranks: &mut Ranks) -> Running
        requires { CanTake tones.now self f }
        ensures value { result ≡ taken self f }
        ensures leads { Leads tones.now self result (λ T t. NextFree T t f) (λ t. taking t f.tone) }
        ensures ranks_follow { RanksFollow tones.now self result ranks.old.free ranks.old.held ranks.new.free ranks.new.held (λ n. f.tone < n) }
    {
        let mut bits = self.bits;
        let tone = f.tone;
        let more = bits[tone] + 1;
        bits[tone] = more;
        self.bits = bits;
        self.totals.bits += 1;
        self.totals.power += f.size;
        ranks.put(tone, tones[tone], more);
        self
    }

    // Gives up a held step: one bit fewer on its tone and in all, and its size less power. The tone's kept ranks follow.
    fn give_up(mut self, h: Step, tones: &[Steps], ranks: &mut Ranks) -> Running
        requires { CanGiveUp tones.now self h }
        ensures value { result ≡ given_up self h }
        ensures leads { Leads tones.now self result (λ T t. LastHeld T t h) (λ t. giving_up t h.tone) }
        ensures ranks_follow { RanksFollow tones.now self result ranks.old.free ranks.old.held ranks.new.free ranks.new.held (λ n. h.tone < n) }
    {
        let mut bits = self.bits;
        let tone = h.tone;
        let fewer = bits[tone] - 1;
        bits[tone] = fewer;
        self.bits = bits;
        self.totals.bits -= 1;
        self.totals.power -= h.size;
        ranks.put(tone, tones[tone], fewer);
        self
    }

    // Exchanges a held step for a free one: as many bits in all. The tones' kept ranks follow.
    fn exchange(mut self, h: Step, f: Step, tones: &[Steps], ranks: &mut Ranks) -> Running
        requires can_give_up { CanGiveUp tones.now self h }
        requires can_take { CanTake tones.now (given_up self h) f }
        ensures value { result ≡ exchanged self h f }
        ensures leads { Leads tones.now self result
            (λ T t. LastHeld T t h × NextFree T (giving_up t h.tone) f) (λ t. taking (giving_up t h.tone) f.tone) }
        ensures ranks_follow { RanksFollow tones.now self result ranks.old.free ranks.old.held ranks.new.free ranks.new.held
            (λ n. (h.tone < n) × (f.tone < n)) }
    {
        self = self.give_up(h, tones, ranks);
        self.take(f, tones, ranks)
    }

    // One step of a rule: the one move that it names, or none.
    pub fn step(mut self, rule: Rule, budget: u64, tones: &[Steps], ranks: &mut Ranks) -> Stepped
        requires runnable { Runnable (length tones.now) tones.now self }
        requires ranked { Ranked (length tones.now) tones.now self.bits ranks.old.free ranks.old.held }
        ensures answer { StepsBy (length tones.now) tones.now rule budget self result }
        ensures ranks { Ranked (length tones.now) tones.now result.running.bits ranks.new.free ranks.new.held }
    {
        let count = tones.len();
        let earliest = search::least(count, &ranks.free);
        let latest = match rule {
            Rule::Add => 0,
            Rule::Refit => u64::MAX - search::least(count, &ranks.held),
        };
        match moves::next_move(rule, earliest, latest, self.totals.power, budget) {
            None => Stepped {
                running: self,
                progress: Progress::Finished,
            },
            Some(Move::Take(f)) => Stepped {
                running: self.take(f, tones, ranks),
                progress: Progress::Moved,
            },
            Some(Move::GiveUp(h)) => Stepped {
                running: self.give_up(h, tones, ranks),
                progress: Progress::Moved,
            },
            Some(Move::Exchange(h, f)) => Stepped {
                running: self.exchange(h, f, tones, ranks),
                progress: Progress::Moved,
            },
        }
    }
}
