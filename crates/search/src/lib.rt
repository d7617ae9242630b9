// The search for the earliest free step, and for the latest held one, whose ranks are counted down: a scan over the ranks that are kept
// of each tone. What it promises, `LeastOf`, asks nothing of the way it is found.
#![tactic(auto)]

ghost use Rattle.std.specs.Prelude.{◌≤◌};
ghost use Rattle.sizes.specs.Sizes.{most_tones};
ghost use Rattle.ranks.specs.Ranks.{NoneFrom, LeastOf};

use sizes::TONES;

// The least of the ranks. Eight tones a turn: then few of the comparisons wait for one another.
pub fn least(count: usize, ranks: &[u64; TONES]) -> u64
    requires count_le_most_tones { count ≤ most_tones }
    requires none_from { NoneFrom count ranks.now }
    ensures { LeastOf count ranks.now result }
{
    let mut least = u64::MAX;
    for i in (0..count).step_by(8) {
        let one = ranks[i].min(ranks[i + 1]);
        let two = ranks[i + 2].min(ranks[i + 3]);
        let three = ranks[i + 4].min(ranks[i + 5]);
        let four = ranks[i + 6].min(ranks[i + 7]);
        least = least.min(one.min(two).min(three.min(four)));
    }
    least
}
