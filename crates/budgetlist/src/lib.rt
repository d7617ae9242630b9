// A list of budgets for one line: its entries, and what is wrong with a list. Document 02, W7.
#![tactic(auto)]

ghost use Rattle.std.specs.Prelude.{◌≡◌, ◌*◌, ◌+◌, ◌≤◌, length};
ghost use Rattle.sizes.specs.Sizes.{budget_bytes};
ghost use Rattle.lists.specs.First.{first};
ghost use Rattle.budgetlist.specs.Budgets.{budget_of, budget_count, is_fault, list_refusal, list_answer};

use refusals::Refusal;
use sizes::{BUDGET_BYTES, BUDGETS, MOST_POWER};

// The budget at a number of the list, from 0.
pub fn budget_at(list: &[u8], k: usize) -> u64
    requires { budget_bytes * k + budget_bytes ≤ length list.now }
    ensures { result ≡ budget_of list.now k }
{
    bigendian::number_at(list, BUDGET_BYTES * k, BUDGET_BYTES)
}

// The first of so many entries that is too large or below the one before it, if any.
fn first_fault(list: &[u8], count: usize) -> Option<usize>
    requires { budget_bytes * count ≤ length list.now }
    ensures { result ≡ first (is_fault list.now) count }
{
    let mut last: u64 = 0;
    for k in 0..count {
        let budget = budget_at(list, k);
        if MOST_POWER < budget || budget < last {
            return Some(k);
        }
        last = budget;
    }
    None
}

// How many budgets a list has, or refusal 4 of it: its length first, then its entries.
pub fn judge(list: &[u8]) -> Result<usize, Refusal>
    ensures { result ≡ list_answer list.now (list_refusal list.now) }
{
    let count = list.len() / BUDGET_BYTES;
    if list.len() < 1 || list.len() % BUDGET_BYTES != 0 || BUDGETS < count {
        return Err(Refusal::OperandOutOfRange(0));
    }
    match first_fault(list, count) {
        Some(k) => Err(Refusal::OperandOutOfRange(k as u16)),
        None => Ok(count),
    }
}
