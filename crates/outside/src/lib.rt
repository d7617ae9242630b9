// Calls of the library that the C host does not have, as C entries for the tests alone: in no header, with the host's conventions.
// Document 02, W7: 'the host keeps only document 01's calls'; W3 and W9 have calls of the library too.
#![tactic(auto)]

ghost use Rattle.std.specs.Prelude.{◌≡◌};
ghost use Rattle.answers.specs.Answers.{code, answered};
ghost use Rattle.outside.specs.Outside.{outside_limits, outside_limited, outside_budgets, outside_budgeted, outside_guarded, outside_guarded_table};

use sizes::ANSWER_BYTES;

#[unsafe(no_mangle)]
pub extern "C" fn outside_limits(sheet: &[u8], out: &mut [u8], answer: &mut [u8]) -> u64
    ensures returned { result ≡ code (outside_limits sheet.now out.old answer.old) }
    ensures bytes { out.new ≡ outside_limited sheet.now out.old answer.old }
    ensures answers { answer.new ≡ answered (outside_limits sheet.now out.old answer.old) answer.old }
{
    if answer.len() < ANSWER_BYTES {
        return answers::without_room(sheet);
    }
    answers::reply(loader::limits(sheet, out), answer)
}

// Without room for the answers the refusals come as for a buffer of no bytes, which has no room either: 8 is the last of them.
#[unsafe(no_mangle)]
pub extern "C" fn outside_budgets(
    sheet: &[u8],
    list: &[u8],
    out: &mut [u8],
    answer: &mut [u8],
) -> u64
    ensures returned { result ≡ code (outside_budgets sheet.now list.now out.old answer.old) }
    ensures bytes { out.new ≡ outside_budgeted sheet.now list.now out.old answer.old }
    ensures answers { answer.new ≡ answered (outside_budgets sheet.now list.now out.old answer.old) answer.old }
{
    if answer.len() < ANSWER_BYTES {
        let mut none: [u8; 0] = [];
        return match loader::budgets(sheet, list, &mut none) {
            Ok(()) => 0,
            Err(why) => answers::refused(why),
        };
    }
    answers::reply(loader::budgets(sheet, list, out), answer)
}

#[unsafe(no_mangle)]
pub extern "C" fn outside_guarded(sheet: &[u8], table: &mut [u8], answer: &mut [u8]) -> u64
    ensures returned { result ≡ code (outside_guarded sheet.now table.old answer.old) }
    ensures bytes { table.new ≡ outside_guarded_table sheet.now table.old answer.old }
    ensures answers { answer.new ≡ answered (outside_guarded sheet.now table.old answer.old) answer.old }
{
    if answer.len() < ANSWER_BYTES {
        return answers::without_room(sheet);
    }
    answers::reply(loader::guarded(sheet, table), answer)
}
