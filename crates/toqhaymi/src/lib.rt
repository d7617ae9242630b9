// The host's calls, for C: include/toqhaymi.h documents them. Document 01: 'For a host program on the bench computer, written in C'.
#![tactic(auto)]

ghost use Rattle.std.specs.Prelude.{◌≡◌};
ghost use Rattle.loader.specs.Calls.{load_most, load_target, refit, one_step};
ghost use Rattle.answers.specs.Answers.{code, answered};
ghost use Rattle.toqhaymi.specs.Host.{host_check, host_most, host_target, host_refit, host_step, host_table, host_tidy, host_tidied};

use sizes::ANSWER_BYTES;

#[unsafe(no_mangle)]
pub extern "C" fn toqhaymi_check(sheet: &[u8], answer: &mut [u8]) -> u64
    ensures returned { result ≡ code (host_check sheet.now answer.old) }
    ensures answers { answer.new ≡ answered (host_check sheet.now answer.old) answer.old }
{
    if answer.len() < ANSWER_BYTES {
        return answers::without_room(sheet);
    }
    answers::reply(loader::check(sheet), answer)
}

#[unsafe(no_mangle)]
pub extern "C" fn toqhaymi_load_most(sheet: &[u8], table: &mut [u8], answer: &mut [u8]) -> u64
    ensures returned { result ≡ code (host_most sheet.now table.old answer.old) }
    ensures bytes { table.new ≡ host_table (load_most sheet.now) table.old answer.old }
    ensures answers { answer.new ≡ answered (host_most sheet.now table.old answer.old) answer.old }
{
    if answer.len() < ANSWER_BYTES {
        return answers::without_room(sheet);
    }
    answers::reply(loader::load_most(sheet, table), answer)
}

#[unsafe(no_mangle)]
pub extern "C" fn toqhaymi_load_target(
    sheet: &[u8],
    target: u32,
    table: &mut [u8],
    answer: &mut [u8],
) -> u64
    ensures returned { result ≡ code (host_target sheet.now target table.old answer.old) }
    ensures bytes { table.new ≡ host_table (load_target sheet.now target) table.old answer.old }
    ensures answers { answer.new ≡ answered (host_target sheet.now target table.old answer.old) answer.old }
{
    if answer.len() < ANSWER_BYTES {
        return answers::without_room(sheet);
    }
    answers::reply(loader::load_target(sheet, target, table), answer)
}

#[unsafe(no_mangle)]
pub extern "C" fn toqhaymi_refit(
    sheet: &[u8],
    start: &[u8],
    table: &mut [u8],
    answer: &mut [u8],
) -> u64
    ensures returned { result ≡ code (host_refit sheet.now start.now table.old answer.old) }
    ensures bytes { table.new ≡ host_table (refit sheet.now start.now) table.old answer.old }
    ensures answers { answer.new ≡ answered (host_refit sheet.now start.now table.old answer.old) answer.old }
{
    if answer.len() < ANSWER_BYTES {
        return answers::without_room(sheet);
    }
    answers::reply(loader::refit(sheet, start, table), answer)
}

#[unsafe(no_mangle)]
pub extern "C" fn toqhaymi_refit_step(
    sheet: &[u8],
    start: &[u8],
    table: &mut [u8],
    answer: &mut [u8],
) -> u64
    ensures returned { result ≡ code (host_step sheet.now start.now table.old answer.old) }
    ensures bytes { table.new ≡ host_table (one_step sheet.now start.now) table.old answer.old }
    ensures answers { answer.new ≡ answered (host_step sheet.now start.now table.old answer.old) answer.old }
{
    if answer.len() < ANSWER_BYTES {
        return answers::without_room(sheet);
    }
    answers::reply(loader::refit_step(sheet, start, table), answer)
}

#[unsafe(no_mangle)]
pub extern "C" fn toqhaymi_tidy(sheet: &[u8], tidy: &mut [u8], answer: &mut [u8]) -> u64
    ensures returned { result ≡ code (host_tidy sheet.now tidy.old answer.old) }
    ensures bytes { tidy.new ≡ host_tidied sheet.now tidy.old answer.old }
    ensures answers { answer.new ≡ answered (host_tidy sheet.now tidy.old answer.old) answer.old }
{
    if answer.len() < ANSWER_BYTES {
        return answers::without_room(sheet);
    }
    answers::reply(loader::tidy(sheet, tidy), answer)
}
