// Tidying a sheet: document 01, 'The line sheet', and document 02, W1, W5, W6, W8 and W9.
#![tactic(auto)]

mod writer;

ghost use Rattle.std.specs.Prelude.{◌≡◌, ◌*◌, ◌≤◌, length};
ghost use Rattle.sizes.specs.Sizes.{most_words, gap_command, silence_command};
ghost use Rattle.refusals.specs.Writing.{after_writing};
ghost use Rattle.sheet.specs.Reading.{reading};
ghost use Rattle.tidyform.specs.Tidy.{map_bytes, gap_bytes};
ghost use Rattle.tidy.specs.Tidying.{tidying, tidy_answer, tidy_numbers, tidy_outcome};

use gaps::Gap;
use refusals::Refusal;
use sheet::Index;
use sizes::{
    BUDGET_COMMAND, END_COMMAND, GAP_COMMAND, SILENCE_COMMAND, SIZE_COMMAND, TENTHS_COMMAND, WORDS,
};

// The bytes of a tidy form besides its gap, its tones and its words: the size, the budget and the end.
const OTHER_BYTES: usize = SIZE_COMMAND + BUDGET_COMMAND + END_COMMAND;

// How many bytes the gap's command takes.
fn gap_bytes(gap: Gap) -> usize
    ensures { (result ≡ length (gap_bytes gap)) × (result ≤ gap_command) }
{
    match gap {
        Gap::Parts(_) => GAP_COMMAND,
        Gap::Tenths(_) => TENTHS_COMMAND,
    }
}

// How many bytes the silence maps take.
fn words_bytes(maps: &[u32; WORDS]) -> usize
    ensures { (result ≡ length (map_bytes most_words maps.now)) × (result ≤ silence_command * most_words) }
{
    let mut bytes: usize = 0;
    for map in maps {
        if *map != 0 {
            bytes += SILENCE_COMMAND;
        }
    }
    bytes
}

// Writes the tidy form of a sheet to the start of a lent buffer, and answers its length.
pub fn tidy(s: &[u8], out: &mut [u8]) -> Result<usize, Refusal>
    ensures answer { result ≡ tidy_answer (tidying (reading s.now) (length out.old)) }
    ensures numbers { tidy_numbers result ≡ tidy_outcome (tidying (reading s.now) (length out.old)) }
    ensures bytes { out.new ≡ after_writing (tidying (reading s.now) (length out.old)) out.old }
{
    let mut index = Index::empty();
    let header = sheet::read_sheet(s, &mut index)?;
    let bytes = OTHER_BYTES
        + gap_bytes(header.gap)
        + tidylengths::tones_bytes(s, header.size, &index.tones)
        + words_bytes(&index.maps);
    if out.len() < bytes {
        return Err(Refusal::DestinationTooSmall);
    }
    writer::put_line(out, s, header, &index);
    Ok(bytes)
}
