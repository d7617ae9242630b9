// The tidy form of a line, written into a lent buffer: document 01, 'The line sheet', and document 02, W1, W5, W6, W8 and W9.
ghost use Rattle.std.specs.Prelude.{◌≡◌, ◌+◌, ◌≤◌, length};
ghost use Rattle.std.proofs.lemmas.List.Edits.{sets};
ghost use Rattle.sizes.specs.Sizes.{most_words};
ghost use Rattle.line.specs.Line.{Line};
ghost use Rattle.sheet.specs.Reading.{accepted, said};
ghost use Rattle.sheet.specs.Index.{Indexed};
ghost use Rattle.tidyform.specs.Tidy.{word_bytes, map_bytes, gap_bytes, head_bytes, tidy};

use gaps::Gap;
use rows::Header;
use sheet::Index;
use sizes::{BUDGET_COMMAND, GAP_COMMAND, SILENCE_COMMAND, SIZE_COMMAND, TENTHS_COMMAND, WORDS};

// The silence command of a word, from a place on, if its map is not zero. Answers the place after it.
fn put_word(out: &mut [u8], at: usize, word: u8, map: u32) -> usize
    requires { at + length (word_bytes word map) ≤ length out.old }
    ensures place { result ≡ at + length (word_bytes word map) }
    ensures bytes { out.new ≡ sets out.old at (word_bytes word map) }
{
    if map == 0 {
        return at;
    }
    out[at] = 6;
    out[at + 1] = word;
    bigendian::put_number(out, at + 2, 4, map as u64);
    at + SILENCE_COMMAND
}

// The silence commands of the words in rising order, from a place on. Answers the place after them.
fn put_words(out: &mut [u8], at: usize, maps: &[u32; WORDS]) -> usize
    requires { at + length (map_bytes most_words maps.now) ≤ length out.old }
    ensures place { result ≡ at + length (map_bytes most_words maps.now) }
    ensures bytes { out.new ≡ sets out.old at (map_bytes most_words maps.now) }
{
    let mut place = at;
    for (word, map) in maps.iter().enumerate() {
        place = put_word(out, place, word as u8, *map);
    }
    place
}

// The gap's command, the one that the sheet had, from a place on. Answers the place after it.
fn put_gap(out: &mut [u8], at: usize, gap: Gap) -> usize
    requires { at + length (gap_bytes gap) ≤ length out.old }
    ensures place { result ≡ at + length (gap_bytes gap) }
    ensures bytes { out.new ≡ sets out.old at (gap_bytes gap) }
{
    match gap {
        Gap::Parts(parts) => {
            out[at] = 2;
            bigendian::put_number(out, at + 1, 2, parts as u64);
            at + GAP_COMMAND
        }
        Gap::Tenths(tenths) => {
            out[at] = 8;
            out[at + 1] = tenths;
            at + TENTHS_COMMAND
        }
    }
}

// The first three commands, from the buffer's start on. Answers the place after them.
fn put_header(out: &mut [u8], header: Header) -> usize
    requires { length (head_bytes header) ≤ length out.old }
    ensures place { result ≡ length (head_bytes header) }
    ensures bytes { out.new ≡ sets out.old 0 (head_bytes header) }
{
    out[0] = 1;
    bigendian::put_number(out, 1, 2, header.size as u64);
    let at = put_gap(out, SIZE_COMMAND, header.gap);
    out[at] = 3;
    bigendian::put_number(out, at + 1, 8, header.budget);
    at + BUDGET_COMMAND
}

// The tidy form of the line that an index of the sheet stands for, from the buffer's start on.
pub(crate) fn put_line(out: &mut [u8], s: &[u8], header: Header, index: &Index)
    requires indexed { Indexed s.now header index.now }
    requires form_in_bounds { (l : Line) → said s.now ≡ accepted l → length (tidy l) ≤ length out.old }
    ensures { (l : Line) → said s.now ≡ accepted l → out.new ≡ sets out.old 0 (tidy l) }
{
    let header_end = put_header(out, header);
    let tones_end = tidytones::put_tones(s, header.size, &index.tones, out, header_end);
    let words_end = put_words(out, tones_end, &index.maps);
    out[words_end] = 7;
}
