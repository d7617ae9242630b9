// The limits of a sheet's tones, each with what set it, into a lent buffer. Document 02, W3.
#![tactic(auto)]

ghost use Rattle.std.specs.Prelude.{[], ◌∷◌, ◌≡◌, ◌+◌, ◌*◌, ◌≤◌, length};
ghost use Rattle.std.proofs.lemmas.List.Edits.{sets};
ghost use Rattle.sizes.specs.Sizes.{limit_bytes_a_tone};
ghost use Rattle.line.specs.Line.{Line};
ghost use Rattle.refusals.specs.Writing.{write_answer, write_numbers, write_outcome, after_writing};
ghost use Rattle.sheet.specs.Reading.{accepted, said, reading};
ghost use Rattle.sheet.specs.Index.{Indexed};
ghost use Rattle.limits.specs.Limits.{set_by_number, set_by_of, limit_bytes, limiting};

use line::{Limit, SetBy};
use refusals::Refusal;
use rows::Header;
use sheet::Index;
use sizes::LIMIT_BYTES;

// What set a limit, by its number: for whoever reads what the call has written.
pub fn set_by(number: u8) -> SetBy
    ensures { result ≡ set_by_of number }
{
    match number {
        0 => SetBy::Silent,
        1 => SetBy::Cap,
        _ => SetBy::Mask,
    }
}

// The 2 bytes of a tone, from a place on.
fn put_limit(out: &mut [u8], at: usize, limit: Limit)
    requires { at + limit_bytes_a_tone ≤ length out.old }
    ensures { out.new ≡ sets out.old at (limit.bits ∷ set_by_number limit.by ∷ []) }
{
    out[at] = limit.bits;
    out[at + 1] = limit.by as u8;
}

// The limits of the line that an index of the sheet stands for, from the buffer's start on.
fn put_limits(out: &mut [u8], s: &[u8], header: Header, index: &Index)
    requires indexed { Indexed s.now header index.now }
    requires size_in_bounds { limit_bytes_a_tone * header.size ≤ length out.old }
    ensures { (l : Line) → said s.now ≡ accepted l → out.new ≡ sets out.old 0 (limit_bytes l) }
{
    let gap = gaps::parts(header.gap);
    for tone in 0..header.size {
        let i = tone as usize;
        let silenced = silence::is_silenced(&index.maps, tone);
        let steps = arrays::steps_at(s, gap, index.tones[i], silenced);
        put_limit(out, LIMIT_BYTES * i, steps.limit);
    }
}

// Writes the limit of each tone of a sheet, and what set it, to the start of a lent buffer.
pub fn limits(s: &[u8], out: &mut [u8]) -> Result<(), Refusal>
    ensures answer { result ≡ write_answer (limiting (reading s.now) (length out.old)) }
    ensures numbers { write_numbers result ≡ write_outcome (limiting (reading s.now) (length out.old)) }
    ensures bytes { out.new ≡ after_writing (limiting (reading s.now) (length out.old)) out.old }
{
    let mut index = Index::empty();
    let header = sheet::read_sheet(s, &mut index)?;
    if out.len() < LIMIT_BYTES * header.size as usize {
        return Err(Refusal::DestinationTooSmall);
    }
    put_limits(out, s, header, &index);
    Ok(())
}
