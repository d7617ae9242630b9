// The guarded loading: the table for most bits at every high noise, and the total bits of the plain one. Document 02, W9.
#![tactic(auto)]

ghost use Rattle.std.specs.Prelude.{◌≡◌, ◌<◌, length};
ghost use Rattle.line.specs.Tone.{InRange};
ghost use Rattle.line.specs.Line.{Line};
ghost use Rattle.line.specs.Arrays.{ArraysOf};
ghost use Rattle.places.specs.Places.{tone_at, high_at};
ghost use Rattle.noises.specs.Noises.{with_noise, at_high};
ghost use Rattle.loadings.specs.Loads.{after_loading};
ghost use Rattle.sheet.specs.Reading.{accepted, said, reading};
ghost use Rattle.sheet.specs.Index.{Indexed};
ghost use Rattle.guarded.specs.Guarded.{guarding, plain_bits, guarded_answer, guarded_numbers, guarded_outcome, raised_tone};

use line::Steps;
use places::Noted;
use refusals::Refusal;
use rows::Header;
use running::Totals;
use sheet::Index;
use sizes::TONES;

// What a guarded loading answers: total bits and total power, and the total bits of the plain loading.
#[derive(Clone, Copy)]
pub struct GuardedLoad {
    pub totals: Totals,
    pub plain: u32,
}

// The steps of a tone at its high noise, by where its commands stand; those that it has where no high noise stands, or where it is silenced.
fn raise_tone(s: &[u8], gap: u16, noted: Noted, silenced: bool, steps: Steps) -> Steps
    requires { 0 < noted.high → InRange gap (with_noise (high_at s.now noted.high) (tone_at s.now noted.own)) }
    ensures { result ≡ raised_tone gap s.now noted «silenced» steps }
{
    if noted.high < 1 || silenced {
        return steps;
    }
    let noise = noises::high_at(s, noted.high);
    let tone = places::tone_at(s, noted.own);
    line::steps_of(gap, noises::with_noise(noise, tone), steps.rest)
}

// Raises a line's tones from its low noises to its high ones.
fn raise(s: &[u8], header: Header, index: &Index, tones: &mut [Steps; TONES])
    requires indexed { Indexed s.now header index.now }
    requires holds { (l : Line) → said s.now ≡ accepted l → ArraysOf l tones.old }
    ensures { (l : Line) → said s.now ≡ accepted l → ArraysOf (at_high l) tones.new }
{
    let gap = gaps::parts(header.gap);
    for tone in 0..header.size {
        let i = tone as usize;
        let silenced = silence::is_silenced(&index.maps, tone);
        tones[i] = raise_tone(s, gap, index.tones[i], silenced, tones[i]);
    }
}

// The guarded loading of the line that an index of the sheet stands for.
fn load_line(
    s: &[u8],
    header: Header,
    index: &Index,
    table: &mut [u8],
) -> Result<GuardedLoad, Refusal>
    requires indexed { Indexed s.now header index.now }
    requires judged { (l : Line) → said s.now ≡ accepted l → reading s.now ≡ accepted l }
    ensures answer { result ≡ guarded_answer (plain_bits (reading s.now)) (guarding (reading s.now) (length table.old)) }
    ensures bytes { table.new ≡ after_loading (guarding (reading s.now) (length table.old)) table.old }
{
    let size = header.size as usize;
    let mut tones = [Steps::NONE; TONES];
    arrays::fill_arrays(s, header, index, &mut tones);
    let plain = loadings::most_bits(header.budget, &tones[..size]);
    raise(s, header, index, &mut tones);
    let totals = loadings::most(header.budget, &tones[..size], table)?;
    Ok(GuardedLoad { totals, plain })
}

// Loads a sheet for most bits at every high noise, and answers the total bits of the plain loading too.
pub fn guarded(s: &[u8], table: &mut [u8]) -> Result<GuardedLoad, Refusal>
    ensures answer { result ≡ guarded_answer (plain_bits (reading s.now)) (guarding (reading s.now) (length table.old)) }
    ensures numbers { guarded_numbers result ≡ guarded_outcome (plain_bits (reading s.now)) (guarding (reading s.now) (length table.old)) }
    ensures bytes { table.new ≡ after_loading (guarding (reading s.now) (length table.old)) table.old }
{
    let mut index = Index::empty();
    let header = sheet::read_sheet(s, &mut index)?;
    load_line(s, header, &index, table)
}
