// The tones of a sheet as an array of their steps, so that the runs have one path for both kinds. Each tone is decoded from its place in the
// sheet, once.
#![tactic(auto)]

ghost use Rattle.std.specs.Prelude.{◌≡◌, ◌<◌};
ghost use Rattle.line.specs.Tone.{InRange};
ghost use Rattle.line.specs.Line.{entry_steps};
ghost use Rattle.places.specs.Places.{tone_at, entry_noted};
ghost use Rattle.sheet.specs.Reading.{said, reading};
ghost use Rattle.arrays.specs.Tones.{Blank, IndexedLow, HoldsLineOf, TonesOf};

use line::Steps;
use places::Noted;
use refusals::Refusal;
use rows::Header;
use sheet::Index;
use sizes::TONES;

// What is found of a tone at its own noise, by where its commands stand: nothing where none describes it, or where it is silenced.
pub fn steps_at(s: &[u8], gap: u16, noted: Noted, silenced: bool) -> Steps
    requires { 0 < noted.own → InRange gap (tone_at s.now noted.own) }
    ensures { result ≡ entry_steps gap (entry_noted s.now noted) «silenced» }
{
    if silenced || noted.own < 1 {
        return Steps::NONE;
    }
    let tone = places::tone_at(s, noted.own);
    let rest = places::rest_at(s, noted.rest);
    line::steps_of(gap, tone, rest)
}

// The tones of the line that an index of the sheet stands for, filled from nothing: of each tone at its own noise.
pub fn fill_arrays(s: &[u8], header: Header, index: &Index, tones: &mut [Steps; TONES])
    requires indexed_low { IndexedLow s.now header index.now }
    requires blank { Blank tones.old }
    ensures { HoldsLineOf (said s.now) tones.new }
{
    let gap = gaps::parts(header.gap);
    for tone in 0..header.size {
        let i = tone as usize;
        let silenced = silence::is_silenced(&index.maps, tone);
        tones[i] = steps_at(s, gap, index.tones[i], silenced);
    }
}

// Reads a sheet into an array of its tones, which has nothing in it: its header, or the first refusal that it meets. After a refusal the
// array is as it was.
pub fn read_tones(s: &[u8], tones: &mut [Steps; TONES]) -> Result<Header, Refusal>
    requires { Blank tones.old }
    ensures { TonesOf result tones.old tones.new (reading s.now) }
{
    let mut index = Index::empty();
    let header = sheet::read_sheet(s, &mut index)?;
    fill_arrays(s, header, &index, tones);
    Ok(header)
}
