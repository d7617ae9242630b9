// Reading a line sheet: document 01, 'The line sheet' and 'Why a sheet is turned down'. The bytes are checked once; what is left is an
// index into them, in a lent value. Document 02, W6: then whether the rests keep the budget.
#![tactic(auto)]

ghost use Rattle.std.specs.Prelude.{◌≡◌, ◌≤◌, ltb, length, get_or};
ghost use Rattle.sizes.specs.Sizes.{most_tones};
ghost use Rattle.silence.specs.Map.{count};
ghost use Rattle.line.specs.Line.{Line};
ghost use Rattle.places.specs.Places.{nowhere};
ghost use Rattle.sheet.specs.Check.{checking, check_numbers, check_outcome};
ghost use Rattle.sheet.specs.Index.{empty_index, Indexes, ReadsAs, answer_of};
ghost use Rattle.sheet.specs.Reading.{accepted, said, reading};

use gaps::Gap;
use places::Noted;
use refusals::Refusal;
use rows::{Command, Header};
use sizes::{TONES, WORDS};

// An index of a sheet: what is noted of each tone, and the joined silence maps.
#[derive(Drop)]
pub struct Index {
    pub tones: [Noted; TONES],
    pub maps: [u32; WORDS],
}

impl Index {
    // Nothing is noted of any tone, and no tone is silenced.
    #[inline]
    pub fn empty() -> Index
        ensures { result ≡ empty_index }
    {
        Index {
            tones: [Noted::NOWHERE; TONES],
            maps: [0; WORDS],
        }
    }

    // What is noted of a tone: nothing of one that no line has.
    fn noted(&self, tone: u16) -> Noted
        ensures { result ≡ get_or self.now.tones tone nowhere }
    {
        let i = tone as usize;
        if i < TONES {
            return self.tones[i];
        }
        Noted::NOWHERE
    }
}

// Reads the commands of a sheet one after the other, and notes where each tone's stands, where its rest's and its high noise's do, and
// which tones the maps silence: what the bytes say. After a refusal the index is as far as it was read.
pub fn read_commands(s: &[u8], index: &mut Index) -> Result<Header, Refusal>
    requires { index.old ≡ empty_index }
    ensures answer { result ≡ answer_of (said s.now) }
    ensures index { (l : Line) → said s.now ≡ accepted l → Indexes s.now index.new l }
{
    let mut header = Header {
        size: 0,
        gap: Gap::Parts(0),
        budget: 0,
    };
    let mut stage: u8 = 0;
    let mut at: usize = 0;
    // No `for`: each command says where the next one stands.
    loop {
        let noted = index.noted(addresses::addressed(s, at));
        let decoded = command::decode(s, at, stage, header, noted);
        match decoded.command? {
            Command::End => {
                if decoded.next < s.len() {
                    return Err(Refusal::BytesAfterEnd(decoded.next as u16));
                }
                return Ok(header);
            }
            Command::Head(h) => {
                header = h;
                stage += 1;
            }
            Command::Describe(i) => index.tones[i as usize].own = at as u16,
            Command::Rest(i) => index.tones[i as usize].rest = at as u16,
            Command::High(i) => index.tones[i as usize].high = at as u16,
            Command::Silence(word, map) => index.maps[word as usize] |= map,
        }
        at = decoded.next;
    }
}

// What the bytes say, and then refusal 16: the rests of a line add up to more than its budget. After a refusal the index is as far as it was
// read.
fn read_within_budget(s: &[u8], index: &mut Index) -> Result<Header, Refusal>
    requires { index.old ≡ empty_index }
    ensures answer { result ≡ answer_of (reading s.now) }
    ensures index { (l : Line) → reading s.now ≡ accepted l → Indexes s.now index.new l }
{
    let header = read_commands(s, index)?;
    if header.budget < rests::rest_total(s, header.size, &index.tones, &index.maps) {
        return Err(Refusal::RestsOverBudget);
    }
    Ok(header)
}

// Reads a sheet: its header, or the first refusal that it meets. If it is accepted the index is then one of its line, whatever it was
// before; if it is refused it is empty.
pub fn read_sheet(s: &[u8], index: &mut Index) -> Result<Header, Refusal>
    ensures { ReadsAs s.now result index.new (reading s.now) }
{
    *index = Index::empty();
    let read = read_within_budget(s, index);
    if read.is_err() {
        *index = Index::empty();
    }
    read
}

// How many of the first so many tones have a place.
fn placed_count(size: u16, tones: &[Noted; TONES]) -> u16
    requires { size ≤ most_tones }
    ensures { result ≡ count size (λ i. ltb 0 (get_or tones.now i nowhere).own) }
{
    let mut n: u16 = 0;
    for tone in 0..size {
        if 0 < tones[tone as usize].own {
            n += 1;
        }
    }
    n
}

// What a check of a sheet answers: N, the number of described tones and the number of silenced tones.
#[derive(Clone, Copy)]
pub struct Checked {
    pub size: u16,
    pub described: u16,
    pub silenced: u16,
}

// Checks a sheet.
pub fn check(s: &[u8]) -> Result<Checked, Refusal>
    ensures answer { result ≡ checking (reading s.now) }
    ensures numbers { check_numbers result ≡ check_outcome (reading s.now) }
{
    let mut index = Index::empty();
    let header = read_sheet(s, &mut index)?;
    Ok(Checked {
        size: header.size,
        described: placed_count(header.size, &index.tones),
        silenced: silence::silenced_count(&index.maps) as u16,
    })
}
