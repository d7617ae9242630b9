// What a host call returns, and the answers that it writes. Document 01: 'For a host program on the bench computer, written in C'.
#![tactic(auto)]

ghost use Rattle.std.specs.Prelude.{List, [], ◌∷◌, ◌≡◌, ℕ, ◌≤◌, length};
ghost use Rattle.sizes.specs.Sizes.{answer_room};
ghost use Rattle.refusals.specs.Refusals.{refusal};
ghost use Rattle.sheet.specs.Reading.{reading};
ghost use Rattle.answers.specs.Answers.{code, answers_in, answered, replied, without_room};

use guarded::GuardedLoad;
use loadings::Refitted;
use refusals::Refusal;
use running::Totals;
use sheet::Checked;

// What a call answers, as the numbers that a host call writes.
pub trait Answer {
    ghost numbers: { Self → List ℕ };

    // Writes them to the start of a buffer.
    fn put(self, buffer: &mut [u8])
        requires { answer_room ≤ length buffer.old }
        ensures { buffer.new ≡ answers_in (numbers self) buffer.old };
}

// Writes numbers to the start of a buffer, 8 bytes each.
fn put_numbers(numbers: &[u64], buffer: &mut [u8])
    requires few { length numbers.now ≤ 3 }
    requires room_enough { answer_room ≤ length buffer.old }
    ensures { buffer.new ≡ answers_in numbers.now buffer.old }
{
    for (i, number) in numbers.iter().enumerate() {
        bigendian::put_number(buffer, 8 * i, 8, *number);
    }
}

// A check answers N, the number of described tones and the number of silenced tones.
impl Answer for Checked {
    ghost numbers = { λ c. c.size ∷ c.described ∷ c.silenced ∷ [] };

    fn put(self, buffer: &mut [u8]) {
        let numbers = [
            self.size as u64,
            self.described as u64,
            self.silenced as u64,
        ];
        put_numbers(&numbers, buffer);
    }
}

// A loading answers total bits and total power.
impl Answer for Totals {
    ghost numbers = { λ t. t.bits ∷ t.power ∷ [] };

    fn put(self, buffer: &mut [u8]) {
        put_numbers(&[self.bits as u64, self.power], buffer);
    }
}

// A re-fit, or one step of it, answers its moves besides.
impl Answer for Refitted {
    ghost numbers = { λ r. r.totals.bits ∷ r.totals.power ∷ r.moves ∷ [] };

    fn put(self, buffer: &mut [u8]) {
        let numbers = [
            self.totals.bits as u64,
            self.totals.power,
            self.moves as u64,
        ];
        put_numbers(&numbers, buffer);
    }
}

// A guarded loading answers total bits and total power, and the plain loading's total bits.
impl Answer for GuardedLoad {
    ghost numbers = { λ g. g.totals.bits ∷ g.totals.power ∷ g.plain ∷ [] };

    fn put(self, buffer: &mut [u8]) {
        let numbers = [
            self.totals.bits as u64,
            self.totals.power,
            self.plain as u64,
        ];
        put_numbers(&numbers, buffer);
    }
}

// A tidying answers its length.
impl Answer for usize {
    ghost numbers = { λ n. n ∷ [] };

    fn put(self, buffer: &mut [u8]) {
        put_numbers(&[self as u64], buffer);
    }
}

// A call that only writes answers nothing.
impl Answer for () {
    ghost numbers = { λ _. [] };

    fn put(self, _buffer: &mut [u8]) {}
}

// What a refused call returns: the refusal's number × 2^32, plus its place.
pub fn refused(why: Refusal) -> u64
    ensures { result ≡ code (refusal 0 why) }
{
    why.number() as u64 * 0x1_0000_0000 + why.place() as u64
}

// A call without room for its answers: the sheet's own refusal, or 8.
pub fn without_room(sheet: &[u8]) -> u64
    ensures { result ≡ code (without_room (reading sheet.now)) }
{
    refused(match sheet::check(sheet) {
        Err(why) => why,
        Ok(_) => Refusal::DestinationTooSmall,
    })
}

// Writes the answers of a call to the start of a buffer, and answers what the call returns. A refusal writes none.
pub fn reply<A: Answer>(answer: Result<A, Refusal>, buffer: &mut [u8]) -> u64
    requires { answer_room ≤ length buffer.old }
    ensures returned { result ≡ code (replied A.numbers answer) }
    ensures bytes { buffer.new ≡ answered (replied A.numbers answer) buffer.old }
{
    match answer {
        Err(why) => refused(why),
        Ok(numbers) => {
            numbers.put(buffer);
            0
        }
    }
}
