// The buffers of the test program: filled, compared, kept in bounds.
#![tactic(auto)]

ghost use Rattle.std.specs.Prelude.{ℕ, ◌<◌, min, true, false, ◌≡◌, length, get_or};
ghost use Rattle.io.specs.Counts.{IsPrefixLen};
ghost use Rattle.samplebuffers.specs.Buffers.{room, fill, text_room, SameBytes};

use sizes::SHEET_BYTES;

// Room for a sheet or a table: the longest sheet and 100 bytes, so that a sheet may be too long.
pub const ROOM: usize = SHEET_BYTES + 100;
// Room for the text.
const TEXT_ROOM: usize = 524_288;
// What a buffer is filled with, so that a byte that is written shows.
const FILL: u8 = 0xa5;

// A buffer for the text.
pub fn text_buffer() -> [u8; TEXT_ROOM]
    ensures sized { text_room ≡ length result }
    ensures bytes { (i : ℕ) → i < text_room → get_or result i 0 ≡ 0 }
{
    [0; TEXT_ROOM]
}

// A buffer for a sheet or a table, every byte of it 0xa5.
pub fn filled() -> [u8; ROOM]
    ensures sized { room ≡ length result }
    ensures bytes { (i : ℕ) → i < room → get_or result i 0 ≡ fill }
{
    [FILL; ROOM]
}

// A length as a number of a buffer's bytes.
pub fn within(n: usize, buffer: &[u8]) -> usize
    ensures prefix_len { IsPrefixLen result buffer.now }
    ensures number { result ≡ min n (length buffer.now) }
{
    n.min(buffer.len())
}

// Whether two buffers hold the same bytes.
pub fn same(a: &[u8; ROOM], b: &[u8; ROOM]) -> bool
    ensures yes { result ≡ true → SameBytes room a.now b.now }
    ensures no { result ≡ false → SameBytes room a.now b.now → ⊥ }
{
    a == b
}
