// Which tone a command of a sheet addresses, by a short command or by its twin, and where what it carries stands. Document 01, 'The line
// sheet', and document 02, W8.
#![tactic(auto)]

ghost use Rattle.std.specs.Prelude.{◌≡◌, ◌+◌, ◌≤◌, ◌<◌, length, get_or};
ghost use Rattle.bigendian.specs.Number.{byte_base, number};
ghost use Rattle.addresses.specs.Addresses.{twin, code_of, number_width, short_of, addressed, carried_at};

// How much higher the byte of a twin is than that of the short command.
pub const TWIN: u8 = 0x10;

// The base of a byte.
const BYTE: u16 = 256;

// The byte at a place, or 0 past the end. Not an Option: every caller reads past the end as 0, as the definitions do.
pub fn byte_at(s: &[u8], at: usize) -> u8
    ensures { result ≡ get_or s.now at 0 }
{
    if at < s.len() {
        return s[at];
    }
    0
}

// How many bytes the tone number of a command has, by its byte.
pub fn number_width(code: u8) -> usize
    ensures { (result ≡ number_width code) × (result ≤ 2) }
{
    if code < TWIN {
        return 1;
    }
    2
}

// The byte of the short command, by the byte of a command.
pub fn short_of(code: u8) -> u8
    ensures { result ≡ short_of code }
{
    if code < TWIN {
        return code;
    }
    code - TWIN
}

// The byte of a command whose tone number has so many bytes, by the byte of the short command.
pub fn code_of(width: usize, short: u8) -> u8
    requires le_width { 1 ≤ width }
    requires width_bound { width ≤ 2 }
    requires twin_bound { short + twin < byte_base }
    ensures { result ≡ code_of width short }
{
    if width < 2 {
        return short;
    }
    short + TWIN
}

// The tone number of the command at a place, by its byte.
pub fn tone_number(s: &[u8], place: usize, code: u8) -> u16
    requires { place ≤ length s.now }
    ensures { result ≡ number s.now (place + 1) (number_width code) }
{
    let first = byte_at(s, place + 1) as u16;
    if code < TWIN {
        return first;
    }
    first * BYTE + byte_at(s, place + 2) as u16
}

// The tone that the command at a place addresses, if it addresses one.
pub fn addressed(s: &[u8], place: usize) -> u16
    ensures { result ≡ addressed s.now place }
{
    if s.len() <= place {
        return 0;
    }
    tone_number(s, place, s[place])
}

// Where what the command at a place carries stands.
pub fn carried_at(s: &[u8], place: u16) -> u32
    ensures { result ≡ carried_at s.now place }
{
    place as u32 + 1 + number_width(byte_at(s, place as usize)) as u32
}
