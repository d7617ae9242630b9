// The gap of a line, in either of the units that a sheet gives it in: document 01, 'Cost, power and limit of a tone', and document 02, W1.
#![tactic(auto)]

ghost use Rattle.std.specs.Prelude.{◌≡◌, ◌≤◌};
ghost use Rattle.gaps.specs.Gap.{most_tenths, gap_of_tenths, TenthsTable, parts};

// The unit of the gap: a gap of 256 is none.
pub const GAP_UNIT: u64 = 256;

// The largest gap in tenths of a decibel: 24 dB.
pub const MOST_TENTHS: u8 = 240;

// A gap in parts of 256, or in tenths of a decibel. Which of the two a sheet has belongs to the line.
#[derive(Clone, Copy)]
pub enum Gap {
    Parts(u16),
    Tenths(u8),
}

// The gap in parts of 256 of each tenth of a decibel, as tests/gaps prints them.
const GAPS: [u16; 241] = [
    256, 262, 269, 275, 281, 288, 294, 301, 308, 315, 323, 330, 338, 346, 354, 362, 371, 379, 388,
    397, 406, 416, 425, 435, 445, 456, 466, 477, 488, 500, 511, 523, 535, 548, 561, 574, 587, 601,
    615, 629, 644, 659, 674, 690, 706, 722, 739, 756, 774, 792, 810, 829, 848, 868, 888, 909, 930,
    952, 974, 996, 1020, 1043, 1068, 1093, 1118, 1144, 1171, 1198, 1226, 1254, 1284, 1313, 1344,
    1375, 1407, 1440, 1474, 1508, 1543, 1579, 1616, 1653, 1692, 1731, 1772, 1813, 1855, 1898, 1942,
    1988, 2034, 2081, 2130, 2179, 2230, 2282, 2335, 2390, 2445, 2502, 2560, 2620, 2681, 2744, 2807,
    2873, 2940, 3008, 3078, 3150, 3223, 3298, 3375, 3454, 3534, 3617, 3701, 3787, 3875, 3965, 4058,
    4152, 4249, 4348, 4449, 4553, 4659, 4767, 4878, 4992, 5108, 5227, 5349, 5474, 5601, 5732, 5865,
    6002, 6142, 6285, 6431, 6581, 6734, 6891, 7051, 7216, 7384, 7556, 7732, 7912, 8096, 8284, 8477,
    8675, 8877, 9084, 9295, 9512, 9733, 9960, 10192, 10429, 10672, 10921, 11175, 11436, 11702,
    11975, 12253, 12539, 12831, 13130, 13436, 13749, 14069, 14396, 14732, 15075, 15426, 15785,
    16153, 16529, 16914, 17308, 17711, 18124, 18546, 18978, 19420, 19872, 20335, 20809, 21294,
    21790, 22297, 22817, 23348, 23892, 24448, 25018, 25600, 26197, 26807, 27431, 28070, 28724,
    29393, 30078, 30778, 31495, 32229, 32980, 33748, 34534, 35338, 36161, 37004, 37866, 38748,
    39650, 40574, 41519, 42486, 43476, 44488, 45524, 46585, 47670, 48780, 49917, 51079, 52269,
    53486, 54732, 56007, 57312, 58647, 60013, 61411, 62841, 64305,
];

// The gap in parts of 256 of so many tenths of a decibel, from a table of them.
fn of_tenths(gaps: &[u16; 241], tenths: u8) -> u16
    requires tenths_table { TenthsTable gaps.now }
    requires tenths_le_most_tenths { tenths ≤ most_tenths }
    ensures { result ≡ gap_of_tenths tenths }
{
    gaps[tenths as usize]
}

// A gap in parts of 256, in whichever unit it was given; 0 of more tenths than a sheet may have. Not an Option: no line has such a gap, and its
// callers need no second case for it.
pub fn parts(gap: Gap) -> u16
    ensures { result ≡ parts gap }
{
    match gap {
        Gap::Parts(parts) => parts,
        Gap::Tenths(tenths) => {
            if MOST_TENTHS < tenths {
                return 0;
            }
            of_tenths(&GAPS, tenths)
        }
    }
}
