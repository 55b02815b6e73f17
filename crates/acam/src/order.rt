// The order of the columns, fewest ones first, and the ones of a column.
ghost use Rattle.std.specs.Prelude.{◌≡◌, suc, ◌≤◌};
ghost use Rattle.parity.specs.Lists.{tabulate};
ghost use Rattle.parity.specs.Matrix.{weight, column_order};
ghost use Rattle.acam.specs.Matrices.{choose};

// The 255 nonzero bytes, fewest ones first, and increasing among equals.
const ORDER: [u8; 255] = [
    1, 2, 4, 8, 16, 32, 64, 128, 3, 5, 6, 9, 10, 12, 17, 18, 20, 24, 33, 34, 36, 40, 48, 65, 66,
    68, 72, 80, 96, 129, 130, 132, 136, 144, 160, 192, 7, 11, 13, 14, 19, 21, 22, 25, 26, 28, 35,
    37, 38, 41, 42, 44, 49, 50, 52, 56, 67, 69, 70, 73, 74, 76, 81, 82, 84, 88, 97, 98, 100, 104,
    112, 131, 133, 134, 137, 138, 140, 145, 146, 148, 152, 161, 162, 164, 168, 176, 193, 194, 196,
    200, 208, 224, 15, 23, 27, 29, 30, 39, 43, 45, 46, 51, 53, 54, 57, 58, 60, 71, 75, 77, 78, 83,
    85, 86, 89, 90, 92, 99, 101, 102, 105, 106, 108, 113, 114, 116, 120, 135, 139, 141, 142, 147,
    149, 150, 153, 154, 156, 163, 165, 166, 169, 170, 172, 177, 178, 180, 184, 195, 197, 198, 201,
    202, 204, 209, 210, 212, 216, 225, 226, 228, 232, 240, 31, 47, 55, 59, 61, 62, 79, 87, 91, 93,
    94, 103, 107, 109, 110, 115, 117, 118, 121, 122, 124, 143, 151, 155, 157, 158, 167, 171, 173,
    174, 179, 181, 182, 185, 186, 188, 199, 203, 205, 206, 211, 213, 214, 217, 218, 220, 227, 229,
    230, 233, 234, 236, 241, 242, 244, 248, 63, 95, 111, 119, 123, 125, 126, 159, 175, 183, 187,
    189, 190, 207, 215, 219, 221, 222, 231, 235, 237, 238, 243, 245, 246, 249, 250, 252, 127, 191,
    223, 239, 247, 251, 253, 254, 255,
];

// The table is written anew at each call, so it is taken once and then read.
pub(crate) fn column_order() -> [u8; 255]
    ensures { result ≡ column_order }
{
    ORDER
}

// How many of the numbers below 2^checks have 1, 2, .., 8 ones. By cases, since a table would be written anew at each call.
#[tactic(auto, unfolding(crate::specs::Matrices::choose))]
pub(crate) fn choices(checks: usize) -> [u8; 8]
    requires { checks ≤ 8 }
    ensures { result ≡ tabulate 8 (λ w. choose checks (suc w)) }
{
    match checks {
        0 => [0, 0, 0, 0, 0, 0, 0, 0],
        1 => [1, 0, 0, 0, 0, 0, 0, 0],
        2 => [2, 1, 0, 0, 0, 0, 0, 0],
        3 => [3, 3, 1, 0, 0, 0, 0, 0],
        4 => [4, 6, 4, 1, 0, 0, 0, 0],
        5 => [5, 10, 10, 5, 1, 0, 0, 0],
        6 => [6, 15, 20, 15, 6, 1, 0, 0],
        7 => [7, 21, 35, 35, 21, 7, 1, 0],
        _ => [8, 28, 56, 70, 56, 28, 8, 1],
    }
}

// The ones of a column.
pub fn ones(column: u8) -> usize
    ensures { result ≡ weight column }
{
    column.count_ones() as usize
}
