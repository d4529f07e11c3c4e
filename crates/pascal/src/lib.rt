// The binomial coefficients, read from Pascal's triangle: one constant table of its rows 0 to 24, with the proof that each
// number of it is the binomial coefficient of its row and place. What is answered is in specs/. Assumes nothing.
#![tactic(auto)]

ghost use Rattle.std.specs.Prelude.{◌≡◌, ◌≤◌, ◌<◌, get_or};
ghost use Rattle.pascal.specs.Entry.{last_row, early_row, place_of, entry};
ghost use Rattle.pascal.specs.Table.{table};

// The number of the table's last row.
const LAST_ROW: usize = 24;

// The number of the last row of path weights.
const EARLY_ROW: usize = 6;

// The rows 0 to 24 one after the other, row n from n(n + 1)/2 on.
static TABLE: [u64; 325] = [
    // row 0
    1,
    // row 1
    1, 1,
    // row 2
    1, 2, 1,
    // row 3
    1, 3, 3, 1,
    // row 4
    1, 4, 6, 4, 1,
    // row 5
    1, 5, 10, 10, 5, 1,
    // row 6
    1, 6, 15, 20, 15, 6, 1,
    // row 7
    1, 7, 21, 35, 35, 21, 7, 1,
    // row 8
    1, 8, 28, 56, 70, 56, 28, 8, 1,
    // row 9
    1, 9, 36, 84, 126, 126, 84, 36, 9, 1,
    // row 10
    1, 10, 45, 120, 210, 252, 210, 120, 45, 10, 1,
    // row 11
    1, 11, 55, 165, 330, 462, 462, 330, 165, 55, 11, 1,
    // row 12
    1, 12, 66, 220, 495, 792, 924, 792, 495, 220, 66, 12, 1,
    // row 13
    1, 13, 78, 286, 715, 1287, 1716, 1716, 1287, 715, 286, 78, 13, 1,
    // row 14
    1, 14, 91, 364, 1001, 2002, 3003, 3432, 3003, 2002, 1001, 364, 91, 14, 1,
    // row 15
    1, 15, 105, 455, 1365, 3003, 5005, 6435, 6435, 5005, 3003, 1365, 455, 105, 15, 1,
    // row 16
    1, 16, 120, 560, 1820, 4368, 8008, 11440, 12870, 11440, 8008, 4368, 1820, 560, 120, 16, 1,
    // row 17
    1, 17, 136, 680, 2380, 6188, 12376, 19448, 24310, 24310, 19448, 12376, 6188, 2380, 680, 136,
    17, 1,
    // row 18
    1, 18, 153, 816, 3060, 8568, 18564, 31824, 43758, 48620, 43758, 31824, 18564, 8568, 3060, 816,
    153, 18, 1,
    // row 19
    1, 19, 171, 969, 3876, 11628, 27132, 50388, 75582, 92378, 92378, 75582, 50388, 27132, 11628,
    3876, 969, 171, 19, 1,
    // row 20
    1, 20, 190, 1140, 4845, 15504, 38760, 77520, 125970, 167960, 184756, 167960, 125970, 77520,
    38760, 15504, 4845, 1140, 190, 20, 1,
    // row 21
    1, 21, 210, 1330, 5985, 20349, 54264, 116280, 203490, 293930, 352716, 352716, 293930, 203490,
    116280, 54264, 20349, 5985, 1330, 210, 21, 1,
    // row 22
    1, 22, 231, 1540, 7315, 26334, 74613, 170544, 319770, 497420, 646646, 705432, 646646, 497420,
    319770, 170544, 74613, 26334, 7315, 1540, 231, 22, 1,
    // row 23
    1, 23, 253, 1771, 8855, 33649, 100947, 245157, 490314, 817190, 1144066, 1352078, 1352078,
    1144066, 817190, 490314, 245157, 100947, 33649, 8855, 1771, 253, 23, 1,
    // row 24
    1, 24, 276, 2024, 10626, 42504, 134596, 346104, 735471, 1307504, 1961256, 2496144, 2704156,
    2496144, 1961256, 1307504, 735471, 346104, 134596, 42504, 10626, 2024, 276, 24, 1,
];

// The number at a place of the table.
fn number(at: usize) -> u64
    requires { at < 325 }
    ensures { result ≡ get_or table at 0 }
{
    TABLE[at]
}

// Where place k of row n stands.
// kept: what may not change: `binomial` and `weight` take n and k, and answer for every two.
fn place(n: usize, k: usize) -> usize
    requires { (n ≤ last_row) × (k ≤ n) }
    ensures { result ≡ place_of n k }
{
    n * (n + 1) / 2 + k
}

// n over k up to a last row; 0 for k above n, and for a row after it.
fn entry(last: usize, n: usize, k: usize) -> u64
    requires { last ≤ last_row }
    ensures { result ≡ entry last n k }
{
    if n > last || k > n {
        return 0;
    }
    number(place(n, k))
}

// n over k up to the last row; 0 for k above n, and for a row that the table does not have.
pub fn binomial(n: usize, k: usize) -> u64
    ensures { result ≡ entry last_row n k }
{
    entry(LAST_ROW, n, k)
}

// The same up to row 6: the weights of a path's points.
pub fn weight(n: usize, k: usize) -> u64
    ensures { result ≡ entry early_row n k }
{
    entry(EARLY_ROW, n, k)
}
