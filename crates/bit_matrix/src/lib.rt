// Tables of 64 rows of 64 columns, a row a u64 number; rows and columns exchanged.
#![tactic(auto)]

ghost use Rattle.std.specs.Prelude.{◌≡◌, ◌+◌, ◌*◌, ◌≤◌, ◌<◌};
ghost use Rattle.bit_matrix.specs.Matrices.{transposed};
ghost use Rattle.bit_matrix.specs.Transposition.{RowsExchanged, digit_exchanged};

// For each binary digit of column numbers the columns whose digit is 0.
const ZERO_COLUMNS: [u64; 6] = [
    0x5555_5555_5555_5555,
    0x3333_3333_3333_3333,
    0x0f0f_0f0f_0f0f_0f0f,
    0x00ff_00ff_00ff_00ff,
    0x0000_ffff_0000_ffff,
    0x0000_0000_ffff_ffff,
];

// Exchanges the columns outside m of the j rows from `at` on with the columns in m, j places lower, of the j rows behind them.
fn exchange_rows(rows: &mut [u64; 64], at: usize, j: usize, m: u64)
    requires { (0 < j) × (at + 2 * j ≤ 64) }
    ensures { RowsExchanged j m at (at + j) rows.old rows.new }
{
    for p in at..at + j {
        let q = p + j;
        let a = rows[p];
        let b = rows[q];
        rows[p] = (a & m) | ((b << j) & !m);
        rows[q] = ((a >> j) & m) | (b & !m);
    }
}

// Exchanges the binary digit k of row and column numbers: what stood in row p, column q moves to the row p with q's digit,
// column q with p's.
fn exchange_digit(rows: &mut [u64; 64], k: usize)
    requires { k < 6 }
    ensures { rows.new ≡ digit_exchanged k rows.old }
{
    let j: usize = 1 << k;
    for at in (0..64).step_by(2 * j) {
        exchange_rows(rows, at, j, ZERO_COLUMNS[k]);
    }
}

// The table with rows and columns exchanged, digit by digit of their numbers.
// kept: six calls, since `for k in 0..6` takes 1,412 instructions in place of 1,347, and a check of soundness a tenth more time.
pub fn transpose(rows: [u64; 64]) -> [u64; 64]
    ensures { result ≡ transposed rows }
{
    let mut table = rows;
    exchange_digit(&mut table, 0);
    exchange_digit(&mut table, 1);
    exchange_digit(&mut table, 2);
    exchange_digit(&mut table, 3);
    exchange_digit(&mut table, 4);
    exchange_digit(&mut table, 5);
    table
}
