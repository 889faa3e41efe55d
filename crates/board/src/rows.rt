// The settings that are ready for use.
ghost use Rattle.std.specs.Prelude.{◌≡◌, ◌≤◌};
ghost use Rattle.board.specs.Rows.{row_start, row_of};

// The numbers of one row.
#[repr(C)]
#[derive(Clone, Copy, PartialEq, Eq)]
pub struct Row {
    pub m: u16,
    pub n: u16,
    pub t: u16,
    pub d: u16,
    pub a: u16,
}

// Rows 1 normal, 2 emergency, 3 short and normal, 4 short and emergency: M, N, T, D, A. Row 0 is none.
// One list and not a table of rows: where each row starts is part of the definition (row_start).
static ROWS: [u16; 25] = [
    0, 0, 0, 0, 0, 278, 16, 64, 256, 4, 278, 16, 64, 256, 1, 278, 16, 32, 256, 4, 278, 16, 32, 256,
    1,
];

// The numbers of a row, and zeros, which opening refuses, for a number that is no row's: no Option, since the C export gives a row for
// each number.
#[tactic(auto, unfolding(crate::specs::Rows::row_of, crate::specs::Rows::table))]
pub fn numbers(number: u16) -> Row
    ensures { result ≡ row_of number }
{
    let at = row_start(number);
    Row {
        m: ROWS[at],
        n: ROWS[at + 1],
        t: ROWS[at + 2],
        d: ROWS[at + 3],
        a: ROWS[at + 4],
    }
}

// Where a row's numbers start.
fn row_start(number: u16) -> usize
    ensures { (result ≡ row_start number) × (result ≤ 20) }
{
    if number <= 4 {
        usize::from(number) * 5
    } else {
        0
    }
}
