// Bytes as text, for the printers: rows of ten hexadecimal cells, and numbers of one or two digits. Digits are put by hand: `write!` would need a
// writer over the lent buffer, and that is no plainer than a digit put at its place.
#![tactic(auto)]

ghost use Rattle.std.specs.Prelude.{◌≡◌, ◌+◌, ◌*◌, ◌≤◌, ◌<◌, length};
ghost use Rattle.std.proofs.lemmas.List.Edits.{sets};
ghost use Rattle.print_text.specs.Rows.{hex_digit, cell_text, row_text, rows_text, decimal};

// The hexadecimal digit of a number below 16.
#[tactic(auto, unfolding(crate::specs::Rows::hex_digit))]
fn hex_digit(n: u8) -> u8
    requires { n < 16 }
    ensures { result ≡ hex_digit n }
{
    if n < 10 { b'0' + n } else { b'a' + (n - 10) }
}

// A cell's two digits.
#[tactic(auto, unfolding(crate::specs::Rows::cell_text))]
fn put_cell(out: &mut [u8], at: usize, cell: u8)
    requires { at + 2 ≤ length out.old }
    ensures { out.new ≡ sets out.old at (cell_text cell) }
{
    out[at] = hex_digit(cell / 16);
    out[at + 1] = hex_digit(cell % 16);
}

// A row's line, of 21 bytes, behind the lines of the rows before it.
#[tactic(auto, using(crate::proofs::Laws::one_cell_more, crate::proofs::Laws::row_ended), unfolding(crate::specs::Rows::cells_text))]
fn put_row(out: &mut [u8], cells: &[u8; 100], row: usize)
    requires { (row < 10) × (210 ≤ length out.old) }
    ensures { out.new ≡ sets out.old (21 * row) (row_text cells.now row) }
{
    let start = 21 * row;
    let first = 10 * row;
    for column in 0..10 {
        put_cell(out, start + 2 * column, cells[first + column]);
    }
    out[start + 20] = b'\n';
}

// The ten lines of a sector's cells, 210 bytes, at the start of `out`.
#[tactic(auto, using(crate::proofs::Laws::one_row_more), unfolding(crate::specs::Rows::rows_text))]
pub fn put_rows(out: &mut [u8], cells: &[u8; 100])
    requires { 210 ≤ length out.old }
    ensures { out.new ≡ sets out.old 0 (rows_text cells.now 10) }
{
    for row in 0..10 {
        put_row(out, cells, row);
    }
}

// A number below 100 in decimal, without a leading zero, and how many digits it has.
#[tactic(auto, unfolding(crate::specs::Rows::decimal))]
pub fn put_decimal(out: &mut [u8], at: usize, number: u8) -> usize
    requires { at + 2 ≤ length out.old }
    ensures count { (result ≤ 2) × (result ≡ length (decimal number)) }
    ensures text { out.new ≡ sets out.old at (decimal number) }
{
    if number < 10 {
        out[at] = b'0' + number;
        return 1;
    }
    out[at] = b'0' + number / 10;
    out[at + 1] = b'0' + number % 10;
    2
}
