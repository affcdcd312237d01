//! MIXCOLUMNS and INVMIXCOLUMNS (FIPS 197, sections 5.1.3 and 5.3.3).
ghost use Rattle.std.specs.Prelude.{◌≡◌};
ghost use Rattle.aes.specs.Field.{xtimes};
ghost use Rattle.aes.specs.State.{inv_mix_columns, mix_columns, row_times};

use crate::state::{State, cell};

// MIXCOLUMNS (section 5.1.3).
pub(crate) fn mix_columns(state: &State) -> State
    ensures { result ≡ mix_columns state.now }
{
    let mut mixed = [0; 16];
    for k in 0..16 {
        let (row, column) = (k % 4, k / 4);
        mixed[k] = mixed_octet(
            cell(state, row, column),
            cell(state, (row + 1) % 4, column),
            cell(state, (row + 2) % 4, column),
            cell(state, (row + 3) % 4, column),
        );
    }
    mixed
}

// INVMIXCOLUMNS (section 5.3.3).
pub(crate) fn inverse_mix_columns(state: &State) -> State
    ensures { result ≡ inv_mix_columns state.now }
{
    let mut mixed = [0; 16];
    for k in 0..16 {
        let (row, column) = (k % 4, k / 4);
        mixed[k] = inverse_mixed_octet(
            cell(state, row, column),
            cell(state, (row + 1) % 4, column),
            cell(state, (row + 2) % 4, column),
            cell(state, (row + 3) % 4, column),
        );
    }
    mixed
}

// The row 02 03 01 01 times a column.
fn mixed_octet(a: u8, b: u8, c: u8, d: u8) -> u8
    ensures { result ≡ row_times 0x02 0x03 0x01 0x01 a b c d }
{
    xtimes(a ^ b) ^ b ^ c ^ d
}

// The row 0e 0b 0d 09 times a column: 8 stands in each of its four factors, 4 in two and 2 in two.
fn inverse_mixed_octet(a: u8, b: u8, c: u8, d: u8) -> u8
    ensures { result ≡ row_times 0x0e 0x0b 0x0d 0x09 a b c d }
{
    let eight = xtimes(xtimes(xtimes(a ^ b ^ c ^ d)));
    let four = xtimes(xtimes(a ^ c));
    let two = xtimes(a ^ b);
    eight ^ four ^ two ^ b ^ c ^ d
}

// XTIMES (section 4.2): the product with x.
fn xtimes(octet: u8) -> u8
    ensures { result ≡ xtimes octet }
{
    let reduction = if octet >> 7 == 1 { 0x1b } else { 0 };
    (octet << 1) ^ reduction
}
