//! The state of 16 octets, and the steps that work on it octet by octet (FIPS 197, sections 3.4, 5.1
//! and 5.3).
ghost use Rattle.std.specs.Prelude.{◌≡◌, ◌≤◌, ◌<◌, slice_index};
ghost use Rattle.aes.specs.State.{add_round_key, cell, inv_shift_rows, inv_sub_bytes, shift_rows, sub_bytes};

use crate::key_schedule::{ROUNDS, Schedule};
use crate::substitution::{inverse_sub_byte, sub_byte};

// Four rows and four columns, column by column (section 3.4).
pub(crate) type State = [u8; 16];

// The octet of a row and a column.
pub(crate) fn cell(state: &State, row: usize, column: usize) -> u8
    requires row { row < 4 }
    requires column { column < 4 }
    ensures { result ≡ cell state.now row column }
{
    state[row + 4 * column]
}

// SUBBYTES (section 5.1.1).
pub(crate) fn sub_bytes(state: &State) -> State
    ensures { result ≡ sub_bytes state.now }
{
    let mut substituted = [0; 16];
    for k in 0..16 {
        substituted[k] = sub_byte(cell(state, k % 4, k / 4));
    }
    substituted
}

// INVSUBBYTES (section 5.3.2).
pub(crate) fn inverse_sub_bytes(state: &State) -> State
    ensures { result ≡ inv_sub_bytes state.now }
{
    let mut substituted = [0; 16];
    for k in 0..16 {
        substituted[k] = inverse_sub_byte(cell(state, k % 4, k / 4));
    }
    substituted
}

// SHIFTROWS (section 5.1.2).
pub(crate) fn shift_rows(state: &State) -> State
    ensures { result ≡ shift_rows state.now }
{
    let mut shifted = [0; 16];
    for k in 0..16 {
        shifted[k] = cell(state, k % 4, (k / 4 + k % 4) % 4);
    }
    shifted
}

// INVSHIFTROWS (section 5.3.1).
pub(crate) fn inverse_shift_rows(state: &State) -> State
    ensures { result ≡ inv_shift_rows state.now }
{
    let mut shifted = [0; 16];
    for k in 0..16 {
        shifted[k] = cell(state, k % 4, (k / 4 + 4 - k % 4) % 4);
    }
    shifted
}

// ADDROUNDKEY (section 5.1.4).
pub(crate) fn add_round_key(schedule: &Schedule, round: usize, state: &State) -> State
    requires { round ≤ ROUNDS }
    ensures { result ≡ add_round_key schedule.now round state.now }
{
    let mut added = [0; 16];
    for k in 0..16 {
        added[k] = cell(state, k % 4, k / 4) ^ key_octet(schedule, 4 * (4 * round + k / 4) + k % 4);
    }
    added
}

fn key_octet(schedule: &Schedule, place: usize) -> u8
    requires { place < 240 }
    ensures { result ≡ slice_index schedule.now place }
{
    schedule[place]
}
