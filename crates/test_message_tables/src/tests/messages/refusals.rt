//! Each limit and each rule of a payload's inside, where it is read.
use super::*;
use crate::tests::asserts::{granted, holds, same_at};
use wire::laws;
use wire::numbers::{
    AUTH_TYPE, DELETE_TYPE, ID_I_TYPE, ID_R_TYPE, KE_TYPE, NONCE_TYPE, NOTIFY_TYPE, SA_TYPE,
};

#[test]
fn lengths_of_data(rt: HostRuntime) {
    let alloc = rt.alloc();
    let field = (8, Some(4));
    // octets before the data are part of the body
    for (kind, count, wanted) in [
        (NONCE_TYPE, 15, (7, Some(4))),
        (NONCE_TYPE, 16, (0, None)),
        (NONCE_TYPE, 256, (0, None)),
        (NONCE_TYPE, 257, (7, Some(4))),
        (KE_TYPE, 3, field),
        (KE_TYPE, 4, field),
        (KE_TYPE, 5, (0, None)),
        (KE_TYPE, 1028, (0, None)),
        (KE_TYPE, 1029, field),
        (ID_I_TYPE, 4, field),
        (ID_I_TYPE, 260, (0, None)),
        (ID_I_TYPE, 261, field),
        (ID_R_TYPE, 4, field),
        (ID_R_TYPE, 260, (0, None)),
        (ID_R_TYPE, 261, field),
        (AUTH_TYPE, 4, field),
        (AUTH_TYPE, 1028, (0, None)),
        (AUTH_TYPE, 1029, field),
        (NOTIFY_TYPE, 3, field),
        (NOTIFY_TYPE, 4, field),
    ] {
        let body = granted(&rt, vec![in alloc; 1u8; count]);
        let answer = refusal_of_body(&rt, alloc, kind, &body);
        same_at(&rt, (count, kind), answer, wanted);
    }
}

/// What is said of a deletion of this protocol with this size and count of SPIs, and so many octets
/// behind them.
fn refusal_of_deletion(
    rt: &impl Abort,
    alloc: Global,
    [protocol, size, count, octets]: [u8; 4],
) -> Refusal {
    let mut body = granted(rt, [protocol, size, 0, count].to_vec(alloc));
    for _ in 0..octets {
        granted(rt, body.push(7));
    }
    refusal_of_body(rt, alloc, DELETE_TYPE, &body)
}

#[test]
fn sizes_of_deleted_spis(rt: HostRuntime) {
    for (row, wanted) in [
        ([1, 0, 0, 0], 0),
        ([1, 0, 1, 0], 8),
        ([1, 4, 0, 0], 8),
        ([2, 4, 2, 8], 0),
        ([3, 4, 0, 0], 0),
        ([3, 0, 0, 0], 8),
        ([3, 8, 1, 8], 8),
        ([3, 4, 1, 8], 8),
        ([3, 4, 2, 4], 8),
        ([0, 0, 0, 0], 8),
        ([4, 4, 1, 4], 8),
    ] {
        let (code, _) = refusal_of_deletion(&rt, rt.alloc(), row);
        same_at(&rt, row, code, wanted);
    }
}

/// What is said of two proposals with these numbers.
fn refusal_of_numbers(rt: &impl Abort, alloc: Global, one: u8, other: u8) -> Refusal {
    let mut body = granted(rt, ESP_PROPOSAL[4..].to_vec(alloc));
    granted(rt, body.extend_from_slice(&ESP_PROPOSAL[4..]));
    set(&mut body, 0, 2);
    set(&mut body, 4, one);
    set(&mut body, 40, other);
    refusal_of_body(rt, alloc, SA_TYPE, &body)
}

#[test]
fn numbers_of_proposals(rt: HostRuntime) {
    for (one, other, wanted) in [
        (1, 2, (0, None)),
        (0, 1, (5, Some(4))),
        (1, 1, (5, Some(4))),
        (1, 3, (5, Some(4))),
        (2, 1, (5, Some(4))),
        (2, 3, (5, Some(4))),
    ] {
        let answer = refusal_of_numbers(&rt, rt.alloc(), one, other);
        same_at(&rt, (one, other), answer, wanted);
    }
    holds(
        &rt,
        refusal_of_body(&rt, rt.alloc(), SA_TYPE, &[]) == (5, Some(4)),
    );
}

#[test]
fn laws_can_be_called() {
    laws::octets_spell_one_message();
    laws::first_faults_are_determined();
    laws::plain_spellings_are_spellings();
    laws::spellings_have_their_size();
    laws::messages_that_fit_are_spelled();
    laws::what_has_no_fault_is_spelled();
}
