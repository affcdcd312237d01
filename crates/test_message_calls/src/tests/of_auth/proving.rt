use crate::tests::asserts::holds;
use auth::Proving;
use exchange::Role;
use suite::{KeyRecord, Nonce};

// Each key and each nonce of other octets.
fn keys() -> KeyRecord {
    KeyRecord {
        spi_i: 1,
        spi_r: 2,
        nonce_i: Nonce::new(&[3; 16]),
        nonce_r: Nonce::new(&[4; 16]),
        sk_d: [5; 32],
        sk_ai: [6; 32],
        sk_ar: [7; 32],
        sk_ei: [8; 32],
        sk_er: [9; 32],
        sk_pi: [10; 32],
        sk_pr: [11; 32],
    }
}

// Whether an end of this role proves over a nonce and with a key that begin with these octets.
fn proves_over(role: Role, nonce: u8, key: u8) -> bool {
    let keys = keys();
    let what = Proving::of(role, &keys, &[]);
    what.nonce.first() == Some(&nonce) && what.sk_p[0] == key
}

// RFC 7296, section 2.15.
#[test]
fn what_each_end_proves_over(rt: HostRuntime) {
    holds(
        &rt,
        proves_over(Role::Initiator, 4, 10) && proves_over(Role::Responder, 3, 11),
    );
}
