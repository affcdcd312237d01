//! Vectors from outside: FIPS 197, appendix C.3, and SP 800-38A, sections F.1.5 and F.1.6.
use crate::Aes256;
use std::process::Abort;

const SP_KEY: [u8; 32] =
    *b"\x60\x3d\xeb\x10\x15\xca\x71\xbe\x2b\x73\xae\xf0\x85\x7d\x77\x81\x1f\x35\x2c\x07\x3b\x61\x08\xd7\x2d\x98\x10\xa3\x09\x14\xdf\xf4";

/// Both ways between a plain block and its encryption.
fn both_ways(rt: &impl Abort, key: &[u8; 32], plain: &[u8; 16], encrypted: &[u8; 16]) {
    let cipher = Aes256::new(key);
    assert!(rt; cipher.encrypt_block(plain) == *encrypted);
    assert!(rt; cipher.decrypt_block(encrypted) == *plain);
}

#[test]
fn appendix_c_3(rt: HostRuntime) {
    let mut key = [0; 32];
    for k in 0..32 {
        key[k] = k as u8;
    }
    both_ways(
        &rt,
        &key,
        b"\x00\x11\x22\x33\x44\x55\x66\x77\x88\x99\xaa\xbb\xcc\xdd\xee\xff",
        b"\x8e\xa2\xb7\xca\x51\x67\x45\xbf\xea\xfc\x49\x90\x4b\x49\x60\x89",
    );
}

#[test]
fn section_f_1_5(rt: HostRuntime) {
    both_ways(
        &rt,
        &SP_KEY,
        b"\x6b\xc1\xbe\xe2\x2e\x40\x9f\x96\xe9\x3d\x7e\x11\x73\x93\x17\x2a",
        b"\xf3\xee\xd1\xbd\xb5\xd2\xa0\x3c\x06\x4b\x5a\x7e\x3d\xb1\x81\xf8",
    );
    both_ways(
        &rt,
        &SP_KEY,
        b"\xf6\x9f\x24\x45\xdf\x4f\x9b\x17\xad\x2b\x41\x7b\xe6\x6c\x37\x10",
        b"\x23\x30\x4b\x7a\x39\xf9\xf3\xff\x06\x7d\x8d\x8f\x9e\x24\xec\xc7",
    );
}

/// A thousand times over: the last block that openssl's CBC mode makes of a thousand blocks of zeros,
/// by the vector zero.
#[test]
fn thousand_times(rt: HostRuntime) {
    let cipher = Aes256::new(&SP_KEY);
    let mut block = [0; 16];
    for _ in 0..1000 {
        block = cipher.encrypt_block(&block);
    }
    assert!(rt; block == *b"\xfc\xf8\x1e\x8c\x33\x98\x8e\xe3\x6c\x58\x4a\x68\x39\x0b\x61\xae");
    for _ in 0..1000 {
        block = cipher.decrypt_block(&block);
    }
    assert!(rt; block == [0; 16]);
}
