//! Vectors from outside, and messages in lanes against the same messages alone.
ghost use Rattle.std.specs.Prelude.{◌≤◌};

use lanes::{LaneKey, MESSAGES_LEAST, Task, icv_all};
use mac::icv;
use std::process::Abort;

/// A shorter key of RFC 4231, which fills a block as these 32 octets do.
fn filled(key: &[u8]) -> [u8; 32] {
    let mut octets = [0; 32];
    for (octet, from) in octets.iter_mut().zip(key) {
        *octet = *from;
    }
    octets
}

/// Twice the same five messages, so that eight of them stand in lanes.
#[test]
fn rfc_4231(rt: HostRuntime) {
    let counted =
        *b"\x01\x02\x03\x04\x05\x06\x07\x08\x09\x0a\x0b\x0c\x0d\x0e\x0f\x10\x11\x12\x13\x14\x15\x16\x17\x18\x19";
    let first = LaneKey::new(&filled(&[0x0b; 20]));
    let second = LaneKey::new(&filled(b"Jefe"));
    let third = LaneKey::new(&filled(&[0xaa; 20]));
    let fourth = LaneKey::new(&filled(&counted));
    let fifth = LaneKey::new(&filled(&[0x0c; 20]));
    let case_1 = Task {
        key: &first,
        octets: b"Hi There",
        more: b"",
    };
    let case_2 = Task {
        key: &second,
        octets: b"what do ya want for ",
        more: b"nothing?",
    };
    let case_3 = Task {
        key: &third,
        octets: &[0xdd; 46],
        more: &[0xdd; 4],
    };
    let case_4 = Task {
        key: &fourth,
        octets: &[0xcd; 50],
        more: b"",
    };
    let case_5 = Task {
        key: &fifth,
        octets: b"",
        more: b"Test With Truncation",
    };
    let tasks = [
        case_1, case_2, case_3, case_4, case_5, case_1, case_2, case_3, case_4, case_5,
    ];
    let mut values = [[0; 16]; 10];
    icv_all(&tasks, &mut values, MESSAGES_LEAST);
    let wanted = [
        *b"\xb0\x34\x4c\x61\xd8\xdb\x38\x53\x5c\xa8\xaf\xce\xaf\x0b\xf1\x2b",
        *b"\x5b\xdc\xc1\x46\xbf\x60\x75\x4e\x6a\x04\x24\x26\x08\x95\x75\xc7",
        *b"\x77\x3e\xa9\x1e\x36\x80\x0e\x46\x85\x4d\xb8\xeb\xd0\x91\x81\xa7",
        *b"\x82\x55\x8a\x38\x9a\x44\x3c\x0e\xa4\xcc\x81\x98\x99\xf2\x08\x3a",
        *b"\xa3\xb6\x16\x74\x73\x10\x0e\xe0\x6e\x0c\x79\x6c\x29\x55\x55\x2b",
    ];
    for k in 0..10 {
        assert!(rt; values[k] == wanted[k % 5]);
    }
}

const FIRST_KEY: [u8; 32] = [0x0b; 32];

const SECOND_KEY: [u8; 32] = [0xa5; 32];

/// Octets that differ from place to place.
fn octets() -> [u8; 1600] {
    let mut octets = [0; 1600];
    for place in 0..1600 {
        octets[place] = (place * 37 % 251) as u8;
    }
    octets
}

/// Message `k` of `count`: it has one of the lengths, begins at a place of its own, and has one of two keys.
fn agree(rt: &impl Abort, lengths: &[usize], count: usize)
    requires { count ≤ 100 }
{
    let octets = octets();
    let first = LaneKey::new(&FIRST_KEY);
    let second = LaneKey::new(&SECOND_KEY);
    let mut tasks = [Task {
        key: &first,
        octets: &[],
        more: &[],
    }; 100];
    for k in 0..count {
        let length = lengths
            .get(k % lengths.len().max(1))
            .copied()
            .unwrap_or(0)
            .min(1500);
        tasks[k] = Task {
            key: if k % 3 == 0 { &second } else { &first },
            octets: &octets[k..k + length],
            more: &octets[..k % 5],
        };
    }
    let mut values = [[0; 16]; 100];
    icv_all(&tasks[..count], &mut values[..count], MESSAGES_LEAST);
    let mut fast = [[0; 16]; 100];
    icv_all(&tasks[..count], &mut fast[..count], 2);
    for k in 0..count {
        let key = if k % 3 == 0 { SECOND_KEY } else { FIRST_KEY };
        let alone = icv(&key, &[tasks[k].octets, tasks[k].more]);
        assert!(rt; values[k] == alone, "at {k} of {count}");
        assert!(rt; fast[k] == alone, "at {k} of {count}, lanes from two on");
    }
}

/// Each edge of a block, in turn and alone, in every count.
#[test]
fn edges_of_blocks(rt: HostRuntime) {
    let edges = [
        0, 1, 55, 56, 63, 64, 119, 120, 127, 128, 183, 184, 1412, 588, 76,
    ];
    for count in 0..=100 {
        agree(&rt, &edges, count);
    }
    for edge in edges {
        agree(&rt, &[edge], 8);
        agree(&rt, &[edge, 64], 17);
    }
}

/// A second part that needs no block more, one that is longer than a lane takes, and one that is very long.
#[test]
fn second_parts(rt: HostRuntime) {
    let octets = octets();
    let key = LaneKey::new(&FIRST_KEY);
    for more in [0, 1, 8, 9, 55, 56, 57, 64, 700] {
        let tasks = [Task {
            key: &key,
            octets: &octets[..63],
            more: &octets[100..100 + more],
        }; 8];
        let mut values = [[0; 16]; 8];
        icv_all(&tasks, &mut values, 2);
        let alone = icv(&FIRST_KEY, &[&octets[..63], &octets[100..100 + more]]);
        assert!(rt; tasks[0].icv() == alone, "at {more}");
        for value in &values {
            assert!(rt; *value == alone, "at {more}");
        }
    }
}
