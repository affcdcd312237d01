//! Runs that pass whether an allocation fails or not: what was refused for want of memory left `out` as it
//! was, and goes well at the next try. Each is to be run with every allocation failing in turn.
use super::{
    FIRST, HEAD, KEYS, OCTETS, THEIR_PROOF, VECTOR, body_of_21, caller, holds, padding_too_long,
};
use std::alloc::{AllocError, Global};
use std::process::Abort;
use suite::{Agreement, Proof, Sealer};

/// `before`, with room for so many octets.
fn with_room(alloc: Global, room: usize) -> Result<Vec<u8>, AllocError> {
    let mut out = Vec::with_capacity(alloc, room)?;
    out.extend_from_slice(b"before")?;
    Ok(out)
}

/// `before` and what was appended, or `before` alone after a refusal.
fn appended_or_not<T>(
    rt: &impl Abort,
    answer: &Result<T, AllocError>,
    out: &[u8],
    appended: &[u8],
) {
    holds(rt, out.starts_with(b"before"));
    let rest = out.get(6..).unwrap_or(&[]);
    holds(rt, rest == if answer.is_ok() { appended } else { &[] });
}

// There is room for nothing of the body, for a part of it, or for all of it.
#[test]
fn sealing_without_memory(rt: HostRuntime) {
    let Ok(caller) = caller(rt.alloc()) else {
        return;
    };
    for room in [6, 22, 43, 54, 70] {
        let Ok(mut out) = with_room(rt.alloc(), room) else {
            return;
        };
        let sealed = caller.seal(&KEYS, &HEAD, b"twenty octets of text", &VECTOR, &mut out);
        appended_or_not(&rt, &sealed, out.as_slice(), body_of_21());
        if sealed.is_err() {
            let again = caller.seal(&KEYS, &HEAD, b"twenty octets of text", &VECTOR, &mut out);
            holds(&rt, again.is_ok());
            appended_or_not(&rt, &again, out.as_slice(), body_of_21());
        }
    }
}

#[test]
fn opening_without_memory(rt: HostRuntime) {
    let Ok(caller) = caller(rt.alloc()) else {
        return;
    };
    let Ok(mut out) = with_room(rt.alloc(), 6) else {
        return;
    };
    let opened = caller.open(&KEYS, &HEAD, body_of_21(), &mut out);
    appended_or_not(&rt, &opened, out.as_slice(), b"twenty octets of text");
    if opened.is_err() {
        let again = caller.open(&KEYS, &HEAD, body_of_21(), &mut out);
        holds(&rt, again.is_ok());
        appended_or_not(&rt, &again, out.as_slice(), b"twenty octets of text");
    }
    // What doesn't open takes no memory.
    let refused = caller.open(&KEYS, b"another head", body_of_21(), &mut out);
    holds(&rt, refused == Ok(false));
    let refused = caller.open(&KEYS, &HEAD, padding_too_long(), &mut out);
    holds(&rt, refused == Ok(false));
}

#[test]
fn answering_without_memory(rt: HostRuntime) {
    let Ok(caller) = caller(rt.alloc()) else {
        return;
    };
    let public = caller.public(rt.alloc(), &FIRST);
    if public.is_err() {
        holds(&rt, caller.public(rt.alloc(), &FIRST).is_ok());
    }
    // To refuse a public value takes no memory.
    let refused = caller.shared(rt.alloc(), &FIRST, &[0; 256]);
    holds(&rt, matches!(refused, Ok(None)));
    let shared = caller.shared(rt.alloc(), &FIRST, &[2; 256]);
    if shared.is_err() {
        let again = caller.shared(rt.alloc(), &FIRST, &[2; 256]);
        holds(&rt, matches!(again, Ok(Some(_))));
    }
    let proved = caller.prove(rt.alloc(), &OCTETS);
    if proved.is_err() {
        holds(&rt, caller.prove(rt.alloc(), &OCTETS).is_ok());
    }
    // To check takes no memory.
    let checked = caller.check(rt.alloc(), 2, b"west", 2, &OCTETS, &THEIR_PROOF);
    holds(&rt, checked == Ok(true));
}
