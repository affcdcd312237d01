//! The order of what is judged, and payloads as lists, by the sections of RFC 7296. Pairs are made in
//! higher crates alone.
ghost use Rattle.std.specs.Prelude.{◌≤◌};

use base::Items;
use deletions::{DeletedPairs, Verdict, answer_payloads, decide, delete_association, delete_child};
use exchange::Plain;
use sadb::Table;
use std::alloc::{AllocError, Global};
use std::test::Fail;
use wire::Payload;

/// The type of a Delete payload (section 3.2), and one that is not known.
const DELETE: u8 = 42;

const UNKNOWN: u8 = 200;

/// A payload without content that is marked as critical (section 3.2), the last of its chain.
const CRITICAL: [u8; 4] = [0, 0x80, 0, 4];

/// What is made of a request where there is no pair.
fn verdict_on(alloc: Global, first: u8, octets: &[u8]) -> Result<Verdict, AllocError> {
    let plain = Plain {
        first,
        octets: Items::from_slice(alloc, octets)?,
    };
    decide(alloc, &plain, 1, &Table::new(alloc, 4096))
}

/// A Delete of AH that names one SPI so many times, and a Delete of IKE behind it (section 3.11).
fn deletions(alloc: Global, count: u16, next: u8) -> Result<Vec<u8>, AllocError>
    requires { count ≤ 1000 }
{
    let mut octets = Vec::new(alloc);
    octets.extend_from_slice(&[DELETE, 0])?;
    octets.extend_from_slice(&(8 + 4 * count).to_be_bytes())?;
    octets.extend_from_slice(&[2, 4])?;
    octets.extend_from_slice(&count.to_be_bytes())?;
    for _ in 0..count {
        octets.extend_from_slice(&[0, 0, 1, 7])?;
    }
    octets.extend_from_slice(&[next, 0, 0, 8, 1, 0, 0, 0])?;
    Ok(octets)
}

fn none(alloc: Global) -> Verdict {
    Verdict::Deletes(DeletedPairs {
        serials: Items::new(alloc),
        inbound_spis: Items::new(alloc),
    })
}

#[test]
fn the_order_of_what_is_judged(rt: HostRuntime) -> Result<(), Fail> {
    let alloc = rt.alloc();
    // Cut short, with a type that is not known.
    assert_eq!(rt;
        verdict_on(alloc, UNKNOWN, &[0, 0x80, 0])?,
        Verdict::BadSyntax
    );
    // A payload that is not known comes before the limit, and before the end of the IKE SA.
    let mut octets = deletions(alloc, 513, UNKNOWN)?;
    octets.extend_from_slice(&CRITICAL)?;
    assert_eq!(rt;
        verdict_on(alloc, DELETE, octets.as_slice())?,
        Verdict::Unsupported { kind: UNKNOWN }
    );
    // So does the limit.
    let octets = deletions(alloc, 513, 0)?;
    assert_eq!(rt;
        verdict_on(alloc, DELETE, octets.as_slice())?,
        Verdict::BadSyntax
    );
    let octets = deletions(alloc, 512, 0)?;
    assert_eq!(rt;
        verdict_on(alloc, DELETE, octets.as_slice())?,
        Verdict::Closes
    );
    Ok(())
}

#[test]
fn nothing_goes_where_no_pair_is_named(rt: HostRuntime) -> Result<(), Fail> {
    let alloc = rt.alloc();
    assert_eq!(rt; verdict_on(alloc, 0, &[])?, none(alloc));
    // Of ESP, and of AH.
    assert_eq!(rt;
        verdict_on(alloc, DELETE, &[0, 0, 0, 12, 3, 4, 0, 1, 0, 0, 1, 7])?,
        none(alloc)
    );
    assert_eq!(rt;
        verdict_on(alloc, DELETE, &[0, 0, 0, 12, 2, 4, 0, 1, 0, 0, 1, 7])?,
        none(alloc)
    );
    Ok(())
}

/// Whether the payloads are one notice of this type with these octets (section 3.10).
fn is_notice(payloads: &[Payload], wanted: u16, octets: &[u8]) -> bool {
    match payloads {
        [Payload::Notify { kind, data, .. }] => *kind == wanted && data.as_slice() == octets,
        _ => false,
    }
}

/// Whether the payloads are one Delete, for this protocol and with these SPIs.
fn is_deletion(payloads: &[Payload], wanted: u8, named: &[u32]) -> bool {
    match payloads {
        [Payload::Delete { protocol, spis }] => *protocol == wanted && spis.as_slice() == named,
        _ => false,
    }
}

#[test]
fn what_is_sent(rt: HostRuntime) -> Result<(), Fail> {
    let alloc = rt.alloc();
    let child = delete_child(alloc, 0x2000)?;
    assert!(rt; is_deletion(child.as_slice(), 3, &[0x2000]));
    let association = delete_association(alloc)?;
    assert!(rt; is_deletion(association.as_slice(), 1, &[]));

    let deleted = DeletedPairs {
        serials: Items::from_slice(alloc, &[2, 1])?,
        inbound_spis: Items::from_slice(alloc, &[0x1001, 0x1000])?,
    };
    let answer = answer_payloads(alloc, &Verdict::Deletes(deleted))?;
    assert!(rt; is_deletion(answer.as_slice(), 3, &[0x1001, 0x1000]));
    // INVALID_SYNTAX and UNSUPPORTED_CRITICAL_PAYLOAD (section 3.10.1).
    let answer = answer_payloads(alloc, &Verdict::BadSyntax)?;
    assert!(rt; is_notice(answer.as_slice(), 7, &[]));
    let answer = answer_payloads(alloc, &Verdict::Unsupported { kind: UNKNOWN })?;
    assert!(rt; is_notice(answer.as_slice(), 1, &[UNKNOWN]));
    assert!(rt; answer_payloads(alloc, &none(alloc))?.is_empty());
    assert!(rt; answer_payloads(alloc, &Verdict::Closes)?.is_empty());
    Ok(())
}
