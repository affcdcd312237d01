//! What an initiator asks of an answer to its offer.
use super::policies::PROTECT;
use crate::tests::asserts::holds;
use base::{Range, Selector};
use policy::{Entry, are_inside};

/// The web server of the local network.
const WEB: Entry = Entry {
    protocol: 6,
    local_ports: (443, 443),
    ..PROTECT
};

/// Whether each of these answers lies inside its offer, or none of them does.
fn all_are(inside: bool, rows: &[(&[Selector], &[Selector])]) -> bool {
    for (answer, offered) in rows {
        if are_inside(answer, offered) != inside {
            return false;
        }
    }
    true
}

#[test]
fn an_answer_lies_inside_its_offer(rt: HostRuntime) {
    let offered = [PROTECT.local_side(), PROTECT.remote_side()];
    let web = WEB.local_side();
    holds(
        &rt,
        all_are(
            true,
            &[
                (&[PROTECT.local_side(), web], &offered),
                (&[PROTECT.remote_side()], &offered),
                (&[web], &offered),
            ],
        ),
    );
    holds(
        &rt,
        all_are(
            false,
            &[
                (&[], &offered),
                (&[web], &[]),
                (&[PROTECT.local_side()], &[web]),
                (&[web, PROTECT.local_side()], &[web]),
                (&[web], &[PROTECT.remote_side()]),
            ],
        ),
    );
}

/// The local side at other addresses.
fn at(addresses: Range) -> Selector {
    Selector {
        addresses,
        ..PROTECT.local_side()
    }
}

#[test]
fn an_answer_without_points_or_across_two_offered_is_not_inside(rt: HostRuntime) {
    let whole = PROTECT.local_side();
    let pointless = at(Range::V4(2, 1));
    let halves = [
        at(Range::V4(0x0a00_0000, 0x0a00_007f)),
        at(Range::V4(0x0a00_0080, 0x0a00_00ff)),
    ];
    let six = at(Range::V6(0x0a00_0000, 0x0a00_00ff));
    holds(
        &rt,
        all_are(true, &[(&halves, &[whole]), (&[whole, six], &[six, whole])]),
    );
    holds(
        &rt,
        all_are(
            false,
            &[
                (&[pointless], &[whole]),
                (&[whole, pointless], &[whole]),
                (&[whole], &halves),
                (&[six], &[whole]),
            ],
        ),
    );
}
