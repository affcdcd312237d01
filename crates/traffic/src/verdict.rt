//! The verdict on what an SA opened (RFC 4301, section 5.2, step 4).
ghost use Rattle.traffic.specs.Verdicts.{IsVerdict, verdict_of};
ghost use Rattle.traffic.specs.declared.fault.PacketFault.{PacketFault};

use crate::PacketFault;
use crate::next_header::{NO_NEXT_HEADER, family_under};
use esp::Opened;
use policy::{InnerFault, covers, family_of_packet, no_flow, read_inner};
use sadb::Pair;

/// Judges what was opened by an SA pair: by its next header, by what it is as a packet, and by the pair's
/// selectors. The packet is answered that it carried, or none where it is a dummy.
///
/// Refused, in this order: [`InnerFault::BadInner`] (E21) for a next header that names no packet, or where
/// the payload is not of the family that it names; the refusals of [`inner`](policy::inner);
/// [`PacketFault::OutsideSelectors`].
pub fn judge<'a>(pair: &Pair, opened: Opened<'a>) -> Result<Option<&'a [u8]>, PacketFault>
    ensures { IsVerdict opened.entry.next opened.entry.payload.now pair.now.remote pair.now.local
        (verdict_of result) }
{
    if opened.next == NO_NEXT_HEADER {
        return Ok(None);
    }
    let family = family_under(opened.next).ok_or(InnerFault::BadInner)?;
    if family_of_packet(opened.payload) != Some(family) {
        return Err(PacketFault::Inner(InnerFault::BadInner));
    }
    let mut flow = no_flow();
    read_inner(opened.payload, &mut flow)?;
    if covers(pair.remote.as_slice(), pair.local.as_slice(), &flow) {
        Ok(Some(opened.payload))
    } else {
        Err(PacketFault::OutsideSelectors)
    }
}
