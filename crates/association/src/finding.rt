//! Which IKE SA a message is for.
ghost use Rattle.std.specs.Prelude.{◌≡◌, ◌==◌, ◌&&◌, Bool, not};
ghost use Rattle.std.specs.List.{list_any, position};
ghost use Rattle.association.specs.Finding.{answers_initial, place_meant, has_pair, is_meant, is_of_other_role, is_waiting, missing, sent_by_other};

use crate::{Association, MessageFault, Phase};
use exchange::Role;
use wire::Header;
use wire::numbers::IKE_SA_INIT;

/// The place of the IKE SA that a message with this header is for: the first that has its SPIs, and the other
/// role than its sender claims by the flag I (RFC 7296, section 3.1). A response to IKE_SA_INIT names the
/// responder's SPI for the first time, so one that waits for it is found by its own SPI alone.
///
/// Refused where there is none: [`MessageFault::WrongRole`] where one of the role that the sender claims
/// has both SPIs, and [`MessageFault::UnknownAssociation`] otherwise. Takes no memory.
pub fn find(associations: &[Association], header: &Header) -> Result<usize, MessageFault>
    ensures { result ≡ place_meant header.now associations.now }
{
    match place_of(associations, header) {
        Some(place) => Ok(place),
        None => Err(missing(associations, header)),
    }
}

fn place_of(associations: &[Association], header: &Header) -> Option<usize>
    ensures { result ≡ position (is_meant header.now) associations.now }
{
    associations.iter().position(|a| is_meant(header, a))
}

// Why none is found.
fn missing(associations: &[Association], header: &Header) -> MessageFault
    ensures { result ≡ missing header.now associations.now }
{
    if has_other_role(associations, header) {
        MessageFault::WrongRole
    } else {
        MessageFault::UnknownAssociation
    }
}

fn has_other_role(associations: &[Association], header: &Header) -> bool
    ensures { result ≡ list_any (is_of_other_role header.now) associations.now }
{
    associations.iter().any(|a| is_of_other_role(header, a))
}

fn is_meant(header: &Header, association: &Association) -> bool
    ensures { result ≡ is_meant header.now association.now }
{
    sent_by_other(association.role, header.flags.initiator)
        && (has_pair(header, association) || answers_initial(header, association))
}

fn is_of_other_role(header: &Header, association: &Association) -> bool
    ensures { result ≡ is_of_other_role header.now association.now }
{
    !sent_by_other(association.role, header.flags.initiator) && has_pair(header, association)
}

// Whether the flag I is that of messages to an end of this role.
fn sent_by_other(role: Role, initiator: bool) -> bool
    ensures { result ≡ sent_by_other role initiator }
{
    match role {
        Role::Initiator => !initiator,
        Role::Responder => initiator,
    }
}

fn has_pair(header: &Header, association: &Association) -> bool
    ensures { result ≡ has_pair header.now association.now }
{
    association.spi_i == header.spi_i && association.spi_r == header.spi_r
}

fn answers_initial(header: &Header, association: &Association) -> bool
    ensures { result ≡ answers_initial header.now association.now }
{
    header.flags.response
        && header.exchange == IKE_SA_INIT
        && association.spi_i == header.spi_i
        && is_waiting(&association.phase)
}

fn is_waiting(phase: &Phase) -> bool
    ensures { result ≡ is_waiting phase.now }
{
    match phase {
        Phase::InitSent(_) => true,
        _ => false,
    }
}
