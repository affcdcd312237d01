//! The refusals of this crate.
ghost use Rattle.std.specs.Prelude.{◌≡◌};
ghost use Rattle.traffic.specs.Faults.{code_of_packet_fault};

use esp::EspFault;
use policy::InnerFault;
use thiserror::Error;

/// Why a packet is dropped.
#[derive(Clone, Copy, Debug, PartialEq, Eq, Error)]
pub enum PacketFault {
    /// No SA pair has the SPI of a packet that came, or none carries the flow of a packet that is to be
    /// protected.
    #[error("E28: no association is there for the packet")]
    UnknownAssociation,
    /// The SA doesn't open it, or has no sequence number left to seal it with. E14 also where a packet that
    /// came ends before its SPI does.
    #[error(transparent)]
    Esp(EspFault),
    /// It is no packet that can be read. E21 also where a packet that came has a next header that names no
    /// packet, or the one of the other family.
    #[error(transparent)]
    Inner(InnerFault),
    /// What it carried is not traffic of its SA: the SA pair's remote selectors don't hold the source, or its
    /// local ones don't hold the target.
    #[error("E23: the packet is outside the selectors of its association")]
    OutsideSelectors,
}

impl PacketFault {
    /// The refusal's number, as programs print it behind `E`.
    pub fn code(self) -> u8
        ensures { result ≡ code_of_packet_fault self }
    {
        match self {
            PacketFault::UnknownAssociation => 28,
            PacketFault::Esp(fault) => fault.code(),
            PacketFault::Inner(fault) => fault.code(),
            PacketFault::OutsideSelectors => 23,
        }
    }
}

impl From<EspFault> for PacketFault {
    ghost use Rattle.std.specs.Prelude.{◌≡◌};
    ghost use Rattle.traffic.specs.declared.fault.PacketFault.TheVariants.{Esp};

    ghost from_gives = { λ fault packet_fault. packet_fault ≡ Esp fault };

    fn from(fault: EspFault) -> PacketFault {
        PacketFault::Esp(fault)
    }
}

impl From<InnerFault> for PacketFault {
    ghost use Rattle.std.specs.Prelude.{◌≡◌};
    ghost use Rattle.traffic.specs.declared.fault.PacketFault.TheVariants.{Inner};

    ghost from_gives = { λ fault packet_fault. packet_fault ≡ Inner fault };

    fn from(fault: InnerFault) -> PacketFault {
        PacketFault::Inner(fault)
    }
}
