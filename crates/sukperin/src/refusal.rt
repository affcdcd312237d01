//! Why a call did nothing, and the codes that tell it to C.
ghost use Rattle.std.specs.Prelude.{◌≡◌, ◌≢◌};
ghost use Rattle.sukperin.specs.Codes.{code_of_answer, code_of_refusal};

use esp::EspFault;

/// Why a call did nothing.
#[derive(Clone, Copy, Debug, PartialEq, Eq)]
pub enum Refusal {
    /// 12 to 20: a packet was not sealed or not opened. Of [`EspFault::BadPadding`] alone the number stays
    /// taken.
    Esp(EspFault),
    /// 20: there was no memory.
    Memory,
    /// 28: the packet begins with another SPI than the SA's.
    OtherSpi,
    /// 101: the handle leads to none, or to an end of another kind.
    NoEnd,
    /// 102: the handle leads to an end already.
    InUse,
    /// 103: the room is shorter than what may have to be written.
    ShortRoom,
    /// 104: an identity's length, the window of requests or the blocks of a replay window are not such as
    /// can be used.
    Configuration,
    /// 106: an entry of the policy spells none, ends before it starts or mixes families, or comes after 256
    /// others.
    Policy,
    /// 107: the SPI is not one that may be used.
    Spi,
    /// 108: there is no such thing to be told.
    Nothing,
    /// 109: a packet's place doesn't lie in the buffer.
    Place,
}

impl Refusal {
    // What tells it to C.
    pub fn code(self) -> u32
        ensures value { result ≡ code_of_refusal self }
        ensures some { result ≢ 0 }
    {
        match self {
            Refusal::Esp(fault) => u32::from(fault.code()),
            Refusal::Memory => 20,
            Refusal::OtherSpi => 28,
            Refusal::NoEnd => 101,
            Refusal::InUse => 102,
            Refusal::ShortRoom => 103,
            Refusal::Configuration => 104,
            Refusal::Policy => 106,
            Refusal::Spi => 107,
            Refusal::Nothing => 108,
            Refusal::Place => 109,
        }
    }
}

// What tells an answer to C: 0 where there is no refusal.
pub fn code_of(answer: Result<(), Refusal>) -> u32
    ensures { result ≡ code_of_answer answer }
{
    match answer {
        Ok(()) => 0,
        Err(refusal) => refusal.code(),
    }
}
