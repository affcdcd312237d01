//! What comes of the answer to a request for an additional Child SA.
use sadb::Pair;

/// What comes of an answer.
#[derive(Drop)]
pub enum Conclusion {
    /// The responder told INVALID_SYNTAX, by which the IKE SA is over at both ends. The SPI that was reserved
    /// goes back to the table.
    Closes,
    /// The Child SA is made, and this is the initiator's SA pair.
    Made(Pair),
    /// No Child SA is made here, and the IKE SA stands. The SPI that was reserved goes back to the table.
    /// Nothing is told to the responder, which has its SA pair where it took the child for made.
    NoChild,
}
