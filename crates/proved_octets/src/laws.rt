//! What follows from the definitions alone. No function here does anything.
ghost use Rattle.std.specs.Prelude.{◌≡◌};
ghost use Rattle.base.specs.Octets.{Octets};
ghost use Rattle.wire.specs.Messages.{Spells};
ghost use Rattle.wire.specs.declared.message.Message.{Message};
ghost use Rattle.proved_octets.specs.Parts.{HaveTheSameParts, what_is_proved};

/// Two rows of a message, a nonce and a MAC that are one have the same message, the same nonce and the same MAC
/// (RFC 7296, sections 2.15 and 3.1): a message tells its own length, and a MAC has 32 octets.
pub fn what_is_proved_tells_its_parts()
    ensures { (m n : Message) (first nonce sk_p text other another key content : Octets)
        → Spells m first
        → Spells n other
        → what_is_proved first nonce sk_p text ≡ what_is_proved other another key content
        → HaveTheSameParts first nonce sk_p text other another key content }
{}
