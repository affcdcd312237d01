//! What follows from the definitions alone. No function here does anything.
ghost use Rattle.std.specs.Prelude.{◌≡◌, ◌⊎◌, ◌+◌, ℕ, Some};
ghost use Rattle.base.specs.Octets.{Octets};
ghost use Rattle.base.specs.declared.selector.Selector.{Selector};
ghost use Rattle.suite.specs.declared.keys.Keys.{Keys};
ghost use Rattle.requests.specs.Outgoing.{CountsAnswer, OwnRequests};
ghost use Rattle.sadb.specs.Database.{Database, IsReserved, IsSoundTable};
ghost use Rattle.association.specs.Closing.{HoldsReserved, HoldsSpi};
ghost use Rattle.association.specs.Purposes.{spi_asked};
ghost use Rattle.association.specs.declared.phase.Association.{Association};
ghost use Rattle.association.specs.declared.phase.Request.{Request};
ghost use Rattle.setup.specs.Configs.{Setup};
ghost use Rattle.create_child.specs.Asking.{AsksForFurther};

use association::laws::children_are_asked_for;

/// An IKE SA that asks for an additional Child SA holds the next SPI of the table from then on, beside those
/// that it held. Each stays reserved, for one child alone, and so does every SPI that another IKE SA holds.
/// Does nothing.
pub fn a_further_spi_is_held()
    ensures own { (body_of : Keys → Octets → Octets → Octets → Octets) (setup : Setup)
        (local remote : Selector) (old : Association)
        (table : Database) (octets : Octets) (new : Association) (new_table : Database)
        → AsksForFurther body_of setup local remote old table octets new new_table
        → HoldsSpi new (table.start + table.given) }
    ensures held { (body_of : Keys → Octets → Octets → Octets → Octets) (setup : Setup)
        (local remote : Selector) (old : Association)
        (table : Database) (octets : Octets) (new : Association) (new_table : Database) (spi : ℕ)
        → AsksForFurther body_of setup local remote old table octets new new_table → HoldsSpi new spi
        → HoldsSpi old spi ⊎ (spi ≡ table.start + table.given) }
    ensures reserved { (body_of : Keys → Octets → Octets → Octets → Octets) (setup : Setup)
        (local remote : Selector) (old : Association)
        (table : Database) (octets : Octets) (new : Association) (new_table : Database) → IsSoundTable table
        → HoldsReserved old table
        → AsksForFurther body_of setup local remote old table octets new new_table
        → HoldsReserved new new_table }
    ensures others { (body_of : Keys → Octets → Octets → Octets → Octets) (setup : Setup)
        (local remote : Selector) (old : Association)
        (table : Database) (octets : Octets) (new : Association) (new_table : Database) (spi : ℕ)
        → AsksForFurther body_of setup local remote old table octets new new_table → IsReserved table spi
        → IsReserved new_table spi }
{}

/// As the answer to a request for an additional Child SA is matched, the IKE SA gives the child's SPI back:
/// it holds it no more. Does nothing.
pub fn what_is_answered_is_given_back()
    ensures { (a : Association) (table : Database) (number : ℕ) (request : Request)
        (outgoing : OwnRequests Request) (spi : ℕ)
        → HoldsReserved a table → CountsAnswer a.outgoing number request outgoing
        → spi_asked request.purpose ≡ Some spi
        → ¬ HoldsSpi (record a { outgoing = outgoing }) spi }
{
    children_are_asked_for();
}
