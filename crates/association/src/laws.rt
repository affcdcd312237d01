//! What follows from the definitions alone. No function here does anything.
ghost use Rattle.std.specs.Prelude.{◌≡◌, ℕ, None, Some};
ghost use Rattle.base.specs.Octets.{Octets};
ghost use Rattle.wire.specs.declared.message.Message.{Message};
ghost use Rattle.exchange.specs.declared.sealed.Plain.{Plain};
ghost use Rattle.association.specs.Receiving.{Answers, AnswersInitial, IsAnswering, IsAnsweringInitial, IsEffective, IsReceived, IsRepeating, Opening, Reception, Repeat, TakesEffect};
ghost use Rattle.sadb.specs.Contents.{table_content};
ghost use Rattle.sadb.specs.Database.{Database, IsAsBefore, IsReserved};
ghost use Rattle.requests.specs.Incoming.{PeerRequests};
ghost use Rattle.requests.specs.Outgoing.{CountsAnswer, HasSameOwnRequests, IssuesRequest, OwnRequests, ReplacesRequest, WithdrawsRequest};
ghost use Rattle.association.specs.Closing.{Closes, HoldsReserved, HoldsSpi};
ghost use Rattle.association.specs.Phases.{spi_in};
ghost use Rattle.association.specs.Purposes.{spi_asked, AwaitsChild};
ghost use Rattle.association.specs.declared.phase.Request.{Request};
ghost use Rattle.association.specs.Contents.{association_content};
ghost use Rattle.association.specs.declared.phase.Association.{Association};

use crate::Request;
use requests::laws::{
    judgements_are_determined, later_incoming_are_determined, later_outgoing_are_determined,
};
use sadb::laws::later_tables_are_determined;

/// A message is one thing to an IKE SA.
pub fn receptions_are_determined()
    ensures { (plain_of : Opening) (a : Association) (octets : Octets) (m : Message) (one other : Reception)
        → IsReceived plain_of a octets m one → IsReceived plain_of a octets m other → one ≡ other }
{
    judgements_are_determined();
}

/// What a message is to an IKE SA tells what is asked of the IKE SA. A request that is processed is fresh,
/// belongs to the phase and opens. A response answers an outstanding request, and opens but for that of
/// IKE_SA_INIT.
pub fn receptions_say_why()
    ensures effective { (plain_of : Opening) (a : Association) (octets : Octets) (m : Message) (plain : Plain)
        → IsReceived plain_of a octets m (TakesEffect plain) → IsEffective plain_of a octets m plain }
    ensures answering { (plain_of : Opening) (a : Association) (octets : Octets) (m : Message) (plain : Plain)
        → IsReceived plain_of a octets m (Answers plain) → IsAnswering plain_of a octets m plain }
    ensures initial { (plain_of : Opening) (a : Association) (octets : Octets) (m : Message)
        → IsReceived plain_of a octets m AnswersInitial → IsAnsweringInitial a m }
{}

/// A request that is answered by the same octets again was processed before: these are the cached response of
/// its Message ID. It opens under the peer's keys.
pub fn repeats_say_why()
    ensures { (plain_of : Opening) (a : Association) (octets : Octets) (m : Message) (reply : Octets)
        → IsReceived plain_of a octets m (Repeat reply) → IsRepeating plain_of a octets m reply }
{}

/// A request that is fresh, belongs to the phase and opens is processed.
pub fn what_is_due_is_received()
    ensures { (plain_of : Opening) (a : Association) (octets : Octets) (m : Message) (plain : Plain)
        → IsEffective plain_of a octets m plain → IsReceived plain_of a octets m (TakesEffect plain) }
{}

/// What a message is to an IKE SA goes by what is held of it, whatever spare capacity there is.
pub fn receptions_go_by_content()
    ensures { (plain_of : Opening) (a b : Association) (octets : Octets) (m : Message) (reception : Reception)
        → association_content a ≡ association_content b → IsReceived plain_of a octets m reception
        → IsReceived plain_of b octets m reception }
{
    later_incoming_are_determined();
}

/// What is held of an IKE SA after its end, and what the table holds then, goes by what both held before.
pub fn endings_are_determined()
    ensures { (old other a b : Association) (old_table other_table a_table b_table : Database) (moment : ℕ)
        → association_content old ≡ association_content other
        → table_content old_table ≡ table_content other_table
        → Closes old old_table moment a a_table → Closes other other_table moment b b_table
        → (association_content a ≡ association_content b) × (table_content a_table ≡ table_content b_table) }
{
    later_tables_are_determined();
    later_outgoing_are_determined::<Request>();
}

/// The SPIs that an IKE SA holds for Child SAs stay reserved, each for one child: while the peer's requests
/// change, while one of its own is answered, and while the table's spare capacity alone does. So they do
/// wherever it holds none that it did not hold, and none of these is given up.
pub fn spis_stay_held()
    ensures taking { (a : Association) (table : Database) (incoming : PeerRequests) → HoldsReserved a table
        → HoldsReserved (record a { incoming = incoming }) table }
    ensures counting { (a : Association) (table : Database) (number : ℕ) (request : Request)
        (outgoing : OwnRequests Request)
        → CountsAnswer a.outgoing number request outgoing → HoldsReserved a table
        → HoldsReserved (record a { outgoing = outgoing }) table }
    ensures room { (a : Association) (table new : Database) → IsAsBefore table new → HoldsReserved a table
        → HoldsReserved a new }
    ensures fewer { (a b : Association) (table new : Database)
        → ((spi : ℕ) → spi_in b.phase ≡ Some spi → spi_in a.phase ≡ Some spi)
        → ((number spi : ℕ) → AwaitsChild b.outgoing number spi → AwaitsChild a.outgoing number spi)
        → ((spi : ℕ) → HoldsSpi b spi → IsReserved table spi → IsReserved new spi) → HoldsReserved a table
        → HoldsReserved b new }
{}

/// An IKE SA waits for a Child SA's answer only where it asked for that child: none comes to be awaited while
/// room is made, a request for something else is issued, a request is answered, or one is withdrawn.
pub fn children_are_asked_for()
    ensures preparing { (old new : OwnRequests Request) (number spi : ℕ) → HasSameOwnRequests old new
        → AwaitsChild new number spi → AwaitsChild old number spi }
    ensures issuing { (old new : OwnRequests Request) (request : Request) (issued number spi : ℕ)
        → spi_asked request.purpose ≡ None
        → IssuesRequest old request issued new → AwaitsChild new number spi → AwaitsChild old number spi }
    ensures counting { (old new : OwnRequests Request) (request : Request) (counted number spi : ℕ)
        → CountsAnswer old counted request new → AwaitsChild new number spi → AwaitsChild old number spi }
    ensures replacing { (old new : OwnRequests Request) (was is : Request) (replaced number spi : ℕ)
        → spi_asked is.purpose ≡ None
        → ReplacesRequest old replaced was is new → AwaitsChild new number spi → AwaitsChild old number spi }
    ensures withdrawing { (old new : OwnRequests Request) (request : Request) (withdrawn number spi : ℕ)
        → WithdrawsRequest old withdrawn request new → AwaitsChild new number spi
        → AwaitsChild old number spi }
{}

/// Who is closed holds no SPI for a Child SA.
pub fn who_is_closed_holds_none()
    ensures { (old : Association) (table : Database) (moment : ℕ) (new : Association) (new_table : Database)
        (spi : ℕ)
        → Closes old table moment new new_table → ¬ HoldsSpi new spi }
{}
