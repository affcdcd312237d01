//! Facts about the definitions, each the contract of a function that does nothing: what becomes of a table
//! over many calls, that answers are determined, and mirrored SA pairs.
ghost use Rattle.std.specs.Prelude.{◌≡◌, ◌≢◌, ℕ, List};
ghost use Rattle.esp.specs.declared.fault.EspFault.{EspFault};
ghost use Rattle.policy.specs.declared.flow.Flow.{Flow};
ghost use Rattle.sadb.specs.Contents.{table_content};
ghost use Rattle.sadb.specs.Database.{Database, HasInbound, IsReady, Installs, IsAfter, IsAsBefore, IsInbound, IsOutbound, IsTableRefusal, IsSoundTable};
ghost use Rattle.sadb.specs.Database.{Marks, OpensAt, PairMap, RefusesAt, Releases, RemovesAllOf, Removes, Reserves, SealsAt};
ghost use Rattle.sadb.specs.Following.{Follows};
ghost use Rattle.sadb.specs.Laying.{KeepsSenders};
ghost use Rattle.sadb.specs.Mirrors.{Mirrors, reflection};
ghost use Rattle.sadb.specs.declared.fault.TableFault.{TableFault};
ghost use Rattle.sadb.specs.declared.pair.Pair.{Pair};

/// Each call leads from a table to one that follows it: an SA pair keeps its serial, SPIs, keys and selectors
/// as long as it is there, never comes back to life, and no sequence number of its comes back; and no SPI
/// that was given up, or that a pair had, is reserved again or becomes another pair's. Following is
/// transitive, so this holds of any number of calls.
pub fn later_tables_follow()
    ensures transitive { (a b c : Database) → Follows a b → Follows b c → Follows a c }
    ensures preparing { (old new : Database) → IsSoundTable old → IsAsBefore old new → Follows old new }
    ensures reserving { (old new : Database) (spi : ℕ) → IsSoundTable old → Reserves old spi new
        → Follows old new }
    ensures releasing { (old new : Database) (spi : ℕ) → IsSoundTable old → Releases old spi new
        → Follows old new }
    ensures installing { (old new : Database) (spi : ℕ) (pair : Pair) (serial : ℕ)
        → IsSoundTable old → Installs old spi pair serial new → Follows old new }
    ensures removing { (old new : Database) (serial : ℕ) → IsSoundTable old → Removes old serial new
        → Follows old new }
    ensures emptying { (old new : Database) (ike : ℕ) → IsSoundTable old → RemovesAllOf old ike new
        → Follows old new }
    ensures marking { (old new : Database) (serial : ℕ) → IsSoundTable old → Marks old serial new
        → Follows old new }
    ensures opening { (old new : Database) (serial : ℕ) (packet : List ℕ) (number next : ℕ) (payload : List ℕ)
        → IsSoundTable old → OpensAt old serial packet number next payload new → Follows old new }
    ensures refusing { (old new : Database) (serial : ℕ) (packet : List ℕ) (fault : EspFault)
        → IsSoundTable old → RefusesAt old serial packet fault new → Follows old new }
    ensures sealing { (old new : Database) (serial next : ℕ) (payload before : List ℕ) (number : ℕ)
        (after : List ℕ)
        → IsSoundTable old → SealsAt old serial next payload before number new after → Follows old new }
{}

/// Room that was made stays until an SPI is given for it: a table that is ready to give one without memory is
/// so after a release, a removal, the end of an SA pair's traffic outward, an opening, whatever came of it,
/// and a sealing.
pub fn room_stays()
    ensures releasing { (old new : Database) (spi : ℕ) → IsReady old → Releases old spi new → IsReady new }
    ensures removing { (old new : Database) (serial : ℕ) → IsReady old → Removes old serial new
        → IsReady new }
    ensures marking { (old new : Database) (serial : ℕ) → IsReady old → Marks old serial new → IsReady new }
    ensures opening { (old new : Database) (serial : ℕ) (packet : List ℕ) (number next : ℕ) (payload : List ℕ)
        → IsReady old → OpensAt old serial packet number next payload new → IsReady new }
    ensures refusing { (old new : Database) (serial : ℕ) (packet : List ℕ) (fault : EspFault)
        → IsReady old → RefusesAt old serial packet fault new → IsReady new }
    ensures sealing { (old new : Database) (serial next : ℕ) (payload before : List ℕ) (number : ℕ)
        (after : List ℕ)
        → IsReady old → SealsAt old serial next payload before number new after → IsReady new }
{}

/// By an opening, whatever came of it, and a sealing no SA pair comes or goes, and none gets another outbound
/// SA. So a packet that was laid can be finished after any number of these.
pub fn senders_stay()
    ensures opening { (old new : Database) (serial : ℕ) (packet : List ℕ) (number next : ℕ) (payload : List ℕ)
        → OpensAt old serial packet number next payload new → KeepsSenders old.pairs new.pairs }
    ensures refusing { (old new : Database) (serial : ℕ) (packet : List ℕ) (fault : EspFault)
        → RefusesAt old serial packet fault new → KeepsSenders old.pairs new.pairs }
    ensures sealing { (old new : Database) (serial next : ℕ) (payload before : List ℕ) (number : ℕ)
        (after : List ℕ)
        → SealsAt old serial next payload before number new after → KeepsSenders old.pairs new.pairs }
{}

/// An SPI that was given is not given again, whatever is done between.
pub fn no_spi_is_given_twice()
    ensures { (a b c d : Database) (first second : ℕ)
        → Reserves a first b → Follows b c → Reserves c second d → first ≢ second }
{}

/// An inbound SPI names one SA pair for ever: what has it later is the pair that had it, under the same
/// serial.
pub fn an_spi_names_one_pair()
    ensures { (a c : Database) (spi serial later : ℕ) → IsSoundTable a → Follows a c
        → HasInbound a.pairs spi serial → HasInbound c.pairs spi later → later ≡ serial }
{}

/// What [`Table::inbound`](crate::Table::inbound), [`outbound`](crate::Table::outbound) and
/// [`after`](crate::Table::after) answer is determined, and of the refusals of an SPI one applies at most.
pub fn answers_are_determined()
    ensures inbound { (pairs : PairMap) (spi : ℕ) (a b : Pair) → IsInbound pairs spi a → IsInbound pairs spi b
        → a ≡ b }
    ensures outbound { (pairs : PairMap) (flow : Flow) (a b : ℕ) → IsOutbound pairs flow a
        → IsOutbound pairs flow b → a ≡ b }
    ensures after { (pairs : PairMap) (serial : ℕ) (a b : Pair) → IsAfter pairs serial a
        → IsAfter pairs serial b → a ≡ b }
    ensures refusal { (d : Database) (a b : TableFault) → IsTableRefusal d a → IsTableRefusal d b → a ≡ b }
{}

/// An SA pair that mirrors another is mirrored by it.
pub fn mirroring_is_symmetric()
    ensures { (a b : Pair) → Mirrors a b → Mirrors b a }
{}

/// An SA pair whose two SAs have sequence numbers of one length has a mirror: what the other end would hold.
pub fn mirrors_exist()
    ensures { (a : Pair) → a.inbound.association.extended ≡ a.outbound.association.extended
        → Mirrors a (reflection a) }
{}

/// What a table holds after a call, and what the call gave, goes by what the table held before, whatever room
/// there is.
pub fn later_tables_are_determined()
    ensures prepared { (old new : Database) → IsAsBefore old new → table_content new ≡ table_content old }
    ensures reserved { (old other a b : Database) (spi mark : ℕ) → table_content old ≡ table_content other
        → Reserves old spi a → Reserves other mark b → (spi ≡ mark) × (table_content a ≡ table_content b) }
    ensures released { (old other a b : Database) (spi : ℕ) → table_content old ≡ table_content other
        → Releases old spi a → Releases other spi b → table_content a ≡ table_content b }
    ensures installed { (old other a b : Database) (spi mark : ℕ) (pair : Pair) (serial number : ℕ)
        → table_content old ≡ table_content other → Installs old spi pair serial a
        → Installs other mark pair number b
        → (serial ≡ number) × (table_content a ≡ table_content b) }
    ensures emptied { (old other a b : Database) (ike : ℕ) → table_content old ≡ table_content other
        → RemovesAllOf old ike a → RemovesAllOf other ike b → table_content a ≡ table_content b }
{}
