//! What follows from the definitions alone. No function here does anything.
ghost use Rattle.std.specs.Prelude.{List, ℕ, Option};
ghost use Rattle.esp.specs.declared.fault.EspFault.{EspFault};
ghost use Rattle.policy.specs.declared.entry.Entry.{Entry};
ghost use Rattle.sadb.specs.Database.{Database, OpensAt, PairMap, RefusesAt, SealsAt};
ghost use Rattle.flows.specs.declared.memory.Answer.{Answer};
ghost use Rattle.flows.specs.Memory.{AllRight, HoldsNone};
ghost use Rattle.flows.specs.Staying.{NoneComes};

/// What is remembered stays right as long as no pair comes or comes back to life, and none gets other
/// selectors, whatever else becomes of the pairs; and a memory that holds nothing is right.
pub fn answers_stay_right()
    ensures stay { (policy : List Entry) (old new : PairMap) (memory : List (Option Answer))
        → NoneComes old new → AllRight policy old memory → AllRight policy new memory }
    ensures none { (policy : List Entry) (pairs : PairMap) (memory : List (Option Answer)) → HoldsNone memory
        → AllRight policy pairs memory }
{}

/// No pair comes to a table that stays as it is, or by an opening, whatever came of it, or a sealing.
pub fn no_pair_comes()
    ensures same { (pairs : PairMap) → NoneComes pairs pairs }
    ensures opening { (old new : Database) (serial : ℕ) (packet : List ℕ) (number next : ℕ) (payload : List ℕ)
        → OpensAt old serial packet number next payload new → NoneComes old.pairs new.pairs }
    ensures refusing { (old new : Database) (serial : ℕ) (packet : List ℕ) (fault : EspFault)
        → RefusesAt old serial packet fault new → NoneComes old.pairs new.pairs }
    ensures sealing { (old new : Database) (serial next : ℕ) (payload before : List ℕ) (number : ℕ)
        (after : List ℕ)
        → SealsAt old serial next payload before number new after → NoneComes old.pairs new.pairs }
{}
