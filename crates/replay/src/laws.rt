//! What follows from the definitions alone.
ghost use Rattle.std.specs.Prelude.{◌≡◌, ℕ, ◌^◌, ◌<◌};
ghost use Rattle.replay.specs.Recovery.{IsRecovered};
ghost use Rattle.replay.specs.Window.{IsSoundWindow, Seen, Takes, judgement};
ghost use Rattle.replay.specs.declared.window.Judgement.TheVariants.{Fresh};

/// No more than one number has a low half in the range that [`recover`](crate::recover) chooses from, so
/// what it answers is the only one. Does nothing.
pub fn recovers_one_number()
    ensures { (top window low n m : ℕ) → IsRecovered top window low n → IsRecovered top window low m → n ≡ m }
{}

/// A sound window that takes a sequence number which it calls fresh is sound afterwards. Does nothing.
pub fn taking_keeps_windows_sound()
    ensures { (old new : Seen) (n : ℕ) → IsSoundWindow old → judgement old n ≡ Fresh → n < 2 ^ 64
        → Takes old n new → IsSoundWindow new }
{}
