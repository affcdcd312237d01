//! What plays the directives of a script.
ghost use Rattle.std.specs.Prelude.{IfOk, IfErr, string_bytes};

use crate::LineFault;

/// A machine that plays the directives of one kind of script.
pub trait Player {
    ghost use Rattle.std.specs.Prelude.{ℕ, List};
    ghost use Rattle.gw_script.specs.declared.fault.LineFault.{LineFault};

    /// Holds where a machine may say this text at this line, and be that machine afterwards.
    ghost says: { Self → List ℕ → List ℕ → Self → Type 0 };

    /// Holds where a machine may not play this line, for this reason, and be that machine afterwards.
    ghost refuses: { Self → List ℕ → LineFault → Self → Type 0 };

    /// Plays the directive of one line, and answers the text that it prints: whole lines, or nothing.
    fn play(&mut self, line: &[u8]) -> Result<String, LineFault>
        ensures said { IfOk result (λ text. says self.old line.now (string_bytes text) self.new) }
        ensures refused { IfErr result (λ fault. refuses self.old line.now fault self.new) };
}
