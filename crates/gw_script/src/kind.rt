//! The kinds of script.
ghost use Rattle.std.specs.Prelude.{◌≡◌, MatchOption};
ghost use Rattle.gw_script.specs.Kinds.{word_of};
ghost use Rattle.gw_script.specs.declared.kind.Kind.{Kind};

/// What a script is about. Its first line says so in one word.
#[derive(Clone, Copy, Debug, PartialEq, Eq)]
pub enum Kind {
    /// `one`: the two ends of one SA.
    One,
    /// `two`: two gateways.
    Two,
}

impl Kind {
    /// The kind that a script's first line names, if any.
    pub fn named(line: &[u8]) -> Option<Kind>
        ensures { MatchOption result
            ((kind : Kind) → ¬ (line.now ≡ word_of kind)) (λ kind. line.now ≡ word_of kind) }
    {
        match line {
            b"one" => Some(Kind::One),
            b"two" => Some(Kind::Two),
            _ => None,
        }
    }
}
