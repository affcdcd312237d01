//! Scripts of kind `one`: the two ends of one SA.
mod directive;
mod ends;
mod report;

use crate::{LineFault, Player};
use directive::Directive;
use ends::Ends;
use report::Report;
use std::alloc::Global;

/// Plays a script of kind `one`. Its first directive, and no other, says what the ends agree on.
#[derive(Drop)]
pub struct One {
    alloc: Global,
    ends: Option<Ends>,
}

impl One {
    /// Before the first directive.
    pub fn new(alloc: Global) -> One {
        One { alloc, ends: None }
    }

    fn follow(&mut self, directive: Directive) -> Result<Report, LineFault> {
        let Some(ends) = &mut self.ends else {
            return self.begin(directive);
        };
        match directive {
            Directive::Agree(_) => Err(LineFault::Refused),
            Directive::Sender { last } => ends.set_last(last),
            Directive::Seal { next, payload } => ends.seal(next, &payload),
            Directive::Deliver { packet } => ends.deliver(packet),
            Directive::Damage {
                packet,
                offset,
                change,
            } => ends.deliver_damaged(packet, offset, change),
            Directive::Print { packet } => ends.print(packet),
        }
    }

    // Follows the first directive.
    fn begin(&mut self, directive: Directive) -> Result<Report, LineFault> {
        let Directive::Agree(terms) = directive else {
            return Err(LineFault::Refused);
        };
        self.ends = Some(Ends::new(self.alloc, terms)?);
        Ok(Report::Nothing)
    }
}

impl Player for One {
    ghost use Rattle.std.specs.Prelude.{⊤};

    // Of what it prints, and of what it refuses, nothing is told.
    ghost says = { λ _ _ _ _. ⊤ };

    ghost refuses = { λ _ _ _ _. ⊤ };

    fn play(&mut self, line: &[u8]) -> Result<String, LineFault> {
        let directive = Directive::read(self.alloc, line)?;
        let report = self.follow(directive)?;
        Ok(report.text(self.alloc)?)
    }
}
