//! Scripts of kind `two`: two gateways, and the datagrams between them.
mod directive;
mod ends;
mod fresh;
mod preset;
mod report;
mod side;

use crate::{LineFault, Player};
use directive::{Act, Directive};
use ends::Ends;
use preset::Preset;
use std::alloc::Global;

/// Plays a script of kind `two`. Its first directives, as long as they set an end up, are what the gateways
/// are made with; the first other one makes them.
#[derive(Drop)]
pub struct Two {
    alloc: Global,
    preset: Preset,
    ends: Option<Ends>,
}

impl Two {
    /// Before the first directive.
    pub fn new(alloc: Global) -> Two {
        Two {
            alloc,
            preset: Preset::new(alloc),
            ends: None,
        }
    }

    fn act(&mut self, act: Act) -> Result<String, LineFault> {
        if let Some(ends) = &mut self.ends {
            return ends.follow(act);
        }
        let mut ends = Ends::new(self.alloc, &self.preset)?;
        let text = ends.follow(act)?;
        self.ends = Some(ends);
        Ok(text)
    }
}

impl Player for Two {
    ghost use Rattle.std.specs.Prelude.{⊤};

    // Of what it prints, and of what it refuses, nothing is told.
    ghost says = { λ _ _ _ _. ⊤ };

    ghost refuses = { λ _ _ _ _. ⊤ };

    fn play(&mut self, line: &[u8]) -> Result<String, LineFault> {
        match Directive::read(self.alloc, line)? {
            Directive::Set(_) if self.ends.is_some() => Err(LineFault::Refused),
            Directive::Set(term) => {
                self.preset.take(self.alloc, term)?;
                Ok(String::new(self.alloc))
            }
            Directive::Act(act) => self.act(act),
        }
    }
}
