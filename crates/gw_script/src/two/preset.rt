//! What the two gateways are made with.
ghost use Rattle.std.specs.Prelude.{◌≡◌, IfOk};
ghost use Rattle.gateway.specs.Worlds.{HoldsNothing};

use super::directive::Term;
use super::side::{Side, address, name};
use crate::LineFault;
use auth::Identity;
use base::Items;
use caller_script::ScriptCaller;
use gateway::Gateway;
use policy::{Entry, Policy};
use setup::{Config, EndConfig};
use std::alloc::{AllocError, Global};

// The most requests that an end may take at once.
const WINDOW_LIMIT: u8 = 16;

// The number of the identity type ID_FQDN (RFC 7296 section 3.5).
const NAME: u8 = 2;

/// What the gateways are made with.
#[derive(Drop)]
pub struct Preset {
    // No directive set anything yet.
    is_untouched: bool,
    extended: bool,
    a: Terms,
    b: Terms,
}

impl Preset {
    /// Ends without a policy that take one request at a time, with extended sequence numbers.
    pub fn new(alloc: Global) -> Preset {
        Preset {
            is_untouched: true,
            extended: true,
            a: Terms::new(alloc),
            b: Terms::new(alloc),
        }
    }

    /// Takes one term more. Refused are an entry that no policy may have, a window outside 1 to 16, and
    /// what is said of sequence numbers behind any other term.
    pub fn take(&mut self, alloc: Global, term: Term) -> Result<(), LineFault> {
        match term {
            Term::NotExtended if !self.is_untouched => return Err(LineFault::Refused),
            Term::NotExtended => self.extended = false,
            Term::Window { side, requests } => self.terms(side).set_window(requests)?,
            Term::Entry { side, entry } => self.terms(side).add(alloc, entry)?,
        }
        self.is_untouched = false;
        Ok(())
    }

    /// The gateway of an end.
    pub fn gateway(&self, alloc: Global, side: Side) -> Result<Gateway<ScriptCaller>, LineFault>
        ensures { IfOk result HoldsNothing }
    {
        let (terms, start) = match side {
            Side::A => (&self.a, 4096),
            Side::B => (&self.b, 8192),
        };
        let policy = terms.policy(alloc)?;
        let config = terms.config(alloc, side, self.extended)?;
        Ok(Gateway::new(alloc, config, policy, start, ScriptCaller))
    }

    fn terms(&mut self, side: Side) -> &mut Terms {
        match side {
            Side::A => &mut self.a,
            Side::B => &mut self.b,
        }
    }
}

// What one end is made with.
#[derive(Drop)]
struct Terms {
    entries: Items<Entry>,
    window: u8,
}

impl Terms {
    fn new(alloc: Global) -> Terms {
        Terms {
            entries: Items::new(alloc),
            window: 1,
        }
    }

    fn set_window(&mut self, requests: u8) -> Result<(), LineFault> {
        if requests < 1 || requests > WINDOW_LIMIT {
            return Err(LineFault::Refused);
        }
        self.window = requests;
        Ok(())
    }

    // Refused where no policy has these entries with this one behind them.
    fn add(&mut self, alloc: Global, entry: Entry) -> Result<(), LineFault> {
        self.entries.push(entry).map_err(AllocError::from)?;
        self.policy(alloc)?;
        Ok(())
    }

    fn policy(&self, alloc: Global) -> Result<Policy, LineFault> {
        let entries = Items::from_slice(alloc, self.entries.as_slice())?;
        Policy::new(entries).map_err(|_| LineFault::Refused)
    }

    fn config(&self, alloc: Global, side: Side, extended: bool) -> Result<Config, LineFault> {
        let own = end(alloc, side)?;
        let peer = end(alloc, side.other())?;
        let config = Config::new(own, peer, &[0; 32])
            .and_then(|config| config.with_window(self.window))
            .map_err(|_| LineFault::Refused)?;
        Ok(config.with_extended(extended))
    }
}

// An end as its configuration, and its peer's, has it.
fn end(alloc: Global, side: Side) -> Result<EndConfig, LineFault> {
    let identity = Identity {
        kind: NAME,
        data: Items::from_slice(alloc, &name(side))?,
    };
    Ok(EndConfig {
        identity,
        address: address(side),
    })
}
