//! The configuration of an end.

ghost use Rattle.std.specs.Prelude.{◌≡◌, IfErr, IfOk};
ghost use Rattle.replay.specs.Window.{IsBlockCount};
ghost use Rattle.auth.specs.Proofs.{IsIdentity};
ghost use Rattle.auth.specs.Windows.{IsWindow};
ghost use Rattle.setup.specs.Configs.{plain_config, IsConfig, IsEndFault};
ghost use Rattle.setup.specs.declared.fault.ConfigFault.TheVariants as fault;

use crate::ConfigFault;
use auth::Identity;
use replay::is_block_count;
use std::fmt;
use std::marker::Model;

/// How one of the two ends is known.
#[derive(Drop)]
pub struct EndConfig {
    /// Who it is (RFC 7296, section 3.5).
    pub identity: Identity,
    /// Its IPv4 address, as its four octets stand in a packet. Nothing here reads it.
    pub address: [u8; 4],
}

/// The configuration of this end. Every value can be used. [`new`](Config::new) makes one of the usual
/// sizes, and [`with_blocks`](Config::with_blocks), [`with_window`](Config::with_window) and
/// [`with_extended`](Config::with_extended) change one each; a call that refuses keeps nothing of what it
/// was given.
#[derive(Drop)]
pub struct Config {
    own: EndConfig,
    peer: EndConfig,
    extended: bool,
    blocks: u32,
    cookie_secret: [u8; 32],
    window: u8,
}

impl Model for Config {
    ghost use Rattle.setup.specs.Views.{ConfigView};

    ghost Value = { ConfigView };

    ghost use Rattle.setup.specs.Insides.{config_view};
    ghost use Rattle.setup.specs.Configs.{IsConfig};

    ghost view = { config_view };

    ghost invariant = { λ c. IsConfig (config_view c) };
}

// The widest window of requests that an end may have, a limit of this implementation.
const WINDOW_LIMIT: u8 = 16;

impl Config {
    /// A configuration of these ends: extended sequence numbers allowed, replay windows of two blocks, and
    /// one request taken at once.
    ///
    /// Refused, in this order, as [`ConfigFault::OwnIdentity`] and [`ConfigFault::PeerIdentity`] where the
    /// identity doesn't fit an ID payload (RFC 7296, section 3.5). Takes no memory.
    pub fn new(
        own: EndConfig,
        peer: EndConfig,
        cookie_secret: &[u8; 32],
    ) -> Result<Config, ConfigFault>
        ensures made { IfOk result (λ config. (config ≡ plain_config own peer cookie_secret.now) × IsConfig config) }
        ensures refused { IfErr result (IsEndFault own peer) }
    {
        if !own.identity.fits_payload() {
            return Err(ConfigFault::OwnIdentity);
        }
        if !peer.identity.fits_payload() {
            return Err(ConfigFault::PeerIdentity);
        }
        Ok(Config {
            own,
            peer,
            extended: true,
            blocks: 2,
            cookie_secret: *cookie_secret,
            window: 1,
        })
    }

    /// The same configuration with replay windows of so many blocks. Refused as [`ConfigFault::Blocks`] where
    /// [`replay::is_block_count`] doesn't allow that count. Takes no memory.
    pub fn with_blocks(self, blocks: u32) -> Result<Config, ConfigFault>
        ensures set { IfOk result (λ config. (config ≡ record self { blocks = blocks }) × IsBlockCount blocks) }
        ensures refused { IfErr result (λ why. (why ≡ fault.Blocks) × (¬ IsBlockCount blocks)) }
    {
        if !is_block_count(blocks) {
            return Err(ConfigFault::Blocks);
        }
        Ok(Config { blocks, ..self })
    }

    /// The same configuration with so many requests taken at once. Refused as [`ConfigFault::Window`] where
    /// that isn't one of 1 to 16 (RFC 7296, section 2.3). Takes no memory.
    pub fn with_window(self, window: u8) -> Result<Config, ConfigFault>
        ensures set { IfOk result (λ config. (config ≡ record self { window = window }) × IsWindow window) }
        ensures refused { IfErr result (λ why. (why ≡ fault.Window) × (¬ IsWindow window)) }
    {
        if window == 0 || window > WINDOW_LIMIT {
            return Err(ConfigFault::Window);
        }
        Ok(Config { window, ..self })
    }

    /// The same configuration with extended sequence numbers allowed, or not. Takes no memory.
    pub fn with_extended(self, extended: bool) -> Config
        ensures { result ≡ record self { extended = extended } }
    {
        Config { extended, ..self }
    }

    /// This end.
    pub fn own(&self) -> &EndConfig
        ensures end { result.now ≡ self.now.own }
        ensures fits { IsIdentity result.now.identity }
    {
        &self.own
    }

    /// The one peer.
    pub fn peer(&self) -> &EndConfig
        ensures end { result.now ≡ self.now.peer }
        ensures fits { IsIdentity result.now.identity }
    {
        &self.peer
    }

    /// Whether it allows extended sequence numbers (RFC 4303, section 2.2.1).
    pub fn extended(&self) -> bool
        ensures { result ≡ self.now.extended }
    {
        self.extended
    }

    /// The blocks of the replay windows of its Child SAs, a count that [`replay::is_block_count`] allows.
    pub fn blocks(&self) -> u32
        ensures count { result ≡ self.now.blocks }
        ensures allowed { IsBlockCount result }
    {
        self.blocks
    }

    /// The first secret of its cookies (RFC 7296, section 2.6).
    pub fn cookie_secret(&self) -> &[u8; 32]
        ensures { result.now ≡ self.now.cookie_secret }
    {
        &self.cookie_secret
    }

    /// How many requests it takes at once, 1 to 16 (RFC 7296, section 2.3).
    pub fn window(&self) -> u8
        ensures number { result ≡ self.now.window }
        ensures allowed { IsWindow result }
    {
        self.window
    }

    /// What holds of every configuration: both identities fit payloads, and blocks and window are as
    /// [`blocks`](Config::blocks) and [`window`](Config::window) say. Does nothing.
    pub fn invariants_hold(&self)
        ensures { IsConfig self.now }
    {
        let _ = &self.window;
    }
}

// Shows no octet of the secret.
impl fmt::Debug for Config {
    ghost use Rattle.std.specs.Prelude.{Some, codes};

    ghost debug_output = { λ _. Some (codes "Config { .. }") };

    fn fmt<W: fmt::Write>(&self, f: &mut fmt::Formatter<W>) -> fmt::Result {
        f.write_str("Config { .. }")
    }
}
