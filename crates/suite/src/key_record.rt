//! The keys of an IKE SA and of its Child SAs (RFC 7296, sections 2.14 and 2.17).
ghost use Rattle.std.specs.Prelude.{◌≡◌, ◌≤◌, ◌+◌, ◌*◌, length};
ghost use Rattle.suite.specs.Nonces.{IsNonce};

use crate::{Keys, Nonce};
use byteorder::{BigEndian, ByteOrder};
use mac::{hmac, prf_plus};
use std::fmt;

// The octets of a key.
const KEY: usize = 32;

// The octets of the longest two nonces.
const NONCES: usize = 512;

/// An IKE SA's SPIs, its nonces and the seven keys made of them (RFC 7296, section 2.14).
///
/// It follows from the shared secret, both nonces and both SPIs ([`ike_keys`]).
#[derive(Clone, PartialEq, Eq, Drop)]
pub struct KeyRecord {
    /// The original initiator's SPI.
    pub spi_i: u64,
    /// The responder's SPI.
    pub spi_r: u64,
    /// The original initiator's nonce.
    pub nonce_i: Nonce,
    /// The responder's nonce.
    pub nonce_r: Nonce,
    /// The key from which those of Child SAs are made.
    pub sk_d: [u8; 32],
    /// The integrity key of what the original initiator sends.
    pub sk_ai: [u8; 32],
    /// The integrity key of what the responder sends.
    pub sk_ar: [u8; 32],
    /// The encryption key of what the original initiator sends.
    pub sk_ei: [u8; 32],
    /// The encryption key of what the responder sends.
    pub sk_er: [u8; 32],
    /// The key with which the original initiator's identity is proved.
    pub sk_pi: [u8; 32],
    /// The key with which the responder's identity is proved.
    pub sk_pr: [u8; 32],
}

impl KeyRecord {
    ghost use Rattle.suite.specs.Keys.{first_child_keys, initiator_keys, responder_keys};

    /// The keys under which the original initiator seals.
    pub fn initiator_keys(&self) -> Keys
        ensures { result ≡ initiator_keys self.now }
    {
        Keys {
            encryption: self.sk_ei,
            integrity: self.sk_ai,
        }
    }

    /// The keys under which the responder seals.
    pub fn responder_keys(&self) -> Keys
        ensures { result ≡ responder_keys self.now }
    {
        Keys {
            encryption: self.sk_er,
            integrity: self.sk_ar,
        }
    }

    /// The keys of the Child SA that is made with the IKE SA, whose nonces are the IKE SA's own (RFC 7296,
    /// section 2.17): the integrity key of what the original initiator sends, then that of what the responder
    /// sends.
    pub fn first_child_keys(&self) -> [[u8; 32]; 2]
        ensures { result ≡ first_child_keys self.now }
    {
        child_keys(&self.sk_d, self.nonce_i.as_slice(), self.nonce_r.as_slice())
    }
}

// Shows no octet of a key.
impl fmt::Debug for KeyRecord {
    ghost use Rattle.std.specs.Prelude.{Some, codes};

    ghost debug_output = { λ _. Some (codes "KeyRecord { .. }") };

    fn fmt<W: fmt::Write>(&self, f: &mut fmt::Formatter<W>) -> fmt::Result {
        f.write_str("KeyRecord { .. }")
    }
}

ghost use Rattle.suite.specs.Keys.{child_keys, child_material, ike_keys, ike_material, key_at, seed_key};

/// The record of an IKE SA, from the shared secret of the agreement, both nonces of 16 to 256 octets and both
/// SPIs (RFC 7296, section 2.14). Takes no memory.
pub fn ike_keys(shared: &[u8], ni: &[u8], nr: &[u8], spi_i: u64, spi_r: u64) -> KeyRecord
    requires nonce_i { IsNonce ni.now }
    requires nonce_r { IsNonce nr.now }
    ensures { result ≡ ike_keys shared.now ni.now nr.now spi_i spi_r }
{
    let material = ike_material(shared, ni, nr, spi_i, spi_r);
    KeyRecord {
        spi_i,
        spi_r,
        nonce_i: Nonce::new(ni),
        nonce_r: Nonce::new(nr),
        sk_d: key_at(0, &material),
        sk_ai: key_at(1, &material),
        sk_ar: key_at(2, &material),
        sk_ei: key_at(3, &material),
        sk_er: key_at(4, &material),
        sk_pi: key_at(5, &material),
        sk_pr: key_at(6, &material),
    }
}

/// The two keys of a Child SA, from its IKE SA's SK_d and the nonces of the exchange that makes it (RFC 7296,
/// section 2.17): the integrity key of what that exchange's initiator sends, then that of what its responder
/// sends. Takes no memory.
pub fn child_keys(sk_d: &[u8; 32], ni: &[u8], nr: &[u8]) -> [[u8; 32]; 2]
    ensures { result ≡ child_keys sk_d.now ni.now nr.now }
{
    let material = child_material(sk_d, ni, nr);
    [key_at(0, &material), key_at(1, &material)]
}

// Seven keys, one after the other.
#[tactic(auto, unfolding(crate::specs::Keys::ike_material))]
fn ike_material(shared: &[u8], ni: &[u8], nr: &[u8], spi_i: u64, spi_r: u64) -> [u8; 7 * KEY]
    requires nonce_i { IsNonce ni.now }
    requires nonce_r { IsNonce nr.now }
    ensures { result ≡ ike_material shared.now ni.now nr.now spi_i spi_r }
{
    let seed = seed_key(shared, ni, nr);
    let mut spis = [0; 16];
    BigEndian::write_u64(&mut spis[..8], spi_i);
    BigEndian::write_u64(&mut spis[8..], spi_r);
    let mut material = [0; 7 * KEY];
    prf_plus(&seed, &[ni, nr, &spis], &mut material).unwrap();
    material
}

// Two keys, one after the other.
#[tactic(auto, unfolding(crate::specs::Keys::child_material))]
fn child_material(sk_d: &[u8; 32], ni: &[u8], nr: &[u8]) -> [u8; 2 * KEY]
    ensures { result ≡ child_material sk_d.now ni.now nr.now }
{
    let mut material = [0; 2 * KEY];
    prf_plus(sk_d, &[ni, nr], &mut material).unwrap();
    material
}

// SKEYSEED, under both nonces as one key.
#[tactic(auto, unfolding(crate::specs::Keys::seed_key))]
fn seed_key(shared: &[u8], ni: &[u8], nr: &[u8]) -> [u8; 32]
    requires nonce_i { IsNonce ni.now }
    requires nonce_r { IsNonce nr.now }
    ensures { result ≡ seed_key shared.now ni.now nr.now }
{
    let mut nonces = [0; NONCES];
    let end = ni.len() + nr.len();
    nonces[..ni.len()].copy_from_slice(ni);
    nonces[ni.len()..end].copy_from_slice(nr);
    hmac(&nonces[..end], &[shared])
}

// The key behind so many others.
fn key_at(place: usize, material: &[u8]) -> [u8; 32]
    requires { 32 * place + 32 ≤ length material.now }
    ensures { result ≡ key_at place material.now }
{
    let mut key = [0; KEY];
    key.copy_from_slice(&material[KEY * place..KEY * place + KEY]);
    key
}
