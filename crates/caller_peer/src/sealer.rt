//! The cipher: bodies of encrypted payloads (RFC 7296, section 3.14).
ghost use Rattle.std.specs.Prelude.{◌≡◌, ◌≤◌, ◌+◌, ◌-◌, ◌*◌, ◌%◌, ◌++◌, false, None, Ok, IsOk, OnOk, OnErr, IfOk, IfSome, drop, length, option_map, take, vec_len};
ghost use Rattle.std.specs.List.{flat_map};
ghost use Rattle.std.specs.Vec.{vec_capacity};
ghost use Rattle.suite.specs.Sealing.{Opens};
ghost use Rattle.caller_peer.specs.Bodies.{blocks_of, body_size, check_value, decrypted_part, encrypted_part, is_intact, opened_body, pad_length, padding, sealed_body, unpadded};
ghost use Rattle.caller_peer.specs.BodyLaws.{body_length, body_opens, sizes};

use crate::PeerCaller;
use crate::chaining::{BLOCK, block_of, both, decrypt, encrypt};
use aes::Aes256;
use mac::icv;
use std::alloc::AllocError;
use suite::{Cipher, Keys, Sealer};

// ENCR_AES_CBC (RFC 7296, section 3.3.2).
const AES_CBC: u16 = 12;

// The octets of an ICV (RFC 4868, section 2.3).
const CHECK_VALUE: usize = 16;

/// The 16 fresh octets are a body's initialization vector: in CBC mode nobody may foretell them (RFC 3602,
/// section 3; RFC 7296, section 3.14). Padding is zeros, as few as fill a block; in opening any pad length
/// that fits is taken, whatever the padding.
impl Sealer for PeerCaller {
    ghost use Rattle.caller_peer.specs.Bodies.{aes_cbc};

    ghost cipher = { aes_cbc };

    ghost sealed_size = { body_size };

    ghost body_of = { sealed_body };

    ghost plain_of = { opened_body };

    fn transform(&self) -> Cipher {
        Cipher {
            id: AES_CBC,
            key_length: Some(256),
        }
    }

    fn sealed_len(&self, plain: usize) -> usize {
        BLOCK + BLOCK * (plain / BLOCK + 1) + CHECK_VALUE
    }

    fn seal(
        &self,
        keys: &Keys,
        head: &[u8],
        plain: &[u8],
        fresh: &[u8; 16],
        out: &mut Vec<u8>,
    ) -> Result<(), AllocError>
        ensures appended { OnOk result
            (out.new.items ≡ out.old.items ++ sealed_body keys.now head.now plain.now fresh.now) }
        ensures refused { OnErr result (out.new.items ≡ out.old.items) }
        ensures room { vec_len out.old + body_size (length plain.now) ≤ vec_capacity out.old → IsOk result }
    {
        out.reserve(self.sealed_len(plain.len()))?;
        let start = out.len();
        append_encrypted(keys, plain, fresh, out);
        let value = check_value(keys, head, &out[start..]);
        out.extend_from_slice(&value).unwrap();
        Ok(())
    }

    fn open(
        &self,
        keys: &Keys,
        head: &[u8],
        body: &[u8],
        out: &mut Vec<u8>,
    ) -> Result<bool, AllocError>
        ensures answered { IfOk result
            (λ opens. Opens (opened_body keys.now head.now body.now) opens out.old.items out.new.items) }
        ensures refused { OnErr result (out.new.items ≡ out.old.items) }
        // What doesn't open takes no memory.
        ensures unopened { opened_body keys.now head.now body.now ≡ None
            → (result ≡ Ok false) × (out.new.items ≡ out.old.items) }
        // What is written are the blocks, all but vector and ICV.
        ensures room { vec_len out.old + length body.now ≤ vec_capacity out.old + 32 → IsOk result }
    {
        if !is_intact(keys, head, body) {
            return Ok(false);
        }
        let Some(plain) = plain_len(keys, body) else {
            return Ok(false);
        };
        let start = out.len();
        append_decrypted(keys, body, out)?;
        out.truncate(start + plain);
        Ok(true)
    }

    ghost opens_again = { body_opens };

    ghost length_told = { body_length };

    ghost size_bounded = { sizes };
}

// Appends vector and encrypted blocks, for which there is room.
fn append_encrypted(keys: &Keys, plain: &[u8], vector: &[u8; BLOCK], out: &mut Vec<u8>)
    requires room { vec_len out.old + (16 + 16 * blocks_of (length plain.now)) ≤ vec_capacity out.old }
    ensures appended { out.new.items ≡ out.old.items ++ encrypted_part keys.now plain.now vector.now }
    ensures len { vec_len out.new ≡ vec_len out.old + (16 + 16 * blocks_of (length plain.now)) }
    ensures capacity { vec_capacity out.old ≤ vec_capacity out.new }
{
    let start = out.len();
    let (padding, pad) = padding(plain.len());
    append(out, &[vector, plain, &padding[..pad + 1]]);
    let text = &mut out.as_mut_slice()[start + BLOCK..];
    encrypt(&Aes256::new(&keys.encryption), vector, text);
}

// Appends the blocks of a body, decrypted.
fn append_decrypted(keys: &Keys, body: &[u8], out: &mut Vec<u8>) -> Result<(), AllocError>
    requires long { 32 ≤ length body.now }
    requires whole { length body.now % 16 ≡ 0 }
    ensures appended { OnOk result (out.new.items ≡ out.old.items ++ decrypted_part keys.now body.now) }
    ensures refused { OnErr result (out.new.items ≡ out.old.items) }
    ensures room { vec_len out.old + length body.now ≤ vec_capacity out.old + 32 → IsOk result }
{
    let start = out.len();
    out.extend_from_slice(&body[BLOCK..body.len() - CHECK_VALUE])?;
    let text = &mut out.as_mut_slice()[start..];
    decrypt(
        &Aes256::new(&keys.encryption),
        &block_of(&body[..BLOCK]),
        text,
    );
    Ok(())
}

// Appends all parts, for which there is room.
fn append(out: &mut Vec<u8>, parts: &[&[u8]])
    requires { vec_len out.old + length (flat_map (λ part. part.now) parts.now) ≤ vec_capacity out.old }
    ensures items { out.new.items ≡ out.old.items ++ flat_map (λ part. part.now) parts.now }
    ensures capacity { vec_capacity out.old ≤ vec_capacity out.new }
{
    for part in parts {
        out.extend_from_slice(*part).unwrap();
    }
}

// The pad length for a plain text of so many octets, and a block that begins with padding and pad length.
#[tactic(auto, unfolding(crate::specs::Bodies::padding))]
fn padding(plain: usize) -> ([u8; BLOCK], usize)
    ensures length { result.1 ≡ pad_length plain }
    ensures octets { take (result.1 + 1) result.0 ≡ padding plain }
{
    let pad = BLOCK - 1 - plain % BLOCK;
    let mut padding = [0; BLOCK];
    padding[pad] = pad as u8;
    (padding, pad)
}

// The octets before padding and pad length, if there are so many. The last block alone is decrypted.
fn plain_len(keys: &Keys, body: &[u8]) -> Option<usize>
    requires long { 48 ≤ length body.now }
    requires whole { length body.now % 16 ≡ 0 }
    ensures plain { option_map (λ plain. take plain (decrypted_part keys.now body.now)) result
        ≡ unpadded (decrypted_part keys.now body.now) }
    ensures within { IfSome result (λ plain. plain ≤ length body.now) }
{
    let pad = last_block(keys, body)[BLOCK - 1];
    (body.len() - BLOCK - CHECK_VALUE - 1).checked_sub(usize::from(pad))
}

// The last block of a body, decrypted.
fn last_block(keys: &Keys, body: &[u8]) -> [u8; BLOCK]
    requires long { 48 ≤ length body.now }
    requires whole { length body.now % 16 ≡ 0 }
    ensures { result ≡ drop (length body.now - 48) (decrypted_part keys.now body.now) }
{
    let end = body.len() - CHECK_VALUE;
    let before = block_of(&body[end - 2 * BLOCK..end - BLOCK]);
    let last = block_of(&body[end - BLOCK..end]);
    both(&Aes256::new(&keys.encryption).decrypt_block(&last), &before)
}

// The ICV over what stands before the body, vector and encrypted blocks.
#[tactic(auto, unfolding(crate::specs::Bodies::check_value))]
fn check_value(keys: &Keys, head: &[u8], sealed: &[u8]) -> [u8; CHECK_VALUE]
    ensures { result ≡ check_value keys.now head.now sealed.now }
{
    icv(&keys.integrity, &[head, sealed])
}

// Whether a body has a vector, a block or more and the right ICV.
#[tactic(auto, unfolding(crate::specs::Bodies::is_intact))]
fn is_intact(keys: &Keys, head: &[u8], body: &[u8]) -> bool
    ensures { result ≡ is_intact keys.now head.now body.now }
{
    if body.len() < 2 * BLOCK + CHECK_VALUE || body.len() % BLOCK != 0 {
        return false;
    }
    let (sealed, value) = body.split_at(body.len() - CHECK_VALUE);
    value == check_value(keys, head, sealed).as_slice()
}
