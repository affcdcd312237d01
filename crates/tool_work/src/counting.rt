//! The provider of scripts, with a count of what it is asked for.
ghost use Rattle.caller_script.specs.MeaningLaws.{body_length, body_opens, proof_fits, public_fits, sizes, symmetric};

use crate::work::{Tally, Task};
use base::Items;
use caller_script::ScriptCaller;
use std::alloc::{AllocError, Global};
use std::rc::Rc;
use suite::{Agreement, Cipher, Keys, Proof, Sealer};

/// A provider that counts each call that costs time, and has [`ScriptCaller`] do what it is asked for. So
/// it means what that one means, and has its laws.
#[derive(Drop)]
pub struct Counting {
    tally: Rc<Tally>,
}

impl Counting {
    /// A provider that counts there.
    pub fn new(tally: Rc<Tally>) -> Counting {
        Counting { tally }
    }
}

impl Sealer for Counting {
    ghost use Rattle.caller_script.specs.Meaning.{script_body, script_cipher, script_plain, script_size};

    ghost cipher = { script_cipher };

    ghost sealed_size = { script_size };

    ghost body_of = { script_body };

    ghost plain_of = { script_plain };

    fn transform(&self) -> Cipher {
        ScriptCaller.transform()
    }

    fn sealed_len(&self, plain: usize) -> usize {
        ScriptCaller.sealed_len(plain)
    }

    fn seal(
        &self,
        keys: &Keys,
        head: &[u8],
        plain: &[u8],
        fresh: &[u8; 16],
        out: &mut Vec<u8>,
    ) -> Result<(), AllocError> {
        self.tally.count(Task::Seal);
        ScriptCaller.seal(keys, head, plain, fresh, out)
    }

    fn open(
        &self,
        keys: &Keys,
        head: &[u8],
        body: &[u8],
        out: &mut Vec<u8>,
    ) -> Result<bool, AllocError> {
        self.tally.count(Task::Open);
        ScriptCaller.open(keys, head, body, out)
    }

    ghost opens_again = { body_opens };

    ghost length_told = { body_length };

    ghost size_bounded = { sizes };
}

impl Agreement for Counting {
    ghost use Rattle.caller_script.specs.Meaning.{common_secret, script_group, script_public};

    ghost group_number = { script_group };

    ghost public_value = { script_public };

    ghost shared_secret = { common_secret };

    fn group(&self) -> u16 {
        ScriptCaller.group()
    }

    fn public(&self, alloc: Global, secret: &[u8; 32]) -> Result<Items<u8>, AllocError> {
        self.tally.count(Task::Publish);
        ScriptCaller.public(alloc, secret)
    }

    fn shared(
        &self,
        alloc: Global,
        secret: &[u8; 32],
        other: &[u8],
    ) -> Result<Option<Items<u8>>, AllocError> {
        self.tally.count(Task::Share);
        ScriptCaller.shared(alloc, secret, other)
    }

    ghost symmetric = { symmetric };

    ghost public_fits = { public_fits };
}

impl Proof for Counting {
    ghost use Rattle.caller_script.specs.Meaning.{is_proof, keyed_proof, script_method};

    ghost own_method = { λ _. script_method };

    ghost proof_of = { λ _. keyed_proof };

    ghost accepts = { λ _ _ _. is_proof };

    fn method(&self) -> u8 {
        ScriptCaller.method()
    }

    fn prove(&self, alloc: Global, octets: &[u8]) -> Result<Items<u8>, AllocError> {
        self.tally.count(Task::Prove);
        ScriptCaller.prove(alloc, octets)
    }

    fn check(
        &self,
        alloc: Global,
        kind: u8,
        id: &[u8],
        method: u8,
        octets: &[u8],
        proof: &[u8],
    ) -> Result<bool, AllocError> {
        self.tally.count(Task::Check);
        ScriptCaller.check(alloc, kind, id, method, octets, proof)
    }

    ghost proof_fits = { λ _. proof_fits };
}
