//! What a provider is asked for, counted.
use std::cell::Cell;
use std::fmt;

/// What costs time at a provider.
#[derive(Clone, Copy, Debug, PartialEq, Eq)]
pub enum Task {
    /// To open the body of a message.
    Open,
    /// To seal one.
    Seal,
    /// To prove this end's identity.
    Prove,
    /// To check the peer's proof.
    Check,
    /// To compute the public value of a secret.
    Publish,
    /// To compute the secret that is shared with the peer.
    Share,
}

/// How often a provider was asked for each task.
#[derive(Clone, Copy, Debug, PartialEq, Eq)]
pub struct Work {
    /// Bodies opened, those that don't open among them.
    pub opened: u32,
    /// Bodies sealed.
    pub sealed: u32,
    /// Proofs of this end's identity made.
    pub proved: u32,
    /// Proofs of the peer's identity checked.
    pub checked: u32,
    /// Public values computed.
    pub public_values: u32,
    /// Shared secrets computed.
    pub shared_secrets: u32,
}

impl Work {
    // Nothing was asked for.
    const NONE: Work = Work {
        opened: 0,
        sealed: 0,
        proved: 0,
        checked: 0,
        public_values: 0,
        shared_secrets: 0,
    };
}

impl fmt::Display for Work {
    fn fmt<W: fmt::Write>(&self, f: &mut fmt::Formatter<W>) -> fmt::Result {
        let Work {
            opened,
            sealed,
            proved,
            checked,
            public_values,
            shared_secrets,
        } = *self;
        write!(f, "opened {opened}, sealed {sealed}, ")?;
        write!(f, "proved {proved}, checked {checked}, ")?;
        write!(
            f,
            "public values {public_values}, shared secrets {shared_secrets}"
        )
    }
}

/// Where a provider counts what it is asked for. It is in a cell, since a provider is asked by `&`.
#[derive(Drop)]
pub struct Tally {
    work: Cell<Work>,
}

impl Tally {
    /// Nothing is counted yet.
    pub fn new() -> Tally {
        Tally {
            work: Cell::new(Work::NONE),
        }
    }

    /// The provider was asked for one task more.
    pub fn count(&self, task: Task) {
        let mut work = self.work.get();
        match task {
            Task::Open => work.opened = one_more(work.opened),
            Task::Seal => work.sealed = one_more(work.sealed),
            Task::Prove => work.proved = one_more(work.proved),
            Task::Check => work.checked = one_more(work.checked),
            Task::Publish => work.public_values = one_more(work.public_values),
            Task::Share => work.shared_secrets = one_more(work.shared_secrets),
        }
        self.work.set(work);
    }

    /// What was counted since this was asked last.
    pub fn take(&self) -> Work {
        self.work.replace(Work::NONE)
    }
}

fn one_more(count: u32) -> u32 {
    count.saturating_add(1)
}
