//! The peer's requests and the own ones as plain sets and maps, by the rules as they stand in the RFC.
use crate::tests::asserts::granted;
use requests::RequestFault;
use std::alloc::Global;
use std::collections::{BTreeMap, BTreeSet};
use std::process::Abort;

/// The least number that a set lacks.
fn gap(numbers: &BTreeSet<u32>) -> u64 {
    let mut gap: u64 = 0;
    for number in numbers {
        if u64::from(*number) == gap {
            gap = gap.saturating_add(1);
        }
    }
    gap
}

/// The peer's requests.
#[derive(Drop)]
pub struct PlainIncoming {
    in_effect: BTreeSet<u32>,
    kept: BTreeMap<u32, u32>,
    pub size: u32,
}

/// What the plain rules say of a number: the reply is one number here.
#[derive(Clone, Copy, Debug, PartialEq, Eq)]
pub enum Said {
    Fresh,
    Repeat(u32),
    Forgotten,
    Outside,
}

impl PlainIncoming {
    pub fn new(alloc: Global) -> PlainIncoming {
        PlainIncoming {
            in_effect: BTreeSet::new(alloc),
            kept: BTreeMap::new(alloc),
            size: 1,
        }
    }

    pub fn gap(&self) -> u64 {
        gap(&self.in_effect)
    }

    pub fn judge(&self, number: u32) -> Said {
        if self.in_effect.contains(&number) {
            match self.kept.get(&number) {
                Some(reply) => Said::Repeat(*reply),
                None => Said::Forgotten,
            }
        } else if u64::from(number) >= self.gap().saturating_add(u64::from(self.size)) {
            Said::Outside
        } else {
            Said::Fresh
        }
    }

    pub fn take(&mut self, rt: &impl Abort, number: u32, reply: u32) {
        self.in_effect.insert(number).expect(rt, "memory");
        let replaced: Result<_, _> = self.kept.insert(number, reply);
        replaced.expect(rt, "memory");
        for passed in granted(rt, self.in_effect.clone()) {
            let end = u64::from(passed).saturating_add(u64::from(self.size));
            if u64::from(number) >= end {
                let _ = self.kept.remove(&passed);
            }
        }
    }
}

/// The own requests.
#[derive(Drop)]
pub struct PlainOutgoing {
    pub next: u64,
    pub window: u32,
    answered: BTreeSet<u32>,
    pub outstanding: BTreeMap<u32, u32>,
}

impl PlainOutgoing {
    pub fn new(alloc: Global) -> PlainOutgoing {
        PlainOutgoing {
            next: 0,
            window: 1,
            answered: BTreeSet::new(alloc),
            outstanding: BTreeMap::new(alloc),
        }
    }

    pub fn refusal(&self) -> Option<RequestFault> {
        let end = gap(&self.answered).saturating_add(u64::from(self.window));
        if self.next >= end {
            Some(RequestFault::Busy)
        } else if self.next > u64::from(u32::MAX) {
            Some(RequestFault::NumbersSpent)
        } else {
            None
        }
    }

    pub fn issue(&mut self, rt: &impl Abort, number: u32, request: u32) {
        let replaced: Result<_, _> = self.outstanding.insert(number, request);
        replaced.expect(rt, "memory");
        self.next = self.next.saturating_add(1);
    }

    pub fn count(&mut self, rt: &impl Abort, number: u32) -> Option<u32> {
        let request = self.outstanding.remove(&number);
        if request.is_some() {
            self.answered.insert(number).expect(rt, "memory");
        }
        request
    }
}
