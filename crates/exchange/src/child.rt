//! The payloads of a Child SA (RFC 7296, sections 1.2 and 1.3.1).
ghost use Rattle.std.specs.Prelude.{◌≡◌, ◌++◌, OnOk};
ghost use Rattle.exchange.specs.Children.{answering_payloads, child_payloads};

use crate::Notice;
use base::{Items, Selector};
use std::alloc::{AllocError, Global};
use wire::{Payload, Proposal};

/// What a request says of a Child SA, or its reply: the content of one SA, one TSi and one TSr payload (RFC
/// 7296, sections 1.2 and 1.3.1).
#[derive(Debug, Drop)]
pub struct ChildPayloads {
    /// The proposals, or the answer to one (section 3.3).
    pub proposals: Items<Proposal>,
    /// The selectors of the side of the exchange's initiator (section 2.9).
    pub ts_i: Items<Selector>,
    /// The selectors of the other side.
    pub ts_r: Items<Selector>,
}

impl ChildPayloads {
    /// Adds the three payloads behind those of a message: SA, TSi, TSr. The only error is an allocation
    /// failure.
    pub fn append_to(self, payloads: &mut Items<Payload>) -> Result<(), AllocError>
        ensures { OnOk result (payloads.new ≡ payloads.old ++ child_payloads self) }
    {
        let ChildPayloads {
            proposals,
            ts_i,
            ts_r,
        } = self;
        payloads.push(Payload::Sa(proposals))?;
        payloads.push(Payload::TsI(ts_i))?;
        payloads.push(Payload::TsR(ts_r))?;
        Ok(())
    }
}

/// What a request offers of a Child SA, lent by the payloads that say it.
#[derive(Clone, Copy)]
pub struct ChildOffer<'a> {
    /// The proposals, in the order of preference (RFC 7296, section 3.3).
    pub proposals: &'a [Proposal],
    /// The selectors of the side of the exchange's initiator (section 2.9).
    pub ts_i: &'a [Selector],
    /// The selectors of the other side.
    pub ts_r: &'a [Selector],
}

/// What answers the Child SA that was asked for.
#[derive(Debug, Drop)]
pub enum ChildAnswer {
    /// It is made (RFC 7296, section 1.2).
    Payloads(ChildPayloads),
    /// It is not, for the reason that this notification tells; the IKE SA is none the less (section 1.2).
    Notice(Notice),
}

impl ChildAnswer {
    /// Adds its payloads behind those of a message: those of the Child SA, or the notification. The only
    /// error is an allocation failure.
    pub fn append_to(self, alloc: Global, payloads: &mut Items<Payload>) -> Result<(), AllocError>
        ensures { OnOk result (payloads.new ≡ payloads.old ++ answering_payloads self) }
    {
        match self {
            ChildAnswer::Payloads(child) => child.append_to(payloads),
            ChildAnswer::Notice(notice) => {
                payloads.push(notice.payload(alloc)?)?;
                Ok(())
            }
        }
    }
}
