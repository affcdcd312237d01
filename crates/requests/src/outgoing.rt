//! This end's requests of one IKE SA.
ghost use Rattle.std.specs.Prelude.{◌≡◌, ◌≤◌, IsOk, IfOk, IfErr, IfSome, IfNone, ℕ, None, ◌≢◌};
ghost use Rattle.std.specs.Bool.{MatchBool};
ghost use Rattle.std.specs.Fn.{FnReturnsAt};
ghost use Rattle.std.specs.FinMap as map;
ghost use Rattle.std.specs.Option.{option_copied};
ghost use Rattle.requests.specs.Outgoing.{IsRequestRefusal, MayIssue, IsSoundOutgoing, HasSameOwnRequests, IssuesRequest, CountsAnswer, ReplacesRequest, ChangesRequest, WithdrawsRequest};
ghost use Rattle.requests.specs.Outgoing.{IsOutstanding, IsNextOutstanding, IsAbove, SomeOutstanding, NoneOutstanding, none_issued, number_0_answered};

use crate::RequestFault;
use crate::by_number::ByNumber;
use crate::numbers::NumberSet;
use std::alloc::Global;
use std::marker::Model;

/// This end's requests of one IKE SA: the Message IDs issued, those answered, and the requests that wait for
/// an answer, each with what the caller keeps of it (RFC 7296 sections 2.1 to 2.3).
///
/// A request comes in two steps, so that nothing is issued in vain: [`prepare`](Outgoing::prepare) makes room
/// and tells the Message ID, by which the caller makes the message, and [`issue`](Outgoing::issue) cannot be
/// refused. No Message ID is issued twice.
///
/// What it keeps beside the outstanding requests doesn't grow with the Message IDs, and each call costs the
/// same whatever they are.
#[derive(Drop)]
pub struct Outgoing<T> {
    next: u64,
    answered: NumberSet,
    window: u8,
    outstanding: ByNumber<T>,
}

impl<T> Model for Outgoing<T> {
    ghost use Rattle.requests.specs.Outgoing.{OwnRequests, own_requests_code};
    ghost use Rattle.requests.specs.Storage.{AreOutgoing};

    ghost Value = { OwnRequests T };

    ghost coded = { own_requests_code T.code };

    ghost view = { λ a. record {
      next = a.next;
      answered = a.answered;
      window = a.window;
      outstanding = a.outstanding.items;
      room = a.outstanding.room;
    } };

    ghost invariant = { λ a. AreOutgoing a.next a.window a.answered a.outstanding.items };
}

impl<T> Outgoing<T> {
    /// None issued yet, and the peer's window is 1. Takes no memory.
    pub fn new(alloc: Global) -> Self
        ensures { result ≡ none_issued }
    {
        Outgoing {
            next: 0,
            answered: NumberSet::new(),
            window: 1,
            outstanding: ByNumber::new(alloc),
        }
    }

    /// Message ID 0 was issued and answered, and the peer's window is 1: the end of the IKE SA whose
    /// IKE_SA_INIT that was. Takes no memory.
    pub fn after_initial(alloc: Global) -> Self
        ensures { result ≡ number_0_answered }
    {
        Outgoing {
            next: 1,
            answered: NumberSet::zero(),
            window: 1,
            outstanding: ByNumber::new(alloc),
        }
    }

    /// What holds of this end's requests, always. Does nothing.
    pub fn invariants_hold(&self)
        ensures { IsSoundOutgoing self.now }
    {
        let _ = self.answered.gap();
    }

    /// How many requests the peer lets this end have under way.
    pub fn window(&self) -> u8
        ensures { result ≡ self.now.window }
    {
        self.window
    }

    /// The peer lets this end have more requests under way, up to 16. Nothing else is changed. The caller
    /// asks for no fewer than before. Takes no memory.
    pub fn set_window(&mut self, window: u8)
        requires grows { self.old.window ≤ window }
        requires most { window ≤ 16 }
        ensures { self.new ≡ record self.old { window = window } }
    {
        self.window = window;
    }

    /// The Message ID that the next request is to have, the least that was never issued. Takes no memory.
    ///
    /// Refused, in this order: [`RequestFault::Busy`] where it lies at the end of the peer's window or above
    /// it, which begins at the least unanswered Message ID; [`RequestFault::NumbersSpent`] where it is 2^32.
    pub fn may_issue(&self) -> Result<u32, RequestFault>
        ensures ok { IfOk result (λ number. (number ≡ self.now.next) × MayIssue self.now) }
        ensures refused { IfErr result (λ fault.
            IsRequestRefusal self.now fault × (fault ≢ RequestFault.Memory)) }
    {
        if self.next >= self.answered.gap() + u64::from(self.window) {
            return Err(RequestFault::Busy);
        }
        match u32::try_from(self.next) {
            Ok(number) => Ok(number),
            Err(_) => Err(RequestFault::NumbersSpent),
        }
    }

    /// Makes room for one more request, and tells the Message ID that [`issue`](Outgoing::issue) gives it.
    /// Nothing else is changed. Where there is room already, as right after another `prepare`, it takes no
    /// memory.
    ///
    /// Refused as [`may_issue`](Outgoing::may_issue) is, and then by [`RequestFault::Memory`] where there
    /// was no memory for the room.
    pub fn prepare(&mut self) -> Result<u32, RequestFault>
        ensures content { HasSameOwnRequests self.old self.new }
        ensures ok { IfOk result (λ number.
            (number ≡ self.old.next) × MayIssue self.old × (1 ≤ self.new.room)) }
        ensures refused { IfErr result (λ fault. IsRequestRefusal self.old fault × (self.new ≡ self.old)) }
        ensures succeeds { 1 ≤ self.old.room → MayIssue self.old → IsOk result }
    {
        let number = self.may_issue()?;
        if self.outstanding.make_room().is_err() {
            return Err(RequestFault::Memory);
        }
        Ok(number)
    }

    /// Issues a request, which is outstanding from now on, and answers its Message ID. The caller asks only
    /// after a [`prepare`](Outgoing::prepare) that answered Ok. Takes no memory.
    pub fn issue(&mut self, request: T) -> u32
        requires allowed { MayIssue self.old }
        requires room { 1 ≤ self.old.room }
        ensures { IssuesRequest self.old request result self.new }
    {
        let number = self.next as u32;
        self.outstanding.add(number, request);
        self.next += 1;
        number
    }

    /// The answer to a request came: the request is answered from now on and outstanding no more, and what
    /// was kept of it is given back. The caller asks only for an outstanding Message ID. Takes no memory.
    pub fn count(&mut self, number: u32) -> T
        requires { IsOutstanding self.old number }
        ensures { CountsAnswer self.old number result self.new }
    {
        self.answered.insert(number);
        self.outstanding.remove(number)
    }

    /// Takes an outstanding request back unanswered, and what was kept of it with it: its Message ID stays
    /// unanswered and is never issued again. The caller asks only for an outstanding Message ID. Takes no
    /// memory.
    pub fn withdraw(&mut self, issued: u32) -> T
        requires { IsOutstanding self.old issued }
        ensures { WithdrawsRequest self.old issued result self.new }
    {
        self.outstanding.remove(issued)
    }

    /// What is kept of an outstanding request. Takes no memory.
    pub fn get(&self, number: u32) -> Option<&T>
        ensures { option_copied result ≡ map.get self.now.outstanding number }
    {
        self.outstanding.get(number)
    }

    /// Puts something else in the place of what is kept of an outstanding request, which it gives back: a
    /// timer that runs anew. The caller asks only for an outstanding Message ID. Takes no memory.
    pub fn replace(&mut self, number: u32, request: T) -> T
        requires { IsOutstanding self.old number }
        ensures { ReplacesRequest self.old number result request self.new }
    {
        self.outstanding.replace(number, request)
    }

    /// Changes what is kept of an outstanding request, as its timer that runs anew. The caller asks only for
    /// an outstanding Message ID. Takes no memory, but for what the change takes.
    pub fn update<F: FnOnce(T) -> T>(&mut self, number: u32, change: F)
        requires outstanding { IsOutstanding self.old number }
        requires callable { F.IsAlwaysCallable change }
        ensures { ChangesRequest (F.post change) self.old number self.new }
    {
        self.outstanding.update(number, change);
    }

    /// How many requests wait for an answer, at most 16. Takes no memory.
    pub fn len(&self) -> usize
        ensures count { result ≡ map.len self.now.outstanding }
        ensures few { result ≤ 16 }
    {
        self.invariants_hold();
        self.outstanding.len()
    }

    /// The next outstanding request by Message ID, the first for None. From None on, one after the other, all
    /// are found. Takes no memory.
    pub fn after(&self, number: Option<u32>) -> Option<(u32, &T)>
        ensures some { IfSome result (λ next. IsNextOutstanding self.now number next.0 next.1.now) }
        ensures none { IfNone result ((other : ℕ)
            → IsAbove number other → map.get self.now.outstanding other ≡ None) }
    {
        self.outstanding.after(number)
    }

    /// Whether a test is true of some outstanding request. Takes no memory, but for what the test takes.
    pub fn any<F: Fn(&T) -> bool>(&self, test: F) -> bool
        requires { F.IsAlwaysCallable test }
        ensures { MatchBool result (SomeOutstanding self.now.outstanding (FnReturnsAt F.Fn test))
            (NoneOutstanding self.now.outstanding (FnReturnsAt F.Fn test)) }
    {
        self.outstanding.any(test)
    }
}

#[cfg(test)]
pub(crate) mod tests {
    use super::Outgoing;
    use crate::by_number::ByNumber;
    use crate::numbers::tests::all_below;
    use std::alloc::Global;

    /// All Message IDs below one of them were issued and answered, and the peer's window is 1.
    pub fn after_all_below(alloc: Global, next: u32) -> Outgoing<u32>
        ensures { result.window ≡ 1 }
    {
        Outgoing {
            next: u64::from(next),
            answered: all_below(next),
            window: 1,
            outstanding: ByNumber::new(alloc),
        }
    }
}
