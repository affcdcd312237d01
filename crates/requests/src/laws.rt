//! Facts about the definitions, each the contract of a function that does nothing: what becomes of the
//! Message IDs over many calls, that answers are determined, and how often a request is sent.
ghost use Rattle.std.specs.Prelude.{◌≡◌, ◌≢◌, ◌+◌, ◌≤◌, ℕ, Option};
ghost use Rattle.base.specs.Octets.{Octets};
ghost use Rattle.requests.specs.Contents.{incoming_content, outgoing_content};
ghost use Rattle.requests.specs.Following.{FollowsIncoming, FollowsOutgoing};
ghost use Rattle.requests.specs.Incoming.{PeerRequests, IsJudgement, IsSameJudgement, HasSameRequests, TakesRequest};
ghost use Rattle.requests.specs.Numbers.{NumberSet, IsGap};
ghost use Rattle.requests.specs.Outgoing.{OwnRequests, IsRequestRefusal, HasSameOwnRequests, IssuesRequest, CountsAnswer, ReplacesRequest, WithdrawsRequest, GivesUpRequests, IsNextOutstanding};
ghost use Rattle.requests.specs.Timers.{IsDue};
ghost use Rattle.requests.specs.declared.fault.RequestFault.{RequestFault};
ghost use Rattle.requests.specs.declared.incoming.Judgement.{Judgement};
ghost use Rattle.requests.specs.declared.timer.Due.{Due};
ghost use Rattle.requests.specs.declared.timer.Timer.{Timer};

/// Each call leads from the peer's requests to ones that follow them: a Message ID in effect stays in effect,
/// no response but the first is kept for it, and that one as long as no request a window above it was
/// processed. Following is transitive, so this holds of any number of calls.
pub fn later_incoming_follow()
    ensures reflexive { (a : PeerRequests) → FollowsIncoming a a }
    ensures transitive { (a b c : PeerRequests)
        → FollowsIncoming a b → FollowsIncoming b c → FollowsIncoming a c }
    ensures preparing { (old new : PeerRequests) → HasSameRequests old new → FollowsIncoming old new }
    ensures taking { (old new : PeerRequests) (number : ℕ) (reply : Octets)
        → TakesRequest old number reply new → FollowsIncoming old new }
    ensures sizing { (old new : PeerRequests) (size : ℕ)
        → old.size ≤ size → new ≡ record old { size = size } → FollowsIncoming old new }
{}

/// A request of one Message ID is processed once, whatever is done between.
pub fn no_number_takes_effect_twice()
    ensures { (a b c d : PeerRequests) (first second : ℕ) (reply other : Octets)
        → TakesRequest a first reply b → FollowsIncoming b c → TakesRequest c second other d
        → first ≢ second }
{}

/// Each call leads from this end's requests to ones that follow them: an answered Message ID stays answered,
/// and what was given up stays unanswered. Following is transitive, so this holds of any number of calls.
pub fn later_outgoing_follow<T>()
    ensures reflexive { (a : OwnRequests T) → FollowsOutgoing a a }
    ensures transitive { (a b c : OwnRequests T)
        → FollowsOutgoing a b → FollowsOutgoing b c → FollowsOutgoing a c }
    ensures preparing { (old new : OwnRequests T) → HasSameOwnRequests old new → FollowsOutgoing old new }
    ensures widening { (old new : OwnRequests T) (window : ℕ)
        → old.window ≤ window → new ≡ record old { window = window } → FollowsOutgoing old new }
    ensures issuing { (old new : OwnRequests T) (request : T) (number : ℕ)
        → IssuesRequest old request number new → FollowsOutgoing old new }
    ensures counting { (old new : OwnRequests T) (request : T) (number : ℕ)
        → CountsAnswer old number request new → FollowsOutgoing old new }
    ensures replacing { (old new : OwnRequests T) (was is : T) (number : ℕ)
        → ReplacesRequest old number was is new → FollowsOutgoing old new }
    ensures withdrawing { (old new : OwnRequests T) (request : T) (number : ℕ)
        → WithdrawsRequest old number request new → FollowsOutgoing old new }
    ensures giving_up { (old new : OwnRequests T) → GivesUpRequests old new → FollowsOutgoing old new }
{}

/// A Message ID is issued once, whatever is done between.
pub fn no_number_is_issued_twice<T>()
    ensures { (a b c d : OwnRequests T) (first second : ℕ) (one other : T)
        → IssuesRequest a one first b → FollowsOutgoing b c → IssuesRequest c other second d
        → first ≢ second }
{}

/// A set has one gap. What [`Incoming::judge`](crate::Incoming::judge) answers is determined, and so is
/// what the requests are after [`take`](crate::Incoming::take).
pub fn judgements_are_determined()
    ensures gap { (numbers : NumberSet) (a b : ℕ) → IsGap numbers a → IsGap numbers b → a ≡ b }
    ensures judgement { (r : PeerRequests) (n : ℕ) (a b : Judgement)
        → IsJudgement r n a → IsJudgement r n b → IsSameJudgement a b }
    ensures taken { (old a b : PeerRequests) (n : ℕ) (reply : Octets)
        → TakesRequest old n reply a → TakesRequest old n reply b → a ≡ b }
{}

/// Of the refusals of a request one applies at most, and what [`Outgoing::after`](crate::Outgoing::after) and
/// [`Timer::due`](crate::Timer::due) answer is determined.
pub fn answers_are_determined<T>()
    ensures refusal { (r : OwnRequests T) (a b : RequestFault)
        → IsRequestRefusal r a → IsRequestRefusal r b → a ≡ b }
    ensures after { (r : OwnRequests T) (low : Option ℕ) (m n : ℕ) (one other : T)
        → IsNextOutstanding r low m one → IsNextOutstanding r low n other → m ≡ n }
    ensures due { (timer : Timer) (now : ℕ) (a b : Due) → IsDue timer now a → IsDue timer now b → a ≡ b }
{}

/// At one time a request goes out again once at most: right after a sending nothing is due.
pub fn a_moment_sends_once()
    ensures { (timer : Timer) (now : ℕ) → IsDue timer now Due.Again
        → IsDue (record { sent = now; repeats = timer.repeats + 1 }) now Due.Nothing }
{}

/// What is said of the peer's requests, and what they are after a call, goes by what they are, whatever
/// room there is.
pub fn later_incoming_are_determined()
    ensures prepared { (old new : PeerRequests) → HasSameRequests old new
        → incoming_content new ≡ incoming_content old }
    ensures judged { (old other : PeerRequests) (n : ℕ) (judgement : Judgement)
        → incoming_content old ≡ incoming_content other → IsJudgement old n judgement
        → IsJudgement other n judgement }
    ensures taken { (old other a b : PeerRequests) (n : ℕ) (reply : Octets)
        → incoming_content old ≡ incoming_content other → TakesRequest old n reply a
        → TakesRequest other n reply b
        → incoming_content a ≡ incoming_content b }
{}

/// So do this end's requests after a call, and the request that it found.
pub fn later_outgoing_are_determined<T>()
    ensures prepared { (old new : OwnRequests T) → HasSameOwnRequests old new
        → outgoing_content new ≡ outgoing_content old }
    ensures issued { (old other a b : OwnRequests T) (request : T) (m n : ℕ)
        → outgoing_content old ≡ outgoing_content other → IssuesRequest old request m a
        → IssuesRequest other request n b
        → outgoing_content a ≡ outgoing_content b }
    ensures counted { (old other a b : OwnRequests T) (n : ℕ) (one another : T)
        → outgoing_content old ≡ outgoing_content other → CountsAnswer old n one a
        → CountsAnswer other n another b
        → (one ≡ another) × (outgoing_content a ≡ outgoing_content b) }
    ensures replaced { (old other a b : OwnRequests T) (n : ℕ) (was were is : T)
        → outgoing_content old ≡ outgoing_content other → ReplacesRequest old n was is a
        → ReplacesRequest other n were is b
        → (was ≡ were) × (outgoing_content a ≡ outgoing_content b) }
    ensures withdrawn { (old other a b : OwnRequests T) (n : ℕ) (one another : T)
        → outgoing_content old ≡ outgoing_content other → WithdrawsRequest old n one a
        → WithdrawsRequest other n another b
        → (one ≡ another) × (outgoing_content a ≡ outgoing_content b) }
    ensures given_up { (old other a b : OwnRequests T)
        → outgoing_content old ≡ outgoing_content other → GivesUpRequests old a → GivesUpRequests other b
        → outgoing_content a ≡ outgoing_content b }
{}
