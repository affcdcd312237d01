//! What follows from the definitions alone. No function here does anything.
ghost use Rattle.std.specs.Prelude.{◌≡◌, ◌+◌, ℕ, true, List, IsTrue};
ghost use Rattle.std.specs.List.{AllByRecursion, sum_by};
ghost use Rattle.base.specs.Octets.{Octets};
ghost use Rattle.wire.specs.Sizes.{size_of, FitsFields};
ghost use Rattle.wire.specs.declared.payload.Payload.{Payload};
ghost use Rattle.exchange.specs.Children.{child_payloads, answering_payloads};
ghost use Rattle.exchange.specs.Counting.{only_auth, only_id_i, only_id_r};
ghost use Rattle.exchange.specs.declared.child.ChildPayloads.{ChildPayloads};
ghost use Rattle.auth.specs.Answers.{auth_answer, is_accepted};
ghost use Rattle.auth.specs.Fitting.{FitWithin, OWN_LIMIT};
ghost use Rattle.auth.specs.Proofs.{auth_payload, octets_to_prove, Accepts, IsIdentity, ProvesItself, ProvingView};
ghost use Rattle.auth.specs.Requests.{auth_request, Accepted, AskedView, AuthJudgement, IsAuthJudgement};
ghost use Rattle.auth.specs.Windows.{peer_window, window_notices, IsWindow};
ghost use Rattle.exchange.specs.declared.child.ChildAnswer.{ChildAnswer};
ghost use Rattle.auth.specs.declared.identity.Identity.{Identity};

/// A request is judged in one way.
pub fn judgements_are_determined()
    ensures { (accepts : Accepts) (peer : Identity) (what : ProvingView) (payloads : List Payload)
        (one other : AuthJudgement) → IsAuthJudgement accepts peer what payloads one
        → IsAuthJudgement accepts peer what payloads other → one ≡ other }
{}

/// Who is accepted named the peer's identity in the only ID payload, and the caller accepted of that
/// identity the method and the proof in the only AUTH payload, over what the peer has to prove.
pub fn who_is_accepted_proved_itself()
    ensures request { (accepts : Accepts) (peer : Identity) (what : ProvingView) (payloads : List Payload)
        (asked : AskedView) → IsAuthJudgement accepts peer what payloads (Accepted asked)
        → ProvesItself accepts peer what (only_id_i payloads) (only_auth payloads) }
    ensures answer { (accepts : Accepts) (peer : Identity) (what : ProvingView) (payloads : List Payload)
        → is_accepted accepts peer what payloads ≡ true
        → ProvesItself accepts peer what (only_id_r payloads) (only_auth payloads) }
{}

/// Where the identity is one, and the proof and the payloads of the Child SA fit, all payloads that are sent
/// have what their fields allow, with at most 1308 octets beside those of the child.
pub fn what_is_sent_fits()
    ensures request { (own_method : ℕ) (proof_of : Octets → Octets) (own : Identity)
        (what : ProvingView) (child : ChildPayloads) (window : ℕ)
        → IsIdentity own → FitsFields (auth_payload own_method proof_of own what)
        → AllByRecursion FitsFields (child_payloads child)
        → FitWithin (OWN_LIMIT + sum_by size_of (child_payloads child))
        (auth_request own_method proof_of own what child window) }
    ensures answer { (own_method : ℕ) (proof_of : Octets → Octets) (own : Identity)
        (what : ProvingView) (answer : ChildAnswer) (window : ℕ)
        → IsIdentity own → FitsFields (auth_payload own_method proof_of own what)
        → AllByRecursion FitsFields (answering_payloads answer)
        → FitWithin (OWN_LIMIT + sum_by size_of (answering_payloads answer))
        (auth_answer own_method proof_of own what answer window) }
{}

/// A request of the peer whose proof is accepted is judged so, with the content of the Child SA and the
/// window that it was made of.
pub fn requests_are_accepted()
    ensures { (accepts : Accepts) (own_method : ℕ) (proof_of : Octets → Octets) (own : Identity)
        (what : ProvingView) (child : ChildPayloads) (window : ℕ) → IsWindow window
        → IsTrue (accepts own.kind own.data own_method (octets_to_prove what own)
        (proof_of (octets_to_prove what own)))
        → IsAuthJudgement accepts own what (auth_request own_method proof_of own what child window)
        (Accepted (record { child = child; window = window })) }
{}

/// An answer of the peer whose proof is accepted is accepted, whether its Child SA is made or not.
pub fn answers_are_accepted()
    ensures { (accepts : Accepts) (own_method : ℕ) (proof_of : Octets → Octets) (own : Identity)
        (what : ProvingView) (answer : ChildAnswer) (window : ℕ)
        → IsTrue (accepts own.kind own.data own_method (octets_to_prove what own)
        (proof_of (octets_to_prove what own)))
        → is_accepted accepts own what (auth_answer own_method proof_of own what answer window) ≡ true }
{}

/// A window of 1 to 16 that is told is read again, and no other is ever read.
pub fn windows_are_read_again()
    ensures told { (window : ℕ) → IsWindow window → peer_window (window_notices window) ≡ window }
    ensures answer { (own_method : ℕ) (proof_of : Octets → Octets) (own : Identity)
        (what : ProvingView) (answer : ChildAnswer) (window : ℕ) → IsWindow window
        → peer_window (auth_answer own_method proof_of own what answer window) ≡ window }
    ensures bounds { (payloads : List Payload) → IsWindow (peer_window payloads) }
{}
