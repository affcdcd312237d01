//! Facts about the definitions, each the contract of a function that does nothing: what a sealed packet is to
//! its receiver, what calls in a row are, that sealing and judging are determined, what a window shows, and
//! that the assumption of the theorem on deliveries can be met.
ghost use Rattle.std.specs.Prelude.{◌≡◌, ◌≢◌, ℕ, ◌+◌, ◌≤◌, Bool, List, ◌++◌, length, Option, Ok, Err};
ghost use Rattle.std.specs.FinMap as finite_map;
ghost use Rattle.std.specs.FinSet as set;
ghost use Rattle.std.specs.Ordering.{nat_cmp};
ghost use Rattle.replay.specs.Window.{IsSoundWindow, Seen, Takes};
ghost use Rattle.esp.specs.declared.sa.Sa.{Sa};
ghost use Rattle.esp.specs.Judging.{IsNumber, Judges};
ghost use Rattle.esp.specs.Packet.{IsContents};
ghost use Rattle.esp.specs.Sealing.{IsShortestPacket, FitsPacket, SealsFirst};
ghost use Rattle.esp.specs.Views.{Receiving, Sending};
ghost use Rattle.esp.specs.declared.fault.EspFault.{EspFault};
ghost use Rattle.esp.specs.Opening.{Answer, HandsUp, Refuses, Run, Step};
ghost use Rattle.esp.specs.declared.inbound.Opened.{Opened};
ghost use Rattle.esp.specs.Delivery.{AtMostOnce, Deliveries, ExactlyAtFirst, History, IsJudged, Shows, Unforged, history};
ghost use Rattle.esp.specs.Worked.{IsOpenable, IsWorked, repeated, repeated_sent, crossing, crossing_sent};

use replay::{BlockWindow, Window};

/// What [`Outbound::seal`](crate::Outbound::seal) appends has a length that is judged, passes the integrity
/// check under its sequence number, and carries its payload and no other.
pub fn sealed_packets_open()
    ensures { (a : Sa) (n next : ℕ) (payload b : List ℕ)
        → IsShortestPacket a n next payload b → FitsPacket payload → IsOpenable a n next payload b }
{}

/// A packet has one sequence number at a window, and is judged as one alone, which is not 0.
pub fn a_packet_has_one_number()
    ensures number { (e : Bool) (w : Seen) (low n m : ℕ) → IsNumber e w low n → IsNumber e w low m → n ≡ m }
    ensures judged { (a : Sa) (w : Seen) (b : List ℕ) (n m : ℕ) → Judges a w b n → Judges a w b m → n ≡ m }
    ensures positive { (a : Sa) (w : Seen) (b : List ℕ) (n : ℕ) → Judges a w b n → 1 ≤ n }
{}

/// A packet carries one payload, under one next header.
pub fn a_packet_carries_one_payload()
    ensures { (b : List ℕ) (next other : ℕ) (payload another : List ℕ)
        → IsContents b next payload → IsContents b other another → (other ≡ next) × (another ≡ payload) }
{}

/// Sealing a list is determined by the end, the payloads and how many of them are sealed: so are the octets,
/// and the end after it. Where it stops for memory, how many are is all that is left open.
pub fn sealing_is_determined()
    ensures { (k next : ℕ) (s t u : Sending) (payloads : List (List ℕ)) (before after other : List ℕ)
        → SealsFirst k s next payloads before t after → SealsFirst k s next payloads before u other
        → (t ≡ u) × (after ≡ other) }
{}

/// Two lists of which one is sealed whole and the other behind it, as far as it comes, are one list: how
/// payloads are grouped into lists makes no difference.
pub fn lists_in_a_row_are_one_list()
    ensures { (k next : ℕ) (s t u : Sending) (ps qs : List (List ℕ)) (before between after : List ℕ)
        → SealsFirst (length ps) s next ps before t between → SealsFirst k t next qs between u after
        → SealsFirst (length ps + k) s next (ps ++ qs) before u after }
{}

/// A packet that [`Inbound::open`](crate::Inbound::open) delivers is one step of a run, as one of a list is.
pub fn handed_up_packets_are_steps<W: Window>()
    ensures { (r s : Receiving) (b : List ℕ) (o : Opened)
        → HandsUp r b o.number o.next o.payload.now s → Step W.may_want r b (Ok o) s }
{}

/// Two runs of which one begins where the other ended are one run: so calls in a row are.
pub fn runs_in_a_row_are_one_run<W: Window>()
    ensures { (r s t : Receiving) (bs cs : List (List ℕ)) (xs ys : List Answer)
        → Run W.may_want r bs xs s → Run W.may_want s cs ys t → Run W.may_want r (bs ++ cs) (xs ++ ys) t }
{}

/// What is promised of one list of deliveries holds of every run, over however many calls: no sequence number
/// is accepted twice, and where no ICV was forged each sent packet is accepted exactly at its first delivery
/// within reach.
pub fn every_run_judges_at_most_once<W: Window>()
    ensures { (r s : Receiving) (bs : List (List ℕ)) (xs : List Answer)
        → IsSoundWindow r.window → Run W.may_want r bs xs s → Deliveries W.may_want r bs xs s }
{}

/// What is promised of every list of packets that were judged by the rule, whatever window they came to: no
/// sequence number is accepted twice, and where no ICV was forged each sent packet is accepted exactly at its
/// first delivery within reach.
pub fn every_history_judges_at_most_once()
    ensures once { (h : History) → IsJudged h → AtMostOnce h }
    ensures exactly { (h : History) → IsJudged h → (sent : finite_map.FinMap nat_cmp (List ℕ))
        → Unforged h sent → ExactlyAtFirst h sent }
{}

/// A sound window shows what was taken, as far as it spans it: at first the sequence numbers that it holds,
/// and after it took one more, that one too.
pub fn windows_show_what_was_taken()
    ensures sound { (w : Seen) → IsSoundWindow w → Shows w w.size w.taken }
    ensures taking { (old new : Seen) (n size : ℕ) (taken : set.FinSet nat_cmp)
        → 1 ≤ n → Shows old size taken → Takes old n new → Shows new size (set.insert taken n) }
{}

/// How a list of packets is judged is determined by the receiver and the packets: there is one list of
/// sequence numbers.
pub fn judging_is_determined()
    ensures { (r : Receiving) (bs : List (List ℕ)) (ns ms : List (Option ℕ))
        → IsJudged (history r bs ns) → IsJudged (history r bs ms) → ns ≡ ms }
{}

/// The assumption that no ICV was forged is met: by a packet that comes twice, and with ESN by two packets
/// across 2^32.
pub fn premise_is_met()
    ensures repeated { IsWorked repeated repeated_sent }
    ensures crossing { IsWorked crossing crossing_sent }
{}

/// Over a [`BlockWindow`] a packet is never refused for memory, neither alone nor in a list: what
/// [`Inbound::open`](crate::Inbound::open) answers is determined by the receiver and the packet.
pub fn a_block_window_wants_no_memory()
    ensures opened { (r s : Receiving) (b : List ℕ) (e : EspFault)
        → Refuses ⟦<BlockWindow as Window>⟧.may_want r b e s → e ≢ EspFault.Memory }
    ensures answered { (r s : Receiving) (b : List ℕ) (x : Answer)
        → Step ⟦<BlockWindow as Window>⟧.may_want r b x s → x ≢ Err EspFault.Memory }
{}
