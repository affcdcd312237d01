//! A memory of what is done with flows.
ghost use Rattle.std.specs.Prelude.{◌≡◌, ◌<◌, IfSome, IsTrue, ◌↔◌, length, slice_get, Some};
ghost use Rattle.flows.specs.Memory.{AllRight, HasItsPlaces, HoldsNone, HoldsNoMore, IsInPlace, Notes};
ghost use Rattle.flows.specs.Memory.{StaysBut, StaysButAt};
ghost use Rattle.flows.specs.declared.treatment.Treatment.{Treatment};
ghost use Rattle.flows.specs.Treatments.{IsTreatment};

use crate::place::{PLACES, place_of};
use crate::treatment::{Treatment, look_up};
use policy::{Flow, Policy};
use sadb::Table;
use std::alloc::Global;
use std::marker::Model;

/// What is done with a flow.
#[derive(Clone, Copy, Debug, PartialEq, Eq)]
pub struct Answer {
    pub flow: Flow,
    pub treatment: Treatment,
}

// An answer, and when it was noted. What was noted before the memory last forgot counts no more.
#[derive(Clone, Copy)]
struct Note {
    epoch: u64,
    answer: Answer,
}

/// A memory of what is done with flows on their way out, of 4096 places. Each flow has one place, and takes
/// it from the flow that had it before. Contracts see what each place holds, and not how often it looked up.
///
/// The places are made when it is asked for the first time, in about half a megabyte; where there is no
/// memory for them, it looks up each time and remembers nothing. It never grows: whoever chooses flows can
/// make it look up, and no more.
#[derive(Drop)]
pub struct FlowMemory {
    epoch: u64,
    places: Vec<Option<Note>>,
    // So often it has looked up.
    look_ups: u64,
}

impl Model for FlowMemory {
    ghost use Rattle.std.specs.Prelude.{List, Option, map};
    ghost use Rattle.flows.specs.declared.memory.Answer.{Answer};
    ghost use Rattle.flows.specs.Memory.{IsKept, answer_in};

    ghost Value = { List (Option Answer) };

    ghost view = { λ m. map (answer_in m.epoch) m.places.items };

    ghost invariant = { λ m. IsKept m.epoch m.places.items };
}

impl FlowMemory {
    /// A memory that holds nothing. Takes no memory.
    pub fn new(alloc: Global) -> FlowMemory
        ensures { HoldsNone result }
    {
        FlowMemory {
            epoch: 0,
            places: Vec::new(alloc),
            look_ups: 0,
        }
    }

    /// The invariant of every memory, as a function that does nothing: it has its 4096 places, or none.
    pub fn invariants_hold(&self)
        ensures { HasItsPlaces self.now }
    {
        // Opens the model, so that its invariant is known here.
        let _ = &self.places;
    }

    /// Forgets all. Places that were made stay.
    pub fn forget(&mut self)
        ensures none { HoldsNone self.new }
        ensures places { length self.new ≡ length self.old }
    {
        match self.epoch.checked_add(1) {
            // At the same cost however much is held: no note is of this epoch.
            Some(epoch) => self.epoch = epoch,
            // After 2^64 times: what each place holds goes.
            None => self.places.fill(None),
        }
    }

    /// How often it has looked up, a count that begins anew at 2^64. Whatever else it was asked it remembered.
    pub fn look_ups(&self) -> u64 {
        self.look_ups
    }

    /// What is done with a flow: what is held of it, where that counts, or else what [`look_up`] finds, which
    /// is held from now on in place of what the flow's place held. What is held and counts is right before, as
    /// it is of a memory that holds nothing, and afterwards. Takes memory where there are no places yet, and
    /// does without where there is none.
    pub fn treatment(&mut self, table: &Table, policy: &Policy, flow: &Flow) -> Treatment
        requires { AllRight policy.now table.now.pairs self.old }
        ensures right { IsTreatment policy.now table.now.pairs flow.now result }
        ensures all_right { AllRight policy.now table.now.pairs self.new }
        // Where there are places, it is held where the next look is.
        ensures held { 0 < length self.new
            → IsInPlace self.new (record { flow = flow.now; treatment = result }) }
        // Places that were made stay, and all but the flow's own hold what they held.
        ensures kept { 0 < length self.old → 0 < length self.new }
        ensures others { StaysBut flow.now self.old self.new }
    {
        if let Some(treatment) = self.recalled(flow) {
            if treatment.counts(table) {
                return treatment;
            }
        }
        let treatment = self.looked_up(table, policy, flow);
        self.make_places();
        self.note(
            place_of(flow),
            Answer {
                flow: *flow,
                treatment,
            },
        );
        treatment
    }

    /// What is held of a flow at its place, whether or not the pair that it names is still Live.
    pub fn recalled(&self, flow: &Flow) -> Option<Treatment>
        ensures right { IfSome result
            (λ treatment. IsInPlace self.now (record { flow = flow.now; treatment = treatment })) }
        ensures found { (treatment : Treatment)
            → IsInPlace self.now (record { flow = flow.now; treatment = treatment })
            → result ≡ Some treatment }
    {
        // By reference: a note is long, and most of it is only compared.
        match self.places.get(place_of(flow))? {
            Some(note) if note.epoch == self.epoch && is_same(&note.answer.flow, flow) => {
                Some(note.answer.treatment)
            }
            _ => None,
        }
    }

    // What a look-up finds, which is counted.
    fn looked_up(&mut self, table: &Table, policy: &Policy, flow: &Flow) -> Treatment
        ensures found { IsTreatment policy.now table.now.pairs flow.now result }
        ensures same { self.new ≡ self.old }
    {
        self.look_ups = self.look_ups.wrapping_add(1);
        look_up(table, policy, flow)
    }

    // Makes the places, where there are none and there is memory for them. That they are made is not promised,
    // since memory may lack: the tests of `test_packet_calls` find it.
    fn make_places(&mut self)
        ensures no_more { HoldsNoMore self.old self.new }
        ensures made { HasItsPlaces self.new }
        ensures kept { 0 < length self.old → self.new ≡ self.old }
    {
        if self.places.is_empty() {
            let _ = self.places.resize(PLACES, None);
        }
    }

    // Notes an answer at a place, if the place was made.
    fn note(&mut self, place: usize, answer: Answer)
        ensures notes { Notes self.old answer self.new }
        ensures noted { place < length self.old → slice_get self.new place ≡ Some (Some answer) }
        ensures others { StaysButAt place self.old self.new }
        ensures length { length self.new ≡ length self.old }
    {
        if place < self.places.len() {
            self.places[place] = Some(Note {
                epoch: self.epoch,
                answer,
            });
        }
    }
}

// Whether two flows agree in all that they are, their ports too.
fn is_same(one: &Flow, other: &Flow) -> bool
    ensures { IsTrue result ↔ (one.now ≡ other.now) }
{
    *one == *other
}
