//! ICVs of received packets, of one SA or of several, computed side by side before the packets are opened.
ghost use Rattle.std.specs.Prelude.{◌≡◌, ℕ, ◌<◌, ◌≤◌, All, IfSome, IsTrue, List, None, Option, get_or, length, map, take};
ghost use Rattle.std.specs.Int.{from_le_bytes, w128};
ghost use Rattle.lanes.specs.Task.{icv_of};
ghost use Rattle.esp.specs.declared.precomputed.Question.{Question};
ghost use Rattle.esp.specs.Ahead.{IsAhead};
ghost use Rattle.esp.specs.Precomputed.{ArePrecomputed, AreQuestions, IsAskedIn, IsPrecomputed, IsQuestion, asked_value, value_of_asked};

use crate::ahead::Ahead;
use crate::check_values::{FEW, GROUP};
use crate::load::{gain_by_lanes, messages_least};
use crate::packet::{CHECK, high_half};
use crate::sa::Sa;
use lanes::{Task, icv_all};
use std::convert::AsSlice;

/// What the ICV of a packet is computed from: made by [`Inbound::question`](crate::Inbound::question).
#[derive(Clone, Copy)]
pub struct Question<'a> {
    association: &'a Sa,
    number: u64,
    half: [u8; 4],
    covered: &'a [u8],
}

/// An ICV that was computed before its packet is opened, with all that it was computed from beside the
/// packet. Whoever opens the packet compares that with what it is then, so it does no harm if the window
/// moved meanwhile, or another SA came.
#[derive(Clone, Copy)]
pub struct Precomputed {
    key: [u8; 32],
    extended: bool,
    number: u64,
    value: [u8; CHECK],
}

// A packet whose ICV is computed in a lane.
#[derive(Clone, Copy)]
struct Asked<'a> {
    // Its place in the group.
    place: usize,
    question: &'a Question<'a>,
}

impl AsSlice<u8> for Asked<'_> {
    ghost items = { λ asked. asked.question.now.covered.now };

    fn as_slice(&self) -> &[u8] {
        self.question.covered
    }
}

impl<'a> Question<'a> {
    // What the ICV of a packet with this sequence number is computed from.
    pub(crate) fn new(association: &'a Sa, number: u64, packet: &'a [u8]) -> Question<'a>
        requires { CHECK ≤ length packet.now }
        ensures { IsQuestion packet.now result }
    {
        Question {
            association,
            number,
            half: high_half(number),
            covered: &packet[..packet.len() - CHECK],
        }
    }

    fn task(&self) -> Task<'_>
        ensures { icv_of result ≡ asked_value self.now }
    {
        self.association.task(self.covered, &self.half)
    }

    fn answered(&self, value: [u8; CHECK]) -> Precomputed
        ensures { result ≡ record {
          key = self.now.association.now.key;
          extended = self.now.association.now.extended;
          number = self.now.number;
          value = value;
        } }
    {
        Precomputed {
            key: self.association.key.octets(),
            extended: self.association.extended,
            number: self.number,
            value,
        }
    }
}

/// The value that was computed before, if it was computed with this SA's key, and for sequence numbers of the
/// length that it has.
pub fn own_of(association: &Sa, ahead: Option<Precomputed>) -> Option<Ahead>
    ensures { (packet : List ℕ) → IfSome ahead (IsPrecomputed packet)
        → IfSome result (IsAhead association.now packet) }
{
    let found = ahead?;
    if found.extended != association.extended {
        return None;
    }
    // Both keys are this end's own, so nobody learns anything by the time that it takes to compare them.
    if !is_same_key(&found.key, &association.key.octets()) {
        return None;
    }
    Some(Ahead {
        number: found.number,
        value: found.value,
    })
}

// Whether two keys are the same. They are compared as two numbers each, which takes less time than octet by
// octet.
fn is_same_key(one: &[u8; 32], other: &[u8; 32]) -> bool
    ensures { IsTrue result → one.now ≡ other.now }
{
    half_of(&one[..16]) == half_of(&other[..16]) && half_of(&one[16..]) == half_of(&other[16..])
}

// Half of a key as a number.
fn half_of(octets: &[u8]) -> u128
    requires { length octets.now ≡ 16 }
    ensures { result ≡ from_le_bytes w128 octets.now }
{
    let mut half = [0; 16];
    half.copy_from_slice(octets);
    u128::from_le_bytes(half)
}

/// Room for `N` ICVs, with none in it yet: [`precompute`] sets them.
pub fn no_values<const N: usize>() -> [Option<Precomputed>; N]
    ensures none { (packets : ℕ → List ℕ) → ArePrecomputed packets result }
    ensures long { length result ≡ N }
{
    [None; N]
}

/// Sets the ICVs that are asked for, each at the place of its question, where it gains time to compute them
/// side by side: from `least` packets of one length on. Values that were right stay right. Takes no memory.
pub fn precompute(
    questions: &[Option<Question<'_>>],
    values: &mut [Option<Precomputed>],
    least: usize,
)
    requires few { length questions.now ≤ GROUP }
    requires room { length questions.now ≤ length values.old }
    ensures right { (packets : ℕ → List ℕ) → AreQuestions packets questions.now
        → ArePrecomputed packets values.old → ArePrecomputed packets values.new }
    ensures long { length values.new ≡ length values.old }
{
    if questions.len() <= FEW {
        answer_few(questions, values, least);
    } else {
        answer_group(questions, values, least);
    }
}

/// The ICV at a place, if there is one.
pub fn value_at(values: &[Option<Precomputed>], place: usize) -> Option<Precomputed>
    ensures { result ≡ get_or values.now place None }
{
    match values.get(place) {
        Some(found) => *found,
        None => None,
    }
}

// Sets the answers to a few questions, where that gains time.
fn answer_few<'a>(
    questions: &'a [Option<Question<'a>>],
    answers: &mut [Option<Precomputed>],
    least: usize,
)
    requires few { length questions.now ≤ FEW }
    requires room { length questions.now ≤ length answers.old }
    ensures right { (packets : ℕ → List ℕ) → AreQuestions packets questions.now
        → ArePrecomputed packets answers.old → ArePrecomputed packets answers.new }
    ensures long { length answers.new ≡ length answers.old }
{
    let Some(first) = first_of(questions) else {
        return;
    };
    let mut asked = [Asked {
        place: 0,
        question: first,
    }; FEW];
    let count = set_asked(&mut asked, questions);
    if gain_by_lanes(&asked[..count], least) {
        let mut tasks = [first.task(); FEW];
        set_tasks(&mut tasks, &asked[..count]);
        let mut values = [[0; CHECK]; FEW];
        icv_all(&tasks[..count], &mut values[..count], messages_least(least));
        set_answers(answers, &asked[..count], &values[..count]);
    }
}

// Sets the answers to a group's questions, where that gains time. Not inlined, so that a few don't clear its
// arrays.
#[inline(never)]
fn answer_group<'a>(
    questions: &'a [Option<Question<'a>>],
    answers: &mut [Option<Precomputed>],
    least: usize,
)
    requires few { length questions.now ≤ GROUP }
    requires room { length questions.now ≤ length answers.old }
    ensures right { (packets : ℕ → List ℕ) → AreQuestions packets questions.now
        → ArePrecomputed packets answers.old → ArePrecomputed packets answers.new }
    ensures long { length answers.new ≡ length answers.old }
{
    let Some(first) = first_of(questions) else {
        return;
    };
    let mut asked = [Asked {
        place: 0,
        question: first,
    }; GROUP];
    let count = set_asked(&mut asked, questions);
    if gain_by_lanes(&asked[..count], least) {
        let mut tasks = [first.task(); GROUP];
        set_tasks(&mut tasks, &asked[..count]);
        let mut values = [[0; CHECK]; GROUP];
        icv_all(&tasks[..count], &mut values[..count], messages_least(least));
        set_answers(answers, &asked[..count], &values[..count]);
    }
}

// The first question, if there is one.
fn first_of<'a>(questions: &'a [Option<Question<'a>>]) -> Option<&'a Question<'a>> {
    for question in questions {
        if let Some(question) = question {
            return Some(question);
        }
    }
    None
}

// Sets the first places to the questions, one behind the other, each with its place; and says how many they
// are.
fn set_asked<'a>(asked: &mut [Asked<'a>], questions: &'a [Option<Question<'a>>]) -> usize
    requires room { length questions.now ≤ length asked.old }
    ensures asked { All (IsAskedIn questions.now) (take result asked.new) }
    ensures few { result ≤ length questions.now }
    ensures long { length asked.new ≡ length asked.old }
{
    let mut count = 0;
    for (place, question) in questions.iter().enumerate() {
        if let Some(question) = question {
            asked[count] = Asked { place, question };
            count += 1;
        }
    }
    count
}

// Sets the first tasks to what is asked.
fn set_tasks<'a>(tasks: &mut [Task<'a>], asked: &[Asked<'a>])
    requires room { length asked.now ≤ length tasks.old }
    ensures asked { map icv_of (take (length asked.now) tasks.new) ≡ map value_of_asked asked.now }
    ensures long { length tasks.new ≡ length tasks.old }
{
    for (turn, one) in asked.iter().enumerate() {
        tasks[turn] = one.question.task();
    }
}

// Sets the answers, each at the place of the packet that it was asked for.
fn set_answers(answers: &mut [Option<Precomputed>], asked: &[Asked<'_>], values: &[[u8; CHECK]])
    requires places { All (λ one. one.place < length answers.old) asked.now }
    requires right { values.now ≡ map value_of_asked asked.now }
    ensures right { (packets : ℕ → List ℕ) (questions : List (Option Question))
        → AreQuestions packets questions → All (IsAskedIn questions) asked.now
        → ArePrecomputed packets answers.old → ArePrecomputed packets answers.new }
    ensures long { length answers.new ≡ length answers.old }
{
    for (turn, one) in asked.iter().enumerate() {
        answers[one.place] = Some(one.question.answered(values[turn]));
    }
}
