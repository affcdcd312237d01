//! What is promised of two ends that hold one IKE SA.
use super::book::Book;
use association::{Association, Phase};
use caller_script::ScriptCaller;
use exchange::Role;
use gateway::{Child, End, World};
use requests::Judgement;

/// How many numbers about the last one issued are looked at, on either side.
const NEAR: u32 = 20;

/// How the requests of one end stand.
#[derive(Clone, Copy, Debug, PartialEq, Eq)]
pub enum Standing {
    /// As is promised, with so many that wait for their answer.
    Sound(usize),
    /// A request is in effect that was not issued.
    NotIssued(u32),
    /// A request counts as answered that is not in effect.
    NotInEffect(u32),
    /// One is in effect, and one before it is not, though the window is one.
    Skipped(u32),
    /// More wait for their answer than the other end's window has.
    TooMany(usize),
}

/// Whether the pairs of two children mirror each other.
pub fn are_mirrored(one: &Child, other: &Child) -> bool {
    one.inbound == other.outbound
        && one.outbound == other.inbound
        && one.local == other.remote
        && one.remote == other.local
}

/// The first IKE SA of either end whose requests don't stand as is promised; else the most that wait for
/// their answer.
pub fn judge_world(world: &World<ScriptCaller>, book: &Book, window: u8) -> Standing {
    let mut most = 0;
    for end in [End::A, End::B] {
        match judge_end(world, book, window, end) {
            Standing::Sound(waiting) => most = most.max(waiting),
            wrong => return wrong,
        }
    }
    Standing::Sound(most)
}

/// The same of the requests of one end.
fn judge_end(world: &World<ScriptCaller>, book: &Book, window: u8, end: End) -> Standing {
    let others = world.gateway(end.other()).associations();
    let mut most = 0;
    for asking in world.gateway(end).associations() {
        // One that is closed gave its requests up, answered or not.
        if matches!(asking.phase, Phase::Closed { .. }) {
            continue;
        }
        let Some(answering) = peer_of(asking, others) else {
            continue;
        };
        match judge_between(asking, answering, issued(book, end, asking), window) {
            Standing::Sound(waiting) => most = most.max(waiting),
            wrong => return wrong,
        }
    }
    Standing::Sound(most)
}

/// The IKE SA of the other end that has the same keys, and the other role.
fn peer_of<'a>(one: &Association, others: &'a [Association]) -> Option<&'a Association> {
    let keys = one.keys()?;
    others.iter().find(|other| other.role != one.role && other.keys() == Some(keys))
}

/// How many requests an end issued under an IKE SA; an initiator that has keys issued IKE_SA_INIT as number
/// 0.
fn issued(book: &Book, end: End, association: &Association) -> u32 {
    let initial = u32::from(association.role == Role::Initiator);
    match association.keys() {
        Some(keys) => book.issued(end, keys).max(initial),
        None => initial,
    }
}

/// How so many requests stand between two ends.
fn judge_between(
    asking: &Association,
    answering: &Association,
    issued: u32,
    window: u8,
) -> Standing {
    let mut waiting: usize = 0;
    let mut is_first = true;
    for number in issued.saturating_sub(NEAR)..issued.saturating_add(NEAR) {
        let in_effect = is_in_effect(answering, number);
        let waits = asking.outgoing.get(number).is_some();
        if in_effect && number >= issued {
            return Standing::NotIssued(number);
        }
        if number < issued && !waits && !in_effect {
            return Standing::NotInEffect(number);
        }
        if window == 1 && in_effect && !is_first {
            return Standing::Skipped(number);
        }
        is_first = in_effect;
        waiting = waiting.saturating_add(usize::from(waits));
    }
    if waiting > usize::from(window) {
        return Standing::TooMany(waiting);
    }
    Standing::Sound(waiting)
}

/// Whether a request took effect.
fn is_in_effect(answering: &Association, number: u32) -> bool {
    match answering.incoming.judge(number) {
        Judgement::Repeat(_) | Judgement::Forgotten => true,
        Judgement::Fresh | Judgement::Outside => false,
    }
}
