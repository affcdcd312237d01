//! ICVs of ESP packets that stand one behind the other, computed side by side.
ghost use Rattle.std.specs.Prelude.{◌≡◌, ◌≤◌, length};
ghost use Rattle.esp.specs.Precomputed.{ArePrecomputed, AreQuestions};
ghost use Rattle.gateway.specs.Rows.{finished_row, octets_of, packet_in_row};

use crate::load::Load;
use esp::{FEW, GROUP, Precomputed, Question, no_values, precompute, value_at};
use sadb::Table;

/// An ESP packet that was laid, behind those before it.
#[derive(Clone, Copy, Debug, PartialEq, Eq)]
pub struct Span {
    /// The serial of the SA pair that laid it.
    pub child: u32,
    /// Its sequence number there.
    pub number: u64,
    /// Its octets. No octets are no packet.
    pub length: usize,
}

/// Writes the ICV into each of the ESP packets that stand one behind the other from the first octet on:
/// computed side by side where that is faster (`Load::gains`), else one by one.
pub fn finish_row(table: &Table, spans: &[Span], packets: &mut [u8], least: usize)
    requires few { length spans.now ≤ GROUP }
    requires whole { octets_of spans.now ≤ length packets.old }
    ensures { packets.new ≡ finished_row table.now.pairs spans.now packets.old }
{
    if !gain_side_by_side(spans, least) {
        finish_each(table, spans, packets, &[]);
    } else if spans.len() <= FEW {
        finish_by_lanes::<FEW>(table, spans, packets, least);
    } else {
        finish_by_lanes::<GROUP>(table, spans, packets, least);
    }
}

// The same side by side, with room for `N` ICVs. Not inlined, so that a few don't clear the long array.
#[inline(never)]
fn finish_by_lanes<const N: usize>(table: &Table, spans: &[Span], packets: &mut [u8], least: usize)
    requires group { N ≤ GROUP }
    requires few { length spans.now ≤ N }
    requires whole { octets_of spans.now ≤ length packets.old }
    ensures { packets.new ≡ finished_row table.now.pairs spans.now packets.old }
{
    let mut values = no_values::<N>();
    set_values(table, spans, packets, &mut values, least);
    finish_each(table, spans, packets, &values);
}

fn gain_side_by_side(spans: &[Span], least: usize) -> bool {
    let mut load = Load::none();
    for span in spans {
        if span.length > 0 {
            load.add(span.length);
        }
    }
    load.gains(least)
}

// Sets the ICVs, each at its packet's place.
fn set_values<'a>(
    table: &'a Table,
    spans: &[Span],
    packets: &'a [u8],
    values: &mut [Option<Precomputed>],
    least: usize,
)
    requires few { length spans.now ≤ GROUP }
    requires whole { octets_of spans.now ≤ length packets.now }
    requires room { length spans.now ≤ length values.old }
    ensures right { ArePrecomputed (packet_in_row spans.now packets.now) values.old
        → ArePrecomputed (packet_in_row spans.now packets.now) values.new }
{
    if spans.len() <= FEW {
        set_few(table, spans, packets, values, least);
    } else {
        set_group(table, spans, packets, values, least);
    }
}

// The same of a few packets.
fn set_few<'a>(
    table: &'a Table,
    spans: &[Span],
    packets: &'a [u8],
    values: &mut [Option<Precomputed>],
    least: usize,
)
    requires few { length spans.now ≤ FEW }
    requires whole { octets_of spans.now ≤ length packets.now }
    requires room { length spans.now ≤ length values.old }
    ensures right { ArePrecomputed (packet_in_row spans.now packets.now) values.old
        → ArePrecomputed (packet_in_row spans.now packets.now) values.new }
{
    let mut questions = [None; FEW];
    set_questions(table, spans, packets, &mut questions);
    precompute(&questions[..spans.len()], values, least);
}

// The same of a group of packets. Not inlined, so that a few don't clear its array.
#[inline(never)]
fn set_group<'a>(
    table: &'a Table,
    spans: &[Span],
    packets: &'a [u8],
    values: &mut [Option<Precomputed>],
    least: usize,
)
    requires few { length spans.now ≤ GROUP }
    requires whole { octets_of spans.now ≤ length packets.now }
    requires room { length spans.now ≤ length values.old }
    ensures right { ArePrecomputed (packet_in_row spans.now packets.now) values.old
        → ArePrecomputed (packet_in_row spans.now packets.now) values.new }
{
    let mut questions = [None; GROUP];
    set_questions(table, spans, packets, &mut questions);
    precompute(&questions[..spans.len()], values, least);
}

// Sets what the ICVs are computed from.
fn set_questions<'a>(
    table: &'a Table,
    spans: &[Span],
    packets: &'a [u8],
    questions: &mut [Option<Question<'a>>],
)
    requires room { length spans.now ≤ length questions.old }
    requires whole { octets_of spans.now ≤ length packets.now }
    ensures questions { AreQuestions (packet_in_row spans.now packets.now) questions.old
        → AreQuestions (packet_in_row spans.now packets.now) questions.new }
    ensures long { length questions.new ≡ length questions.old }
{
    let mut at = 0;
    for (place, span) in spans.iter().enumerate() {
        let end = at + span.length;
        questions[place] = table.question(span.child, span.number, &packets[at..end]);
        at = end;
    }
}

// Writes the ICVs, with those that were computed ahead.
fn finish_each(table: &Table, spans: &[Span], packets: &mut [u8], ahead: &[Option<Precomputed>])
    requires whole { octets_of spans.now ≤ length packets.old }
    requires ahead { ArePrecomputed (packet_in_row spans.now packets.old) ahead.now }
    ensures { packets.new ≡ finished_row table.now.pairs spans.now packets.old }
{
    let mut at = 0;
    for (place, span) in spans.iter().enumerate() {
        let end = at + span.length;
        table.finish(
            span.child,
            span.number,
            &mut packets[at..end],
            value_at(ahead, place),
        );
        at = end;
    }
}
