//! ICVs of ESP packets that were laid for some outputs, computed side by side.
ghost use Rattle.std.specs.Prelude.{◌≡◌, ◌≤◌, IfSome, length};
ghost use Rattle.esp.specs.Precomputed.{ArePrecomputed, AreQuestions, IsPrecomputed};
ghost use Rattle.gateway.specs.Laying.{finished_output, finished_outputs, laid_at, octets_in};

use crate::Output;
use crate::load::Load;
use base::Items;
use esp::{FEW, GROUP, Precomputed, Question, no_values, precompute, value_at};
use sadb::Table;
use std::mem;

/// Writes the ICV into each ESP packet of these outputs: computed side by side where that is faster
/// (`Load::gains`), else one by one, which needs none of the arrays.
pub fn finish_all(table: &Table, laid: &mut [Output<'_>], least: usize)
    requires { length laid.old ≤ GROUP }
    ensures { laid.new ≡ finished_outputs table.now.pairs laid.old }
{
    if !gain_side_by_side(laid, least) {
        finish_with(table, laid, &[]);
    } else if laid.len() <= FEW {
        finish_by_lanes::<FEW>(table, laid, least);
    } else {
        finish_by_lanes::<GROUP>(table, laid, least);
    }
}

// The same side by side, with room for `N` ICVs. Not inlined, so that a few don't clear the long array.
#[inline(never)]
fn finish_by_lanes<const N: usize>(table: &Table, laid: &mut [Output<'_>], least: usize)
    requires group { N ≤ GROUP }
    requires few { length laid.old ≤ N }
    ensures { laid.new ≡ finished_outputs table.now.pairs laid.old }
{
    let mut values = no_values::<N>();
    set_values(table, laid, &mut values, least);
    finish_with(table, laid, &values);
}

fn gain_side_by_side(laid: &[Output<'_>], least: usize) -> bool {
    let mut load = Load::none();
    for output in laid {
        if let Output::Sealed { octets, .. } = output {
            load.add(octets.as_slice().len());
        }
    }
    load.gains(least)
}

// Sets the ICVs, each at its output's place.
fn set_values<'a>(
    table: &'a Table,
    laid: &'a [Output<'_>],
    values: &mut [Option<Precomputed>],
    least: usize,
)
    requires few { length laid.now ≤ GROUP }
    requires room { length laid.now ≤ length values.old }
    ensures right { ArePrecomputed (laid_at laid.now) values.old
        → ArePrecomputed (laid_at laid.now) values.new }
{
    if laid.len() <= FEW {
        set_few(table, laid, values, least);
    } else {
        set_group(table, laid, values, least);
    }
}

// The same of a few outputs.
fn set_few<'a>(
    table: &'a Table,
    laid: &'a [Output<'_>],
    values: &mut [Option<Precomputed>],
    least: usize,
)
    requires few { length laid.now ≤ FEW }
    requires room { length laid.now ≤ length values.old }
    ensures right { ArePrecomputed (laid_at laid.now) values.old
        → ArePrecomputed (laid_at laid.now) values.new }
{
    let mut questions = [None; FEW];
    set_questions(table, laid, &mut questions);
    precompute(&questions[..laid.len()], values, least);
}

// The same of a group of outputs. Not inlined, so that a few don't clear its array.
#[inline(never)]
fn set_group<'a>(
    table: &'a Table,
    laid: &'a [Output<'_>],
    values: &mut [Option<Precomputed>],
    least: usize,
)
    requires few { length laid.now ≤ GROUP }
    requires room { length laid.now ≤ length values.old }
    ensures right { ArePrecomputed (laid_at laid.now) values.old
        → ArePrecomputed (laid_at laid.now) values.new }
{
    let mut questions = [None; GROUP];
    set_questions(table, laid, &mut questions);
    precompute(&questions[..laid.len()], values, least);
}

// Sets what the ICVs are computed from.
fn set_questions<'a>(
    table: &'a Table,
    laid: &'a [Output<'_>],
    questions: &mut [Option<Question<'a>>],
)
    requires room { length laid.now ≤ length questions.old }
    ensures questions { AreQuestions (laid_at laid.now) questions.old
        → AreQuestions (laid_at laid.now) questions.new }
    ensures long { length questions.new ≡ length questions.old }
{
    for (place, output) in laid.iter().enumerate() {
        if let Output::Sealed {
            child,
            number,
            octets,
        } = output
        {
            questions[place] = table.question(*child, *number, octets.as_slice());
        }
    }
}

// Writes the ICVs, with those that were computed ahead.
fn finish_with(table: &Table, laid: &mut [Output<'_>], ahead: &[Option<Precomputed>])
    requires { ArePrecomputed (laid_at laid.old) ahead.now }
    ensures { laid.new ≡ finished_outputs table.now.pairs laid.old }
{
    for place in 0..laid.len() {
        let output = mem::replace(&mut laid[place], Output::Discarded);
        laid[place] = finished(table, output, value_at(ahead, place));
    }
}

/// An output with the ICV of its ESP packet, if it has one.
pub fn finished<'a>(table: &Table, laid: Output<'a>, ahead: Option<Precomputed>) -> Output<'a>
    requires { IfSome ahead (IsPrecomputed (octets_in laid)) }
    ensures { result ≡ finished_output table.now.pairs laid.entry }
{
    match laid {
        Output::Sealed {
            child,
            number,
            octets,
        } => {
            let mut octets = octets.into_vec();
            table.finish(child, number, &mut octets, ahead);
            Output::Sealed {
                child,
                number,
                octets: Items::from_vec(octets),
            }
        }
        other => other,
    }
}
