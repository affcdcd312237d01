//! ICVs of the ESP packets of a group of inputs, computed side by side before any of the inputs is taken.
ghost use Rattle.std.specs.Prelude.{◌≡◌, ◌≤◌, length, map};
ghost use Rattle.esp.specs.Precomputed.{ArePrecomputed, AreQuestions};
ghost use Rattle.gateway.specs.Groups.{packets_in};
ghost use Rattle.gateway.specs.Inputs.{input_view};

use crate::Input;
use crate::load::Load;
use esp::{FEW, GROUP, Precomputed, Question, precompute};
use sadb::Table;
use traffic::question;

/// Whether the ESP packets among some inputs gain by ICVs computed ahead, where lists begin lanes at `least`
/// packets.
pub fn gain_ahead(inputs: &[Input<'_>], least: usize) -> bool {
    let mut load = Load::none();
    for input in inputs {
        if let Input::Esp { octets } = *input {
            load.add(octets.len());
        }
    }
    load.gains(least)
}

/// Sets the ICVs of the ESP packets among some inputs, each at its input's place.
pub fn set_ahead<'a>(
    table: &'a Table,
    inputs: &[Input<'a>],
    values: &mut [Option<Precomputed>],
    least: usize,
)
    requires few { length inputs.now ≤ GROUP }
    requires room { length inputs.now ≤ length values.old }
    ensures right { ArePrecomputed (packets_in (map input_view inputs.now)) values.old
        → ArePrecomputed (packets_in (map input_view inputs.now)) values.new }
    ensures long { length values.new ≡ length values.old }
{
    if inputs.len() <= FEW {
        set_few(table, inputs, values, least);
    } else {
        set_group(table, inputs, values, least);
    }
}

// The same of a few inputs.
fn set_few<'a>(
    table: &'a Table,
    inputs: &[Input<'a>],
    values: &mut [Option<Precomputed>],
    least: usize,
)
    requires few { length inputs.now ≤ FEW }
    requires room { length inputs.now ≤ length values.old }
    ensures right { ArePrecomputed (packets_in (map input_view inputs.now)) values.old
        → ArePrecomputed (packets_in (map input_view inputs.now)) values.new }
    ensures long { length values.new ≡ length values.old }
{
    let mut questions = [None; FEW];
    set_questions(table, inputs, &mut questions);
    precompute(&questions[..inputs.len()], values, least);
}

// The same of a group of inputs. Not inlined, so that a few don't clear its array.
#[inline(never)]
fn set_group<'a>(
    table: &'a Table,
    inputs: &[Input<'a>],
    values: &mut [Option<Precomputed>],
    least: usize,
)
    requires few { length inputs.now ≤ GROUP }
    requires room { length inputs.now ≤ length values.old }
    ensures right { ArePrecomputed (packets_in (map input_view inputs.now)) values.old
        → ArePrecomputed (packets_in (map input_view inputs.now)) values.new }
    ensures long { length values.new ≡ length values.old }
{
    let mut questions = [None; GROUP];
    set_questions(table, inputs, &mut questions);
    precompute(&questions[..inputs.len()], values, least);
}

// Sets what the ICVs are computed from, by the table as it is at the group's beginning.
fn set_questions<'a>(table: &'a Table, inputs: &[Input<'a>], questions: &mut [Option<Question<'a>>])
    requires room { length inputs.now ≤ length questions.old }
    ensures questions { AreQuestions (packets_in (map input_view inputs.now)) questions.old
        → AreQuestions (packets_in (map input_view inputs.now)) questions.new }
    ensures long { length questions.new ≡ length questions.old }
{
    for (place, input) in inputs.iter().enumerate() {
        if let Input::Esp { octets } = *input {
            questions[place] = question(table, octets);
        }
    }
}
