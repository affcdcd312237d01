use esp::laws::{
    a_block_window_wants_no_memory, every_run_judges_at_most_once, handed_up_packets_are_steps,
    judging_is_determined, premise_is_met, runs_in_a_row_are_one_run, sealed_packets_open,
};
use replay::{BlockWindow, PlainWindow};

// Nothing runs here: each law can be called, and those on windows hold of both kinds.
#[test]
fn laws_can_be_called() {
    sealed_packets_open();
    handed_up_packets_are_steps::<PlainWindow>();
    handed_up_packets_are_steps::<BlockWindow>();
    runs_in_a_row_are_one_run::<PlainWindow>();
    runs_in_a_row_are_one_run::<BlockWindow>();
    every_run_judges_at_most_once::<PlainWindow>();
    every_run_judges_at_most_once::<BlockWindow>();
    judging_is_determined();
    premise_is_met();
    a_block_window_wants_no_memory();
}
