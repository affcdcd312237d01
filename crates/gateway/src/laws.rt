//! Lemmas on the definitions. Each function here does nothing: its contract is the statement, which stands
//! in `specs/LawsOf..` under a name of its own. The comment above the function says it in words.

mod beside;
mod outputs;
mod packets;
mod partners;
mod runs;
mod steps;
mod strangers;
mod together;
mod worlds;

pub use beside::{others_step_as_without, steps_go_by_no_serial, strangers_can_be_left_out};
pub use outputs::{
    few_go_out_again, what_goes_up_is_part_of_what_came, what_is_made_fits, what_is_sent_fits,
    what_is_told_is_stored,
};
pub use packets::{
    a_dropped_packet_takes_one_number_at_most, the_protected_never_goes_in_the_clear,
};
pub use partners::{
    a_partner_is_the_only_one, an_established_initiator_has_a_partner,
    an_established_responder_has_a_partner,
};
pub use runs::{
    every_run_keeps_its_promises, runs_in_a_row_are_one_run,
    the_established_of_new_gateways_proved_themselves, what_every_gateway_has_stays,
};
pub use steps::{
    nothing_comes_before_the_next_moment, refusals_change_nothing, steps_are_determined,
    the_next_moment_brings_something, what_is_quiet_changes_nothing,
};
pub use strangers::{
    packets_go_as_without_strangers, strangers_change_nothing, what_has_no_effect_can_be_left_out,
};
pub use together::{
    both_ends_hold_one_record, both_ends_keep_their_promises, calls_in_a_row_keep_both_ends,
    new_worlds_are_wholly_sound, what_goes_up_had_been_sealed, windows_are_those_told,
};
pub use worlds::{
    each_end_has_its_events, ends_of_a_sound_world_agree, every_world_stays_sound,
    what_is_stored_stays,
};
