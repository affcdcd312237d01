//! Lemmas on the definitions. Each function here does nothing: its contract is the statement, which stands
//! in `specs/LawsOf..` under a name of its own. The comment above the function says it in words.

mod before;
mod given;
mod made_children;
mod outputs;
mod peers;
mod records;
mod sealing;
mod soundness;
mod steps;
mod taking_effect;
mod times;

pub use before::{
    each_association_was_there_or_came, first_requests_tell_what_is_held, who_asks_has_read,
    who_is_half_open_was_so, who_waits_keeps_its_offer,
};
pub use given::{inputs_bring_sixteen_octets_for_sealing, inputs_tell_their_lengths};
pub use made_children::{
    answers_keep_to_their_offers, children_are_extended_where_allowed,
    children_are_made_of_their_messages, children_have_few_selectors, first_children_mirror,
    further_children_mirror,
};
pub use outputs::{few_go_out_again, traces_name_what_is_held, what_is_sent_is_short};
pub use peers::{no_association_without_a_cookie, the_established_proved_themselves};
pub use records::{
    both_ends_make_one_record, first_messages_introduce_their_senders, keys_come_by_what_is_read,
};
pub use sealing::{
    each_association_is_sound, what_goes_out_under_keys_is_sealed, what_is_sealed_opens_to_itself,
    what_is_told_was_taken,
};
pub use soundness::{
    keys_stay_whole, no_spi_is_lost, soundness_asks_for_reservations, soundness_stays,
};
pub use steps::{
    fresh_octets_open, one_association_is_changed, steps_are_determined, steps_are_moves,
    steps_keep_their_laws, what_is_quiet_changes_nothing,
};
pub use taking_effect::{repeats_are_answered, requests_are_remembered, requests_take_effect};
pub use times::{
    nothing_comes_before_the_next_moment, the_next_moment_brings_something,
    what_is_due_comes_in_time,
};
