//! Lemmas on the definitions. Each function here does nothing: its contract is the statement, which stands
//! in `specs/LawsOf..` under a name of its own. The comment above the function says it in words.

mod determined;
mod keyed;
mod lengths;
mod moves;
mod payloads;
mod spis;
mod staying;
mod taking_effect;
mod waiting;

pub use determined::{
    beginnings_are_determined, effects_are_determined, orders_are_short_and_determined,
};
pub use keyed::{keys_stay, messages_open, what_is_sealed_opens};
pub use lengths::{keys_stay_whole, lengths_are_told, what_is_kept_is_short};
pub use moves::{messages_make_moves, what_goes_out_again_is_kept};
pub use payloads::{
    answers_keep_to_their_offers, children_are_made_of_their_messages,
    the_established_proved_themselves,
};
pub use spis::{
    no_spi_comes, spis_come_by_orders, spis_stay_reserved, what_is_given_up_is_released,
    what_others_hold_stays,
};
pub use staying::{
    associations_stay_themselves, pairs_stay_as_they_were, pairs_that_come_are_told,
    what_is_passed_over_changes_nothing,
};
pub use taking_effect::{
    orders_send_requests, repeats_are_answered, requests_are_remembered, requests_take_effect,
};
pub use waiting::{nothing_comes_due, requests_wait_on};
