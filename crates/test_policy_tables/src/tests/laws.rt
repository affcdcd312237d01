use policy::laws;

#[test]
fn laws_can_be_called() {
    laws::families_are_apart();
    laws::policies_are_determined();
    laws::flows_between_families_are_discarded();
    laws::flows_are_determined();
    laws::narrowing_is_determined();
    laws::answers_can_be_sent();
    laws::answers_lie_inside();
    laws::first_choices_are_kept();
}
