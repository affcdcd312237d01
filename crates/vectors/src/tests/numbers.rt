//! The numbers that RFC 7296 gives, each as section 3 has it.
use crate::tests::asserts::same;
use std::process::Abort;
use suite::transforms;
use wire::numbers;

fn are(rt: &impl Abort, named: &[u16], numbers: &[u16]) {
    same(rt, named, numbers);
}

/// RFC 7296, section 3.1.
#[test]
fn exchanges(rt: HostRuntime) {
    let named = [
        numbers::IKE_SA_INIT,
        numbers::IKE_AUTH,
        numbers::CREATE_CHILD_SA,
        numbers::INFORMATIONAL,
    ];
    same(&rt, named, [34, 35, 36, 37]);
}

/// RFC 7296, section 3.10.1.
#[test]
fn notices(rt: HostRuntime) {
    let errors = [
        numbers::UNSUPPORTED_CRITICAL_PAYLOAD,
        numbers::INVALID_SYNTAX,
        numbers::NO_PROPOSAL_CHOSEN,
        numbers::AUTHENTICATION_FAILED,
        numbers::NO_ADDITIONAL_SAS,
        numbers::TS_UNACCEPTABLE,
    ];
    are(&rt, &errors, &[1, 7, 14, 24, 35, 38]);
    are(
        &rt,
        &[numbers::SET_WINDOW_SIZE, numbers::COOKIE],
        &[16385, 16390],
    );
}

/// RFC 7296, section 3.3.2, and RFC 2410 and 4868 for the algorithms.
#[test]
fn transform_types(rt: HostRuntime) {
    let kinds = [
        transforms::ENCR,
        transforms::PRF,
        transforms::INTEG,
        transforms::GROUP,
        transforms::ESN,
    ];
    same(&rt, kinds, [1, 2, 3, 4, 5]);
    let algorithms = [
        transforms::ENCR_NULL,
        transforms::PRF_HMAC_SHA2_256,
        transforms::AUTH_HMAC_SHA2_256_128,
        transforms::NO_EXTENSION,
        transforms::EXTENSION,
        transforms::KEY_LENGTH,
    ];
    are(&rt, &algorithms, &[11, 5, 12, 0, 1, 14]);
}
