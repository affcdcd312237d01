//! Forms of payloads, by their types (RFC 7296 section 3.2).
ghost use Rattle.std.specs.Prelude.{◌≡◌};
ghost use Rattle.wire.specs.Reading.{form_of};

use crate::numbers::{
    AUTH_TYPE, CERTIFICATE_REQUEST_TYPE, CERTIFICATE_TYPE, CONFIGURATION_TYPE, DELETE_TYPE,
    EAP_TYPE, ID_I_TYPE, ID_R_TYPE, KE_TYPE, NONCE_TYPE, NOTIFY_TYPE, SA_TYPE, SEALED_TYPE,
    TS_I_TYPE, TS_R_TYPE, VENDOR_ID_TYPE,
};
use crate::payload::SkippedKind;

// How the inside of a payload is laid out.
#[derive(Clone, Copy, Debug)]
pub(crate) enum Form {
    Sa,
    Ke,
    IdI,
    IdR,
    Auth,
    Nonce,
    Notify,
    Delete,
    TsI,
    TsR,
    Sealed,
    Skipped(SkippedKind),
    Unknown,
}

impl Form {
    // The form that payloads of a type have.
    pub(crate) fn of(kind: u8) -> Self
        ensures { result ≡ form_of kind }
    {
        match kind {
            SA_TYPE => Form::Sa,
            KE_TYPE => Form::Ke,
            ID_I_TYPE => Form::IdI,
            ID_R_TYPE => Form::IdR,
            CERTIFICATE_TYPE => Form::Skipped(SkippedKind::Certificate),
            CERTIFICATE_REQUEST_TYPE => Form::Skipped(SkippedKind::CertificateRequest),
            AUTH_TYPE => Form::Auth,
            NONCE_TYPE => Form::Nonce,
            NOTIFY_TYPE => Form::Notify,
            DELETE_TYPE => Form::Delete,
            VENDOR_ID_TYPE => Form::Skipped(SkippedKind::VendorId),
            TS_I_TYPE => Form::TsI,
            TS_R_TYPE => Form::TsR,
            SEALED_TYPE => Form::Sealed,
            CONFIGURATION_TYPE => Form::Skipped(SkippedKind::Configuration),
            EAP_TYPE => Form::Skipped(SkippedKind::Eap),
            _ => Form::Unknown,
        }
    }
}
