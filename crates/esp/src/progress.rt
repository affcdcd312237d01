//! How far a list of payloads came.

use crate::EspFault;

/// How far a list of payloads came that are sealed, or laid out, in order.
#[derive(Clone, Copy)]
pub struct Progress {
    /// How many were.
    pub done: usize,
    /// Why the next one was not; `None` at the list's end.
    pub refusal: Option<EspFault>,
}
