//! What payloads mean: counting, notices, offers.
mod counting;
mod notices;
mod offers;
