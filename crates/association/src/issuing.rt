//! Requests as they are issued.
ghost use Rattle.std.specs.Prelude.{◌≡◌, IfOk};
ghost use Rattle.association.specs.Issuing.{new_request, IssuesNext};

use crate::{Purpose, Request};
use base::Items;
use requests::{Outgoing, Timer};
use std::alloc::AllocError;

/// A request that first goes out at this time.
pub fn new_request(octets: Items<u8>, purpose: Purpose, moment: u64) -> Request
    ensures { result ≡ new_request octets purpose moment }
{
    Request {
        octets,
        purpose,
        timer: Timer::started(moment),
    }
}

/// These requests with one more, under the next Message ID. Where that may be issued, an error is an
/// allocation failure.
pub fn issued(
    mut outgoing: Outgoing<Request>,
    request: Request,
) -> Result<Outgoing<Request>, AllocError>
    ensures { IfOk result (IssuesNext outgoing request) }
{
    match outgoing.prepare() {
        Ok(_) => {
            outgoing.issue(request);
            Ok(outgoing)
        }
        Err(_) => Err(AllocError),
    }
}
