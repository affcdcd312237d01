//! The requests that wait for an answer, one after the other.
ghost use Rattle.std.specs.Prelude.{◌≡◌};
ghost use Rattle.std.specs.FinMap as map;
ghost use Rattle.std.specs.Iterator.{YieldsFirstBy, item_count};
ghost use Rattle.requests.specs.Outstanding.{numbered, requests_left};

use crate::Outgoing;

/// The requests that wait for an answer, each with its Message ID, by rising Message ID: what
/// [`Outgoing::iter`] gives.
#[derive(Drop)]
pub struct Outstanding<'a, T> {
    requests: &'a Outgoing<T>,
    low: Option<u32>,
}

impl<'a, T> Iterator for Outstanding<'a, T> {
    type Item = (u32, &'a T);

    ghost next_gives = { YieldsFirstBy numbered requests_left };

    ghost remaining = { item_count requests_left };

    fn next(&mut self) -> Option<(u32, &'a T)> {
        let (number, request) = self.requests.after(self.low)?;
        self.low = Some(number);
        Some((number, request))
    }
}

impl<T> Outgoing<T> {
    /// The requests that wait for an answer, each with its Message ID, by rising Message ID. Takes no memory.
    pub fn iter(&self) -> Outstanding<'_, T>
        ensures { requests_left result ≡ map.entries self.now.outstanding }
    {
        Outstanding {
            requests: self,
            low: None,
        }
    }
}
