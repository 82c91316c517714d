ghost use Rattle.std.specs.Prelude.{◌≡◌, OnErr, OnOk, option_map};
ghost use Rattle.rx_sync.specs.Asks.{forgotten, no_asks, with_request, earlier, next_number};

use rx_value::LARGEST;
use rx_wire::Request;
use std::alloc::{AllocError, Global};
use std::marker::Model;

// The newest request, and as many earlier ones as a link may bring back.
const REMEMBERED: usize = 17;

/// The requests of a replication since the journal was opened: the number of the last one, and the
/// last ones.
#[derive(Drop)]
pub struct Asks {
    count: u64,
    // The newest first.
    made: Vec<Request>,
}

impl Model for Asks {
    ghost use Rattle.rx_sync.specs.Asks.{Asks};

    ghost Value = { Asks };

    ghost view = { λ a. record { n = a.count; requests = a.made.items } };
}

impl Asks {
    pub fn new(alloc: Global) -> Asks
        ensures { result ≡ no_asks }
    {
        Asks {
            count: 0,
            made: Vec::new(alloc),
        }
    }

    /// The number of the next request.
    pub fn next_number(&self) -> u64
        ensures { result ≡ next_number self.now }
    {
        self.count.saturating_add(1).min(LARGEST as u64)
    }

    /// Remembers a request that was made.
    pub fn push(&mut self, request: Request) -> Result<(), AllocError>
        ensures ok { OnOk result (self.new ≡ with_request request self.old) }
        ensures err { OnErr result (self.new ≡ self.old) }
    {
        self.made.insert(0, request)?;
        self.count = self.next_number();
        self.made.truncate(REMEMBERED);
        Ok(())
    }

    /// Forgets the requests that were made. The numbers go on.
    pub fn forget(&mut self)
        ensures { self.new ≡ forgotten self.old }
    {
        self.made.clear();
    }

    /// The request that was made so many requests before the newest, where it is still remembered.
    pub fn earlier(&self, j: usize) -> Option<&Request>
        ensures { option_map (λ q. q.now) result ≡ earlier j self.now }
    {
        self.made.get(j)
    }
}
