ghost use Rattle.std.specs.Prelude.{◌≡◌, ◌++◌, [], ℕ, List, Option, None, Some, IfOk, OnOk, IfErr, OnErr};
ghost use Rattle.rx_collection.specs.Held.{Held};
ghost use Rattle.rx_outside.specs.declared.stop.Stop.{Stop};
ghost use Rattle.rx_serve.specs.Answered.{Answers, Commits, Stops};
ghost use Rattle.rx_wire.specs.Lawful.{IsRequest};

use rx_outside::Stop;
use rx_schema::Schema;
use rx_wire::{Reply, Request};

/// Answers requests on a collection, one after another, and keeps what they write.
pub trait Answer {
    /// The collection that it answers for.
    ghost collection: { Self → Held };

    /// The moments of the pushes that it answered.
    ghost moments: { Self → List ℕ };

    /// Why it stopped, once it did.
    ghost stop: { Self → Option Stop };

    /// What it stands on is as it left it.
    ghost is_ready: { Self → Type 0 };

    /// What holds from one state of it to a later one: the first commits were made between, and of
    /// those behind them any first ones may have been. Between two answers there are none of these.
    ghost holds: { Self → Self → Commits → Commits → Type 0 };

    /// Answers a request. It gives no reply where a row is to be written and no write time is left.
    /// Nothing is to be asked of it after a stop.
    fn answer(&mut self, request: &Request) -> Result<Option<Reply>, Stop>
        requires going { stop self.old ≡ None }
        requires ready { is_ready self.old }
        requires lawful { IsRequest (collection self.old).schema request.now }
        ensures answers { IfOk result (λ reply.
            Answers request.now (collection self.old) (moments self.old) reply
            (collection self.new) (moments self.new)
            (λ commits. holds self.old self.new commits [])) }
        ensures goes_on { OnOk result (stop self.new ≡ None) }
        ensures ready { OnOk result (is_ready self.new) }
        ensures stops { IfErr result (λ why. stop self.new ≡ Some why) }
        ensures keeps { OnErr result (Stops request.now (collection self.old)
            (moments self.old) (moments self.new) (holds self.old self.new)) };

    /// The schema of its collection.
    fn schema(&self) -> &Schema
        requires going { stop self.now ≡ None }
        ensures { result.now ≡ (collection self.now).schema };

    // Nothing was done yet.
    ghost holds_of_none: { (a : Self) → stop a ≡ None → holds a a [] [] };

    // What holds joins, as long as it didn't stop.
    ghost holds_on: { (a b c : Self) (first second more : Commits) → stop b ≡ None
        → holds a b first [] → holds b c second more → holds a c (first ++ second) more };
}
