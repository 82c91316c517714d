ghost use Rattle.std.specs.Prelude.{◌≡◌, ◌≤◌, ◌++◌, ◌∷◌, [], ℕ, List, true, None, Ok, IfOk, IfErr, OnOk, OnErr, IfSome};
ghost use Rattle.rx_collection.specs.Held.{Held};
ghost use Rattle.rx_outside.specs.Failed.{Rises};
ghost use Rattle.rx_serve.specs.Answered.{Continues, HoldsForSome, LeavesSome};
ghost use Rattle.rx_serve.specs.Course.{Steps, Halts};
ghost use Rattle.rx_serve.specs.Ends.{EndsBy, IsStopOf, IsStopped, joined_since};
ghost use Rattle.rx_serve.specs.Lines.{is_within};
ghost use Rattle.rx_serve.specs.Refused.{IsRefused};
ghost use Rattle.rx_serve.specs.Served.{as_line};
ghost use Rattle.rx_serve.specs.declared.ended.Why.TheVariants as why;
ghost use Rattle.rx_wire.specs.Fault.{fault_text};
ghost use Rattle.rx_wire.specs.Lawful.{IsRequest};
ghost use Rattle.rx_wire.specs.Spelling.{request_of};

use crate::answer::Answer;
use crate::ended::{Ended, Why};
use crate::incoming::{Incoming, Next, ReadFault};
use crate::sending::send_line;
use rx_outside::{Stop, Wire};
use rx_wire::{Request, WireFault};
use std::alloc::{AllocError, Global};

/// The most requests of a connection.
const MOST_REQUESTS: u64 = 9_007_199_254_740_991;

/// Serves a connection to its end: reads line by line, has each request answered and sends the
/// reply, before the next line is looked at.
pub fn serve<W: Wire, A: Answer>(alloc: Global, wire: &mut W, answer: &mut A) -> Result<Ended, Stop>
    requires going { A.stop answer.old ≡ None }
    requires ready { A.is_ready answer.old }
    ensures served { W.tells → IfOk result (λ ended. EndsBy ended.why ended.requests
        (λ commits. A.holds answer.old answer.new commits []) (record {
          before = A.collection answer.old;
          after = A.collection answer.new;
          moments = joined_since (A.moments answer.old) (A.moments answer.new);
          coming = W.left wire.old;
          sent = joined_since (W.sent wire.old) (W.sent wire.new);
        })) }
    ensures stopped { W.tells → OnErr result (IsStopped
        (A.holds answer.old answer.new) (record {
          before = A.collection answer.old;
          after = A.collection answer.new;
          moments = joined_since (A.moments answer.old) (A.moments answer.new);
          coming = W.left wire.old;
          sent = joined_since (W.sent wire.old) (W.sent wire.new);
        })) }
    ensures moments { A.moments answer.new
        ≡ A.moments answer.old ++ joined_since (A.moments answer.old) (A.moments answer.new) }
    ensures sent { W.tells → W.sent wire.new
        ≡ W.sent wire.old ++ joined_since (W.sent wire.old) (W.sent wire.new) }
    ensures keeps { OnOk result
        (HoldsForSome (λ commits. A.holds answer.old answer.new commits [])) }
    ensures leaves { OnErr result (LeavesSome (A.holds answer.old answer.new)) }
    ensures whole { W.tells →
        W.given wire.new ++ W.left wire.new ≡ W.given wire.old ++ W.left wire.old }
    ensures goes_on { OnOk result (A.stop answer.new ≡ None) }
    ensures ready { OnOk result (A.is_ready answer.new) }
    ensures stop { IfErr result (λ why. IsStopOf why (A.stop answer.new)) }
    ensures failed { IfOk result (λ ended. ended.why ≡ why.Wire
        → Rises (W.faults wire.old) (W.faults wire.new)) }
    ensures count { W.faults wire.old ≤ W.faults wire.new }
{
    let mut incoming = Incoming::new(alloc)?;
    'requests: for requests in 0..MOST_REQUESTS {
        if let Some(ended) = serve_next(alloc, &mut incoming, wire, answer)? {
            return Ok(Ended {
                requests: requests + ended.requests,
                why: ended.why,
            });
        }
    }
    Ok(Ended {
        requests: MOST_REQUESTS,
        why: Why::Peer,
    })
}

// Serves the next line, and says whether and how the connection ended there.
fn serve_next<W: Wire, A: Answer>(
    alloc: Global,
    incoming: &mut Incoming,
    wire: &mut W,
    answer: &mut A,
) -> Result<Option<Ended>, Stop>
    requires going { A.stop answer.old ≡ None }
    requires ready { A.is_ready answer.old }
    ensures steps { W.tells → IfOk result (λ ended. Steps ended
        (λ commits. A.holds answer.old answer.new commits [])
        (record {
          collection = A.collection answer.old;
          coming = incoming.old.unread ++ W.left wire.old;
          sent = W.sent wire.old;
          moments = A.moments answer.old;
        })
        (record {
          collection = A.collection answer.new;
          coming = incoming.new.unread ++ W.left wire.new;
          sent = W.sent wire.new;
          moments = A.moments answer.new;
        })) }
    ensures few { IfOk result (λ ended. IfSome ended (λ ended. ended.requests ≤ 1)) }
    ensures joins { Continues (A.moments answer.old) (A.moments answer.new) }
    ensures keeps { OnOk result
        (HoldsForSome (λ commits. A.holds answer.old answer.new commits [])) }
    ensures leaves { OnErr result (LeavesSome (A.holds answer.old answer.new)) }
    ensures halts { W.tells → OnErr result (Halts (A.holds answer.old answer.new)
        (record {
          collection = A.collection answer.old;
          coming = incoming.old.unread ++ W.left wire.old;
          sent = W.sent wire.old;
          moments = A.moments answer.old;
        })
        (record {
          collection = A.collection answer.new;
          coming = incoming.new.unread ++ W.left wire.new;
          sent = W.sent wire.new;
          moments = A.moments answer.new;
        })) }
    ensures whole { W.tells →
        W.given wire.new ++ W.left wire.new ≡ W.given wire.old ++ W.left wire.old }
    ensures goes_on { OnOk result (A.stop answer.new ≡ None) }
    ensures ready { OnOk result (A.is_ready answer.new) }
    ensures stop { IfErr result (λ why. IsStopOf why (A.stop answer.new)) }
    ensures failed { IfOk result (λ ended. IfSome ended (λ ended. ended.why ≡ why.Wire
        → Rises (W.faults wire.old) (W.faults wire.new))) }
    ensures count { W.faults wire.old ≤ W.faults wire.new }
{
    match incoming.next(wire) {
        Ok(Next::Line) => answer_line(alloc, incoming.line(), wire, answer),
        Ok(Next::TooLong) => Ok(Some(refuse(alloc, &WireFault::TooLong, wire)?)),
        Ok(Next::End) => Ok(Some(Ended {
            requests: 0,
            why: Why::Peer,
        })),
        Err(ReadFault::Wire) => Ok(Some(Ended {
            requests: 0,
            why: Why::Wire,
        })),
        Err(ReadFault::Memory) => Err(Stop::Memory),
    }
}

// Answers a line.
fn answer_line<W: Wire, A: Answer>(
    alloc: Global,
    line: &[u8],
    wire: &mut W,
    answer: &mut A,
) -> Result<Option<Ended>, Stop>
    requires going { A.stop answer.old ≡ None }
    requires ready { A.is_ready answer.old }
    ensures steps { W.tells → IfOk result (λ ended. is_within line.now ≡ true
        → (rest : List ℕ) → Steps ended
        (λ commits. A.holds answer.old answer.new commits [])
        (record {
          collection = A.collection answer.old;
          coming = line.now ++ 10 ∷ rest;
          sent = W.sent wire.old;
          moments = A.moments answer.old;
        })
        (record {
          collection = A.collection answer.new;
          coming = rest;
          sent = W.sent wire.new;
          moments = A.moments answer.new;
        })) }
    ensures few { IfOk result (λ ended. IfSome ended (λ ended. ended.requests ≤ 1)) }
    ensures joins { Continues (A.moments answer.old) (A.moments answer.new) }
    ensures keeps { OnOk result
        (HoldsForSome (λ commits. A.holds answer.old answer.new commits [])) }
    ensures leaves { OnErr result (LeavesSome (A.holds answer.old answer.new)) }
    ensures halts { W.tells → OnErr result (is_within line.now ≡ true
        → (rest : List ℕ) → Halts (A.holds answer.old answer.new)
        (record {
          collection = A.collection answer.old;
          coming = line.now ++ 10 ∷ rest;
          sent = W.sent wire.old;
          moments = A.moments answer.old;
        })
        (record {
          collection = A.collection answer.new;
          coming = rest;
          sent = W.sent wire.new;
          moments = A.moments answer.new;
        })) }
    ensures same_given { W.tells → W.given wire.new ≡ W.given wire.old }
    ensures same_left { W.tells → W.left wire.new ≡ W.left wire.old }
    ensures goes_on { OnOk result (A.stop answer.new ≡ None) }
    ensures ready { OnOk result (A.is_ready answer.new) }
    ensures stop { IfErr result (λ why. IsStopOf why (A.stop answer.new)) }
    ensures failed { IfOk result (λ ended. IfSome ended (λ ended. ended.why ≡ why.Wire
        → Rises (W.faults wire.old) (W.faults wire.new))) }
    ensures count { W.faults wire.old ≤ W.faults wire.new }
{
    match Request::read(alloc, line, answer.schema()) {
        Ok(request) => answer_request(alloc, &request, wire, answer),
        Err(WireFault::Memory) => Err(Stop::Memory),
        Err(fault) => Ok(Some(refuse(alloc, &fault, wire)?)),
    }
}

// Answers a request.
fn answer_request<W: Wire, A: Answer>(
    alloc: Global,
    request: &Request,
    wire: &mut W,
    answer: &mut A,
) -> Result<Option<Ended>, Stop>
    requires going { A.stop answer.old ≡ None }
    requires ready { A.is_ready answer.old }
    requires lawful { IsRequest (A.collection answer.old).schema request.now }
    ensures steps { W.tells → IfOk result (λ ended. (line : List ℕ) → is_within line ≡ true
        → request_of (A.collection answer.old).schema line ≡ Ok request.now
        → (rest : List ℕ) → Steps ended
        (λ commits. A.holds answer.old answer.new commits [])
        (record {
          collection = A.collection answer.old;
          coming = line ++ 10 ∷ rest;
          sent = W.sent wire.old;
          moments = A.moments answer.old;
        })
        (record {
          collection = A.collection answer.new;
          coming = rest;
          sent = W.sent wire.new;
          moments = A.moments answer.new;
        })) }
    ensures few { IfOk result (λ ended. IfSome ended (λ ended. ended.requests ≤ 1)) }
    ensures joins { Continues (A.moments answer.old) (A.moments answer.new) }
    ensures keeps { OnOk result
        (HoldsForSome (λ commits. A.holds answer.old answer.new commits [])) }
    ensures leaves { OnErr result (LeavesSome (A.holds answer.old answer.new)) }
    ensures halts { W.tells → OnErr result ((line : List ℕ) → is_within line ≡ true
        → request_of (A.collection answer.old).schema line ≡ Ok request.now
        → (rest : List ℕ) → Halts (A.holds answer.old answer.new)
        (record {
          collection = A.collection answer.old;
          coming = line ++ 10 ∷ rest;
          sent = W.sent wire.old;
          moments = A.moments answer.old;
        })
        (record {
          collection = A.collection answer.new;
          coming = rest;
          sent = W.sent wire.new;
          moments = A.moments answer.new;
        })) }
    ensures same_given { W.tells → W.given wire.new ≡ W.given wire.old }
    ensures same_left { W.tells → W.left wire.new ≡ W.left wire.old }
    ensures goes_on { OnOk result (A.stop answer.new ≡ None) }
    ensures ready { OnOk result (A.is_ready answer.new) }
    ensures stop { IfErr result (λ why. IsStopOf why (A.stop answer.new)) }
    ensures failed { IfOk result (λ ended. IfSome ended (λ ended. ended.why ≡ why.Wire
        → Rises (W.faults wire.old) (W.faults wire.new))) }
    ensures count { W.faults wire.old ≤ W.faults wire.new }
{
    let Some(reply) = answer.answer(request)? else {
        return Ok(Some(Ended {
            requests: 0,
            why: Why::Clock,
        }));
    };
    let text = reply.text(alloc)?;
    if send_line(alloc, text.as_str().as_bytes(), wire)? {
        return Ok(None);
    }
    Ok(Some(Ended {
        requests: 1,
        why: Why::Wire,
    }))
}

// Tells the peer of a fault, which ends the connection.
fn refuse<W: Wire>(alloc: Global, fault: &WireFault, wire: &mut W) -> Result<Ended, AllocError>
    ensures told { W.tells → IfOk result (λ ended. IsRefused ended
        (W.sent wire.old) (W.sent wire.new) (as_line (fault_text fault.now))) }
    ensures none { IfOk result (λ ended. ended.requests ≡ 0) }
    ensures none_sent { W.tells → OnErr result (W.sent wire.new ≡ W.sent wire.old) }
    ensures same_given { W.tells → W.given wire.new ≡ W.given wire.old }
    ensures same_left { W.tells → W.left wire.new ≡ W.left wire.old }
    ensures failed { IfOk result (λ ended. ended.why ≡ why.Wire
        → Rises (W.faults wire.old) (W.faults wire.new)) }
    ensures count { W.faults wire.old ≤ W.faults wire.new }
{
    let text = fault.text(alloc)?;
    let all = send_line(alloc, text.as_str().as_bytes(), wire)?;
    Ok(Ended {
        requests: 0,
        why: if all { Why::Request } else { Why::Wire },
    })
}
