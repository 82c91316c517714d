ghost use Rattle.std.specs.Prelude.{◌≡◌};
ghost use Rattle.std.specs.Option.{ForSome, option_copied};
ghost use Rattle.rx_diagram.specs.Asked.{asked_of};
ghost use Rattle.rx_query.specs.QuerySpec.{asked};
ghost use Rattle.rx_query.specs.States.{bits_of, OnlyMatchingInside};
ghost use Rattle.rx_states.specs.Beside.{bits_in};
ghost use Rattle.rx_states.specs.Edges.{AreEdges};
ghost use Rattle.rx_states.specs.Matches.{TellMatches};
ghost use Rattle.rx_table.specs.Rows.{table_of};

use rx_diagram::{Decided, Diagram};
use rx_document::Change;
use rx_query::{Query, Results};
use rx_states::{Beside, Edges, Facts, Matches, SPOTS, Sides};

/// Answers, and what the table says of them.
#[derive(Clone, Copy)]
struct Told {
    answers: Beside,
    decided: Decided,
    ghost action: { decided.action ≡ table_of (bits_in answers) },
    ghost asked: { decided.asked ≡ asked_of (bits_in answers) },
}

/// What was told of one change, each at the spot of its answers, and what the change says of the
/// fields that most queries begin with.
#[derive(Drop)]
pub(crate) struct Memo<'a> {
    told: [Option<Told>; SPOTS],
    pub sides: Sides<'a>,
}

impl<'a> Memo<'a> {
    pub(crate) fn new(change: &'a Change) -> Memo<'a>
        ensures { result.sides ≡ change.now }
    {
        Memo {
            told: [None; SPOTS],
            sides: Sides::new(change),
        }
    }
}

// What the table says of a change. Most queries have nothing to do with it, and many of those
// answer alike, so that what was told once needn't be asked for again. `edges` are those of the
// rows, where they are known.
pub(crate) fn decide(
    diagram: &Diagram,
    query: &Query,
    change: &Change,
    rows: &Results,
    edges: Option<&Edges>,
    matches: Matches,
    memo: &mut Memo<'_>,
) -> Decided
    requires memo { memo.old.sides ≡ change.now }
    requires edges { ForSome (option_copied edges)
        (AreEdges (asked query.now).sorts rows.now) }
    requires inside { OnlyMatchingInside (asked query.now) change.now rows.now }
    requires matches { TellMatches (asked query.now) change.now matches }
    ensures action { result.action ≡ table_of (bits_of (asked query.now) change.now rows.now) }
    ensures asked { result.asked ≡ asked_of (bits_of (asked query.now) change.now rows.now) }
    ensures memo { memo.new.sides ≡ memo.old.sides }
{
    if let (false, false, Some(edges)) = (matches.was, matches.now, edges) {
        let answers = Beside::new(query, change, rows, edges, &mut memo.sides);
        return decide_beside(diagram, answers, &mut memo.told);
    }
    let mut facts = Facts::by_matches(query, change, rows, matches);
    diagram.decide(&mut facts)
}

fn decide_beside(
    diagram: &Diagram,
    mut answers: Beside,
    told: &mut [Option<Told>; SPOTS],
) -> Decided
    ensures action { result.action ≡ table_of (bits_in answers) }
    ensures asked { result.asked ≡ asked_of (bits_in answers) }
{
    let spot = answers.spot();
    if let Some(known) = told[spot] {
        if known.answers.is_same(&answers) {
            return known.decided;
        }
    }
    let decided = diagram.decide(&mut answers);
    told[spot] = Some(Told { answers, decided });
    decided
}
