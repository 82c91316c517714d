ghost use Rattle.std.specs.Prelude.{◌≡◌, ◌<◌, ◌≤◌, None, true, false};
ghost use Rattle.rx_query.specs.QuerySpec.{asked};
ghost use Rattle.rx_query.specs.Lists.{some_passes};
ghost use Rattle.rx_query.specs.States.{bits_of, OnlyMatchingInside, live_before, is_match};
ghost use Rattle.rx_states.specs.Edges.{AreEdges};

use crate::answers::{
    has_limit, has_skip, is_delete, is_empty, is_find_one, is_insert, is_limit_reached, is_unknown,
    is_update,
};
use crate::edges::Edges;
use crate::forms::{Forms, forms_of, is_before, is_moved};
use crate::sides::Sides;
use rx_document::Change;
use rx_query::{Query, Results};
use rx_table::{Ask, StateName};

/// How many questions there are.
const QUESTIONS: usize = 19;

/// How many spots there are.
pub const SPOTS: usize = 32;

/// Answers about a change of a document that the query asked for neither before nor now, so that no
/// row is its. All are worked out at once, and what the sort begins with is looked up once.
#[derive(Clone, Copy)]
pub struct Beside {
    answers: [bool; QUESTIONS],
}

impl Beside {
    ghost use Rattle.rx_states.specs.Beside.{bits_in};

    /// `edges` are those of the rows, and `sides` are of the change.
    pub fn new(
        query: &Query,
        change: &Change,
        results: &Results,
        edges: &Edges,
        sides: &mut Sides<'_>,
    ) -> Beside
        requires sides { sides.old ≡ change.now }
        requires edges { AreEdges (asked query.now).sorts results.now edges.now }
        requires inside { OnlyMatchingInside (asked query.now) change.now results.now }
        requires was { some_passes (is_match (asked query.now)) (live_before change.now.before)
            ≡ false }
        requires now { some_passes (is_match (asked query.now)) change.now.after ≡ false }
        ensures bits { bits_in result ≡ bits_of (asked query.now) change.now results.now }
        ensures sides { sides.new ≡ sides.old }
    {
        let Forms {
            before,
            after,
            first,
            last,
        } = forms_of(query, change, results, edges, sides);
        Beside {
            answers: [
                is_insert(change),
                is_update(change),
                is_delete(change),
                has_limit(query),
                is_find_one(query),
                has_skip(query),
                is_empty(results),
                is_unknown(change),
                is_limit_reached(query, results),
                is_moved(query, before, after),
                false,
                false,
                false,
                is_before(query, before, first),
                is_before(query, last, before),
                is_before(query, after, first),
                is_before(query, last, after),
                false,
                false,
            ],
        }
    }

    pub fn is_same(&self, other: &Beside) -> bool
        ensures { result ≡ true → bits_in self.now ≡ bits_in other.now }
    {
        self.answers == other.answers
    }

    /// Where to keep what is told of these answers: those that queries of one kind give about one
    /// change differ in their order and in whether a limit is reached.
    pub fn spot(&self) -> usize
        ensures { result < 32 }
    {
        self.bit(StateName::WasLimitReached)
            + 2 * self.bit(StateName::WasSortedBeforeFirst)
            + 4 * self.bit(StateName::WasSortedAfterLast)
            + 8 * self.bit(StateName::IsSortedBeforeFirst)
            + 16 * self.bit(StateName::IsSortedAfterLast)
    }

    #[tactic(auto, using(rx_query::proofs::Numbers::state_held))]
    fn bit(&self, which: StateName) -> usize
        ensures { result ≤ 1 }
    {
        if self.answers[which as usize] { 1 } else { 0 }
    }
}

impl Ask for Beside {
    ghost use Rattle.rx_query.proofs.Numbers.{number_of_in_range};
    ghost use Rattle.rx_states.specs.Beside.{answer_in, bits_in};

    ghost bits = { bits_in };

    ghost log = { λ _. None };

    #[tactic(auto, using(rx_query::proofs::Numbers::state_held))]
    fn state(&mut self, which: StateName) -> bool {
        self.answers[which as usize]
    }

    ghost in_range = { λ b. number_of_in_range (answer_in b) };
}
