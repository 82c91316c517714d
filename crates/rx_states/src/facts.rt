ghost use Rattle.std.specs.Prelude.{◌≡◌, None, IfSome};
ghost use Rattle.std.specs.Option.{ForSome};
ghost use Rattle.rx_query.specs.QuerySpec.{asked};
ghost use Rattle.rx_query.specs.States.{bits_of, OnlyMatchingInside};
ghost use Rattle.rx_states.specs.Matches.{TellMatches};

use crate::answers::answer;
use crate::matches::Matches;
use rx_document::Change;
use rx_query::{Query, Results};
use rx_table::{Ask, StateName};

/// Answers about one query, one change, and the query's rows before the change. Nothing but what
/// the selector says is worked out before it is asked, and nothing else is kept.
#[derive(Drop)]
pub struct Facts<'a> {
    query: &'a Query,
    change: &'a Change,
    results: &'a Results,
    // known where the document can be among the rows only where it matched before
    matches: Option<Matches>,
    ghost told: { ForSome matches (TellMatches (asked query.now) change.now) },
    ghost inside: { ForSome matches
        (λ _. OnlyMatchingInside (asked query.now) change.now results.now) },
}

impl<'a> Facts<'a> {
    ghost use Rattle.rx_states.specs.Facts.{bits_in};

    pub fn new(query: &'a Query, change: &'a Change, results: &'a Results) -> Facts<'a>
        ensures { bits_in result ≡ bits_of (asked query.now) change.now results.now }
    {
        Facts {
            query,
            change,
            results,
            matches: None,
        }
    }

    /// The same about rows of which one is the document's only where that matched before, as is so
    /// of a query's result. They are walked only then.
    pub fn of_result(query: &'a Query, change: &'a Change, results: &'a Results) -> Facts<'a>
        requires { OnlyMatchingInside (asked query.now) change.now results.now }
        ensures { bits_in result ≡ bits_of (asked query.now) change.now results.now }
    {
        Facts::by_matches(query, change, results, Matches::of(query, change))
    }

    /// The same where it is known already what the selector says.
    pub fn by_matches(
        query: &'a Query,
        change: &'a Change,
        results: &'a Results,
        matches: Matches,
    ) -> Facts<'a>
        requires inside { OnlyMatchingInside (asked query.now) change.now results.now }
        requires told { TellMatches (asked query.now) change.now matches }
        ensures { bits_in result ≡ bits_of (asked query.now) change.now results.now }
    {
        Facts {
            query,
            change,
            results,
            matches: Some(matches),
        }
    }
}

impl Facts<'_> {
    ghost use Rattle.rx_states.specs.Facts.{states_in};

    // What is known of a state without a look at the rows.
    fn known(&self, which: StateName) -> Option<bool>
        ensures { IfSome result (λ holds. holds ≡ states_in self.now which) }
    {
        let matches = self.matches?;
        match which {
            StateName::WasMatching => Some(matches.was),
            StateName::DoesMatchNow => Some(matches.now),
            StateName::WasInResult if !matches.was => Some(false),
            _ => None,
        }
    }
}

impl Ask for Facts<'_> {
    ghost use Rattle.rx_query.proofs.Numbers.{number_of_in_range};
    ghost use Rattle.rx_states.specs.Facts.{states_in, bits_in};

    ghost bits = { bits_in };

    ghost log = { λ _. None };

    #[tactic(auto, using(rx_query::proofs::Numbers::state_held))]
    fn state(&mut self, which: StateName) -> bool {
        match self.known(which) {
            Some(holds) => holds,
            None => answer(self.query, self.change, self.results, which),
        }
    }

    ghost in_range = { λ f. number_of_in_range (states_in f) };
}
