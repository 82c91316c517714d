ghost use Rattle.std.specs.Prelude.{◌≡◌, ◌≢◌, Some, None, IfSome, IfOk, OnOk, OnErr, is_none, option_map};
ghost use Rattle.std.specs.Option.{ForSome};
ghost use Rattle.rx_document.specs.declared.change.Before.TheVariants.{Unknown};
ghost use Rattle.rx_diagram.specs.Asked.{asked_of};
ghost use Rattle.rx_table.specs.Counts.{is_full};
ghost use Rattle.rx_table.specs.Rows.{table_of};
ghost use Rattle.rx_table.specs.declared.action.Action.TheVariants.{RunFullQueryAgain};
ghost use Rattle.rx_query.specs.After.{after, AreThere};
ghost use Rattle.rx_query.specs.QuerySpec.{asked};
ghost use Rattle.rx_query.specs.Result.{fresh_rows};
ghost use Rattle.rx_states.specs.Edges.{AreEdges};
ghost use Rattle.rx_states.specs.Matches.{TellMatches};
ghost use Rattle.rx_observe.specs.Front.{IsFront};
ghost use Rattle.rx_observe.specs.Indexes.{AreIndexesOf};
ghost use Rattle.rx_observe.specs.Inside.{HaveEdges};
ghost use Rattle.rx_observe.specs.Applied.{answer_for, changes_rows};
ghost use Rattle.rx_observe.specs.Rows.{unseen, emitted};
ghost use Rattle.rx_observe.specs.Observing.{cooled};
ghost use Rattle.rx_observe.specs.Watched.{cold, bits_at, action_at, asked_at, applied, IsReady, StaysFresh};

use crate::deciding::{Memo, decide};
use crate::front::Front;
use crate::full::rows_of;
use crate::rows::are_same_rows;
use crate::shared_rows::SharedRows;
use rx_actions::act;
use rx_collection::Collection;
use rx_diagram::{Decided, Diagram};
use rx_document::Change;
use rx_index::Index;
use rx_query::{Query, Results};
use rx_states::{Edges, Matches};
use rx_table::{Action, Counts};
use std::alloc::{AllocError, Global};
use std::marker::Model;

/// What came of a change.
#[derive(Clone, Copy, Debug, PartialEq, Eq)]
pub enum Applied {
    /// The rows are true again.
    Patched,
    /// The query has to run in full, and is cold until then.
    NeedsFull,
}

/// A query, its rows while it is warm, and the rows that were emitted last. A cold query keeps no
/// rows.
#[derive(Drop)]
pub struct Observed {
    alloc: Global,
    query: Query,
    rows: Option<Results>,
    /// Those of the rows, unless memory was wanting.
    edges: Option<Edges>,
    emitted: Option<SharedRows>,
    /// Whether the rows may differ from those emitted last.
    touched: bool,
    counts: Counts,
}

impl Model for Observed {
    ghost use Rattle.rx_observe.specs.Watched.{Watched};
    ghost use Rattle.rx_observe.specs.Codes.{watched_code};

    ghost Value = { Watched };

    ghost coded = { watched_code };

    ghost use Rattle.rx_observe.specs.Inside.{watched_in, IsKept};

    ghost view = { watched_in };

    ghost invariant = { IsKept };
}

impl Observed {
    pub fn new(alloc: Global, query: Query) -> Observed
        ensures { result ≡ cold (asked query) }
    {
        Observed {
            alloc,
            query,
            rows: None,
            edges: None,
            emitted: None,
            touched: false,
            counts: Counts::new(),
        }
    }

    pub fn query(&self) -> &Query
        ensures { asked result.now ≡ self.now.query }
    {
        &self.query
    }

    /// Its rows, unless it is cold.
    pub fn rows(&self) -> Option<&Results>
        ensures { option_map (λ rows. rows.now) result ≡ self.now.rows }
    {
        self.rows.as_ref()
    }

    /// The runs at observing and of `fill` alone aren't counted.
    pub fn counts(&self) -> &Counts
        ensures { result.now ≡ self.now.counts }
    {
        &self.counts
    }

    /// Makes a cold query warm.
    pub fn fill(&mut self, rows: Results)
        requires { self.old.rows ≡ None }
        ensures { self.new ≡ record self.old { rows = Some rows } }
    {
        self.edges = edges_of(self.alloc, &self.query, &rows);
        self.rows = Some(rows);
        self.touched = true;
    }

    /// Changes the rows as the decision table says, asking what the diagram asks. A query that has
    /// to run in full is cold then.
    pub fn apply(&mut self, diagram: &Diagram, change: &Change) -> Result<Applied, AllocError>
        requires cold { self.old.rows ≡ None → change.now.before ≡ Unknown }
        requires ready { IfSome self.old.rows (IsReady self.old.query change.now) }
        ensures answer { IfOk result (λ a. a
            ≡ answer_for (action_at self.old.query change.now self.old.rows)) }
        ensures value { OnOk result (self.new ≡ applied change.now self.old) }
        ensures fresh { OnOk result
            (StaysFresh self.old.query change.now self.old.rows self.new.rows) }
        ensures err { OnErr result (self.new ≡ self.old) }
    {
        let matches = Matches::of(&self.query, change);
        self.hear(diagram, change, matches, &mut Memo::new(change))
    }

    /// The same where it is known already what the selector says, and what was told of the change.
    pub(crate) fn hear(
        &mut self,
        diagram: &Diagram,
        change: &Change,
        matches: Matches,
        memo: &mut Memo<'_>,
    ) -> Result<Applied, AllocError>
        requires memo { memo.old.sides ≡ change.now }
        requires matches { TellMatches self.old.query change.now matches }
        requires cold { self.old.rows ≡ None → change.now.before ≡ Unknown }
        requires ready { IfSome self.old.rows (IsReady self.old.query change.now) }
        ensures answer { IfOk result (λ a. a
            ≡ answer_for (action_at self.old.query change.now self.old.rows)) }
        ensures value { OnOk result (self.new ≡ applied change.now self.old) }
        ensures fresh { OnOk result
            (StaysFresh self.old.query change.now self.old.rows self.new.rows) }
        ensures err { OnErr result (self.new ≡ self.old) }
        ensures memo { memo.new.sides ≡ memo.old.sides }
    {
        let decided = self.decide(diagram, change, matches, memo);
        self.follow(decided.action, decided.asked.count_ones(), change)
    }

    // Does what the table says of a change, for which so many questions were asked.
    fn follow(&mut self, action: Action, asked: u32, change: &Change) -> Result<Applied, AllocError>
        requires ready { IfSome self.old.rows (IsReady self.old.query change.now) }
        requires action { action ≡ action_at self.old.query change.now self.old.rows }
        requires asked { asked ≡ asked_at self.old.query change.now self.old.rows }
        ensures answer { IfOk result (λ a. a
            ≡ answer_for (action_at self.old.query change.now self.old.rows)) }
        ensures value { OnOk result (self.new ≡ applied change.now self.old) }
        ensures fresh { OnOk result
            (StaysFresh self.old.query change.now self.old.rows self.new.rows) }
        ensures err { OnErr result (self.new ≡ self.old) }
    {
        if is_full(action) {
            self.rows = None;
            self.counts.count(action, asked);
            return Ok(Applied::NeedsFull);
        }
        self.touched |= changes_rows(action);
        patch(
            self.alloc,
            action,
            &self.query,
            change,
            &mut self.rows,
            &mut self.edges,
        )?;
        self.counts.count(action, asked);
        Ok(Applied::Patched)
    }

    fn decide(
        &self,
        diagram: &Diagram,
        change: &Change,
        matches: Matches,
        memo: &mut Memo<'_>,
    ) -> Decided
        requires memo { memo.old.sides ≡ change.now }
        requires matches { TellMatches self.now.query change.now matches }
        requires cold { self.now.rows ≡ None → change.now.before ≡ Unknown }
        requires ready { IfSome self.now.rows (IsReady self.now.query change.now) }
        ensures action { result.action ≡ action_at self.now.query change.now self.now.rows }
        ensures asked { result.asked ≡ asked_of (bits_at self.now.query change.now self.now.rows) }
        ensures memo { memo.new.sides ≡ memo.old.sides }
    {
        match &self.rows {
            Some(rows) => {
                let edges = self.edges.as_ref();
                decide(diagram, &self.query, change, rows, edges, matches, memo)
            }
            None => {
                let none = Results::new(self.alloc);
                decide(diagram, &self.query, change, &none, None, matches, memo)
            }
        }
    }

    /// A copy of the rows, where they differ from those emitted last. Where they don't it is known
    /// from then on.
    pub(crate) fn unseen(&mut self) -> Result<Option<SharedRows>, AllocError>
        ensures same { self.new ≡ self.old }
        ensures copy { IfOk result (λ copy. copy ≡ unseen self.old.rows self.old.emitted) }
    {
        if !self.touched {
            return Ok(None);
        }
        let Some(rows) = &self.rows else {
            return Ok(None);
        };
        if was_emitted(rows, &self.emitted) {
            self.touched = false;
            return Ok(None);
        }
        Ok(Some(SharedRows::new(self.alloc, rows)?))
    }

    /// Takes its rows as emitted, given a copy of them.
    pub(crate) fn emit(&mut self, copy: SharedRows)
        requires { unseen self.old.rows self.old.emitted ≡ Some copy }
        ensures { self.new ≡ emitted self.old }
    {
        self.emitted = Some(copy);
        self.touched = false;
    }

    /// The rows that it has over a collection, by its front where that tells them.
    pub(crate) fn run(
        &mut self,
        collection: &Collection,
        indexes: &[Index],
        front: &mut Front,
    ) -> Result<Results, AllocError>
        requires keyed { self.old.query.primary ≡ collection.now.schema.primary }
        requires indexed { AreIndexesOf collection.now indexes.now }
        requires front { IsFront self.old.query collection.now.documents front.old }
        ensures same { self.new ≡ self.old }
        ensures rows { IfOk result
            (λ rows. rows ≡ fresh_rows self.old.query collection.now.documents) }
        ensures front { OnOk result (IsFront self.old.query collection.now.documents front.new) }
    {
        rows_of(self.alloc, collection, indexes, &mut self.query, front)
    }

    /// Makes it cold.
    pub(crate) fn cool(&mut self)
        ensures { self.new ≡ cooled self.old }
    {
        self.rows = None;
    }
}

fn was_emitted(rows: &Results, last: &Option<SharedRows>) -> bool
    ensures { result ≡ is_none (unseen (Some rows.now) last.now) }
{
    match last {
        Some(last) => are_same_rows(rows, last.as_results()),
        None => false,
    }
}

fn is_full(action: Action) -> bool
    ensures { result ≡ is_full action }
{
    matches!(action, Action::RunFullQueryAgain)
}

fn changes_rows(action: Action) -> bool
    ensures { result ≡ changes_rows action }
{
    !matches!(action, Action::DoNothing)
}

// The edges of rows, unless memory is wanting.
fn edges_of(alloc: Global, query: &Query, rows: &Results) -> Option<Edges>
    ensures { ForSome result (AreEdges (asked query.now).sorts rows.now) }
{
    match Edges::of(alloc, query, rows) {
        Ok(edges) => Some(edges),
        Err(_) => None,
    }
}

// Does to the rows, if there are any, what another action says than to run in full, and keeps their
// edges.
fn patch(
    alloc: Global,
    action: Action,
    query: &Query,
    change: &Change,
    rows: &mut Option<Results>,
    edges: &mut Option<Edges>,
) -> Result<(), AllocError>
    requires known { action ≢ RunFullQueryAgain }
    requires there { IfSome rows.old (AreThere action change.now) }
    requires edges { HaveEdges (asked query.now).sorts rows.old edges.old }
    ensures ok { OnOk result
        (rows.new ≡ option_map (after action (asked query.now) change.now) rows.old) }
    ensures err { OnErr result (rows.new ≡ rows.old) }
    ensures edges { HaveEdges (asked query.now).sorts rows.new edges.new }
{
    if !changes_rows(action) {
        return Ok(());
    }
    *edges = None;
    let Some(rows) = rows else {
        return Ok(());
    };
    act(alloc, action, query, change, rows)?;
    *edges = edges_of(alloc, query, rows);
    Ok(())
}
