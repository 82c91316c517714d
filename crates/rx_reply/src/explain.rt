// The counts of an observed query's actions.
ghost use Rattle.std.specs.Prelude.{◌≡◌, ◌++◌, OnOk};
ghost use Rattle.json.specs.Tree.{json_tokens};
ghost use Rattle.serde_json.specs.Data.{object};
ghost use Rattle.serde_json.specs.Written.{outline};
ghost use Rattle.rx_reply.specs.Explain.{actions_by_name, count_of, count_data, counted_members, actions_data, explain_data};
ghost use Rattle.rx_reply.specs.Writing.{member_tokens};

use crate::writing::{put_number, put_text};
use json::Writer;
use rx_table::{Action, Counts};
use std::alloc::AllocError;

// What each action is called, in the order of the names.
const NAMES: [(&str, Action); 15] = [
    ("doNothing", Action::DoNothing),
    ("insertAtSortPosition", Action::InsertAtSortPosition),
    (
        "insertAtSortPositionRemoveLast",
        Action::InsertAtSortPositionRemoveLast,
    ),
    ("insertFirst", Action::InsertFirst),
    ("insertLast", Action::InsertLast),
    ("removeExisting", Action::RemoveExisting),
    (
        "removeExistingAndInsertAtSortPosition",
        Action::RemoveExistingAndInsertAtSortPosition,
    ),
    ("removeFirstInsertFirst", Action::RemoveFirstInsertFirst),
    ("removeFirstInsertLast", Action::RemoveFirstInsertLast),
    ("removeFirstItem", Action::RemoveFirstItem),
    ("removeLastInsertFirst", Action::RemoveLastInsertFirst),
    ("removeLastInsertLast", Action::RemoveLastInsertLast),
    ("removeLastItem", Action::RemoveLastItem),
    ("replaceExisting", Action::ReplaceExisting),
    ("runFullQueryAgain", Action::RunFullQueryAgain),
];

pub(crate) fn put_explain(
    writer: &mut Writer,
    number: u64,
    counts: &Counts,
) -> Result<(), AllocError>
    ensures tokens { OnOk result (writer.new.tokens
        ≡ writer.old.tokens ++ json_tokens (outline (explain_data number counts.now))) }
    ensures before { writer.new.before ≡ writer.old.before }
{
    writer.begin_object()?;
    writer.key("actions")?;
    put_actions(writer, counts)?;
    put_number(writer, "asked", counts.asked)?;
    put_number(writer, "changes", counts.changes)?;
    put_number(writer, "full", counts.full)?;
    put_number(writer, "line", number)?;
    put_text(writer, "ok", "explain")?;
    writer.end_object()
}

// The object of the counts above 0.
#[tactic(auto, unfolding(crate::specs::Explain::named_actions))]
fn put_actions(writer: &mut Writer, counts: &Counts) -> Result<(), AllocError>
    ensures tokens { OnOk result (writer.new.tokens
        ≡ writer.old.tokens ++ json_tokens (outline (actions_data counts.now))) }
    ensures before { writer.new.before ≡ writer.old.before }
{
    put_table(writer, &NAMES, counts)
}

// Those of the actions of a table.
fn put_table(
    writer: &mut Writer,
    table: &[(&str, Action)],
    counts: &Counts,
) -> Result<(), AllocError>
    ensures tokens { OnOk result (writer.new.tokens ≡ writer.old.tokens
        ++ json_tokens (outline
        (object (counted_members counts.now (actions_by_name table.now))))) }
    ensures before { writer.new.before ≡ writer.old.before }
{
    writer.begin_object()?;
    for (name, action) in table {
        put_count(writer, name, count_of(counts, *action))?;
    }
    writer.end_object()
}

fn count_of(counts: &Counts, action: Action) -> u64
    ensures { result ≡ count_of counts.now action }
{
    counts.by_action[action as usize]
}

// A count, unless it is 0.
fn put_count(writer: &mut Writer, name: &str, count: u64) -> Result<(), AllocError>
    ensures tokens { OnOk result (writer.new.tokens
        ≡ writer.old.tokens ++ member_tokens name.now (count_data count)) }
    ensures before { writer.new.before ≡ writer.old.before }
{
    if count > 0 {
        put_number(writer, name, count)?;
    }
    Ok(())
}
