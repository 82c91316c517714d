// From a line to what is kept of its JSON, token by token. What has no place in a message is
// checked and let go at once, so that it takes no memory.
ghost use Rattle.std.specs.Prelude.{◌≡◌, ◌<◌, ◌++◌, ◌∷◌, [], nat_lt, length, option_map, Some, None, Err, IfOk, OnOk, if◌then◌else◌};
ghost use Rattle.json.specs.Json.{value, items, members};
ghost use Rattle.serde_json.specs.Data.{Data, Items, Members, no_members, put};
ghost use Rattle.serde_json.specs.Read.{of_json, of_items, of_members, converted, read as read_text};
ghost use Rattle.serde_json.specs.View.{view, items_view, members_view};
ghost use Rattle.rx_wire.specs.Kept.{message_depth, room, kept, kept_items, kept_members, lesser, with_name};

use crate::known::{below, is_form_name, is_known};
use crate::number::number_of;
use crate::states::MOST_STATES;
use json::{Invalid, Reader, Scratch, Token};
use rx_schema::Schema;
use serde_json::{Map, Value as Json};
use std::alloc::{AllocError, AllocFailed, Global};
use std::cmp::Ordering;

// Arrays and objects nest no deeper, or the text is refused.
const DEEPEST: usize = 127;

// The levels of a message, and that of its list.
const LEVELS: usize = 4;

const LIST_LEVEL: usize = 3;

/// Why a text was not read.
#[derive(Debug, Drop)]
pub(crate) enum Unread {
    Json,
    Memory,
}

impl From<Invalid> for Unread {
    ghost use Rattle.std.specs.Prelude.{◌≡◌};
    ghost use Rattle.rx_wire.specs.declared.kept.Unread.TheVariants.{Json};

    ghost from_gives = { λ _ e. e ≡ Json };

    fn from(_invalid: Invalid) -> Unread {
        Unread::Json
    }
}

impl From<AllocError> for Unread {
    ghost use Rattle.std.specs.Prelude.{◌≡◌};
    ghost use Rattle.rx_wire.specs.declared.kept.Unread.TheVariants.{Memory};

    ghost from_gives = { λ _ e. e ≡ Memory };

    fn from(_refused: AllocError) -> Unread {
        Unread::Memory
    }
}

impl<T: Drop> From<AllocFailed<T>> for Unread {
    ghost use Rattle.std.specs.Prelude.{◌≡◌};
    ghost use Rattle.rx_wire.specs.declared.kept.Unread.TheVariants.{Memory};

    ghost from_gives = { λ _ e. e ≡ Memory };

    fn from(_refused: AllocFailed<T>) -> Unread {
        Unread::Memory
    }
}

/// What is kept of the value that a text is.
pub(crate) fn read_kept(alloc: Global, schema: &Schema, text: &str) -> Result<Json, Unread>
    ensures ok { IfOk result
        (λ v. (d : Data) × (read_text text.now ≡ Some d)
        × (view v ≡ kept schema.now message_depth d)) }
    ensures err { result ≡ Err Unread.Json → read_text text.now ≡ None }
{
    let mut scratch = Scratch::new(alloc);
    let mut reader = Reader::new(text, &mut scratch)?;
    let json = read(alloc, schema, &mut reader, DEEPEST, LEVELS)?;
    if reader.next().is_some() {
        return Err(Unread::Json);
    }
    Ok(json)
}

#[cycle(read)]
fn read(
    alloc: Global,
    schema: &Schema,
    reader: &mut Reader<'_>,
    depth: usize,
    levels: usize,
) -> Result<Json, Unread>
    ensures ok { IfOk result
        (λ v. (d : Data) × (converted of_json (value depth reader.old) ≡ Some (d, reader.new))
        × (view v ≡ kept schema.now levels d)) }
    ensures shorter { OnOk result (length reader.new < length reader.old) }
    ensures err { result ≡ Err Unread.Json → converted of_json (value depth reader.old) ≡ None }
{
    let token = reader.next().ok_or(Invalid)?;
    match token {
        Token::String(text) => Ok(Json::String(String::from_str(alloc, text)?)),
        Token::Number(text) => match number_of(text) {
            Some(number) => Ok(Json::Number(number)),
            None => Err(Unread::Json),
        },
        Token::Bool(b) => Ok(Json::Bool(b)),
        Token::Null => Ok(Json::Null),
        Token::EndObject | Token::EndArray | Token::Key(_) | Token::Bad => Err(Unread::Json),
        Token::BeginArray => {
            if depth == 0 {
                return Err(Unread::Json);
            }
            let most = room(levels);
            let below = levels.saturating_sub(1);
            let items = read_items(alloc, schema, reader, depth - 1, most, below)?;
            Ok(Json::Array(items))
        }
        Token::BeginObject => {
            if depth == 0 {
                return Err(Unread::Json);
            }
            let members = read_members(alloc, schema, reader, depth - 1, levels)?;
            Ok(Json::Object(members))
        }
    }
}

// How many items of a list are kept that has so many levels left.
fn room(levels: usize) -> usize
    ensures { result ≡ room levels }
{
    if levels == LIST_LEVEL {
        MOST_STATES + 1
    } else {
        0
    }
}

// The first items of an array, at most so many of them.
#[cycle(read)]
fn read_items(
    alloc: Global,
    schema: &Schema,
    reader: &mut Reader<'_>,
    depth: usize,
    most: usize,
    levels: usize,
) -> Result<Vec<Json>, Unread>
    ensures ok { IfOk result
        (λ v. (ds : Items)
        × (converted of_items (items (value depth) (length reader.old) reader.old)
        ≡ Some (ds, reader.new))
        × (items_view v.items ≡ kept_items schema.now most levels ds)) }
    ensures shorter { OnOk result (length reader.new < length reader.old) }
    ensures err { result ≡ Err Unread.Json
        → converted of_items (items (value depth) (length reader.old) reader.old) ≡ None }
{
    let mut found = Vec::new(alloc);
    'items: while !reader.take_end_array() {
        let item = read(alloc, schema, reader, depth, levels)?;
        keep_item(&mut found, item, most)?;
    }
    Ok(found)
}

// The members of an object that have a known name, and of the first other one the name.
#[cycle(read)]
fn read_members<'a>(
    alloc: Global,
    schema: &Schema,
    reader: &mut Reader<'a>,
    depth: usize,
    levels: usize,
) -> Result<Map<String, Json>, Unread>
    ensures ok { IfOk result
        (λ m. (ms : Members)
        × (converted (λ read. of_members read no_members)
        (members (value depth) (length reader.old) reader.old)
        ≡ Some (ms, reader.new))
        × (members_view m.entries ≡ kept_members schema.now levels ms)) }
    ensures shorter { OnOk result (length reader.new < length reader.old) }
    ensures err { result ≡ Err Unread.Json
        → converted (λ read. of_members read no_members)
        (members (value depth) (length reader.old) reader.old) ≡ None }
{
    let mut found = Map::new(alloc);
    let mut other = None;
    'members: while let Some(name) = reader.next_key()? {
        let of_form = is_form_name(levels, name);
        let known = is_known(schema, levels, name, of_form);
        let member = read(alloc, schema, reader, depth, below(levels, of_form))?;
        keep_member(alloc, &mut found, name, member, known)?;
        other = first_other(known, name, other);
    }
    name_other(alloc, &mut found, other)?;
    Ok(found)
}

// Puts an item behind the others, where there is room for it.
fn keep_item(found: &mut Vec<Json>, item: Json, most: usize) -> Result<(), AllocError>
    ensures { OnOk result (found.new.items
        ≡ (if nat_lt (length found.old.items) most then found.old.items ++ item ∷ []
        else found.old.items)) }
{
    if found.len() < most {
        found.push(item)?;
    }
    Ok(())
}

// Puts a member among the others, where its name is known.
fn keep_member(
    alloc: Global,
    found: &mut Map<String, Json>,
    name: &str,
    member: Json,
    known: bool,
) -> Result<(), AllocError>
    ensures { OnOk result (members_view found.new.entries
        ≡ (if known then put name.now (view member) (members_view found.old.entries)
        else members_view found.old.entries)) }
{
    if known {
        let key = String::from_str(alloc, name)?;
        drop(found.insert(key, member)?);
    }
    Ok(())
}

// The first name that isn't known, where one more name comes.
fn first_other<'a>(known: bool, name: &'a str, other: Option<&'a str>) -> Option<&'a str>
    ensures { option_map (λ k. k.now) result
        ≡ (if known then option_map (λ k. k.now) other.entry
        else Some (lesser name.now (option_map (λ k. k.now) other.entry))) }
{
    if known {
        return other;
    }
    match other {
        None => Some(name),
        Some(first) => match name.cmp(first) {
            Ordering::Less => Some(name),
            Ordering::Equal | Ordering::Greater => Some(first),
        },
    }
}

// Puts that name among the members, so that it is told.
fn name_other(
    alloc: Global,
    found: &mut Map<String, Json>,
    other: Option<&str>,
) -> Result<(), AllocError>
    ensures { OnOk result (members_view found.new.entries
        ≡ with_name (option_map (λ k. k.now) other.entry) (members_view found.old.entries)) }
{
    if let Some(name) = other {
        let key = String::from_str(alloc, name)?;
        drop(found.insert(key, Json::Null)?);
    }
    Ok(())
}
