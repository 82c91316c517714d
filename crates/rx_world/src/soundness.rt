// Whether replications lose nothing.
ghost use Rattle.std.specs.Bool.{Decides};
ghost use Rattle.std.specs.Ordering.{is_lt};
ghost use Rattle.std.specs.Prelude.{◌≡◌, Some, option_map};
ghost use Rattle.rx_value.specs.Named.{by_name, named};
ghost use Rattle.rx_collection.specs.Since.{place_of};
ghost use Rattle.rx_document.specs.Place.{place_cmp};
ghost use Rattle.rx_replication.specs.Known.{is_state};
ghost use Rattle.rx_replication.specs.Sound.{AreKnownUpTo, HoldKnown, IsSoundSide, Reach};
ghost use Rattle.rx_world.specs.Holders.{AreWhole, holders_of, world_in};
ghost use Rattle.rx_world.specs.Sound.{IsSoundIn, IsSoundWith, IsSoundWorld};

use crate::names::find;
use crate::parts::Parts;
use crate::replication::Replication;
use indexmap::IndexMap;
use rx_collection::{Collection, Holder};
use rx_document::{Place, Stored};
use rx_meta::Meta;
use rx_record::MasterName;

pub(crate) fn is_sound<H: Holder>(parts: &Parts<H>) -> bool
    requires { AreWhole H.held H.is_broken parts.now.holders.entries }
    ensures { Decides result (IsSoundWorld (world_in H.held (holders_of parts.now))) }
{
    for replication in parts.replications.values() {
        if !is_sound_in(&parts.holders, replication) {
            return false;
        }
    }
    true
}

fn is_sound_in<H: Holder>(holders: &IndexMap<String, H>, replication: &Replication) -> bool
    requires { AreWhole H.held H.is_broken holders.now.entries }
    ensures { Decides result (IsSoundIn (by_name H.held holders.now.entries) replication.now) }
{
    match find(holders, replication.fork.as_str()) {
        Some(fork) => is_sound_with(
            holders,
            &replication.master,
            fork.collection(),
            &replication.side,
        ),
        None => true,
    }
}

// Whether a fork and what it knows are sound with the master.
fn is_sound_with<H: Holder>(
    holders: &IndexMap<String, H>,
    master: &MasterName,
    fork: &Collection,
    side: &Meta,
) -> bool
    requires { AreWhole H.held H.is_broken holders.now.entries }
    ensures { Decides result
        (IsSoundWith (by_name H.held holders.now.entries) master.now fork.now side.now) }
{
    match master {
        MasterName::Local(name) => match find(holders, name.as_str()) {
            Some(master) => {
                is_sound_side(fork, side, side.up())
                    && is_sound_side(master.collection(), side, side.down())
            }
            None => true,
        },
        MasterName::Port(_) => is_sound_side(fork, side, side.up()),
    }
}

// Whether a collection, the states that are known and a checkpoint are a sound side.
fn is_sound_side(collection: &Collection, side: &Meta, checkpoint: Option<&Place>) -> bool
    ensures { Decides result (IsSoundSide collection.now.documents side.now.known
        (option_map (λ p. p.now) checkpoint.entry)) }
{
    if !holds_known(collection, side) {
        return false;
    }
    match checkpoint {
        Some(place) => reaches(collection, place) && are_known_up_to(collection, side, place),
        None => true,
    }
}

// Whether each known key is a key of the collection.
fn holds_known(collection: &Collection, side: &Meta) -> bool
    ensures { Decides result (HoldKnown collection.now.documents side.now.known) }
{
    side.all()
        .all(|state| collection.get(state.key.as_str()).is_some())
}

// Whether the place isn't above the last one.
fn reaches(collection: &Collection, place: &Place) -> bool
    ensures { Decides result (Reach collection.now.documents (Some place.now)) }
{
    collection.all().any(|held| !is_below(held, place))
}

// Whether each document at or below the place is known with its state.
fn are_known_up_to(collection: &Collection, side: &Meta, place: &Place) -> bool
    ensures { Decides result
        (AreKnownUpTo collection.now.documents side.now.known (Some place.now)) }
{
    collection
        .all()
        .all(|held| is_above(held, place) || is_known(side, held))
}

fn is_below(held: &Stored, place: &Place) -> bool
    ensures { result ≡ is_lt (place_cmp (place_of held.now) place.now) }
{
    held.lwt
        .cmp(&place.lwt)
        .then(held.state.key.as_str().cmp(&place.id.as_str()))
        .is_lt()
}

fn is_above(held: &Stored, place: &Place) -> bool
    ensures { result ≡ is_lt (place_cmp place.now (place_of held.now)) }
{
    place
        .lwt
        .cmp(&held.lwt)
        .then(place.id.as_str().cmp(&held.state.key.as_str()))
        .is_lt()
}

fn is_known(side: &Meta, held: &Stored) -> bool
    ensures { result ≡ is_state (named side.now.known held.now.state.key) held.now.state }
{
    match side.known(held.state.key.as_str()) {
        Some(known) => *known == held.state,
        None => false,
    }
}
