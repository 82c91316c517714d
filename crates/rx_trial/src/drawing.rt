// What a script draws.
ghost use Rattle.std.specs.Prelude.{◌≡◌, ◌+◌, ◌<◌};
ghost use Rattle.rx_trial.specs.Drawing.{draw, happening_of, line, line_by, linked_turn, patch, remove, stirred, tick, upsert};

use crate::line::{Happening, Line, Side};

const MULTIPLIER: u64 = 6_364_136_223_846_793_005;

const INCREMENT: u64 = 1_442_695_040_888_963_407;

/// A number below `most`, by the state that it stirs.
fn draw(state: &mut u64, most: u64) -> u64
    requires { 0 < most }
    ensures drawn { result ≡ draw most state.old }
    ensures below { result < most }
    ensures state { state.new ≡ stirred state.old }
{
    *state = stirred(*state);
    (*state >> 33) % most
}

fn stirred(state: u64) -> u64
    ensures { result ≡ stirred state }
{
    state.wrapping_mul(MULTIPLIER).wrapping_add(INCREMENT)
}

/// The next line.
pub(crate) fn line(state: &mut u64) -> Line
    ensures line { result ≡ (line state.old).gives }
    ensures state { state.new ≡ (line state.old).state }
{
    let kind = draw(state, 16);
    line_by(kind, state)
}

fn line_by(kind: u64, state: &mut u64) -> Line
    ensures line { result ≡ (line_by kind state.old).gives }
    ensures state { state.new ≡ (line_by kind state.old).state }
{
    match kind {
        0..=5 => upsert(Side::Fork, state),
        6..=8 => upsert(Side::Master, state),
        9 => remove(Side::Fork, state),
        10 => remove(Side::Master, state),
        11 => patch(state),
        12 => tick(state),
        13 => Line::Restart,
        14 => linked_turn(state),
        _ => Line::Turn,
    }
}

fn upsert(side: Side, state: &mut u64) -> Line
    ensures line { result ≡ (upsert side state.old).gives }
    ensures state { state.new ≡ (upsert side state.old).state }
{
    let key = draw(state, 50);
    let n = draw(state, 100);
    let on = draw(state, 2) == 1;
    Line::Upsert { side, key, n, on }
}

fn remove(side: Side, state: &mut u64) -> Line
    ensures line { result ≡ (remove side state.old).gives }
    ensures state { state.new ≡ (remove side state.old).state }
{
    let key = draw(state, 50);
    Line::Remove { side, key }
}

fn patch(state: &mut u64) -> Line
    ensures line { result ≡ (patch state.old).gives }
    ensures state { state.new ≡ (patch state.old).state }
{
    let key = draw(state, 50);
    let n = draw(state, 100);
    Line::Patch { key, n }
}

fn tick(state: &mut u64) -> Line
    ensures line { result ≡ (tick state.old).gives }
    ensures state { state.new ≡ (tick state.old).state }
{
    let at = draw(state, 1_000_000);
    Line::Tick { at }
}

fn linked_turn(state: &mut u64) -> Line
    ensures line { result ≡ (linked_turn state.old).gives }
    ensures state { state.new ≡ (linked_turn state.old).state }
{
    let batch = 1 + draw(state, 5);
    let first = happening_of(draw(state, 6));
    let second = happening_of(draw(state, 6));
    let third = happening_of(draw(state, 6));
    Line::LinkedTurn {
        batch,
        first,
        second,
        third,
    }
}

fn happening_of(drawn: u64) -> Happening
    ensures { result ≡ happening_of drawn }
{
    match drawn {
        0 | 1 => Happening::Fine,
        2 => Happening::LosesRequest,
        3 => Happening::LosesReply,
        4 => Happening::Twice,
        _ => Happening::Stale,
    }
}
