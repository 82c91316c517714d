// The program but for the system: a command with the handlers and hooks that lines may name.
ghost use Rattle.std.specs.Prelude.{◌≡◌, IfOk, OnErr, codes};
ghost use Rattle.rx_engine.specs.Opening.{host_with};
ghost use Rattle.rx_handler.specs.Resolve.{resolve};
ghost use Rattle.rx_handler.specs.Shown.{kinds_of};
ghost use Rattle.rx_update.specs.Hooked.{hooked as becomes};
ghost use Rattle.rx_words.specs.Words.{command_of};
ghost use Rattle.rx_top.specs.Known.{known, known_hooks};
ghost use Rattle.rx_top.specs.Program.{Plays, reach};
ghost use Rattle.rx_top.specs.Stops.{EndsWith, stop_line};

use crate::top::rx;
use rx_disk::Disk;
use rx_handler::{Handler, HandlerFault, HandlerKind, Handlers, resolved};
use rx_outside::{Clock, Dial, Listen, Sink, Source, write_all};
use rx_update::{Hook, HookFault, HookKind, Hooks, hooked};
use rx_value::{RxText, State};
use rx_words::Words;
use std::alloc::{AllocError, Global};

const HANDLERS: [(&str, HandlerKind); 4] = [
    ("master_wins", HandlerKind::MasterWins),
    ("fork_wins", HandlerKind::ForkWins),
    ("greater", HandlerKind::Greater),
    ("join", HandlerKind::Join),
];

const HOOKS: [(&str, HookKind); 3] = [
    ("count", HookKind::Count),
    ("zero", HookKind::Zero),
    ("lock", HookKind::Lock),
];

/// Runs a command with the handlers and hooks that lines may name, and answers its status, as `rx`
/// does. The handlers are `master_wins`, `fork_wins`, `greater` and `join`, the hooks `count`,
/// `zero` and `lock`. Where memory is wanting to make them the status is 6, and the line that says
/// so is written.
pub fn program<S: Source, K: Sink, D: Disk, L: Listen, N: Dial, C: Clock, E: Disk>(
    alloc: Global,
    words: &Words,
    source: &mut S,
    out: &mut K,
    disk: &mut D,
    door: &mut L,
    dial: &mut N,
    clock: &mut C,
    copy: &mut E,
) -> u8
    ensures { Plays S.Source K.Sink D.Disk L.Listen L.W.tells N.Dial N.W.tells C.Clock E.Disk
        known result out.old out.new
        (reach source.old disk.old door.old dial.old clock.old copy.old)
        (reach source.new disk.new door.new dial.new clock.new copy.new)
        (command_of words.now.words.items) }
{
    match with_handlers(alloc, words, source, out, disk, door, dial, clock, copy) {
        Ok(status) => status,
        // The names differ, so want of memory alone is left.
        Err(_) => write_memory(out),
    }
}

// Writes that memory is wanting, and answers its status.
fn write_memory<K: Sink>(out: &mut K) -> u8
    ensures status { result ≡ 6 }
    ensures line { EndsWith K.tells (K.faults out.old) (K.faults out.new) (K.written out.old)
        (K.written out.new) (stop_line (codes "memory")) }
{
    let _ = write_all(out, b"{\"stop\":\"memory\"}\n");
    6
}

// Runs the command with the handlers. They are made where they are used: what makes a closure and
// gives it away would hide what it does.
fn with_handlers<S: Source, K: Sink, D: Disk, L: Listen, N: Dial, C: Clock, E: Disk>(
    alloc: Global,
    words: &Words,
    source: &mut S,
    out: &mut K,
    disk: &mut D,
    door: &mut L,
    dial: &mut N,
    clock: &mut C,
    copy: &mut E,
) -> Result<u8, HandlerFault>
    ensures ok { IfOk result (λ status.
        Plays S.Source K.Sink D.Disk L.Listen L.W.tells N.Dial N.W.tells C.Clock E.Disk
        known status out.old out.new
        (reach source.old disk.old door.old dial.old clock.old copy.old)
        (reach source.new disk.new door.new dial.new clock.new copy.new)
        (command_of words.now.words.items)) }
    ensures silent { OnErr result (out.new ≡ out.old) }
    ensures untouched { OnErr result
        (reach source.new disk.new door.new dial.new clock.new copy.new
        ≡ reach source.old disk.old door.old dial.old clock.old copy.old) }
{
    let mut handlers = Handlers::new(alloc);
    for (name, kind) in HANDLERS {
        let call = Box::new(
            alloc,
            move |alloc: Global, field: &str, real: &State, new: &State|
                ensures { IfOk result (λ s. s ≡ resolve kind field.now real.now new.now) }
            { resolved(alloc, kind, field, real, new) },
        );
        match call {
            Ok(call) => handlers.add(Handler::new(RxText::new(alloc, name)?, kind, call))?,
            Err(refused) => return Err(AllocError::from(refused).into()),
        }
    }
    match with_hooks(
        alloc, words, source, out, disk, door, dial, clock, &handlers, copy,
    ) {
        Ok(status) => Ok(status),
        Err(_) => Err(AllocError.into()),
    }
}

// And with the hooks.
fn with_hooks<S: Source, K: Sink, D: Disk, L: Listen, N: Dial, C: Clock, E: Disk>(
    alloc: Global,
    words: &Words,
    source: &mut S,
    out: &mut K,
    disk: &mut D,
    door: &mut L,
    dial: &mut N,
    clock: &mut C,
    handlers: &Handlers,
    copy: &mut E,
) -> Result<u8, HookFault>
    ensures ok { IfOk result (λ status.
        Plays S.Source K.Sink D.Disk L.Listen L.W.tells N.Dial N.W.tells C.Clock E.Disk
        (host_with (kinds_of handlers.now) known_hooks) status out.old out.new
        (reach source.old disk.old door.old dial.old clock.old copy.old)
        (reach source.new disk.new door.new dial.new clock.new copy.new)
        (command_of words.now.words.items)) }
    ensures silent { OnErr result (out.new ≡ out.old) }
    ensures untouched { OnErr result
        (reach source.new disk.new door.new dial.new clock.new copy.new
        ≡ reach source.old disk.old door.old dial.old clock.old copy.old) }
{
    let mut hooks = Hooks::new(alloc);
    for (name, kind) in HOOKS {
        let call = Box::new(
            alloc,
            move |alloc: Global, field: &str, state: &State|
                ensures { IfOk result (λ s. s ≡ becomes kind field.now state.now) }
            { hooked(alloc, kind, field, state) },
        );
        match call {
            Ok(call) => hooks.add(Hook::new(RxText::new(alloc, name)?, kind, call))?,
            Err(refused) => return Err(AllocError::from(refused).into()),
        }
    }
    Ok(rx(
        alloc, words, source, out, disk, door, dial, clock, handlers, &hooks, copy,
    ))
}
