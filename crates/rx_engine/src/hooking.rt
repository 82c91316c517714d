// The line that attaches a hook.
ghost use Rattle.std.specs.Prelude.{◌≡◌, filter, length, IfOk, option_map};
ghost use Rattle.std.specs.Str.{bytes_eq};
ghost use Rattle.rx_value.specs.Due.{DueBy};
ghost use Rattle.rx_value.specs.Named.{named};
ghost use Rattle.rx_session.specs.Doing.{MayDo};
ghost use Rattle.rx_engine.specs.Hooking.{hook_line, hooks_in, takes};
ghost use Rattle.rx_engine.specs.Shown.{doing_of, outcome_of};
ghost use Rattle.rx_writes.specs.declared.fault.Fault.TheVariants.{Memory};

use crate::lookup::find_collection;
use crate::outcome::{LineDoing, Outcome};
use rx_reply::{Refusal, Reply};
use rx_schema::Schema;
use rx_session::{Doing, Session};
use rx_update::{Attached, HookKind, MAX_HOOKS, When};
use rx_value::{Kind, RxText};
use rx_writes::Fault;
use std::alloc::Global;

/// Has a hook stand before such writes of a collection, behind those that do.
pub(crate) fn hook_line<'a>(
    alloc: Global,
    session: &'a Session,
    coll: RxText,
    when: When,
    hook: RxText,
    field: RxText,
) -> Result<Outcome<'a>, Fault>
    ensures exact { DueBy Memory outcome_of result (hook_line coll when hook field session.now) }
    ensures may { IfOk result (λ p. MayDo (doing_of p.doing) session.now) }
{
    let collection = find_collection(alloc, session, &coll)?;
    let hooks = session.hooks();
    let Some(kind) = find_kind(hooks.known.as_slice(), &hook) else {
        return Err(Fault::Refused(Refusal::NoHook));
    };
    if !takes(kind, collection.schema(), &field) {
        return Err(Fault::Refused(Refusal::NoHook));
    }
    if count_in(&coll, hooks.attached.as_slice()) >= MAX_HOOKS {
        return Err(Fault::Refused(Refusal::TooMany));
    }
    let attached = Attached {
        coll,
        when,
        hook,
        kind,
        field,
    };
    Ok(Outcome {
        doing: LineDoing::InSession(Doing::Attach(attached)),
        reply: Reply::Hook,
    })
}

fn find_kind(known: &[(RxText, HookKind)], name: &RxText) -> Option<HookKind>
    ensures { result ≡ named known.now name.now }
{
    for (hook, kind) in known {
        if name == hook {
            return Some(*kind);
        }
    }
    None
}

// Whether a hook of that kind goes by the field.
fn takes(kind: HookKind, schema: &Schema, field: &RxText) -> bool
    ensures { result ≡ takes kind schema.now field.now }
{
    matches!(
        (kind, schema.kinds().kind(field.as_str())),
        (HookKind::Lock, Some(Kind::Flag)) | (HookKind::Count | HookKind::Zero, Some(Kind::Int))
    )
}

fn count_in(coll: &RxText, attached: &[Attached]) -> usize
    ensures { result ≡ length (hooks_in coll.now attached.now) }
{
    attached.iter().filter(|one| *coll == one.coll).count()
}

/// The hooks that stand before writes.
pub(crate) fn attached_in(session: &Session) -> &[Attached]
    ensures { result.now ≡ session.now.hooks.attached }
{
    session.hooks().attached.as_slice()
}
