ghost use Rattle.std.specs.Prelude.{◌≡◌, ◌++◌, IfOk};
ghost use Rattle.rx_record.specs.Content.{migration, content_bytes, content_of};
ghost use Rattle.rx_record.specs.Writable.{ShortReadsBack};

use crate::kinds::MIGRATION;
use crate::step_list::put_steps;
use crate::writing::put_text;
use rx_migrate::Steps;
use rx_value::RxText;
use std::alloc::AllocError;

pub(crate) fn put_migration(
    out: &mut Vec<u8>,
    name: &RxText,
    schema: &RxText,
    steps: &Steps,
) -> Result<(), AllocError>
    ensures bytes { IfOk result (λ _. out.new.items ≡ out.old.items
        ++ content_bytes (migration name.now schema.now steps.now)) }
    ensures back { IfOk result (λ _. ShortReadsBack content_bytes content_of
        (migration name.now schema.now steps.now)) }
{
    out.push(MIGRATION)?;
    put_text(out, name.as_str())?;
    put_text(out, schema.as_str())?;
    put_steps(out, steps)
}
