// The names that the objects of a message may have, each at its place.
ghost use Rattle.std.specs.Prelude.{◌≡◌, ◌-◌, ◌||◌, if◌then◌else◌};
ghost use Rattle.rx_value.specs.Form.{texts, is_among};
ghost use Rattle.rx_wire.specs.Kept.{form_names, is_field};

use rx_schema::Schema;
use rx_value::MARK;

/// Whether an object that has so many levels left has a member of that name by its form.
pub(crate) fn is_form_name(levels: usize, name: &str) -> bool
    ensures { result ≡ is_among (form_names levels) name.now }
{
    if levels == 4 {
        is_among(
            &[
                "ask",
                "batch",
                "conflicts",
                "docs",
                "epoch",
                "n",
                "place",
                "rows",
                "schema",
            ],
            name,
        )
    } else if levels == 3 {
        is_among(&["id", "lwt"], name)
    } else if levels == 2 {
        is_among(&[MARK, "assumed", "new"], name)
    } else if levels == 1 {
        is_among(&[MARK], name)
    } else {
        false
    }
}

/// Whether it may have a member of that name, which is of its form or isn't.
pub(crate) fn is_known(schema: &Schema, levels: usize, name: &str, of_form: bool) -> bool
    ensures { result ≡ (of_form || is_field schema.now levels name.now) }
{
    of_form || ((levels == 1 || levels == 2) && schema.kinds().kind(name).is_some())
}

/// The levels that are left for the value of that member.
pub(crate) fn below(levels: usize, of_form: bool) -> usize
    ensures { result ≡ (if of_form then levels - 1 else 0) }
{
    if of_form { levels.saturating_sub(1) } else { 0 }
}

fn is_among(names: &[&str], name: &str) -> bool
    ensures { result ≡ is_among (texts names.now) name.now }
{
    for known in names {
        if *known == name {
            return true;
        }
    }
    false
}
