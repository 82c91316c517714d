// What was found beside what is due.
use std::test::Fail;

pub fn compare(what: &str, due: &str, found: &str) -> Result<(), Fail> {
    if found == due {
        return Ok(());
    }
    Err(Fail::new(format_args!("{what}: due is {due}, found {found}")))
}
