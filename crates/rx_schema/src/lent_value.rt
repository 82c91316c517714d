/// A field's value, its text lent.
#[derive(Clone, Copy, Debug)]
pub enum LentValue<'a> {
    Flag(bool),
    Int(i64),
    Text(&'a str),
}
