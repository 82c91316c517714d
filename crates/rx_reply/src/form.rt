ghost use Rattle.std.specs.Prelude.{◌≡◌, ◌++◌, OnOk};
ghost use Rattle.json.specs.Tree.{json_tokens};
ghost use Rattle.serde_json.specs.Written.{outline};
ghost use Rattle.rx_reply.specs.Form.{form_seen, reason_seen, plain_form, named_form, caused_form, form_data};

use crate::writing::{put_maybe_number, put_maybe_text, put_number, put_text};
use json::Writer;
use rx_value::RxText;
use std::alloc::AllocError;

// What is printed of a refusal.
#[derive(Debug, Drop)]
pub(crate) struct Form<'a> {
    pub(crate) code: u64,
    pub(crate) word: &'a str,
    pub(crate) cause: Option<&'a str>,
    pub(crate) name: Option<&'a str>,
    pub(crate) rev: Option<&'a str>,
    pub(crate) row: Option<u64>,
}

// A cause, and the name in question where there is one.
pub(crate) type Reason<'a> = (&'a str, Option<&'a str>);

impl<'a> Form<'a> {
    pub(crate) fn plain(code: u64, word: &'a str) -> Form<'a>
        ensures { form_seen result ≡ plain_form code word.now }
    {
        Form {
            code,
            word,
            cause: None,
            name: None,
            rev: None,
            row: None,
        }
    }

    pub(crate) fn named(code: u64, word: &'a str, name: &'a RxText) -> Form<'a>
        ensures { form_seen result ≡ named_form code word.now name.now }
    {
        Form {
            name: Some(name.as_str()),
            ..Form::plain(code, word)
        }
    }

    pub(crate) fn caused(code: u64, word: &'a str, reason: Reason<'a>) -> Form<'a>
        ensures { form_seen result ≡ caused_form code word.now (reason_seen reason.entry) }
    {
        Form {
            cause: Some(reason.0),
            name: reason.1,
            ..Form::plain(code, word)
        }
    }

    pub(crate) fn put(&self, writer: &mut Writer, number: u64) -> Result<(), AllocError>
        ensures tokens { OnOk result (writer.new.tokens ≡ writer.old.tokens
            ++ json_tokens (outline (form_data number (form_seen self.now)))) }
        ensures before { writer.new.before ≡ writer.old.before }
    {
        writer.begin_object()?;
        put_maybe_text(writer, "cause", self.cause)?;
        put_number(writer, "code", self.code)?;
        put_number(writer, "line", number)?;
        put_maybe_text(writer, "name", self.name)?;
        put_text(writer, "refused", self.word)?;
        put_maybe_text(writer, "rev", self.rev)?;
        put_maybe_number(writer, "row", self.row)?;
        writer.end_object()
    }
}
