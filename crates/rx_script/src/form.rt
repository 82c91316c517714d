// The form of a line, by what its `do` says.
ghost use Rattle.std.specs.Prelude.{◌≡◌};
ghost use Rattle.rx_value.specs.Named.{named};
ghost use Rattle.rx_script.specs.Line.{forms};

#[derive(Clone, Copy)]
pub(crate) enum Form {
    Collection,
    Insert,
    Bulk,
    Upsert,
    Patch,
    Update,
    Remove,
    Hook,
    Migrate,
    Get,
    Find,
    Count,
    Observe,
    Unobserve,
    Explain,
    Replicate,
    Turn,
    Sweep,
    Stream,
    Deliver,
    Unstream,
    Changes,
    Tick,
    Restart,
    Digest,
}

pub(crate) fn form_by_word(word: &str) -> Option<Form>
    ensures { result ≡ named forms word.now }
{
    match word {
        "collection" => Some(Form::Collection),
        "insert" => Some(Form::Insert),
        "bulk" => Some(Form::Bulk),
        "upsert" => Some(Form::Upsert),
        "patch" => Some(Form::Patch),
        "update" => Some(Form::Update),
        "remove" => Some(Form::Remove),
        "hook" => Some(Form::Hook),
        "migrate" => Some(Form::Migrate),
        "get" => Some(Form::Get),
        "find" => Some(Form::Find),
        "count" => Some(Form::Count),
        "observe" => Some(Form::Observe),
        "unobserve" => Some(Form::Unobserve),
        "explain" => Some(Form::Explain),
        "replicate" => Some(Form::Replicate),
        "turn" => Some(Form::Turn),
        "sweep" => Some(Form::Sweep),
        "stream" => Some(Form::Stream),
        "deliver" => Some(Form::Deliver),
        "unstream" => Some(Form::Unstream),
        "changes" => Some(Form::Changes),
        "tick" => Some(Form::Tick),
        "restart" => Some(Form::Restart),
        "digest" => Some(Form::Digest),
        _ => None,
    }
}
