// The line that sums a trial up.
ghost use Rattle.std.specs.Prelude.{◌≡◌, IfOk, string_bytes};
ghost use Rattle.rx_trial.specs.Summary.{counts_text, digests_text, or_none, summary_line};

use rx_value::RxText;
use std::alloc::{AllocError, Global};

/// What a trial came to. A digest or an end that there is none of is printed as `none`.
#[derive(Debug, Drop)]
pub struct Summary {
    pub digest_f: Option<RxText>,
    pub digest_m: Option<RxText>,
    pub emissions: u64,
    pub end: Option<RxText>,
    pub lines: u64,
    pub refused: u64,
}

/// The summary as one line, without its end. Its texts need no escape in JSON.
pub fn summary_line(alloc: Global, summary: &Summary) -> Result<String, AllocError>
    ensures { IfOk result (λ line. string_bytes line ≡ summary_line summary.now) }
{
    let digests = digests_text(alloc, summary)?;
    let counts = counts_text(alloc, summary)?;
    format!(in alloc; "{digests}{counts}")
}

fn digests_text(alloc: Global, summary: &Summary) -> Result<String, AllocError>
    ensures { IfOk result (λ text. string_bytes text ≡ digests_text summary.now) }
{
    let digest_f = or_none(&summary.digest_f);
    let digest_m = or_none(&summary.digest_m);
    format!(in alloc; "{{\"digest_f\":\"{digest_f}\",\"digest_m\":\"{digest_m}\"")
}

fn counts_text(alloc: Global, summary: &Summary) -> Result<String, AllocError>
    ensures { IfOk result (λ text. string_bytes text ≡ counts_text summary.now) }
{
    let end = or_none(&summary.end);
    format!(in alloc;
        ",\"emissions\":{},\"end\":\"{end}\",\"lines\":{},\"refused\":{}}}",
        summary.emissions, summary.lines, summary.refused
    )
}

fn or_none(word: &Option<RxText>) -> &str
    ensures { result.now ≡ or_none word.now }
{
    match word {
        Some(word) => word.as_str(),
        None => "none",
    }
}
