ghost use Rattle.rx_steps.specs.Texts.{StatesAreShort, KeysAreShort, RequestsAreShort, RepliesAreShort, LongKeysDoNotFit, RequestsReadBack, RepliesReadBack};
ghost use Rattle.rx_steps.specs.Understood.{AnswersAreUnderstood, AsksAreUnderstood, TakenKeysAreShort};

/// States that a lawful message is no longer than a line may be and is read as what was written,
/// and does nothing. Of its states no more is asked than what their types keep: that names rise,
/// numbers are in range and texts are UTF-8.
pub fn text_laws()
    // The text of a state that is valid by a schema has at most a mebibyte.
    ensures state { StatesAreShort }
    // Its key has at most four bytes for each code point that a text may have.
    ensures key { KeysAreShort }
    // So the text of a lawful request, and that of a lawful reply, is no longer than a line where
    // its place, if it has one, has such a key.
    ensures request { RequestsAreShort }
    ensures reply { RepliesAreShort }
    // A place with a key of any length is lawful, and a request from one with a long key is longer.
    ensures long_keys { LongKeysDoNotFit }
    // What such a request or reply is written as is read as it.
    ensures request_reads_back { RequestsReadBack }
    ensures reply_reads_back { RepliesReadBack }
    // So each end reads what the other wrote: what a fork asks, and what a master answers.
    ensures asks { AsksAreUnderstood }
    ensures answers { AnswersAreUnderstood }
    // The place of a reply that a fork doesn't refuse has such a key, where that of its own has.
    ensures taken { TakenKeysAreShort }
{}
