// The words of a script, and how far it is.
ghost use Rattle.std.specs.Prelude.{◌≡◌};
ghost use Rattle.play_script.specs.Reading as reading;
ghost use Rattle.play_script.specs.Words as words;

/// How far a script is.
#[derive(Clone, Copy, PartialEq, Eq, Debug)]
pub enum Stage {
    /// Before the first line.
    Version,
    /// Before the second line.
    Core,
    /// Before `end`.
    Steps,
    /// Behind `end`.
    Over,
}

impl Stage {
    /// Whether the `end` line was read.
    pub fn is_over(self) -> bool
        ensures { result ≡ words.is_over self }
    {
        matches!(self, Stage::Over)
    }
}

/// The word of a step.
#[derive(Clone, Copy, PartialEq, Eq, Debug)]
pub enum Word {
    Look,
    Enter,
    Set,
    Leave,
    Seal,
    Settle,
    Drain,
    Open,
    Point,
    Probe,
}

/// The word that a field is. The words that a script may have most of are looked for first.
#[tactic(auto, unfolding(crate::specs::Reading::word_of))]
pub fn word_of(field: &[u8]) -> Option<Word>
    ensures { result ≡ reading.word_of field.now }
{
    if field == b"set".as_slice() {
        Some(Word::Set)
    } else if field == b"look".as_slice() {
        Some(Word::Look)
    } else if field == b"enter".as_slice() {
        Some(Word::Enter)
    } else if field == b"leave".as_slice() {
        Some(Word::Leave)
    } else if field == b"probe".as_slice() {
        Some(Word::Probe)
    } else if field == b"drain".as_slice() {
        Some(Word::Drain)
    } else if field == b"settle".as_slice() {
        Some(Word::Settle)
    } else if field == b"seal".as_slice() {
        Some(Word::Seal)
    } else if field == b"open".as_slice() {
        Some(Word::Open)
    } else if field == b"point".as_slice() {
        Some(Word::Point)
    } else {
        None
    }
}
