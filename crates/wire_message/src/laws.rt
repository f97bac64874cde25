// Laws of messages and their spelling, for whoever stands above.
ghost use Rattle.wire_message.specs.Laws.{ReadsAgain, HasOneSpelling, SpellsOne};

/// What was spelled is read again. Does nothing.
pub fn reads_again()
    ensures { ReadsAgain }
{}

/// Bytes that are read as a message are its spelling. Does nothing.
pub fn has_one_spelling()
    ensures { HasOneSpelling }
{}

/// Bytes spell one message at most. Does nothing.
pub fn spells_one()
    ensures { SpellsOne }
{}
