// What the text of an item tells.
ghost use Rattle.report_text.specs.Laws.{SameTextSameItem};

/// Two items of the same topology with the same text are equal, where each router's name stands once
/// and none has a space: a line determines what it says. It does nothing: a proof calls it for what it
/// ensures.
pub fn same_text_same_item()
    ensures { SameTextSameItem }
{}
