// What holds of every made trace. The functions do nothing: their contracts are the laws.
ghost use Rattle.made_trace.specs.Laws.{MadeIsApart, MadeIsTrace};

/// The text of a made trace is a trace, and the one that its definition names.
pub fn made_is_trace()
    ensures { MadeIsTrace }
{}

/// In a made trace no record stands in one segment with a rotation or a watch: so by the laws of `trace_history`
/// workers answer it as one worker does.
pub fn made_is_apart()
    ensures { MadeIsApart }
{}
