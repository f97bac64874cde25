// What the grammar and the machine promise. The functions do nothing: their contracts are the laws.
ghost use Rattle.play_script.specs.Laws.{HasOneReport, IsEither};
ghost use Rattle.std.specs.Prelude.{ℕ, List};

/// Each text is either a script, and of one script only, or has a first fault, and no other.
pub fn script_or_fault()
    ensures { (text : List ℕ) → IsEither text }
{}

/// A script has one report: its steps determine what they answer, and the pages behind them.
pub fn script_has_one_report()
    ensures { HasOneReport }
{}
