// The text of what a script's steps answered.
ghost use Rattle.std.specs.Prelude.{◌≡◌, ◌++◌, IfOk};
ghost use Rattle.play_script.specs.Report as texts;
ghost use Rattle.play_script.specs.Report.{IsScriptPlayed, IsReport, play_report};

use crate::answers::push_answers;
use crate::pages::push_pages;
use crate::script::PlayScript;
use gate_core::Played;
use line_text::push;
use spie_base::NoMemory;
use std::alloc::Global;

#[tactic(auto, unfolding(crate::specs::Report::play_report))]
fn text_of(alloc: Global, played: &Played) -> Result<Vec<u8>, NoMemory>
    ensures { IfOk result (λ text. text.items ≡ play_report played.now.state played.now.answers) }
{
    let mut text = Vec::new(alloc);
    push(&mut text, b"spie-play-report 1\n")?;
    push_answers(&mut text, played.answers.items())?;
    push_pages(alloc, &mut text, &played.state)?;
    push(&mut text, b"end\n")?;
    Ok(text)
}

/// The text of what the steps of a script answered, and of the pages behind them, as `play` gives both.
pub fn play_text(alloc: Global, played: &Played, _script: &PlayScript) -> Result<Vec<u8>, NoMemory>
    requires { IsScriptPlayed _script.now played.now.state played.now.answers }
    ensures text { IfOk result (λ text. text.items ≡ play_report played.now.state played.now.answers) }
    ensures report { IfOk result (λ text. IsReport _script.now text.items) }
{
    text_of(alloc, played)
}
