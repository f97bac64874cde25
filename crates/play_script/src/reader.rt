ghost use Rattle.std.specs.Prelude.{◌∷◌, [], ◌<◌, ◌^◌, length, IfOk, Ok, Err};
ghost use Rattle.trace_format.specs.Outcomes.{IsReadAs, RefusedWith};
ghost use Rattle.trace_format.specs.Outcomes.{Reads};
ghost use Rattle.line_text.specs.Text.{lines};
ghost use Rattle.trace_format.specs.declared.refused.TraceRefused.{TraceRefused};
ghost use Rattle.play_script.specs.Before.{known_of};
ghost use Rattle.play_script.specs.Fault.{IsFault};
ghost use Rattle.play_script.specs.Reading as reading;
ghost use Rattle.play_script.specs.Script.{IsScript};
ghost use Rattle.play_script.specs.Sound.{IsSound};
ghost use Rattle.play_script.specs.declared.script.PlayScript.{PlayScript};

use crate::draft::Draft;
use crate::script::PlayScript;
use line_text::cut;
use std::alloc::Global;
use trace_format::{MOST_BYTES, ReadTraceRefused, Stop, WhyRefused};

// What stands behind the last line end.
#[tactic(auto, unfolding(crate::specs::Reading::read_lines, line_text::specs::Reading::read_lines))]
fn ended(draft: &Draft, last: &[u8]) -> Result<(), ReadTraceRefused>
    requires { draft.now.read < 2 ^ 41 }
    ensures { Reads (λ _. draft.now) result (reading.read_lines draft.now (last.now ∷ [])) }
{
    if !draft.stage().is_over() {
        return Err(Stop::Rule(WhyRefused::Ending).at_line(draft.next_line()));
    }
    if !last.is_empty() {
        return Err(Stop::Rule(WhyRefused::After).at_line(draft.next_line()));
    }
    Ok(())
}

fn read_lines(alloc: Global, text: &[u8]) -> Result<Draft, ReadTraceRefused>
    requires { length text.now < 2 ^ 40 }
    ensures { Reads (λ draft. draft) result (reading.read_lines (known_of []) (lines text.now)) }
{
    let mut draft = Draft::new(alloc);
    let mut found = Vec::new(alloc);
    let mut rest = text;
    while let Some((front, after)) = cut(rest, b'\n') {
        let line = draft.next_line();
        if draft.stage().is_over() {
            return Err(Stop::Rule(WhyRefused::After).at_line(line));
        }
        match draft.read_line(&mut found, front) {
            Ok(()) => {}
            Err(stop) => return Err(stop.at_line(line)),
        }
        rest = after;
    }
    ended(&draft, rest)?;
    Ok(draft)
}

#[tactic(auto, unfolding(crate::specs::Reading::read_of, crate::specs::Reading::read_lines))]
fn read_text(alloc: Global, text: &[u8]) -> Result<PlayScript, ReadTraceRefused>
    ensures { Reads (λ script. script) result (reading.read_of text.now) }
{
    if text.len() > MOST_BYTES {
        return Err(Stop::Rule(WhyRefused::TooLong).at_line(0));
    }
    match read_lines(alloc, text) {
        Ok(draft) => Ok(draft.into_script()),
        Err(end) => Err(end),
    }
}

/// Reads the text of a script, in one pass over its bytes. Memory is taken for its steps alone, and once for
/// the fields of a line.
pub fn read_play(alloc: Global, text: &[u8]) -> Result<PlayScript, ReadTraceRefused>
    ensures script { IfOk result (λ script. IsScript text.now script) }
    ensures sound { IfOk result IsSound }
    ensures fault { RefusedWith result (λ fault. IsFault text.now fault) }
    ensures each_script { (script : PlayScript) → IsScript text.now script → IsReadAs result (Ok script) }
    ensures each_fault { (fault : TraceRefused) → IsFault text.now fault → IsReadAs result (Err fault) }
{
    read_text(alloc, text)
}
