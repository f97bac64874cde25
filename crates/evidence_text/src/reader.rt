ghost use Rattle.std.specs.Prelude.{◌∷◌, [], ◌<◌, ◌^◌, length, IfOk, Ok, Err};
ghost use Rattle.line_text.specs.Text.{lines};
ghost use Rattle.evidence_text.specs.Before.{known_of};
ghost use Rattle.evidence_text.specs.Judgeable.{IsJudgeable};
ghost use Rattle.evidence_text.specs.Language.{IsCertificate, IsFault};
ghost use Rattle.evidence_text.specs.Outcomes.{Reads, IsReadAs, RefusedWith};
ghost use Rattle.evidence_text.specs.Reading as reading;
ghost use Rattle.evidence_text.specs.declared.certificates.Certificate.{Certificate as TheCertificate};
ghost use Rattle.evidence_text.specs.declared.refused.CheckFault.{CheckFault as TheFault};

use crate::certificates::Certificate;
use crate::draft::Draft;
use crate::refused::{CheckRefused, CheckWhy};
use crate::stops::Stop;
use line_text::cut;
use std::alloc::Global;

/// The greatest number of bytes of a certificate: 64 MiB.
pub const MOST_CERTIFICATE_BYTES: usize = 67_108_864;

// What stands behind the last line end.
#[tactic(auto, unfolding(crate::specs::Reading::read_lines, line_text::specs::Reading::read_lines))]
fn ended(draft: &Draft, last: &[u8]) -> Result<(), CheckRefused>
    requires { draft.now.read < 2 ^ 41 }
    ensures { Reads (λ _. draft.now) result (reading.read_lines draft.now (last.now ∷ [])) }
{
    if !draft.stage().is_over() {
        return Err(Stop::Rule(CheckWhy::Ending).at_line(draft.next_line()));
    }
    if !last.is_empty() {
        return Err(Stop::Rule(CheckWhy::After).at_line(draft.next_line()));
    }
    Ok(())
}

fn read_lines(alloc: Global, text: &[u8]) -> Result<Draft, CheckRefused>
    requires { length text.now < 2 ^ 40 }
    ensures { Reads (λ draft. draft) result (reading.read_lines (known_of []) (lines text.now)) }
{
    let mut draft = Draft::new(alloc);
    let mut found = Vec::new(alloc);
    let mut rest = text;
    while let Some((front, after)) = cut(rest, b'\n') {
        let line = draft.next_line();
        if draft.stage().is_over() {
            return Err(Stop::Rule(CheckWhy::After).at_line(line));
        }
        match draft.read_line(alloc, &mut found, front) {
            Ok(()) => {}
            Err(stop) => return Err(stop.at_line(line)),
        }
        rest = after;
    }
    ended(&draft, rest)?;
    Ok(draft)
}

#[tactic(auto, unfolding(crate::specs::Reading::read_of, crate::specs::Reading::read_lines))]
fn read_text(alloc: Global, text: &[u8]) -> Result<Certificate, CheckRefused>
    ensures { Reads (λ c. c) result (reading.read_of text.now) }
{
    if text.len() > MOST_CERTIFICATE_BYTES {
        return Err(Stop::Rule(CheckWhy::TooLong).at_line(0));
    }
    match read_lines(alloc, text) {
        Ok(draft) => Ok(draft.into_certificate()),
        Err(end) => Err(end),
    }
}

/// Reads the text of a certificate, in one pass over its bytes. Memory is taken for what the certificate keeps, at most
/// some times its bytes, and once for the fields of a line.
pub fn read_certificate(alloc: Global, text: &[u8]) -> Result<Certificate, CheckRefused>
    ensures certificate { IfOk result (λ c. IsCertificate text.now c) }
    ensures judgeable { IfOk result IsJudgeable }
    ensures fault { RefusedWith result (λ fault. IsFault text.now fault) }
    ensures each_certificate { (c : TheCertificate) → IsCertificate text.now c → IsReadAs result (Ok c) }
    ensures each_fault { (fault : TheFault) → IsFault text.now fault → IsReadAs result (Err fault) }
{
    read_text(alloc, text)
}
