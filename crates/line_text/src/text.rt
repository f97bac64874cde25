// Lines and fields of a text.
ghost use Rattle.std.specs.Prelude.{◌≡◌, ◌<◌, ◌==◌, length, position, OnOk, IfSome, MatchOption, map};
ghost use Rattle.line_text.specs.Text.{HasCut, IsUncut, fields};

use memchr::memchr;
use std::alloc::AllocFailed;

fn byte_at(text: &[u8], byte: u8) -> Option<usize>
    ensures value { result ≡ position (λ b. b == byte) text.now }
    ensures within { IfSome result (λ end. end < length text.now) }
{
    memchr(byte, text)
}

/// The part before the first of these bytes, and what stands behind it.
pub fn cut(text: &[u8], byte: u8) -> Option<(&[u8], &[u8])>
    ensures { MatchOption result (IsUncut byte text.now) (λ cut. HasCut byte text.now cut.0.now cut.1.now) }
{
    match byte_at(text, byte) {
        Some(end) => Some((&text[..end], &text[end + 1..])),
        None => None,
    }
}

/// Puts the fields of a line, between which single spaces stand, in place of what was found before.
pub fn split_into<'a>(
    found: &mut Vec<&'a [u8]>,
    line: &'a [u8],
) -> Result<(), AllocFailed<&'a [u8]>>
    ensures { OnOk result (map (λ field. field.now) found.new.items ≡ fields line.now) }
{
    found.clear();
    let mut rest = line;
    while let Some((front, after)) = cut(rest, b' ') {
        found.push(front)?;
        rest = after;
    }
    found.push(rest)?;
    Ok(())
}
