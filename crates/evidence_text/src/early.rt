// Lines that come before it is known how many routers there are, or how large a page is. They stand nowhere, so all that
// is asked is whether they are of their form: a number may have any size.
ghost use Rattle.std.specs.Prelude.{◌≡◌, ◌&&◌, ◌∷◌, [], map, is_some};
ghost use Rattle.std.specs.Char.{is_ascii_digit};
ghost use Rattle.std.specs.Cmp.Lexicographic.{slice_cmp};
ghost use Rattle.std.specs.List.{list_all};
ghost use Rattle.std.specs.Ordering.{is_lt, nat_cmp};
ghost use Rattle.std.specs.Str.{all_ascii_digits};
ghost use Rattle.spie_base.specs.Decimal.{is_plain, number_in};
ghost use Rattle.evidence_text.specs.Reading as reading;
ghost use Rattle.evidence_text.specs.Spelling as spelling;
ghost use Rattle.evidence_text.specs.declared.words.Word.TheVariants as word;

use crate::refused::CheckWhy;
use crate::words::Word;
use spie_base::{K_MOST, N_LEAST, N_MOST, decimal};
use std::cmp::Ordering;

#[inline(always)]
fn is_lower_digit(byte: u8) -> bool
    ensures { result ≡ spelling.is_lower_digit byte }
{
    (byte >= b'0' && byte <= b'9') || (byte >= b'a' && byte <= b'f')
}

fn is_hex(field: &[u8]) -> bool
    ensures { result ≡ spelling.is_hex field.now }
{
    field.iter().all(|byte| is_lower_digit(*byte))
}

fn is_sig_text(field: &[u8]) -> bool
    ensures { result ≡ spelling.is_sig_text field.now }
{
    field.len() == 56 && is_hex(field)
}

fn is_word64_text(field: &[u8]) -> bool
    ensures { result ≡ spelling.is_word64_text field.now }
{
    field.len() == 16 && is_hex(field)
}

fn all_digits(field: &[u8]) -> bool
    ensures { result ≡ list_all is_ascii_digit field.now }
{
    field.iter().all(|byte| byte.is_ascii_digit())
}

fn are_digits(field: &[u8]) -> bool
    ensures { result ≡ all_ascii_digits field.now }
{
    all_digits(field)
}

// Whether a field is a decimal number, of any size.
fn is_plain(field: &[u8]) -> bool
    ensures { result ≡ is_plain field.now }
{
    field.len() >= 1 && are_digits(field) && (field[0] != b'0' || field.len() <= 1)
}

fn is_first(a: &[u8], b: &[u8]) -> bool
    ensures { result ≡ is_lt (slice_cmp nat_cmp a.now b.now) }
{
    matches!(a.cmp(b), Ordering::Less)
}

fn is_lower_text(a: &[u8], b: &[u8]) -> bool
    ensures { result ≡ spelling.is_lower_text a.now b.now }
{
    a.len() < b.len() || (a.len() == b.len() && is_first(a, b))
}

fn is_within(field: &[u8], least: u64, most: u64) -> bool
    ensures { result ≡ spelling.is_within field.now least most }
{
    match decimal(field, most) {
        Some(number) => least <= number,
        None => false,
    }
}

fn is_page_text(field: &[u8]) -> bool
    ensures { result ≡ is_some (number_in field.now 4294967295) }
{
    decimal(field, u64::from(u32::MAX)).is_some()
}

fn is_place_text(field: &[u8]) -> bool
    ensures { result ≡ spelling.is_place_text field.now }
{
    field == b"-".as_slice() || is_page_text(field)
}

fn is_flag_text(field: &[u8]) -> bool
    ensures { result ≡ spelling.is_flag_text field.now }
{
    field == b"0".as_slice() || field == b"1".as_slice()
}

fn are_shape(k: &[u8], n: &[u8], base: &[u8], missing: &[u8]) -> bool
    ensures { result ≡ spelling.are_shape k.now n.now base.now missing.now }
{
    is_within(k, 1, u64::from(K_MOST))
        && is_within(n, u64::from(N_LEAST), u64::from(N_MOST))
        && is_word64_text(base)
        && is_flag_text(missing)
}

fn is_pair(router: &[u8], sig: &[u8]) -> bool
    ensures { result ≡ (is_plain router.now && spelling.is_sig_text sig.now) }
{
    is_plain(router) && is_sig_text(sig)
}

fn is_link(low: &[u8], high: &[u8]) -> bool
    ensures { result ≡ spelling.are_early word.Link (low.now ∷ high.now ∷ []) }
{
    is_plain(low) && is_plain(high) && is_lower_text(low, high)
}

fn is_node(router: &[u8], sig: &[u8], from: &[u8]) -> bool
    ensures { result ≡ spelling.are_early word.Node (router.now ∷ sig.now ∷ from.now ∷ []) }
{
    is_plain(router) && is_sig_text(sig) && is_place_text(from)
}

fn is_page(page: &[u8], digits: &[u8]) -> bool
    ensures { result ≡ spelling.are_early word.Page (page.now ∷ digits.now ∷ []) }
{
    is_page_text(page) && is_hex(digits)
}

// Whether the fields behind a word are of their form.
fn are_early(word: Word, rest: &[&[u8]]) -> bool
    ensures { result ≡ spelling.are_early word (map (λ f. f.now) rest.now) }
{
    match (word, rest) {
        (Word::Link, [low, high]) => is_link(low, high),
        (Word::Start, [router, sig]) => is_pair(router, sig),
        (Word::Router, [router, k, n, base, missing]) => {
            is_plain(router) && are_shape(k, n, base, missing)
        }
        (Word::Page, [page, digits]) => is_page(page, digits),
        (Word::Node, [router, sig, from]) => is_node(router, sig, from),
        (Word::Edge, [down, sig, up, old]) => is_pair(down, sig) && is_pair(up, old),
        (Word::Unknown, [router, sig]) => is_pair(router, sig),
        (Word::Clear, [router, sig]) => is_pair(router, sig),
        _ => false,
    }
}

// The number of fields behind a word.
fn arity(word: Word) -> usize
    ensures { result ≡ spelling.arity word }
{
    match word {
        Word::Version | Word::Routers => 1,
        Word::Link | Word::Start | Word::Page | Word::Unknown | Word::Clear => 2,
        Word::Router => 5,
        Word::Row | Word::Edge => 4,
        Word::Node => 3,
        Word::End => 0,
    }
}

/// The rule that such a line breaks.
#[tactic(auto, unfolding(crate::specs::Reading::early_why))]
pub fn early_why(word: Word, rest: &[&[u8]]) -> CheckWhy
    ensures { result ≡ reading.early_why word (map (λ f. f.now) rest.now) }
{
    if rest.len() != arity(word) {
        CheckWhy::Fields
    } else if are_early(word, rest) {
        CheckWhy::Order
    } else {
        CheckWhy::Field
    }
}
