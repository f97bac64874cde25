// The fields of a line. The spelling of a field is checked to its last byte, so each value has one text.
ghost use Rattle.std.specs.Prelude.{◌≡◌, ◌≤◌, ◌<◌, ◌*◌, ◌-◌, ◌^◌, IfOk, length, vec_len};
ghost use Rattle.hex.specs.Hex.{IsBytes};
ghost use Rattle.spie_base.specs.declared.types.TheConstants.{N_LEAST, N_MOST};
ghost use Rattle.evidence_text.specs.Outcomes.{Gives};
ghost use Rattle.evidence_text.specs.Reading as reading;

use crate::refused::CheckWhy;
use crate::stops::Stop;
use line_text::lower_hex_into;
use packet_signature::{Kind, RowData};
use reverse_flood::Node;
use spie_base::{RouterId, Sig, decimal};
use std::alloc::Global;

/// A decimal number without needless zeros, from `least` to `most`.
#[tactic(auto, unfolding(crate::specs::Reading::number))]
pub fn number(field: &[u8], least: u64, most: u64) -> Result<u64, CheckWhy>
    ensures value { result ≡ reading.number field.now least most }
    ensures within { IfOk result (λ n. (least ≤ n) × (n ≤ most)) }
{
    match decimal(field, most) {
        Some(number) if number >= least => Ok(number),
        _ => Err(CheckWhy::Field),
    }
}

/// A number below a bound.
#[tactic(auto, unfolding(crate::specs::Reading::below))]
pub fn below(field: &[u8], bound: u32) -> Result<u32, CheckWhy>
    ensures value { result ≡ reading.below field.now bound }
    ensures within { IfOk result (λ n. n < bound) }
{
    let found = number(field, 0, u64::from(u32::MAX))? as u32;
    if found < bound {
        Ok(found)
    } else {
        Err(CheckWhy::Field)
    }
}

// What a slice of bytes holds.
#[inline(always)]
fn are_bytes(bytes: &[u8])
    ensures { IsBytes bytes.now }
{
    let _seen = bytes;
}

fn bytes_28(field: &[u8]) -> Option<[u8; 28]>
    ensures { result ≡ reading.lower_in 28 field.now }
{
    let mut bytes = [0u8; 28];
    if lower_hex_into(field, &mut bytes) {
        are_bytes(&bytes);
        Some(bytes)
    } else {
        None
    }
}

fn bytes_8(field: &[u8]) -> Option<[u8; 8]>
    ensures { result ≡ reading.lower_in 8 field.now }
{
    let mut bytes = [0u8; 8];
    if lower_hex_into(field, &mut bytes) {
        are_bytes(&bytes);
        Some(bytes)
    } else {
        None
    }
}

fn bytes_4(field: &[u8]) -> Option<[u8; 4]>
    ensures { result ≡ reading.lower_in 4 field.now }
{
    let mut bytes = [0u8; 4];
    if lower_hex_into(field, &mut bytes) {
        are_bytes(&bytes);
        Some(bytes)
    } else {
        None
    }
}

/// A signature: 56 hex digits.
#[tactic(auto, unfolding(crate::specs::Reading::sig_in))]
pub fn sig_in(field: &[u8]) -> Result<Sig, CheckWhy>
    ensures { result ≡ reading.sig_in field.now }
{
    match bytes_28(field) {
        Some(bytes) => Ok(Sig { bytes }),
        None => Err(CheckWhy::Field),
    }
}

/// A number of 64 bits: 16 hex digits.
#[tactic(auto, unfolding(crate::specs::Reading::word64_in))]
pub fn word64_in(field: &[u8]) -> Result<u64, CheckWhy>
    ensures { result ≡ reading.word64_in field.now }
{
    match bytes_8(field) {
        Some(bytes) => Ok(u64::from_be_bytes(bytes)),
        None => Err(CheckWhy::Field),
    }
}

// So many words.
fn some_words(alloc: Global, field: &[u8], count: usize) -> Result<Vec<u64>, Stop>
    requires { length field.now ≡ 16 * count }
    ensures value { Gives (λ words. words.items) result (reading.some_words count field.now) }
    ensures count { IfOk result (λ words. vec_len words ≡ count) }
{
    let mut words = Vec::with_capacity(alloc, count)?;
    let mut rest = field;
    'words: for _at in 0..count {
        let (digits, after) = rest.split_at(16);
        match word64_in(digits) {
            Ok(word) => words.push(word)?,
            Err(why) => return Err(Stop::Rule(why)),
        }
        rest = after;
    }
    Ok(words)
}

/// The words of a page of 2^n bits.
#[tactic(auto, unfolding(crate::specs::Reading::words_in))]
pub fn words_in(alloc: Global, n: u8, field: &[u8]) -> Result<Vec<u64>, Stop>
    requires { (N_LEAST ≤ n) × (n ≤ N_MOST) }
    ensures value { Gives (λ words. words.items) result (reading.words_in n field.now) }
    ensures count { IfOk result (λ words. vec_len words ≡ 2 ^ (n - 6)) }
{
    let count: usize = 1 << (n - 6);
    if field.len() != 16 * count {
        return Err(Stop::Rule(CheckWhy::Field));
    }
    some_words(alloc, field, count)
}

#[tactic(auto, unfolding(crate::specs::Reading::kind_in))]
pub fn kind_in(field: &[u8]) -> Result<Kind, CheckWhy>
    ensures { result ≡ reading.kind_in field.now }
{
    if field == b"frag".as_slice() {
        Ok(Kind::Frag)
    } else if field == b"nat".as_slice() {
        Ok(Kind::Nat)
    } else if field == b"icmp".as_slice() {
        Ok(Kind::Icmp)
    } else if field == b"ipip".as_slice() {
        Ok(Kind::Ipip)
    } else if field == b"decap".as_slice() {
        Ok(Kind::Decap)
    } else {
        Err(CheckWhy::Field)
    }
}

#[tactic(auto, unfolding(crate::specs::Reading::direct_in))]
fn direct_in(kind: Kind, field: &[u8]) -> Result<RowData, CheckWhy>
    ensures { result ≡ reading.direct_in kind field.now }
{
    match kind {
        Kind::Frag => match bytes_4(field) {
            Some(bytes) => Ok(RowData::Direct(bytes)),
            None => Err(CheckWhy::Field),
        },
        _ => Err(CheckWhy::Field),
    }
}

#[tactic(auto, unfolding(crate::specs::Reading::indirect_in))]
fn indirect_in(field: &[u8]) -> Result<RowData, CheckWhy>
    ensures { result ≡ reading.indirect_in field.now }
{
    Ok(RowData::Indirect(sig_in(field)?))
}

/// What a row keeps of the old signature.
#[tactic(auto, unfolding(crate::specs::Reading::data_in))]
pub fn data_in(kind: Kind, word: &[u8], field: &[u8]) -> Result<RowData, CheckWhy>
    ensures { result ≡ reading.data_in kind word.now field.now }
{
    if word == b"direct".as_slice() {
        direct_in(kind, field)
    } else if word == b"indirect".as_slice() {
        indirect_in(field)
    } else {
        Err(CheckWhy::Field)
    }
}

/// The place of an earlier node, or none.
#[tactic(auto, unfolding(crate::specs::Reading::place_in))]
pub fn place_in(field: &[u8]) -> Result<Option<u32>, CheckWhy>
    ensures { result ≡ reading.place_in field.now }
{
    if field == b"-".as_slice() {
        return Ok(None);
    }
    Ok(Some(number(field, 0, u64::from(u32::MAX))? as u32))
}

#[tactic(auto, unfolding(crate::specs::Reading::flag_in))]
pub fn flag_in(field: &[u8]) -> Result<bool, CheckWhy>
    ensures { result ≡ reading.flag_in field.now }
{
    if field == b"0".as_slice() {
        Ok(false)
    } else if field == b"1".as_slice() {
        Ok(true)
    } else {
        Err(CheckWhy::Field)
    }
}

/// A router and a signature.
#[tactic(auto, unfolding(crate::specs::Reading::pair_in))]
pub fn pair_in(count: u32, router: &[u8], sig: &[u8]) -> Result<Node, CheckWhy>
    ensures { result ≡ reading.pair_in count router.now sig.now }
{
    let number = below(router, count)?;
    let sig = sig_in(sig)?;
    Ok(Node {
        router: RouterId { number },
        sig,
    })
}
