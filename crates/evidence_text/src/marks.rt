// The fields of a certificate's lines, each behind a space.
ghost use Rattle.std.specs.Prelude.{◌≡◌, ◌++◌, OnOk};
ghost use Rattle.hex.specs.Hex.{encode_lower};
ghost use Rattle.std.specs.List.{flat_map};
ghost use Rattle.line_text.specs.Writing.{spaced};
ghost use Rattle.evidence_text.specs.Spelling.{sig_text, word64_text, words_text, kind_word, data_text, data_word, flag_text, from_text, pair};

use line_text::{push, push_count, push_field};
use packet_signature::{Kind, RowData};
use reverse_flood::Node;
use spie_base::{NoMemory, Sig};

fn push_sig(out: &mut Vec<u8>, sig: &Sig) -> Result<(), NoMemory>
    ensures { OnOk result (out.new.items ≡ out.old.items ++ spaced (sig_text sig.now)) }
{
    let mut text = [0u8; 56];
    hex::encode_to_slice(sig.bytes.as_slice(), &mut text).unwrap();
    push_field(out, &text)
}

// Appends the digits of a number of 64 bits.
fn push_digits(out: &mut Vec<u8>, number: u64) -> Result<(), NoMemory>
    ensures { OnOk result (out.new.items ≡ out.old.items ++ word64_text number) }
{
    let mut text = [0u8; 16];
    hex::encode_to_slice(number.to_be_bytes().as_slice(), &mut text).unwrap();
    push(out, &text)
}

/// Appends a field that is a number of 64 bits.
pub fn push_word64(out: &mut Vec<u8>, number: u64) -> Result<(), NoMemory>
    ensures { OnOk result (out.new.items ≡ out.old.items ++ spaced (word64_text number)) }
{
    push(out, b" ")?;
    push_digits(out, number)
}

fn push_all_digits(out: &mut Vec<u8>, words: &[u64]) -> Result<(), NoMemory>
    ensures { OnOk result (out.new.items ≡ out.old.items ++ words_text words.now) }
{
    for word in words {
        push_digits(out, *word)?;
    }
    Ok(())
}

/// Appends a field that is the words of a page.
pub fn push_words(out: &mut Vec<u8>, words: &[u64]) -> Result<(), NoMemory>
    ensures { OnOk result (out.new.items ≡ out.old.items ++ spaced (words_text words.now)) }
{
    push(out, b" ")?;
    push_all_digits(out, words)
}

/// Appends the fields of a router and a signature.
pub fn push_pair(out: &mut Vec<u8>, node: &Node) -> Result<(), NoMemory>
    ensures { OnOk result (out.new.items ≡ out.old.items ++ flat_map spaced (pair node.now)) }
{
    push_count(out, u64::from(node.router.number))?;
    push_sig(out, &node.sig)
}

fn kind_text(kind: Kind) -> &'static [u8]
    ensures { result.now ≡ kind_word kind }
{
    match kind {
        Kind::Frag => b"frag",
        Kind::Nat => b"nat",
        Kind::Icmp => b"icmp",
        Kind::Ipip => b"ipip",
        Kind::Decap => b"decap",
    }
}

pub fn push_kind(out: &mut Vec<u8>, kind: Kind) -> Result<(), NoMemory>
    ensures { OnOk result (out.new.items ≡ out.old.items ++ spaced (kind_word kind)) }
{
    push_field(out, kind_text(kind))
}

fn push_direct(out: &mut Vec<u8>, bytes: &[u8; 4]) -> Result<(), NoMemory>
    ensures { OnOk result (out.new.items ≡ out.old.items ++ spaced (encode_lower bytes.now)) }
{
    let mut text = [0u8; 8];
    hex::encode_to_slice(bytes.as_slice(), &mut text).unwrap();
    push_field(out, &text)
}

/// Appends what a row keeps of the old signature.
pub fn push_data(out: &mut Vec<u8>, old: &RowData) -> Result<(), NoMemory>
    ensures { OnOk result (out.new.items ≡ out.old.items ++ spaced (data_word old.now) ++ spaced (data_text old.now)) }
{
    match old {
        RowData::Direct(bytes) => {
            push_field(out, b"direct")?;
            push_direct(out, bytes)
        }
        RowData::Indirect(sig) => {
            push_field(out, b"indirect")?;
            push_sig(out, sig)
        }
    }
}

/// Appends the place of an earlier node, or a dash.
pub fn push_place(out: &mut Vec<u8>, place: Option<u32>) -> Result<(), NoMemory>
    ensures { OnOk result (out.new.items ≡ out.old.items ++ spaced (from_text place)) }
{
    match place {
        None => push_field(out, b"-"),
        Some(place) => push_count(out, u64::from(place)),
    }
}

pub fn push_flag(out: &mut Vec<u8>, flag: bool) -> Result<(), NoMemory>
    ensures { OnOk result (out.new.items ≡ out.old.items ++ spaced (flag_text flag)) }
{
    push_field(out, if flag { b"1" } else { b"0" })
}
