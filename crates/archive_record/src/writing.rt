ghost use Rattle.std.specs.Prelude.{◌≡◌, ◌≤◌, ◌++◌, ◌^◌, ◌-◌, length, ℕ, IfOk, OnOk};
ghost use Rattle.std.specs.List.{flat_map};
ghost use Rattle.std.specs.Int.{w64, to_be_bytes};
ghost use Rattle.archive_record.specs.Spelling.{Fits, AreBits, bits_magic, AreRows, bits_record, rows_record, spelled, spelled_bits, spelled_rows, spelled_row, spelled_data};

use crate::{BitsHead, Record, SPB1_N_MOST};
use bloom_page::Page;
use packet_signature::{Kind, Row, RowData};
use spie_base::{NoMemory, PageNo, RouterId};
use std::alloc::{AllocError, Global};

fn put_row_data(out: &mut Vec<u8>, row_data: &RowData) -> Result<(), AllocError>
    ensures { OnOk result (out.new.items ≡ out.old.items ++ spelled_data row_data.now) }
{
    match row_data {
        RowData::Direct(old) => {
            out.push(0)?;
            out.extend_from_slice(old.as_slice())?;
        }
        RowData::Indirect(old) => {
            out.push(1)?;
            out.extend_from_slice(&old.bytes)?;
        }
    }
    Ok(())
}

fn put_row(out: &mut Vec<u8>, row: &Row) -> Result<(), AllocError>
    ensures { OnOk result (out.new.items ≡ out.old.items ++ spelled_row row.now) }
{
    out.extend_from_slice(&row.key.to_be_bytes())?;
    out.push(match row.kind {
        Kind::Frag => 1,
        Kind::Nat => 2,
        Kind::Icmp => 3,
        Kind::Ipip => 4,
        Kind::Decap => 5,
    })?;
    put_row_data(out, &row.old)?;
    Ok(())
}

fn put_words(out: &mut Vec<u8>, words: &[u64]) -> Result<(), AllocError>
    ensures { OnOk result (out.new.items ≡ out.old.items ++ flat_map (to_be_bytes w64) words.now) }
{
    for word in words {
        out.extend_from_slice(&word.to_be_bytes())?;
    }
    Ok(())
}

/// The one spelling of a rows record, of rows that are borrowed. Costs its length.
#[tactic(auto, unfolding(crate::specs::Spelling::spelled_rows))]
pub fn encode_rows(
    alloc: Global,
    router: RouterId,
    page: PageNo,
    rows: &[Row],
) -> Result<Vec<u8>, NoMemory>
    requires { AreRows (rows_record router page rows.now) }
    ensures { IfOk result (λ v. v.items ≡ spelled_rows (rows_record router page rows.now)) }
{
    let mut out = Vec::new(alloc);
    out.extend_from_slice(b"SPT1")?;
    out.extend_from_slice(&router.number.to_be_bytes())?;
    out.extend_from_slice(&page.number.to_be_bytes())?;
    out.extend_from_slice(&(rows.len() as u32).to_be_bytes())?;
    for row in rows {
        put_row(&mut out, row)?;
    }
    Ok(out)
}

// The magic of a bits record, by the bits of a position.
fn magic_of(n: u8) -> &'static [u8]
    ensures { result.now ≡ bits_magic n }
{
    if n <= SPB1_N_MOST { b"SPB1" } else { b"SPB2" }
}

/// The one spelling of a bits record, of a page that is borrowed. Costs its length.
#[tactic(auto, unfolding(crate::specs::Spelling::spelled_bits))]
pub fn encode_bits(alloc: Global, head: &BitsHead, bits: &Page) -> Result<Vec<u8>, NoMemory>
    requires { AreBits (bits_record head.now bits.now) }
    ensures { IfOk result (λ v. v.items ≡ spelled_bits (bits_record head.now bits.now)) }
{
    let mut out = Vec::new(alloc);
    out.reserve(40 + 8 * bits.words().len())?;
    out.extend_from_slice(magic_of(bits.n()))?;
    out.extend_from_slice(&head.router.number.to_be_bytes())?;
    out.extend_from_slice(&head.page.number.to_be_bytes())?;
    out.extend_from_slice(&[head.k, bits.n(), 0, 0])?;
    out.extend_from_slice(&head.seed.to_be_bytes())?;
    out.extend_from_slice(&head.opened.to_be_bytes())?;
    out.extend_from_slice(&head.closed.to_be_bytes())?;
    put_words(&mut out, bits.words())?;
    Ok(out)
}

/// The one spelling of a record. Costs its length.
pub fn encode(alloc: Global, value: &Record) -> Result<Vec<u8>, NoMemory>
    requires { Fits value.now }
    ensures spelled { IfOk result (λ v. v.items ≡ spelled value.now) }
{
    match value {
        Record::Bits(r) => encode_bits(alloc, &r.head(), &r.bits),
        Record::Rows(r) => encode_rows(alloc, r.router, r.page, r.rows.items()),
    }
}
