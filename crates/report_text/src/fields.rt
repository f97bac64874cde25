// The fields of a line, each behind a space.
ghost use Rattle.std.specs.Prelude.{◌≡◌, ◌++◌, ◌∷◌, ◌<◌, OnOk, OnErr, decimal, length};
ghost use Rattle.std.specs.List.{flat_map};
ghost use Rattle.line_text.specs.Writing.{BeginsWith, spaced};
ghost use Rattle.report_text.specs.Report.{sig_text, name_of, pages_text, range_text, bad_text, bad_one, cause_text, page_text};

use crate::{Bad, CauseWord};
use line_text::{push, push_count, push_field, push_number};
use spie_base::{NoMemory, PageNo, PageRange, RouterId, Sig};
use topology::Topology;

// Stands where a list or a range is empty.
const NONE: &[u8] = b"-";

/// Appends a field that is a router's name.
pub fn push_name(out: &mut Vec<u8>, topology: &Topology, router: RouterId) -> Result<(), NoMemory>
    requires { router.number < length topology.now.names }
    ensures text { OnOk result (out.new.items ≡ out.old.items ++ spaced (name_of topology.now.names router)) }
    ensures begun { OnErr result (BeginsWith out.new.items out.old.items) }
{
    push_field(out, topology.name(router))
}

/// Appends a field that is a signature.
pub fn push_sig(out: &mut Vec<u8>, sig: &Sig) -> Result<(), NoMemory>
    ensures text { OnOk result (out.new.items ≡ out.old.items ++ spaced (sig_text sig.now)) }
    ensures begun { OnErr result (BeginsWith out.new.items out.old.items) }
{
    let mut text = [0u8; 56];
    hex::encode_to_slice(sig.bytes.as_slice(), &mut text).unwrap();
    push_field(out, &text)
}

/// Appends a field that is a page.
pub fn push_page(out: &mut Vec<u8>, page: PageNo) -> Result<(), NoMemory>
    ensures text { OnOk result (out.new.items ≡ out.old.items ++ spaced (page_text page)) }
    ensures begun { OnErr result (BeginsWith out.new.items out.old.items) }
{
    push_count(out, page.number as u64)
}

// Appends pages, each behind a comma.
fn push_more_pages(out: &mut Vec<u8>, pages: &[PageNo]) -> Result<(), NoMemory>
    ensures text { OnOk result (out.new.items ≡ out.old.items ++ flat_map (λ page. 44 ∷ page_text page) pages.now) }
    ensures begun { OnErr result (BeginsWith out.new.items out.old.items) }
{
    for page in pages {
        push(out, b",")?;
        push_number(out, page.number as u64)?;
    }
    Ok(())
}

/// Appends a field that lists pages.
pub fn push_pages(out: &mut Vec<u8>, pages: &[PageNo]) -> Result<(), NoMemory>
    ensures text { OnOk result (out.new.items ≡ out.old.items ++ spaced (pages_text pages.now)) }
    ensures begun { OnErr result (BeginsWith out.new.items out.old.items) }
{
    match pages {
        [] => push_field(out, NONE),
        [first, more @ ..] => {
            push_page(out, *first)?;
            push_more_pages(out, more)
        }
    }
}

/// Appends a field that is a range of pages.
pub fn push_range(out: &mut Vec<u8>, range: Option<PageRange>) -> Result<(), NoMemory>
    ensures text { OnOk result (out.new.items ≡ out.old.items ++ spaced (range_text range)) }
    ensures begun { OnErr result (BeginsWith out.new.items out.old.items) }
{
    match range {
        None => push_field(out, NONE),
        Some(range) => {
            push_page(out, range.first)?;
            push(out, b"-")?;
            push_number(out, range.last.number as u64)
        }
    }
}

fn cause_word(cause: CauseWord) -> &'static [u8]
    ensures { result.now ≡ cause_text cause }
{
    match cause {
        CauseWord::Failed => b"failed",
        CauseWord::Other => b"other",
        CauseWord::Absent => b"absent",
        CauseWord::Broken => b"broken",
    }
}

fn push_bad(out: &mut Vec<u8>, bad: &Bad) -> Result<(), NoMemory>
    ensures text { OnOk result (out.new.items ≡ out.old.items ++ bad_one bad.now) }
    ensures begun { OnErr result (BeginsWith out.new.items out.old.items) }
{
    push_number(out, bad.page.number as u64)?;
    push(out, b":")?;
    push(out, cause_word(bad.cause))
}

// Appends unreadable pages, each behind a comma.
fn push_more_bads(out: &mut Vec<u8>, bads: &[Bad]) -> Result<(), NoMemory>
    ensures text { OnOk result (out.new.items ≡ out.old.items ++ flat_map (λ bad. 44 ∷ bad_one bad) bads.now) }
    ensures begun { OnErr result (BeginsWith out.new.items out.old.items) }
{
    for bad in bads {
        push(out, b",")?;
        push_bad(out, bad)?;
    }
    Ok(())
}

/// Appends a field that lists unreadable pages.
pub fn push_bads(out: &mut Vec<u8>, bads: &[Bad]) -> Result<(), NoMemory>
    ensures text { OnOk result (out.new.items ≡ out.old.items ++ spaced (bad_text bads.now)) }
    ensures begun { OnErr result (BeginsWith out.new.items out.old.items) }
{
    match bads {
        [] => push_field(out, NONE),
        [first, more @ ..] => {
            push(out, b" ")?;
            push_bad(out, first)?;
            push_more_bads(out, more)
        }
    }
}
