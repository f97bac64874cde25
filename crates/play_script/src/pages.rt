// The pages behind the answers, a line each.
ghost use Rattle.std.specs.Prelude.{◌≡◌, ◌++◌, ◌∷◌, [], ◌+◌, ◌<◌, ◌^◌, ◌==◌, ℕ, OnOk, IfOk, decimal, length, count_by, codes, slice_index};
ghost use Rattle.std.specs.List.{flat_map, range_with_len};
ghost use Rattle.gate_core.specs.Core.{duties_of};
ghost use Rattle.spie_base.specs.declared.types.Entry.{Entry as AnEntry};
ghost use Rattle.line_text.specs.Writing.{spaced};
ghost use Rattle.play_script.specs.Report as texts;

use crate::answers::phase_text;
use gate_core::CoreState;
use line_text::{push, push_count, push_field};
use spie_base::{Entry, NoMemory, PageNo};
use std::alloc::Global;

// The phase of the slot in which a page stands, or that the page is collected.
fn standing(state: &CoreState, page: u32) -> &'static [u8]
    ensures { result.now ≡ texts.standing_text state.now page }
{
    match state.phase_of(PageNo { number: page }) {
        Some(phase) => phase_text(phase),
        None => b"collected",
    }
}

/// How many finished entries each page has, of so many pages.
fn entries_by_page(alloc: Global, entries: &[Entry], pages: u32) -> Result<Vec<u64>, NoMemory>
    ensures size { IfOk result (λ counts. length counts.items ≡ pages) }
    ensures each { IfOk result (λ counts. (p : ℕ) → p < pages → slice_index counts.items p ≡ count_by (λ (e : AnEntry). e.page.number == p) entries.now) }
{
    let mut counts = vec![in alloc; 0u64; pages as usize]?;
    for entry in entries {
        let page = entry.page.number as usize;
        if page < counts.len() {
            counts[page] += 1;
        }
    }
    Ok(counts)
}

// Appends the numbers of a page.
fn push_numbers(out: &mut Vec<u8>, entries: u64, bits: u32) -> Result<(), NoMemory>
    ensures { OnOk result (out.new.items ≡ out.old.items ++ flat_map spaced (codes "entries" ∷ decimal entries ∷ codes "bits" ∷ decimal bits ∷ []) ++ 10 ∷ []) }
{
    push_field(out, b"entries")?;
    push_count(out, entries)?;
    push_field(out, b"bits")?;
    push_count(out, u64::from(bits))?;
    push(out, b"\n")
}

#[tactic(auto, unfolding(crate::specs::Report::page_line))]
fn push_page(out: &mut Vec<u8>, state: &CoreState, page: u32, entries: u64) -> Result<(), NoMemory>
    requires { entries ≡ texts.entries_in state.now page }
    ensures { OnOk result (out.new.items ≡ out.old.items ++ texts.page_line state.now page) }
{
    push(out, b"page")?;
    push_count(out, u64::from(page))?;
    push_field(out, standing(state, page))?;
    push_numbers(out, entries, state.bits_of(PageNo { number: page }))
}

/// Appends the pages up to the last that was opened. Costs one look at each finished entry, and one count of
/// bits a word.
pub fn push_pages(alloc: Global, out: &mut Vec<u8>, state: &CoreState) -> Result<(), NoMemory>
    ensures { OnOk result (out.new.items ≡ out.old.items ++ flat_map (texts.page_line state.now) (range_with_len 0 (duties_of state.now).next)) }
{
    let pages = state.next_page().number;
    let counts = entries_by_page(alloc, state.entries(), pages)?;
    for page in 0..pages {
        push_page(out, state, page, counts[page as usize])?;
    }
    Ok(())
}
