// A page is the latest router's, and a row the latest page's.
ghost use Rattle.std.specs.Prelude.{◌≡◌, ◌<◌, ◌≤◌, ◌-◌, ◌^◌, vec_len, IfOk, OnOk};
ghost use Rattle.spie_base.specs.declared.types.TheConstants.{N_LEAST, N_MOST};
ghost use Rattle.evidence_text.specs.Language.{with_last, with_page, with_row, with_row_in};

use crate::certificates::{PageEvidence, RouterPages};
use bloom_page::Page;
use packet_signature::Row;
use spie_base::{List, NoMemory, PageNo};
use std::alloc::Global;

// Adds a page to a router's.
fn router_with(
    alloc: Global,
    router: RouterPages,
    page: PageNo,
    n: u8,
    words: Vec<u64>,
) -> Result<RouterPages, NoMemory>
    requires size { (N_LEAST ≤ n) × (n ≤ N_MOST) }
    requires count { vec_len words ≡ 2 ^ (n - 6) }
    ensures { IfOk result (λ r. r ≡ with_page page n words.items router) }
{
    let mut pages = router.pages.into_vec();
    pages.push(PageEvidence {
        page,
        bits: Page::from_words(words, n),
        rows: List::of(Vec::new(alloc)),
    })?;
    Ok(RouterPages {
        shape: router.shape,
        missing: router.missing,
        pages: List::of(pages),
    })
}

// Adds a row to a page's.
fn page_with(page: PageEvidence, row: Row) -> Result<PageEvidence, NoMemory>
    ensures { IfOk result (λ e. e ≡ with_row row page) }
{
    let mut rows = page.rows.into_vec();
    rows.push(row)?;
    Ok(PageEvidence {
        page: page.page,
        bits: page.bits,
        rows: List::of(rows),
    })
}

// Adds a row to the latest page.
fn pages_with(pages: &mut Vec<PageEvidence>, row: Row) -> Result<(), NoMemory>
    ensures { OnOk result (pages.new.items ≡ with_last (with_row row) pages.old.items) }
{
    let Some(page) = pages.pop() else {
        return Ok(());
    };
    pages.push(page_with(page, row)?)?;
    Ok(())
}

// Adds a row to the latest page of a router.
fn router_with_row(router: RouterPages, row: Row) -> Result<RouterPages, NoMemory>
    ensures { IfOk result (λ r. r ≡ with_row_in row router) }
{
    let mut pages = router.pages.into_vec();
    pages_with(&mut pages, row)?;
    Ok(RouterPages {
        shape: router.shape,
        missing: router.missing,
        pages: List::of(pages),
    })
}

/// Adds a page to the latest router.
pub fn add_page(
    alloc: Global,
    routers: &mut Vec<RouterPages>,
    page: PageNo,
    n: u8,
    words: Vec<u64>,
) -> Result<(), NoMemory>
    requires size { (N_LEAST ≤ n) × (n ≤ N_MOST) }
    requires count { vec_len words ≡ 2 ^ (n - 6) }
    ensures { OnOk result (routers.new.items ≡ with_last (with_page page n words.items) routers.old.items) }
{
    let Some(router) = routers.pop() else {
        return Ok(());
    };
    routers.push(router_with(alloc, router, page, n, words)?)?;
    Ok(())
}

/// Adds a row to the latest page of the latest router.
pub fn add_row(routers: &mut Vec<RouterPages>, row: Row) -> Result<(), NoMemory>
    ensures { OnOk result (routers.new.items ≡ with_last (with_row_in row) routers.old.items) }
{
    let Some(router) = routers.pop() else {
        return Ok(());
    };
    routers.push(router_with_row(router, row)?)?;
    Ok(())
}
