// What stands behind the word of a line. How many fields there are is judged before any of them.
ghost use Rattle.std.specs.Prelude.{◌≡◌, ◌≤◌, ◌<◌, ◌^◌, ◌-◌, IfOk, map, vec_len};
ghost use Rattle.spie_base.specs.declared.types.TheConstants.{N_LEAST, N_MOST};
ghost use Rattle.evidence_text.specs.Outcomes.{Gives};
ghost use Rattle.evidence_text.specs.Reading as reading;

use crate::certificates::{Link, Named};
use crate::fields::{
    below, data_in, flag_in, kind_in, number, pair_in, place_in, word64_in, words_in,
};
use crate::refused::CheckWhy;
use crate::stops::Stop;
use packet_signature::Row;
use reverse_flood::{Edge, Node};
use spie_base::{K_MOST, N_LEAST, N_MOST, PageNo, PageShape, RouterId};
use std::alloc::Global;
use topology::ROUTERS_MOST;

#[tactic(auto, unfolding(crate::specs::Reading::version_rest))]
pub fn version_rest(rest: &[&[u8]]) -> Result<(), CheckWhy>
    ensures { result ≡ reading.version_rest (map (λ f. f.now) rest.now) }
{
    let [version] = rest else {
        return Err(CheckWhy::Fields);
    };
    if *version == b"1".as_slice() {
        Ok(())
    } else {
        Err(CheckWhy::Field)
    }
}

/// How many routers there are to be.
#[tactic(auto, unfolding(crate::specs::Reading::routers_rest))]
pub fn routers_rest(rest: &[&[u8]]) -> Result<u32, CheckWhy>
    ensures { result ≡ reading.routers_rest (map (λ f. f.now) rest.now) }
{
    match rest {
        [count] => Ok(number(count, 1, ROUTERS_MOST as u64)? as u32),
        _ => Err(CheckWhy::Fields),
    }
}

#[tactic(auto, unfolding(crate::specs::Reading::link_fields))]
fn link_fields(count: u32, low: &[u8], high: &[u8]) -> Result<Link, CheckWhy>
    ensures { result ≡ reading.link_fields count low.now high.now }
{
    let low = below(low, count)?;
    let high = below(high, count)?;
    if low < high {
        Ok(Link {
            low: RouterId { number: low },
            high: RouterId { number: high },
        })
    } else {
        Err(CheckWhy::Field)
    }
}

#[tactic(auto, unfolding(crate::specs::Reading::link_rest))]
pub fn link_rest(count: u32, rest: &[&[u8]]) -> Result<Link, CheckWhy>
    ensures { result ≡ reading.link_rest count (map (λ f. f.now) rest.now) }
{
    match rest {
        [low, high] => link_fields(count, low, high),
        _ => Err(CheckWhy::Fields),
    }
}

#[tactic(auto, unfolding(crate::specs::Reading::pair_rest))]
pub fn pair_rest(count: u32, rest: &[&[u8]]) -> Result<Node, CheckWhy>
    ensures { result ≡ reading.pair_rest count (map (λ f. f.now) rest.now) }
{
    match rest {
        [router, sig] => pair_in(count, router, sig),
        _ => Err(CheckWhy::Fields),
    }
}

#[tactic(auto, unfolding(crate::specs::Reading::shape_fields))]
fn shape_fields(
    count: u32,
    router: &[u8],
    k: &[u8],
    n: &[u8],
    base: &[u8],
) -> Result<PageShape, CheckWhy>
    ensures value { result ≡ reading.shape_fields count router.now k.now n.now base.now }
    ensures shape { IfOk result (λ shape. (N_LEAST ≤ shape.n) × (shape.n ≤ N_MOST)) }
    ensures router { IfOk result (λ shape. shape.router.number < count) }
{
    let router = below(router, count)?;
    let k = number(k, 1, u64::from(K_MOST))? as u8;
    let n = number(n, u64::from(N_LEAST), u64::from(N_MOST))? as u8;
    let base = word64_in(base)?;
    Ok(PageShape {
        k,
        n,
        base,
        router: RouterId { number: router },
    })
}

#[tactic(auto, unfolding(crate::specs::Reading::router_fields))]
fn router_fields(
    count: u32,
    router: &[u8],
    k: &[u8],
    n: &[u8],
    base: &[u8],
    missing: &[u8],
) -> Result<(PageShape, bool), CheckWhy>
    ensures value { result ≡ reading.router_fields count router.now k.now n.now base.now missing.now }
    ensures shape { IfOk result (λ r. (N_LEAST ≤ r.0.n) × (r.0.n ≤ N_MOST)) }
    ensures router { IfOk result (λ r. r.0.router.number < count) }
{
    let shape = shape_fields(count, router, k, n, base)?;
    let missing = flag_in(missing)?;
    Ok((shape, missing))
}

#[tactic(auto, unfolding(crate::specs::Reading::router_rest))]
pub fn router_rest(count: u32, rest: &[&[u8]]) -> Result<(PageShape, bool), CheckWhy>
    ensures value { result ≡ reading.router_rest count (map (λ f. f.now) rest.now) }
    ensures shape { IfOk result (λ r. (N_LEAST ≤ r.0.n) × (r.0.n ≤ N_MOST)) }
    ensures router { IfOk result (λ r. r.0.router.number < count) }
{
    match rest {
        [router, k, n, base, missing] => router_fields(count, router, k, n, base, missing),
        _ => Err(CheckWhy::Fields),
    }
}

#[tactic(auto, unfolding(crate::specs::Reading::page_fields))]
fn page_fields(alloc: Global, n: u8, page: &[u8], words: &[u8]) -> Result<(PageNo, Vec<u64>), Stop>
    requires { (N_LEAST ≤ n) × (n ≤ N_MOST) }
    ensures value { Gives (λ p. (p.0, p.1.items)) result (reading.page_fields n page.now words.now) }
    ensures count { IfOk result (λ p. vec_len p.1 ≡ 2 ^ (n - 6)) }
{
    let number = number(page, 0, u64::from(u32::MAX))? as u32;
    let words = words_in(alloc, n, words)?;
    Ok((PageNo { number }, words))
}

/// The number of a page and its words.
#[tactic(auto, unfolding(crate::specs::Reading::page_rest))]
pub fn page_rest(alloc: Global, n: u8, rest: &[&[u8]]) -> Result<(PageNo, Vec<u64>), Stop>
    requires { (N_LEAST ≤ n) × (n ≤ N_MOST) }
    ensures value { Gives (λ p. (p.0, p.1.items)) result (reading.page_rest n (map (λ f. f.now) rest.now)) }
    ensures count { IfOk result (λ p. vec_len p.1 ≡ 2 ^ (n - 6)) }
{
    match rest {
        [page, words] => page_fields(alloc, n, page, words),
        _ => Err(Stop::Rule(CheckWhy::Fields)),
    }
}

#[tactic(auto, unfolding(crate::specs::Reading::row_fields))]
fn row_fields(key: &[u8], kind: &[u8], word: &[u8], old: &[u8]) -> Result<Row, CheckWhy>
    ensures { result ≡ reading.row_fields key.now kind.now word.now old.now }
{
    let key = word64_in(key)?;
    let kind = kind_in(kind)?;
    let old = data_in(kind, word, old)?;
    Ok(Row { key, kind, old })
}

#[tactic(auto, unfolding(crate::specs::Reading::row_rest))]
pub fn row_rest(rest: &[&[u8]]) -> Result<Row, CheckWhy>
    ensures { result ≡ reading.row_rest (map (λ f. f.now) rest.now) }
{
    match rest {
        [key, kind, word, old] => row_fields(key, kind, word, old),
        _ => Err(CheckWhy::Fields),
    }
}

#[tactic(auto, unfolding(crate::specs::Reading::node_fields))]
fn node_fields(count: u32, router: &[u8], sig: &[u8], from: &[u8]) -> Result<Named, CheckWhy>
    ensures { result ≡ reading.node_fields count router.now sig.now from.now }
{
    let node = pair_in(count, router, sig)?;
    let from = place_in(from)?;
    Ok(Named { node, from })
}

#[tactic(auto, unfolding(crate::specs::Reading::node_rest))]
pub fn node_rest(count: u32, rest: &[&[u8]]) -> Result<Named, CheckWhy>
    ensures { result ≡ reading.node_rest count (map (λ f. f.now) rest.now) }
{
    match rest {
        [router, sig, from] => node_fields(count, router, sig, from),
        _ => Err(CheckWhy::Fields),
    }
}

#[tactic(auto, unfolding(crate::specs::Reading::edge_fields))]
fn edge_fields(count: u32, down: &[u8], sig: &[u8], up: &[u8], old: &[u8]) -> Result<Edge, CheckWhy>
    ensures { result ≡ reading.edge_fields count down.now sig.now up.now old.now }
{
    let down = pair_in(count, down, sig)?;
    let up = pair_in(count, up, old)?;
    Ok(Edge { down, up })
}

#[tactic(auto, unfolding(crate::specs::Reading::edge_rest))]
pub fn edge_rest(count: u32, rest: &[&[u8]]) -> Result<Edge, CheckWhy>
    ensures { result ≡ reading.edge_rest count (map (λ f. f.now) rest.now) }
{
    match rest {
        [down, sig, up, old] => edge_fields(count, down, sig, up, old),
        _ => Err(CheckWhy::Fields),
    }
}

#[tactic(auto, unfolding(crate::specs::Reading::end_rest))]
pub fn end_rest(rest: &[&[u8]]) -> Result<(), CheckWhy>
    ensures { result ≡ reading.end_rest (map (λ f. f.now) rest.now) }
{
    match rest {
        [] => Ok(()),
        _ => Err(CheckWhy::Fields),
    }
}
