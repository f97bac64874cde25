// The text of a certificate, line by line.
ghost use Rattle.std.specs.Prelude.{◌≡◌, ◌++◌, OnOk, IfOk};
ghost use Rattle.std.specs.List.{flat_map};
ghost use Rattle.evidence_text.specs.Said as said;
ghost use Rattle.evidence_text.specs.Writing as writing;
ghost use Rattle.evidence_text.specs.Writing.{certificate_text, line_of};

use crate::certificates::{Certificate, Link, Named, PageEvidence, RouterPages};
use crate::marks::{
    push_data, push_flag, push_kind, push_pair, push_place, push_word64, push_words,
};
use line_text::{push, push_count};
use packet_signature::Row;
use reverse_flood::{Edge, Node};
use spie_base::{NoMemory, PageNo, PageShape};
use std::alloc::Global;

fn push_version(out: &mut Vec<u8>) -> Result<(), NoMemory>
    ensures { OnOk result (out.new.items ≡ out.old.items ++ line_of said.VersionLine) }
{
    push(out, b"spie-certificate 1")?;
    push(out, b"\n")
}

fn push_how_many(out: &mut Vec<u8>, count: u64) -> Result<(), NoMemory>
    ensures { OnOk result (out.new.items ≡ out.old.items ++ line_of (said.RoutersLine count)) }
{
    push(out, b"routers")?;
    push_count(out, count)?;
    push(out, b"\n")
}

fn push_link(out: &mut Vec<u8>, link: &Link) -> Result<(), NoMemory>
    ensures { OnOk result (out.new.items ≡ out.old.items ++ line_of (said.LinkLine link.now)) }
{
    push(out, b"link")?;
    push_count(out, u64::from(link.low.number))?;
    push_count(out, u64::from(link.high.number))?;
    push(out, b"\n")
}

fn push_start(out: &mut Vec<u8>, start: &Node) -> Result<(), NoMemory>
    ensures { OnOk result (out.new.items ≡ out.old.items ++ line_of (said.StartLine start.now)) }
{
    push(out, b"start")?;
    push_pair(out, start)?;
    push(out, b"\n")
}

// The numbers that fix a router's pages.
fn push_shape(out: &mut Vec<u8>, shape: &PageShape) -> Result<(), NoMemory>
    ensures { OnOk result (out.new.items ≡ out.old.items ++ writing.shape_text shape.now) }
{
    push_count(out, u64::from(shape.router.number))?;
    push_count(out, u64::from(shape.k))?;
    push_count(out, u64::from(shape.n))?;
    push_word64(out, shape.base)
}

fn push_router(out: &mut Vec<u8>, shape: &PageShape, missing: bool) -> Result<(), NoMemory>
    ensures { OnOk result (out.new.items ≡ out.old.items ++ line_of (said.RouterLine shape.now missing)) }
{
    push(out, b"router")?;
    push_shape(out, shape)?;
    push_flag(out, missing)?;
    push(out, b"\n")
}

fn push_page(out: &mut Vec<u8>, page: PageNo, words: &[u64]) -> Result<(), NoMemory>
    ensures { OnOk result (out.new.items ≡ out.old.items ++ line_of (said.PageLine page words.now)) }
{
    push(out, b"page")?;
    push_count(out, u64::from(page.number))?;
    push_words(out, words)?;
    push(out, b"\n")
}

fn push_row(out: &mut Vec<u8>, row: &Row) -> Result<(), NoMemory>
    ensures { OnOk result (out.new.items ≡ out.old.items ++ line_of (said.RowLine row.now)) }
{
    push(out, b"row")?;
    push_word64(out, row.key)?;
    push_kind(out, row.kind)?;
    push_data(out, &row.old)?;
    push(out, b"\n")
}

fn push_node(out: &mut Vec<u8>, named: &Named) -> Result<(), NoMemory>
    ensures { OnOk result (out.new.items ≡ out.old.items ++ line_of (said.NodeLine named.now)) }
{
    push(out, b"node")?;
    push_pair(out, &named.node)?;
    push_place(out, named.from)?;
    push(out, b"\n")
}

fn push_edge(out: &mut Vec<u8>, edge: &Edge) -> Result<(), NoMemory>
    ensures { OnOk result (out.new.items ≡ out.old.items ++ line_of (said.EdgeLine edge.now)) }
{
    push(out, b"edge")?;
    push_pair(out, &edge.down)?;
    push_pair(out, &edge.up)?;
    push(out, b"\n")
}

fn push_unknown(out: &mut Vec<u8>, node: &Node) -> Result<(), NoMemory>
    ensures { OnOk result (out.new.items ≡ out.old.items ++ line_of (said.UnknownLine node.now)) }
{
    push(out, b"unknown")?;
    push_pair(out, node)?;
    push(out, b"\n")
}

fn push_clear(out: &mut Vec<u8>, node: &Node) -> Result<(), NoMemory>
    ensures { OnOk result (out.new.items ≡ out.old.items ++ line_of (said.ClearLine node.now)) }
{
    push(out, b"clear")?;
    push_pair(out, node)?;
    push(out, b"\n")
}

fn push_end(out: &mut Vec<u8>) -> Result<(), NoMemory>
    ensures { OnOk result (out.new.items ≡ out.old.items ++ line_of said.EndLine) }
{
    push(out, b"end")?;
    push(out, b"\n")
}

fn push_links(out: &mut Vec<u8>, links: &[Link]) -> Result<(), NoMemory>
    ensures { OnOk result (out.new.items ≡ out.old.items ++ flat_map writing.link_text links.now) }
{
    for link in links {
        push_link(out, link)?;
    }
    Ok(())
}

fn push_rows(out: &mut Vec<u8>, rows: &[Row]) -> Result<(), NoMemory>
    ensures { OnOk result (out.new.items ≡ out.old.items ++ flat_map writing.row_text rows.now) }
{
    for row in rows {
        push_row(out, row)?;
    }
    Ok(())
}

fn push_evidence(out: &mut Vec<u8>, evidence: &PageEvidence) -> Result<(), NoMemory>
    ensures { OnOk result (out.new.items ≡ out.old.items ++ writing.page_text evidence.now) }
{
    push_page(out, evidence.page, evidence.bits.words())?;
    push_rows(out, evidence.rows.items())
}

fn push_pages(out: &mut Vec<u8>, pages: &[PageEvidence]) -> Result<(), NoMemory>
    ensures { OnOk result (out.new.items ≡ out.old.items ++ flat_map writing.page_text pages.now) }
{
    for evidence in pages {
        push_evidence(out, evidence)?;
    }
    Ok(())
}

fn push_router_pages(out: &mut Vec<u8>, router: &RouterPages) -> Result<(), NoMemory>
    ensures { OnOk result (out.new.items ≡ out.old.items ++ writing.router_text router.now) }
{
    push_router(out, &router.shape, router.missing)?;
    push_pages(out, router.pages.items())
}

fn push_routers(out: &mut Vec<u8>, routers: &[RouterPages]) -> Result<(), NoMemory>
    ensures { OnOk result (out.new.items ≡ out.old.items ++ flat_map writing.router_text routers.now) }
{
    for router in routers {
        push_router_pages(out, router)?;
    }
    Ok(())
}

fn push_nodes(out: &mut Vec<u8>, nodes: &[Named]) -> Result<(), NoMemory>
    ensures { OnOk result (out.new.items ≡ out.old.items ++ flat_map writing.node_text nodes.now) }
{
    for named in nodes {
        push_node(out, named)?;
    }
    Ok(())
}

fn push_edges(out: &mut Vec<u8>, edges: &[Edge]) -> Result<(), NoMemory>
    ensures { OnOk result (out.new.items ≡ out.old.items ++ flat_map writing.edge_text edges.now) }
{
    for edge in edges {
        push_edge(out, edge)?;
    }
    Ok(())
}

fn push_unknowns(out: &mut Vec<u8>, unknowns: &[Node]) -> Result<(), NoMemory>
    ensures { OnOk result (out.new.items ≡ out.old.items ++ flat_map writing.unknown_text unknowns.now) }
{
    for node in unknowns {
        push_unknown(out, node)?;
    }
    Ok(())
}

fn push_clears(out: &mut Vec<u8>, clears: &[Node]) -> Result<(), NoMemory>
    ensures { OnOk result (out.new.items ≡ out.old.items ++ flat_map writing.clear_text clears.now) }
{
    for node in clears {
        push_clear(out, node)?;
    }
    Ok(())
}

// What was read.
fn push_first(out: &mut Vec<u8>, c: &Certificate) -> Result<(), NoMemory>
    ensures { OnOk result (out.new.items ≡ out.old.items ++ writing.evidence_text c.now) }
{
    push_version(out)?;
    push_how_many(out, c.routers.items().len() as u64)?;
    push_links(out, c.links.items())?;
    push_start(out, &c.start)?;
    push_routers(out, c.routers.items())
}

// And what it shows.
fn push_answer(out: &mut Vec<u8>, c: &Certificate) -> Result<(), NoMemory>
    ensures { OnOk result (out.new.items ≡ out.old.items ++ writing.answer_text c.now) }
{
    push_nodes(out, c.nodes.items())?;
    push_edges(out, c.edges.items())?;
    push_unknowns(out, c.unknown.items())?;
    push_clears(out, c.clear.items())?;
    push_end(out)
}

/// Appends the text of a certificate.
pub fn push_certificate(out: &mut Vec<u8>, certificate: &Certificate) -> Result<(), NoMemory>
    ensures { OnOk result (out.new.items ≡ out.old.items ++ certificate_text certificate.now) }
{
    push_first(out, certificate)?;
    push_answer(out, certificate)
}

/// The text of a certificate.
pub fn certificate_text(alloc: Global, certificate: &Certificate) -> Result<Vec<u8>, NoMemory>
    ensures { IfOk result (λ text. text.items ≡ certificate_text certificate.now) }
{
    let mut text = Vec::new(alloc);
    push_certificate(&mut text, certificate)?;
    Ok(text)
}
