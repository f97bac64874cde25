// What values of these types always are, for readers of bytes.
ghost use Rattle.std.specs.Prelude.{◌<◌, ◌^◌};
ghost use Rattle.wire_message.specs.Spelling.{IsPlainEdge, IsPlainList, IsPlainNode};

use reverse_flood::{Edge, Node};

fn node_is_plain(node: Node)
    ensures { IsPlainNode node }
{
    let _number = node.router.number;
    let _bytes = node.sig.bytes;
}

fn edge_is_plain(edge: Edge)
    ensures { IsPlainEdge edge }
{
    node_is_plain(edge.down);
    node_is_plain(edge.up);
}

/// Pairs are plain. Does nothing.
pub(crate) fn nodes_are_plain(nodes: &[Node])
    ensures { IsPlainList IsPlainNode nodes.now }
{
    for node in nodes {
        node_is_plain(*node);
    }
}

/// Edges are plain. Does nothing.
pub(crate) fn edges_are_plain(edges: &[Edge])
    ensures { IsPlainList IsPlainEdge edges.now }
{
    for edge in edges {
        edge_is_plain(*edge);
    }
}

/// A number is plain. Does nothing.
pub(crate) fn number_is_plain(number: u64)
    ensures { number < 2 ^ 64 }
{
    let _number = number;
}

/// A region's number is plain. Does nothing.
pub(crate) fn region_is_plain(region: u32)
    ensures { region < 2 ^ 32 }
{
    let _region = region;
}
