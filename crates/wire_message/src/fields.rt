// Fields of messages: numbers, nodes and edges.
ghost use Rattle.std.specs.Prelude.{◌≡◌, ◌≤◌, ◌++◌, length, OnOk};
ghost use Rattle.wire_message.specs.Spelling.{spelled_node};
ghost use Rattle.wire_message.specs.Reading.{Form, Gives, field_in, four_form, eight_form, node_of, node_form, edge_form};

use crate::stop::Stop;
use byteorder::{BigEndian, ByteOrder};
use reverse_flood::{Edge, Node};
use spie_base::{RouterId, Sig};
use std::alloc::AllocError;

const NODE_SIZE: usize = 32;

const EDGE_SIZE: usize = 64;

pub fn u32_in(bytes: &[u8]) -> Result<(u32, &[u8]), Stop>
    ensures { Gives (λ x. (x.0, x.1.now)) result (field_in four_form bytes.now) }
{
    if bytes.len() < 4 {
        return Err(Stop::At(bytes.len()));
    }
    Ok((BigEndian::read_u32(bytes), &bytes[4..]))
}

pub fn u64_in(bytes: &[u8]) -> Result<(u64, &[u8]), Stop>
    ensures { Gives (λ x. (x.0, x.1.now)) result (field_in eight_form bytes.now) }
{
    if bytes.len() < 8 {
        return Err(Stop::At(bytes.len()));
    }
    Ok((BigEndian::read_u64(bytes), &bytes[8..]))
}

/// What the lists of a message have. Each item is one field.
pub trait Item: Copy + Ord {
    ghost form: { Form Self };

    /// The item that the bytes begin with, and what stands behind it.
    fn item_in(bytes: &[u8]) -> Result<(Self, &[u8]), Stop>
        ensures { Gives (λ x. (x.0, x.1.now)) result (field_in form bytes.now) };

    /// Puts the item behind the bytes.
    fn put(&self, out: &mut Vec<u8>) -> Result<(), AllocError>
        ensures { OnOk result (out.new.items ≡ out.old.items ++ form.spelled self.now) };
}

fn node_of(bytes: &[u8]) -> Node
    requires { 32 ≤ length bytes.now }
    ensures { result ≡ node_of bytes.now }
{
    let mut sig = [0; 28];
    sig.copy_from_slice(&bytes[4..NODE_SIZE]);
    Node {
        router: RouterId {
            number: BigEndian::read_u32(bytes),
        },
        sig: Sig { bytes: sig },
    }
}

fn put_node(out: &mut Vec<u8>, node: &Node) -> Result<(), AllocError>
    ensures { OnOk result (out.new.items ≡ out.old.items ++ spelled_node node.now) }
{
    out.extend_from_slice(&node.router.number.to_be_bytes())?;
    out.extend_from_slice(&node.sig.bytes)?;
    Ok(())
}

impl Item for Node {
    ghost form = { node_form };

    fn item_in(bytes: &[u8]) -> Result<(Node, &[u8]), Stop> {
        if bytes.len() < NODE_SIZE {
            return Err(Stop::At(bytes.len()));
        }
        Ok((node_of(bytes), &bytes[NODE_SIZE..]))
    }

    fn put(&self, out: &mut Vec<u8>) -> Result<(), AllocError> {
        put_node(out, self)
    }
}

impl Item for Edge {
    ghost form = { edge_form };

    fn item_in(bytes: &[u8]) -> Result<(Edge, &[u8]), Stop> {
        if bytes.len() < EDGE_SIZE {
            return Err(Stop::At(bytes.len()));
        }
        let edge = Edge {
            down: node_of(bytes),
            up: node_of(&bytes[NODE_SIZE..]),
        };
        Ok((edge, &bytes[EDGE_SIZE..]))
    }

    fn put(&self, out: &mut Vec<u8>) -> Result<(), AllocError> {
        put_node(out, &self.down)?;
        put_node(out, &self.up)
    }
}
