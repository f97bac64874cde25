use reverse_flood::{Edge, Node};
use spie_base::{List, RouterId, Sig};
use std::alloc::{AllocError, Global};
use std::test::Fail;
use wire_message::{Message, MessageRefused, Reply, Request, decode_message, encode_message};

// `SPQ1`, request 0, region 1, no entries.
const NO_ENTRIES: [u8; 24] = [
    0x53, 0x50, 0x51, 0x31, 0, 0, 0, 0, 0, 0, 0, 0, 0, 0, 0, 1, 0, 0, 0, 0, 0, 0, 0, 0,
];

// `SPQ1`, request 7, region 2; the list of entries follows.
const ENTRIES_HEAD: [u8; 16] = [0x53, 0x50, 0x51, 0x31, 0, 0, 0, 0, 0, 0, 0, 7, 0, 0, 0, 2];

// `SPR1`, request 5; the lists of the part follow.
const REPLY_HEAD: [u8; 12] = [0x53, 0x50, 0x52, 0x31, 0, 0, 0, 0, 0, 0, 0, 5];

const TWO: [u8; 8] = [0, 0, 0, 0, 0, 0, 0, 2];

// 2^64 - 1.
const MOST: [u8; 8] = [255; 8];

// A length of the message without entries, and the place of the refusal.
const CUT: [(usize, usize); 8] = [
    (0, 0),
    (3, 0),
    (4, 4),
    (11, 4),
    (12, 12),
    (15, 12),
    (16, 16),
    (23, 16),
];

// Router and last byte of the signature of a second entry behind router 1 with 5, and the place of the refusal.
const SECOND: [(u8, u8, Option<usize>); 6] = [
    (2, 0, None),
    (1, 6, None),
    (1, 5, Some(56)),
    (1, 4, Some(56)),
    (0, 5, Some(56)),
    (0, 6, Some(56)),
];

fn place(alloc: Global, bytes: &[u8]) -> Option<usize> {
    match decode_message(alloc, bytes) {
        Err(MessageRefused::Refused { place }) => Some(place),
        _ => None,
    }
}

// What is encoded of what is decoded, and nothing where the bytes are refused.
fn again(alloc: Global, bytes: &[u8]) -> Option<Vec<u8>> {
    match decode_message(alloc, bytes) {
        Ok(message) => encode_message(alloc, &message).ok(),
        Err(_) => None,
    }
}

// The bytes of a node whose signature is 0 but for its last byte.
fn put_node(bytes: &mut Vec<u8>, router: u8, last: u8) -> Result<(), AllocError> {
    bytes.extend_from_slice(&[0, 0, 0, router])?;
    bytes.extend_from_slice(&[0; 27])?;
    bytes.push(last)?;
    Ok(())
}

fn put_length(bytes: &mut Vec<u8>, length: u8) -> Result<(), AllocError> {
    bytes.extend_from_slice(&[0, 0, 0, 0, 0, 0, 0, length])
}

fn node(router: u32, last: u8) -> Node {
    let mut sig = [0; 28];
    sig[27] = last;
    Node {
        router: RouterId { number: router },
        sig: Sig { bytes: sig },
    }
}

// The request with two entries, of which the first is router 1 with 5.
fn two_entries(alloc: Global, length: &[u8], router: u8, last: u8) -> Result<Vec<u8>, AllocError> {
    let mut bytes = Vec::from_slice(alloc, &ENTRIES_HEAD)?;
    bytes.extend_from_slice(length)?;
    put_node(&mut bytes, 1, 5)?;
    put_node(&mut bytes, router, last)?;
    Ok(bytes)
}

#[test]
fn a_request_without_entries(rt: HostRuntime) -> Result<(), Fail> {
    let alloc = rt.alloc();
    let request = Request {
        number: 0,
        region: 1,
        entries: List::of(Vec::new(alloc)),
    };
    assert_eq!(rt;
        decode_message(alloc, &NO_ENTRIES),
        Ok(Message::Ask(request))
    );
    assert_eq!(rt;
        again(alloc, &NO_ENTRIES),
        Some(Vec::from_slice(alloc, &NO_ENTRIES)?)
    );
    for (length, expected) in CUT {
        assert_eq!(rt;
            place(alloc, &NO_ENTRIES[..length.min(24)]),
            Some(expected),
            "{length}"
        );
    }
    let mut longer = Vec::from_slice(alloc, &NO_ENTRIES)?;
    longer.push(0)?;
    assert_eq!(rt; place(alloc, &longer), Some(24));
    let mut strange = Vec::from_slice(alloc, &NO_ENTRIES)?;
    strange[3] = 0x32;
    assert_eq!(rt; place(alloc, &strange), Some(0));
    Ok(())
}

#[test]
fn entries_in_order(rt: HostRuntime) -> Result<(), Fail> {
    let alloc = rt.alloc();
    for (router, last, expected) in SECOND {
        let bytes = two_entries(alloc, &TWO, router, last)?;
        assert_eq!(rt; place(alloc, &bytes), expected, "{router} {last}");
        let encoded = again(alloc, &bytes);
        assert_eq!(rt; encoded.is_some(), expected.is_none(), "{router} {last}");
        if let Some(encoded) = encoded {
            assert_eq!(rt; encoded.as_slice(), bytes.as_slice(), "{router} {last}");
        }
    }
    let bytes = two_entries(alloc, &TWO, 2, 0)?;
    assert_eq!(rt; place(alloc, &bytes[..bytes.len().min(55)]), Some(24));
    assert_eq!(rt; place(alloc, &bytes[..bytes.len().min(87)]), Some(56));
    Ok(())
}

// A length that lies is refused at the first item that isn't there.
#[test]
fn a_length_of_too_many(rt: HostRuntime) -> Result<(), Fail> {
    let alloc = rt.alloc();
    let mut bytes = Vec::from_slice(alloc, &ENTRIES_HEAD)?;
    bytes.extend_from_slice(&MOST)?;
    assert_eq!(rt; place(alloc, &bytes), Some(24));
    assert_eq!(rt; place(alloc, &two_entries(alloc, &MOST, 2, 0)?), Some(88));
    Ok(())
}

// The reply to request 5: the node 1, the edge from 1 to 2, 2 unknown, none clear, and the exit from 1 to 3.
fn reply(alloc: Global) -> Result<Vec<u8>, AllocError> {
    let mut bytes = Vec::from_slice(alloc, &REPLY_HEAD)?;
    put_nodes(&mut bytes)?;
    put_length(&mut bytes, 1)?;
    put_node(&mut bytes, 2, 9)?;
    put_length(&mut bytes, 0)?;
    put_exits(&mut bytes)?;
    Ok(bytes)
}

fn put_nodes(bytes: &mut Vec<u8>) -> Result<(), AllocError> {
    put_length(bytes, 1)?;
    put_node(bytes, 1, 9)?;
    put_length(bytes, 1)?;
    put_node(bytes, 1, 9)?;
    put_node(bytes, 2, 9)
}

fn put_exits(bytes: &mut Vec<u8>) -> Result<(), AllocError> {
    put_length(bytes, 1)?;
    put_node(bytes, 1, 9)?;
    put_node(bytes, 3, 9)
}

// Whether these are the lists of the reply above.
fn is_whole(reply: &Reply) -> bool {
    let (here, above, outside) = (node(1, 9), node(2, 9), node(3, 9));
    let step = Edge {
        down: here,
        up: above,
    };
    let exit = Edge {
        down: here,
        up: outside,
    };
    reply.part.nodes.items() == [here].as_slice()
        && reply.part.edges.items() == [step].as_slice()
        && reply.part.unknown.items() == [above].as_slice()
        && reply.part.clear.items().is_empty()
        && reply.part.exits.items() == [exit].as_slice()
}

#[test]
fn a_whole_reply(rt: HostRuntime) -> Result<(), Fail> {
    let alloc = rt.alloc();
    let mut bytes = reply(alloc)?;
    match decode_message(alloc, &bytes) {
        Ok(message) => {
            if let Message::Answer(reply) = &message {
                assert_eq!(rt; reply.number, 5);
                assert!(rt; is_whole(reply));
            } else {
                assert!(rt; false);
            }
        }
        Err(_) => assert!(rt; false),
    }
    assert_eq!(rt; again(alloc, &bytes), Some(bytes.clone()?));
    assert_eq!(rt; place(alloc, &bytes[..bytes.len().min(243)]), Some(180));
    bytes.push(0)?;
    assert_eq!(rt; place(alloc, &bytes), Some(244));
    Ok(())
}
