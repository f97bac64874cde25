ghost use Rattle.std.specs.Prelude.{◌≡◌, ◌++◌, IfOk, OnOk};
ghost use Rattle.wire_message.specs.Spelling.{IsMessage, Fits, spelled, spelled_request, spelled_part, spelled_reply};

use crate::items::put_list;
use crate::{Message, Reply, Request};
use reverse_flood::Part;
use spie_base::NoMemory;
use std::alloc::{AllocError, Global};

#[tactic(auto, unfolding(crate::specs::Spelling::spelled_request))]
fn encode_request(alloc: Global, request: &Request) -> Result<Vec<u8>, NoMemory>
    ensures { IfOk result (λ v. v.items ≡ spelled_request request.now) }
{
    let mut out = Vec::new(alloc);
    out.extend_from_slice(b"SPQ1")?;
    out.extend_from_slice(&request.number.to_be_bytes())?;
    out.extend_from_slice(&request.region.to_be_bytes())?;
    put_list(&mut out, &request.entries)?;
    Ok(out)
}

#[tactic(auto, unfolding(crate::specs::Spelling::spelled_part))]
fn put_part(out: &mut Vec<u8>, part: &Part) -> Result<(), AllocError>
    ensures { OnOk result (out.new.items ≡ out.old.items ++ spelled_part part.now) }
{
    put_list(out, &part.nodes)?;
    put_list(out, &part.edges)?;
    put_list(out, &part.unknown)?;
    put_list(out, &part.clear)?;
    put_list(out, &part.exits)
}

#[tactic(auto, unfolding(crate::specs::Spelling::spelled_reply))]
fn encode_reply(alloc: Global, reply: &Reply) -> Result<Vec<u8>, NoMemory>
    ensures { IfOk result (λ v. v.items ≡ spelled_reply reply.now) }
{
    let mut out = Vec::new(alloc);
    out.extend_from_slice(b"SPR1")?;
    out.extend_from_slice(&reply.number.to_be_bytes())?;
    put_part(&mut out, &reply.part)?;
    Ok(out)
}

/// The one spelling of a message. Costs its length.
pub fn encode_message(alloc: Global, message: &Message) -> Result<Vec<u8>, NoMemory>
    requires { Fits message.now }
    ensures exact { IfOk result (λ v. v.items ≡ spelled message.now) }
    ensures is { IfOk result (λ v. IsMessage v.items message.now) }
{
    match message {
        Message::Ask(request) => encode_request(alloc, request),
        Message::Answer(reply) => encode_reply(alloc, reply),
    }
}
