ghost use Rattle.std.specs.Prelude.{◌≡◌, IfOk, MatchResult};
ghost use Rattle.wire_message.specs.declared.messages.Message.{Message as TheMessage};
ghost use Rattle.wire_message.specs.declared.messages.MessageRefused.TheVariants.{NoMemory};
ghost use Rattle.wire_message.specs.Spelling.{IsMessage, IsPlain};
ghost use Rattle.wire_message.specs.Reading.{Decodes, Gives, request_at, part_at, reply_at, message_at, whole_at, message_of};

use crate::fields::{u32_in, u64_in};
use crate::items::list_in;
use crate::stop::Stop;
use crate::{Message, MessageRefused, Reply, Request};
use reverse_flood::Part;
use std::alloc::Global;

const REQUEST_MAGIC: u32 = 0x53505131;

const REPLY_MAGIC: u32 = 0x53505231;

#[tactic(auto, unfolding(crate::specs::Reading::request_at))]
fn request_at(alloc: Global, bytes: &[u8]) -> Result<(Message, &[u8]), Stop>
    ensures { Gives (λ x. (x.0, x.1.now)) result (request_at bytes.now) }
{
    let (number, rest) = u64_in(bytes)?;
    let (region, rest) = u32_in(rest)?;
    let (entries, rest) = list_in(alloc, rest)?;
    let request = Request {
        number,
        region,
        entries,
    };
    Ok((Message::Ask(request), rest))
}

#[tactic(auto, unfolding(crate::specs::Reading::part_at))]
fn part_at(alloc: Global, bytes: &[u8]) -> Result<(Part, &[u8]), Stop>
    ensures { Gives (λ x. (x.0, x.1.now)) result (part_at bytes.now) }
{
    let (nodes, rest) = list_in(alloc, bytes)?;
    let (edges, rest) = list_in(alloc, rest)?;
    let (unknown, rest) = list_in(alloc, rest)?;
    let (clear, rest) = list_in(alloc, rest)?;
    let (exits, rest) = list_in(alloc, rest)?;
    let part = Part {
        nodes,
        edges,
        unknown,
        clear,
        exits,
    };
    Ok((part, rest))
}

#[tactic(auto, unfolding(crate::specs::Reading::reply_at))]
fn reply_at(alloc: Global, bytes: &[u8]) -> Result<(Message, &[u8]), Stop>
    ensures { Gives (λ x. (x.0, x.1.now)) result (reply_at bytes.now) }
{
    let (number, rest) = u64_in(bytes)?;
    let (part, rest) = part_at(alloc, rest)?;
    Ok((Message::Answer(Reply { number, part }), rest))
}

#[tactic(auto, unfolding(crate::specs::Reading::message_at))]
fn message_at(alloc: Global, bytes: &[u8]) -> Result<(Message, &[u8]), Stop>
    ensures { Gives (λ x. (x.0, x.1.now)) result (message_at bytes.now) }
{
    let (magic, rest) = u32_in(bytes)?;
    match magic {
        REQUEST_MAGIC => request_at(alloc, rest),
        REPLY_MAGIC => reply_at(alloc, rest),
        _ => Err(Stop::At(bytes.len())),
    }
}

// All of the bytes.
#[tactic(auto, unfolding(crate::specs::Reading::whole_at))]
fn whole_at(alloc: Global, bytes: &[u8]) -> Result<Message, Stop>
    ensures { Gives (λ x. x) result (whole_at bytes.now) }
{
    let (message, rest) = message_at(alloc, bytes)?;
    if !rest.is_empty() {
        return Err(Stop::At(rest.len()));
    }
    Ok(message)
}

/// The message that the whole input spells. Costs its length; a length field takes no memory before its items are seen.
pub fn decode_message(alloc: Global, bytes: &[u8]) -> Result<Message, MessageRefused>
    ensures exact { Decodes result (message_of bytes.now) }
    ensures read { IfOk result (λ value. IsMessage bytes.now value) }
    ensures plain { IfOk result (λ value. IsPlain value) }
    ensures found { (value : TheMessage) → IsPlain value → IsMessage bytes.now value → MatchResult result (λ v. v ≡ value) (λ refused. refused ≡ NoMemory) }
{
    match whole_at(alloc, bytes) {
        Ok(message) => Ok(message),
        Err(Stop::NoMemory) => Err(MessageRefused::NoMemory),
        Err(Stop::At(left)) => Err(MessageRefused::Refused {
            place: bytes.len() - left,
        }),
    }
}
