// The lines of one packet.
ghost use Rattle.std.specs.Prelude.{◌≡◌, ◌++◌, ◌+◌, ◌-◌, ◌*◌, ◌%◌, ◌<◌, ◌≤◌, ◌^◌, IfOk, OnOk};
ghost use Rattle.made_trace.specs.Draws as drawn;
ghost use Rattle.made_trace.specs.Lines.{lines_text};
ghost use Rattle.made_trace.specs.Made as made;

use crate::draws::{Draw, Route, hop_at, route_of};
use crate::lines::{
    push_archive, push_fwd, push_nat, push_query, push_rotate, push_tick, push_watch,
};
use crate::packets::push_packet;
use spie_base::NoMemory;

// Forwards a packet at so many hops, from one on.
fn push_forwards(
    out: &mut Vec<u8>,
    draw: &Draw,
    route: &Route,
    packet: u64,
    from: u64,
    count: u64,
) -> Result<(), NoMemory>
    requires first { route.now.first ≡ drawn.first_hop draw.now }
    requires stride { route.now.stride ≡ drawn.stride draw.now }
    requires first_below { route.now.first < 12 }
    requires stride_below { route.now.stride ≤ 11 }
    requires few { from + count ≤ 6 }
    ensures { OnOk result (out.new.items ≡ out.old.items ++ lines_text (made.forwards draw.now packet from count)) }
{
    for j in 0..count {
        push_fwd(out, hop_at(route, from + j), packet)?;
    }
    Ok(())
}

// A packet that crosses the network as it is.
fn push_plain(out: &mut Vec<u8>, i: u32, m: u64, draw: &Draw, route: &Route) -> Result<(), NoMemory>
    requires first { route.now.first ≡ drawn.first_hop draw.now }
    requires stride { route.now.stride ≡ drawn.stride draw.now }
    requires first_below { route.now.first < 12 }
    requires stride_below { route.now.stride ≤ 11 }
    requires hops { route.now.hops ≡ drawn.hops draw.now }
    requires few { route.now.hops ≤ 6 }
    ensures { OnOk result (out.new.items ≡ out.old.items ++ lines_text (made.plain i m draw.now)) }
{
    push_packet(out, i, (draw.ends / 4_294_967_296) as u32, draw)?;
    push_forwards(out, draw, route, m, 0, route.hops)
}

// A packet to which its second hop gives another source.
fn push_changed(
    out: &mut Vec<u8>,
    i: u32,
    m: u64,
    draw: &Draw,
    route: &Route,
) -> Result<(), NoMemory>
    requires first { route.now.first ≡ drawn.first_hop draw.now }
    requires stride { route.now.stride ≡ drawn.stride draw.now }
    requires first_below { route.now.first < 12 }
    requires stride_below { route.now.stride ≤ 11 }
    requires hops { route.now.hops ≡ drawn.hops draw.now }
    requires some { 2 ≤ route.now.hops }
    requires few { route.now.hops ≤ 6 }
    requires room { m < 2 ^ 32 }
    ensures { OnOk result (out.new.items ≡ out.old.items ++ lines_text (made.changed i m draw.now)) }
{
    let source = (draw.ends / 4_294_967_296) as u32;
    push_packet(out, i, source, draw)?;
    push_packet(out, i, source ^ 1, draw)?;
    push_fwd(out, hop_at(route, 0), m)?;
    push_nat(out, hop_at(route, 1), m, m + 1)?;
    push_forwards(out, draw, route, m + 1, 2, route.hops - 2)
}

// Behind each hundredth packet the clock is set.
fn push_ticking(out: &mut Vec<u8>, i: u32) -> Result<(), NoMemory>
    requires { i < 2 ^ 31 }
    ensures { OnOk result (out.new.items ≡ out.old.items ++ lines_text (made.ticking i)) }
{
    if (i + 1) % 100 == 0 {
        push_tick(out, u64::from((i + 1) / 10))?;
    }
    Ok(())
}

// Behind each thousandth packet a router is rotated and archived, and the packet's last hop is asked.
fn push_asking(
    out: &mut Vec<u8>,
    i: u32,
    m: u64,
    draw: &Draw,
    last: u64,
    packet: u64,
) -> Result<(), NoMemory>
    requires room { i < 2 ^ 31 }
    requires last { last ≡ made.last_hop draw.now }
    requires packet { packet ≡ made.last_packet m draw.now }
    ensures { OnOk result (out.new.items ≡ out.old.items ++ lines_text (made.asking i m draw.now)) }
{
    if (i + 1) % 1000 == 0 {
        let router = u64::from((i + 1) / 1000 % 12);
        push_rotate(out, router)?;
        push_archive(out, router)?;
        push_watch(out, last, packet)?;
        push_query(out, last, packet, u64::from((i + 1) / 10))?;
    }
    Ok(())
}

/// All lines of a packet. How many of them are packets.
pub(crate) fn push_lines(out: &mut Vec<u8>, i: u32, m: u64, draw: &Draw) -> Result<u64, NoMemory>
    requires i { i < 2 ^ 31 }
    requires m { m < 2 ^ 32 }
    ensures lines { OnOk result (out.new.items ≡ out.old.items ++ lines_text (made.packet_lines i m draw.now)) }
    ensures used { IfOk result (λ n. n ≡ made.used draw.now) }
{
    let route = route_of(draw);
    let last = hop_at(&route, route.hops - 1);
    if route.changed {
        push_changed(out, i, m, draw, &route)?;
        push_ticking(out, i)?;
        push_asking(out, i, m, draw, last, m + 1)?;
        return Ok(2);
    }
    push_plain(out, i, m, draw, &route)?;
    push_ticking(out, i)?;
    push_asking(out, i, m, draw, last, m)?;
    Ok(1)
}
