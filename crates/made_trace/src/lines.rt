// The lines of a made trace, each appended to a text.
ghost use Rattle.std.specs.Prelude.{◌≡◌, ◌++◌, OnOk};
ghost use Rattle.packet_signature.specs.declared.Kind.TheVariants as kind;
ghost use Rattle.trace_format.specs.Said as said;
ghost use Rattle.line_text.specs.Writing.{spaced};
ghost use Rattle.made_trace.specs.Lines.{said_line};
ghost use Rattle.made_trace.specs.Made.{router_name};

use line_text::{push, push_count, push_number};
use spie_base::NoMemory;

// A field that is a router's name.
fn push_name(out: &mut Vec<u8>, router: u64) -> Result<(), NoMemory>
    ensures { OnOk result (out.new.items ≡ out.old.items ++ spaced (router_name router)) }
{
    push(out, b" r")?;
    push_number(out, router)
}

pub(crate) fn push_fwd(out: &mut Vec<u8>, router: u64, packet: u64) -> Result<(), NoMemory>
    ensures { OnOk result (out.new.items ≡ out.old.items ++ said_line (said.Fwd (router_name router) packet)) }
{
    push(out, b"fwd")?;
    push_name(out, router)?;
    push_count(out, packet)?;
    push(out, b"\n")
}

pub(crate) fn push_nat(out: &mut Vec<u8>, router: u64, old: u64, new: u64) -> Result<(), NoMemory>
    ensures { OnOk result
        (out.new.items ≡ out.old.items ++ said_line (said.Xf (router_name router) kind.Nat old new)) }
{
    push(out, b"xf")?;
    push_name(out, router)?;
    push(out, b" nat")?;
    push_count(out, old)?;
    push_count(out, new)?;
    push(out, b"\n")
}

pub(crate) fn push_tick(out: &mut Vec<u8>, time: u64) -> Result<(), NoMemory>
    ensures { OnOk result (out.new.items ≡ out.old.items ++ said_line (said.Tick time)) }
{
    push(out, b"tick")?;
    push_count(out, time)?;
    push(out, b"\n")
}

pub(crate) fn push_rotate(out: &mut Vec<u8>, router: u64) -> Result<(), NoMemory>
    ensures { OnOk result (out.new.items ≡ out.old.items ++ said_line (said.Rotate (router_name router))) }
{
    push(out, b"rotate")?;
    push_name(out, router)?;
    push(out, b"\n")
}

pub(crate) fn push_archive(out: &mut Vec<u8>, router: u64) -> Result<(), NoMemory>
    ensures { OnOk result (out.new.items ≡ out.old.items ++ said_line (said.Archive (router_name router))) }
{
    push(out, b"archive")?;
    push_name(out, router)?;
    push(out, b"\n")
}

pub(crate) fn push_watch(out: &mut Vec<u8>, router: u64, packet: u64) -> Result<(), NoMemory>
    ensures { OnOk result
        (out.new.items ≡ out.old.items ++ said_line (said.Watch (router_name router) packet)) }
{
    push(out, b"watch")?;
    push_name(out, router)?;
    push_count(out, packet)?;
    push(out, b"\n")
}

pub(crate) fn push_query(
    out: &mut Vec<u8>,
    router: u64,
    packet: u64,
    time: u64,
) -> Result<(), NoMemory>
    ensures { OnOk result
        (out.new.items ≡ out.old.items ++ said_line (said.Query (router_name router) packet time)) }
{
    push(out, b"query")?;
    push_name(out, router)?;
    push_count(out, packet)?;
    push_count(out, time)?;
    push(out, b"\n")
}
