// What is said on standard error, where standard output is silent or has a refusal.
use spie_base::Status;

const USAGE: &str =
    "usage: spie replay W < TRACE > REPORT            replays a trace with W workers, 1 to 16
       spie replay W FOLDER < TRACE > REPORT     the same, with archived pages in files of this folder
       spie play < SCRIPT > ANSWERS              does the steps of a script on the gate of a router's pages
       spie pcap NAME FIRST SKIP < CAPTURE       the packets of a capture as lines of a trace, as router NAME forwards them
       spie pcap count < CAPTURE                 how many records of a capture are packets
       spie make SEED PACKETS > TRACE            a made trace of 1 to 32768 packets, by this seed
       spie load SEED PACKETS W                  replays that trace with W workers, and sums it up in one line
       spie check < CERTIFICATE                  whether the lines of a certificate hold; exit status 1 means no
example: spie replay 1 < examples/three_in_a_line.trace";

// Each word of a refusal, and what it says.
const REFUSALS: [(&str, &str); 23] = [
    ("too-long", "the input has more than 67,108,864 bytes"),
    ("after", "there is more input behind the line `end`"),
    (
        "ending",
        "the input ends here, without a line end or without the line `end`",
    ),
    ("length", "the line has more than 4,096 bytes"),
    (
        "word",
        "no word that may stand here (the first field of a line, the second of a script's step)",
    ),
    (
        "fields",
        "wrong number of fields; one space stands between two fields",
    ),
    ("field", "a field is not of its form, or out of its range"),
    ("double-name", "there is a router of this name already"),
    ("no-name", "there is no router of this name"),
    ("self-link", "a router can't be linked with itself"),
    ("double-link", "these routers are linked already"),
    ("no-router", "no router was declared before `begin`"),
    ("too-many", "there are too many of these"),
    ("short", "the packet has fewer than 20 bytes"),
    ("version", "the packet's version is not 4"),
    (
        "header-length",
        "the packet's header length is below 20 bytes, or more than is there",
    ),
    (
        "total-length",
        "the packet's total length is below its header length",
    ),
    ("checksum", "the header checksum is wrong"),
    ("no-packet", "no packet of this number was given yet"),
    (
        "kind",
        "this kind of transform doesn't fit the packets' protocols",
    ),
    (
        "clock",
        "a tick's time must be above the clock, a query's at most the clock",
    ),
    (
        "twice",
        "this router was archived already since the last tick or query",
    ),
    (
        "order",
        "the line may not stand here, or its router, page or link doesn't ascend",
    ),
];

// The same for a capture, of which a byte is named.
const CAPTURE_REFUSALS: [(&str, &str); 5] = [
    ("too-long", "the capture has more than 67,108,864 bytes"),
    (
        "short",
        "a capture begins with a header of 24 bytes, and there are fewer",
    ),
    (
        "magic",
        "no classic capture with microseconds; `editcap -F pcap IN OUT` makes one of pcapng or nanoseconds",
    ),
    ("version", "the version of the capture's format is not 2.4"),
    (
        "link-type",
        "the frames are neither Ethernet nor raw IP; docs/FORMATS.md says what to do",
    ),
];

// What the word of a refusal says.
fn sentence(table: &'static [(&'static str, &'static str)], why: &str) -> &'static str {
    for (word, text) in table {
        if *word == why {
            return text;
        }
    }
    "the input is refused"
}

fn refusal(rt: &HostRuntime, front: &[u8], is_capture: bool) -> std::io::Result<()> {
    let text = std::str::from_utf8(front).unwrap_or("");
    let line = text.trim_end();
    let rest = line.strip_prefix("refused ").unwrap_or(line);
    match rest.split_once(' ') {
        Some((_, why)) if is_capture => eprintln!(rt; "spie: {}", sentence(&CAPTURE_REFUSALS, why)),
        // Line 0 is the whole input.
        Some((number, why)) if number == "0" => eprintln!(rt; "spie: {}", sentence(&REFUSALS, why)),
        Some((number, why)) => eprintln!(rt; "spie: line {number}: {}", sentence(&REFUSALS, why)),
        None => eprintln!(rt; "spie: the input is refused"),
    }
}

/// Says how a run ended; nothing where it is done. `front` is how its output begins, and a
/// capture is refused in words of its own. What can't be said on standard
/// error is lost, since there is no other place for it.
pub fn explain(
    rt: &HostRuntime,
    status: Status,
    front: &[u8],
    is_capture: bool,
) -> std::io::Result<()> {
    match status {
        Status::Done => Ok(()),
        Status::No => eprintln!(rt;
            "spie: the certificate doesn't hold: its pages don't bear this line out"
        ),
        Status::Usage => eprintln!(rt; "{USAGE}"),
        Status::TraceRefused => refusal(rt, front, is_capture),
        Status::ReadFault => eprintln!(rt; "spie: the input can't be read; nothing was written"),
        Status::WriteFault => eprintln!(rt;
            "spie: the output can't be written; what was written is not whole"
        ),
        Status::NoMemory => eprintln!(rt; "spie: no memory; nothing was written"),
    }
}
