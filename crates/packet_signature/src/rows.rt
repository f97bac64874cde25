use spie_base::Sig;

/// How a router transforms a packet.
#[derive(Clone, Copy, PartialEq, Eq, Debug)]
pub enum Kind {
    /// A part of the packet (RFC 791, section 3.2).
    Frag,
    /// Another address, of source or destination.
    Nat,
    /// An error message about the packet (RFC 792).
    Icmp,
    /// The packet within another (RFC 2003).
    Ipip,
    /// The packet out of another.
    Decap,
}

/// What a row keeps of the old signature.
#[derive(Clone, Copy, PartialEq, Eq, Debug)]
pub enum RowData {
    /// Its bytes 2, 3, 6 and 7. All others are those of the new signature.
    Direct([u8; 4]),
    /// All of it.
    Indirect(Sig),
}

/// A transform of a packet at a router.
#[derive(Clone, Copy, PartialEq, Eq, Debug)]
pub struct Row {
    /// The key of the new signature.
    pub key: u64,
    pub kind: Kind,
    pub old: RowData,
}
