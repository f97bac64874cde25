// What may differ between kinds of capture.

/// Which byte of a number comes first.
#[derive(Clone, Copy, PartialEq, Eq, Debug)]
pub enum Endian {
    /// The highest.
    Big,
    /// The lowest.
    Little,
}

/// What a record's time counts below its second.
#[derive(Clone, Copy, PartialEq, Eq, Debug)]
pub enum Resolution {
    Microseconds,
    Nanoseconds,
}

/// What the captured bytes of a frame begin with. Whoever reads further link types, or tags of VLANs, adds a case here, in `packet_in`
/// and in its definition.
#[derive(Clone, Copy, PartialEq, Eq, Debug)]
pub enum LinkLayer {
    /// A header of Ethernet.
    Ethernet,
    /// The packet itself.
    RawIp,
}

/// How the records of a capture are read.
#[derive(Clone, Copy, PartialEq, Eq, Debug)]
pub struct CaptureKind {
    pub order: Endian,
    pub resolution: Resolution,
    pub link: LinkLayer,
}
