// Plain values that the crates share.

/// The greatest number of marks of a signature. The least is 1.
pub const K_MOST: u8 = 8;

/// The least number of bits of a position. The smallest page has 2^6 of them, one word.
pub const N_LEAST: u8 = 6;

/// The greatest number of bits of a position. The greatest page has 2^20 of them, 128 KiB.
pub const N_MOST: u8 = 20;

/// The signature of a packet: the header bytes that no router changes on the way, and eight
/// bytes of payload. Signatures are ordered by their bytes.
#[derive(Clone, Copy, PartialEq, Eq, PartialOrd, Ord, Hash, Debug)]
pub struct Sig {
    pub bytes: [u8; 28],
}

/// A router, by its number. Routers are numbered from 0 as they are declared.
#[derive(Clone, Copy, PartialEq, Eq, PartialOrd, Ord, Hash, Debug)]
pub struct RouterId {
    pub number: u32,
}

/// A page of a router, by its number. Pages are numbered from 0 as they are opened.
#[derive(Clone, Copy, PartialEq, Eq, PartialOrd, Ord, Hash, Debug)]
pub struct PageNo {
    pub number: u32,
}

/// The pages from `first` to `last`, both among them.
#[derive(Clone, Copy, PartialEq, Eq, Debug)]
pub struct PageRange {
    pub first: PageNo,
    pub last: PageNo,
}

/// A signature that was recorded in a page.
#[derive(Clone, Copy, PartialEq, Eq, Debug)]
pub struct Entry {
    pub page: PageNo,
    pub sig: Sig,
}

/// The positions of a signature in a page: the first `count` places of `at`. Places from
/// `count` on are 0. Two marks may be equal.
#[derive(Clone, Copy, PartialEq, Eq, Debug)]
pub struct Marks {
    pub at: [u32; 8],
    pub count: u8,
}

/// The rules of a trace, which all its routers share.
#[derive(Clone, Copy, PartialEq, Eq, Debug)]
pub struct Rules {
    /// Marks of a signature, 1 to `K_MOST`.
    pub k: u8,
    /// Bits of a position, `N_LEAST` to `N_MOST`.
    pub n: u8,
    /// Set bits at which a tick closes a page, 1 to 2^n.
    pub limit: u32,
    /// Age at which a tick closes a page, from 1 to 2^48 - 1, in the trace's unit of time.
    pub span: u64,
    /// Closed pages that a router keeps, 1 to 32.
    pub keep: u32,
    /// Time since closing at which a page expires, from 1 to 2^48 - 1.
    pub age: u64,
    /// How far before its time a query looks, below 2^48.
    pub width: u64,
    /// The seed from which the seeds of all pages are made.
    pub base: u64,
}

/// What fixes the positions of a signature in each page of a router.
#[derive(Clone, Copy, PartialEq, Eq, Debug)]
pub struct PageShape {
    /// Marks of a signature, 1 to `K_MOST`.
    pub k: u8,
    /// Bits of a position, `N_LEAST` to `N_MOST`.
    pub n: u8,
    /// The seed from which the seeds of all pages are made.
    pub base: u64,
    pub router: RouterId,
}
