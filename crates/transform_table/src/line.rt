use packet_signature::Kind;
use spie_base::PageNo;

/// What is kept of the old signature: its bytes 2, 3, 6 and 7, or its id in the store.
#[derive(Clone, Copy, Debug)]
pub enum Kept {
    Bytes([u8; 4]),
    Id(u32),
}

/// A row, and the page in which the new signature was recorded.
#[derive(Clone, Copy, Debug)]
pub struct Line {
    pub page: PageNo,
    pub key: u64,
    pub kind: Kind,
    pub kept: Kept,
}
