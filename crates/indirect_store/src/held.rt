use spie_base::Sig;

/// A signature, and how many uses it has.
#[derive(Clone, Copy, Debug)]
pub struct Held {
    pub sig: Sig,
    /// At least 1.
    pub uses: u64,
}
