// Why a text is no certificate.

/// The rule that a line breaks, in the order in which the rules are tried.
#[derive(Clone, Copy, PartialEq, Eq, Debug)]
pub enum CheckWhy {
    /// The input has more than 67,108,864 bytes.
    TooLong,
    /// Something follows the `end` line.
    After,
    /// The input ends within a line, or before an `end` line.
    Ending,
    /// The first field is no word of a certificate.
    Word,
    /// The number of fields is not the form's.
    Fields,
    /// A field is not of its form.
    Field,
    /// The line may not stand here.
    Order,
}

/// The first faulty line, and the first rule that it breaks.
#[derive(Clone, Copy, PartialEq, Eq, Debug)]
pub struct CheckFault {
    /// The line's number, from 1, and 0 where the input is too long.
    pub line: u64,
    pub why: CheckWhy,
}

/// Why a text was not read.
#[derive(Clone, Copy, PartialEq, Eq, Debug)]
pub enum CheckRefused {
    /// Memory was refused.
    NoMemory,
    /// The text is no certificate.
    Refused(CheckFault),
}
