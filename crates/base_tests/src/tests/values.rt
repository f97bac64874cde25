// Decimal fields, statuses and lists.
use spie_base::{List, RouterId, Sig, Status, ascending, decimal};
use std::test::Fail;

// A field, the greatest number that may stand there, and the number that it is.
const FIELDS: [(&str, u64, Option<u64>); 12] = [
    ("0", 0, Some(0)),
    ("65535", 65535, Some(65535)),
    ("65536", 65535, None),
    ("18446744073709551615", u64::MAX, Some(u64::MAX)),
    ("18446744073709551616", u64::MAX, None),
    ("", 9, None),
    ("00", 9, None),
    ("01", 9, None),
    ("+1", 9, None),
    ("-0", 9, None),
    (" 1", 9, None),
    ("1a", 99, None),
];

// The statuses in the order of their numbers.
const STATUSES: [Status; 7] = [
    Status::Done,
    Status::No,
    Status::Usage,
    Status::TraceRefused,
    Status::ReadFault,
    Status::WriteFault,
    Status::NoMemory,
];

const ONE: RouterId = RouterId { number: 1 };

const THREE: RouterId = RouterId { number: 3 };

#[test]
fn reads_decimal_fields(rt: HostRuntime) {
    for (field, most, number) in &FIELDS {
        assert!(rt;
            decimal(field.as_bytes(), *most) == *number,
            "{field} up to {most}"
        );
    }
}

#[test]
fn numbers_statuses(rt: HostRuntime) {
    for (number, status) in STATUSES.iter().enumerate() {
        assert!(rt; usize::from(status.code()) == number, "{number}");
    }
}

#[test]
fn keeps_lists(rt: HostRuntime) -> Result<(), Fail> {
    let alloc = rt.alloc();
    let sorted = ascending(Vec::from_slice(alloc, &[THREE, ONE, THREE])?);
    assert!(rt; *sorted.items() == *[ONE, THREE].as_slice());
    assert!(rt; sorted == List::of(Vec::from_slice(alloc, &[ONE, THREE])?));
    assert!(rt; sorted.into_vec().len() == 2);
    let mut later = Sig { bytes: [0; 28] };
    later.bytes[27] = 1;
    assert!(rt; Sig { bytes: [0; 28] } < later);
    Ok(())
}
