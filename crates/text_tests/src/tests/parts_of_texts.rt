// What other texts of such lines and fields are read by, and the laws.
use line_text::{cut, split_into};
use std::rt::HostRuntime;
use std::test::Fail;
use trace_format::{WhyRefused, base_of, laws, number};

#[test]
fn parts_of_texts(rt: HostRuntime) -> Result<(), Fail> {
    let alloc = rt.alloc();
    assert_eq!(rt;
        cut(b"a b\nc\nd", b'\n'),
        Some((b"a b".as_slice(), b"c\nd".as_slice()))
    );
    assert_eq!(rt; cut(b"a b", b'\n'), None);
    let mut found = Vec::new(alloc);
    split_into(&mut found, b"query a  7")?;
    assert_eq!(rt; found.len(), 4);
    assert_eq!(rt; found.get(1), Some(&b"a".as_slice()));
    assert_eq!(rt; found.get(2), Some(&b"".as_slice()));
    assert_eq!(rt; number(b"16", 6, 16), Ok(16));
    assert_eq!(rt; number(b"5", 6, 16), Err(WhyRefused::Field));
    assert_eq!(rt; number(b"17", 6, 16), Err(WhyRefused::Field));
    assert_eq!(rt; base_of(b"0123456789abcDEF"), Ok(0x0123_4567_89ab_cdef));
    assert_eq!(rt; base_of(b"0123456789abcde"), Err(WhyRefused::Field));
    laws::trace_or_fault();
    laws::traces_are_sound();
    Ok(())
}
