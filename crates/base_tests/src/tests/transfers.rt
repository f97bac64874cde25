// Whole inputs and outputs, from memory and from readers and writers of std.
use spie_base::{
    IoSink, IoSource, MemSink, MemSource, ReadRefused, Sink, Source, read_all, write_all,
};
use std::io;
use std::io::{ErrorKind, Read, Write};
use std::test::Fail;

const TEXT: &[u8] = b"spie-trace 1\n";

// How much may be read, the call that fails, and how many bytes come of it.
const READS: [(usize, u64, Result<usize, ReadRefused>); 4] = [
    (13, 9, Ok(13)),
    (12, 9, Err(ReadRefused::TooLong)),
    (13, 2, Err(ReadRefused::Failed)),
    (13, 0, Err(ReadRefused::Failed)),
];

// The room, the call that fails, and how many bytes are written.
const WRITES: [(usize, u64, usize); 5] = [
    (13, 9, 13),
    (20, 9, 13),
    (12, 9, 12),
    (13, 0, 0),
    (13, 1, 5),
];

#[test]
fn reads_whole_inputs(rt: HostRuntime) -> Result<(), Fail> {
    let alloc = rt.alloc();
    for (most, failing, length) in READS {
        let mut source = MemSource::new(alloc, TEXT, 5, &[failing])?;
        let read = match read_all(alloc, &mut source, most) {
            Ok(bytes) => {
                assert!(rt; bytes.as_slice() == TEXT);
                Ok(bytes.len())
            }
            Err(why) => Err(why),
        };
        assert!(rt; read == length, "most {most}, failing {failing}");
    }
    Ok(())
}

#[test]
fn writes_whole_outputs(rt: HostRuntime) -> Result<(), Fail> {
    let alloc = rt.alloc();
    for (room, failing, written) in WRITES {
        let mut sink = MemSink::new(alloc, 5, room, &[failing])?;
        let whole = write_all(&mut sink, TEXT).is_ok();
        assert!(rt; whole == (written == 13), "room {room}, failing {failing}");
        assert!(rt;
            sink.written() == &TEXT[..written],
            "room {room}, failing {failing}"
        );
    }
    Ok(())
}

// Is interrupted once, gives three bytes, and fails then.
#[derive(Drop)]
struct Unsteady {
    calls: u32,
}

impl Read for Unsteady {
    fn read(&mut self, buf: &mut [u8]) -> io::Result<usize> {
        self.calls = self.calls.saturating_add(1);
        if self.calls == 1 {
            return Err(io::Error::from(ErrorKind::Interrupted));
        }
        if self.calls > 2 || buf.len() < 3 {
            return Err(io::Error::from(ErrorKind::BrokenPipe));
        }
        buf[..3].copy_from_slice(b"abc");
        Ok(3)
    }
}

impl Write for Unsteady {
    fn write(&mut self, buf: &[u8]) -> io::Result<usize> {
        self.calls = self.calls.saturating_add(1);
        match self.calls {
            1 => Err(io::Error::from(ErrorKind::Interrupted)),
            2 => Ok(buf.len().min(3)),
            3 => Ok(0),
            _ => Err(io::Error::from(ErrorKind::BrokenPipe)),
        }
    }

    fn flush(&mut self) -> io::Result<()> {
        Ok(())
    }
}

#[test]
fn adapts_readers_of_std(rt: HostRuntime) {
    let mut source = IoSource::new(Unsteady { calls: 0 });
    let mut buf = [0; 8];
    assert_eq!(rt; source.take(&mut buf).ok(), Some(3));
    assert_eq!(rt; buf[..4], *b"abc\0".as_slice());
    assert!(rt; source.take(&mut buf).is_err());
    let mut source = IoSource::new(TEXT);
    assert_eq!(rt; source.take(&mut buf).ok(), Some(8));
    assert_eq!(rt; source.take(&mut buf).ok(), Some(5));
    assert_eq!(rt; source.take(&mut buf).ok(), Some(0));
}

#[test]
fn adapts_writers_of_std(rt: HostRuntime) {
    let mut sink = IoSink::new(Unsteady { calls: 0 });
    assert_eq!(rt; sink.give(TEXT).ok(), Some(3));
    assert!(rt; sink.give(TEXT).is_err());
    assert!(rt; sink.give(TEXT).is_err());
}
