//! Sinks over writers that take little, are interrupted, or fail.
use phy_layers::{ByteSink, SinkError, WriteSink};
use std::io::{self, ErrorKind, Write};
use std::test::Fail;

/// Takes at most three bytes a call, up to so many; then it takes nothing, or fails.
#[derive(Drop)]
struct Narrow {
    taken: Vec<u8>,
    room: usize,
    interrupts: u8,
    fails: bool,
}

impl Write for Narrow {
    fn write(&mut self, buf: &[u8]) -> io::Result<usize> {
        if self.interrupts > 0 {
            self.interrupts -= 1;
            return Err(io::Error::new(ErrorKind::Interrupted, "a signal"));
        }
        let count = buf.len().min(3).min(self.room);
        if count == 0 && self.fails {
            return Err(io::Error::new(ErrorKind::BrokenPipe, "closed"));
        }
        self.taken.extend_from_slice(&buf[..count])?;
        self.room -= count;
        Ok(count)
    }

    fn flush(&mut self) -> io::Result<()> {
        if self.fails {
            return Err(io::Error::new(ErrorKind::BrokenPipe, "closed"));
        }
        Ok(())
    }
}

#[test]
fn writes_on_until_the_writer_stops(rt: HostRuntime) -> Result<(), Fail> {
    for (room, interrupts, fails, want) in [
        (8, 2, false, Ok(())),
        (5, 0, false, Err(SinkError::Fault)),
        (5, 1, true, Err(SinkError::Fault)),
    ] {
        let mut narrow = Narrow {
            taken: Vec::new(rt.alloc()),
            room,
            interrupts,
            fails,
        };
        let mut sink = WriteSink::new(&mut narrow);
        let bytes = [1, 2, 3, 4, 5, 6, 7, 8];
        assert!(rt;
            sink.write(&bytes) == want
                && sink.flush().is_ok() == !fails
                && narrow.taken.as_slice() == &bytes[..room]
        );
    }
    Ok(())
}

#[test]
fn takes_a_long_piece_to_its_end(rt: HostRuntime) -> Result<(), Fail> {
    let alloc = rt.alloc();
    let piece = vec![in alloc; 7; 70_000]?;
    let mut narrow = Narrow {
        taken: Vec::new(alloc),
        room: 80_000,
        interrupts: 1,
        fails: true,
    };
    let mut sink = WriteSink::new(&mut narrow);
    assert!(rt;
        sink.write(piece.as_slice()) == Ok(()) && narrow.taken.as_slice() == piece.as_slice()
    );
    Ok(())
}
