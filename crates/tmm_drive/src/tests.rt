//! Lines of no map, in pieces of several sizes.
use crate::lines::Lines;
use crate::reading::drive;
use crate::status::Status;
use std::alloc::Global;
use std::test::Fail;
use tmm_io::{Failed, MemSink, MemSource, Source};
use tmm_model::{Seq, Turn};

/// Answers each line as one for which there is no memory.
#[derive(Drop)]
struct Forgetful {
    lines: u64,
}

impl Lines for Forgetful {
    ghost use Rattle.std.specs.Prelude.{◌≡◌, ℕ};
    ghost use Rattle.tmm_model.specs.declared.turn.Turn.TheVariants.{Memory};

    ghost State = { ℕ };

    ghost state = { λ s. s.lines };

    ghost number = { λ s. s.lines };

    ghost ready = { λ s. Unit {0} };

    ghost step = { λ old k line turn new. (turn ≡ Memory) × (new ≡ k) };

    ghost long_lines = { λ old new k a b turn long_a long_b is. is };

    fn line(&mut self, _alloc: Global, _bytes: &[u8]) -> Turn {
        self.lines += 1;
        Turn::Memory
    }
}

// The loop knows nothing of maps.
#[test]
fn any_lines_are_driven(rt: HostRuntime) -> Result<(), Fail> {
    let alloc = rt.alloc();
    for piece in [1, 5, 4096] {
        let mut source = MemSource::make(alloc, b"a\n\n# b\nc", piece, &[])?;
        let mut sink = MemSink::make(alloc, 1 << 20, &[])?;
        let mut buffer = Seq::make(alloc);
        buffer.reserve(401)?;
        let mut lines = Forgetful { lines: 0 };
        let ended = drive(alloc, &mut lines, &mut buffer, &mut source, &mut sink);
        assert_eq!(rt;
            sink.bytes(),
            b"1 memory\n2 memory\n3 memory\n4 memory\n".as_slice()
        );
        assert_eq!(rt; ended, Status::SomeMemory);
    }
    Ok(())
}

/// Gives a line in each of three calls, and fails where there is room for fewer than 8 bytes.
#[derive(Drop)]
struct Wide {
    calls: u64,
    faults: u64,
}

impl Source for Wide {
    ghost use Rattle.std.specs.Prelude.{None};

    ghost left = { λ s. None };

    ghost faults = { λ s. s.faults };

    fn read(&mut self, buf: &mut [u8]) -> Result<usize, Failed> {
        if buf.len() < 8 {
            self.faults = self.faults.saturating_add(1);
            return Err(Failed);
        }
        if self.calls == 3 {
            return Ok(0);
        }
        self.calls = self.calls.saturating_add(1);
        buf[..2].copy_from_slice(b"a\n");
        Ok(2)
    }
}

// A read asks for as many bytes as a source may give in one piece.
#[test]
fn reads_have_room(rt: HostRuntime) -> Result<(), Fail> {
    let alloc = rt.alloc();
    let mut source = Wide {
        calls: 0,
        faults: 0,
    };
    let mut sink = MemSink::make(alloc, 1 << 20, &[])?;
    let mut buffer = Seq::make(alloc);
    buffer.reserve(401)?;
    let mut lines = Forgetful { lines: 0 };
    let ended = drive(alloc, &mut lines, &mut buffer, &mut source, &mut sink);
    assert_eq!(rt; sink.bytes(), b"1 memory\n2 memory\n3 memory\n".as_slice());
    assert_eq!(rt; ended, Status::SomeMemory);
    Ok(())
}
