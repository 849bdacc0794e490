//! A sink over one's own writer: the report goes wherever its bytes are taken.

use std::io;
use std::io::Write;
use stm_library::{OpenGate, Options, Out, run_bytes};

/// Counts lines.
#[derive(Drop)]
struct Lines {
    count: u64,
}

impl Write for Lines {
    fn write(&mut self, piece: &[u8]) -> io::Result<usize> {
        for byte in piece {
            if *byte == b'\n' {
                self.count = self.count.saturating_add(1);
            }
        }
        Ok(piece.len())
    }

    fn flush(&mut self) -> io::Result<()> {
        Ok(())
    }
}

#[test]
fn lines_are_counted(rt: HostRuntime) {
    let file = "(var x 5)(tx inc (set x (add x 1)) x)(run inc 2)";
    let Some(options) = Options::new(4, 8, 0) else {
        panic!(rt; "no options");
    };
    let mut out = Out::new(Lines { count: 0 });
    let ran = run_bytes(
        &rt,
        rt.alloc(),
        file.as_bytes(),
        options,
        &OpenGate,
        &mut out,
    );
    assert!(rt; ran.is_ok());
    assert_eq!(rt; out.into_inner().count, 7);
}
