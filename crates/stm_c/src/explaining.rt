//! Why a file is refused.

ghost use Rattle.std.specs.Prelude.{◌≡◌, ◌≢◌, ◌⊎◌, ◌++◌, [], codes, pos, IfOk, string_bytes};
ghost use Rattle.explain_files.specs.Explaining.{IsRefused};
ghost use Rattle.explain_files.specs.Telling.{IsLineWith, head_of};
ghost use Rattle.stm_c.specs.Explained.{IsExplainedBy, IsRefusedThere};
ghost use Rattle.stm_c.specs.Rooms.{Holds, TooShort};

use crate::codes::{MEMORY, SHORT, file_fault};
use crate::writing::copy;
use explain_files::{Explanation, Refusal, explain, position_of, told};
use std::alloc::{AllocError, Global};

/// Why a file is refused, and where: the line and the column, both from 1 and in bytes, and how many bytes stand before
/// it. All are 0 where it is read.
#[repr(C)]
#[derive(Clone, Copy)]
pub struct Explained {
    pub code: i32,
    pub line: usize,
    pub column: usize,
    pub place: usize,
}

/// Whether the bytes are read as a file, or where and why they are refused: 0, and `out` has the kind of the first
/// fault (-1 to -5, -7) with its place, and the room the words that tell it, in one line, without the newline; of a
/// file that is read `out` has 0 throughout, and there are no words. -8: the room is too short; `out` is written, and
/// `wanted` is how much is needed. -6: out of memory, and nothing is written but 0 to `wanted`. It takes time and
/// memory linear in the file.
#[unsafe(no_mangle)]
pub extern "C" fn stm_explain(
    alloc: Global,
    file: &[u8],
    out: &mut Explained,
    room: &mut [u8],
    wanted: &mut usize,
) -> i32
    ensures done { result ≡ pos 0 → Holds (IsExplainedBy file.now out.new) room.old room.new wanted.new }
    ensures too_short { result ≡ SHORT → TooShort (IsExplainedBy file.now out.new) room.old room.new wanted.new }
    ensures answers { (result ≡ pos 0) ⊎ (result ≡ SHORT) ⊎ (result ≡ MEMORY) }
    ensures none { result ≡ MEMORY → (wanted.new ≡ 0) × (out.new ≡ out.old) }
    ensures kept { result ≢ pos 0 → room.new ≡ room.old }
{
    *wanted = 0;
    match explain(alloc, file) {
        Ok(Explanation::Good) => {
            *out = nowhere();
            0
        }
        Ok(Explanation::Refused(refusal)) => tell(alloc, file, &refusal, out, room, wanted),
        Err(_) => MEMORY,
    }
}

/// There is no fault.
fn nowhere() -> Explained
    ensures { result ≡ record { code = pos 0; line = 0; column = 0; place = 0 } }
{
    Explained {
        code: 0,
        line: 0,
        column: 0,
        place: 0,
    }
}

/// Tells this refusal.
fn tell(
    alloc: Global,
    file: &[u8],
    refusal: &Refusal,
    out: &mut Explained,
    room: &mut [u8],
    wanted: &mut usize,
) -> i32
    requires { IsRefused file.now refusal.now }
    ensures done { result ≡ pos 0 → Holds (IsRefusedThere file.now out.new) room.old room.new wanted.new }
    ensures too_short { result ≡ SHORT → TooShort (IsRefusedThere file.now out.new) room.old room.new wanted.new }
    ensures answers { (result ≡ pos 0) ⊎ (result ≡ SHORT) ⊎ (result ≡ MEMORY) }
    ensures none { result ≡ MEMORY → (wanted.new ≡ wanted.old) × (out.new ≡ out.old) }
    ensures kept { result ≢ pos 0 → room.new ≡ room.old }
{
    let Ok(text) = told(alloc, file, refusal) else {
        return MEMORY;
    };
    let at = position_of(file, refusal.place);
    *out = Explained {
        code: file_fault(refusal.kind),
        line: at.line,
        column: at.column,
        place: refusal.place,
    };
    let line = text.as_bytes();
    copy(&line[..line.len() - 1], room, wanted)
}
