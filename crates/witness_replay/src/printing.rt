ghost use Rattle.std.specs.Prelude.{◌≡◌, IfOk};
ghost use Rattle.witness_replay.specs.CrashLines.{crash_line};

use fer_events::Crash;
use numerals::push_numbers;
use std::alloc::{AllocError, Global};

/// The line of a crash: the order of the events, with a bar at the cut; behind them where the cut is above how many they
/// are. An error says that there was too little memory.
pub fn print(alloc: Global, crash: &Crash) -> Result<Vec<u8>, AllocError>
    ensures { IfOk result (λ text. text.items ≡ crash_line crash.now) }
{
    let order = crash.order.as_slice();
    let cut = order.len().min(crash.cut as usize);
    let (before, behind) = order.split_at(cut);
    let mut out = Vec::from_slice(alloc, b"order")?;
    push_numbers(&mut out, before)?;
    out.extend_from_slice(b" |")?;
    push_numbers(&mut out, behind)?;
    out.extend_from_slice(b"\n")?;
    Ok(out)
}
