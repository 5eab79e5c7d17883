ghost use Rattle.std.specs.Prelude.{◌≡◌};
ghost use Rattle.litmus_syntax.specs.CallKinds.{is_sync, is_boundary, is_setup_call, is_body_call};
ghost use Rattle.litmus_syntax.specs.Transactions.{open_behind, suits};

use litmus_syntax::Call;

/// Whether the call only waits for the disk.
pub fn is_sync(call: &Call) -> bool
    ensures { result ≡ is_sync call.now }
{
    matches!(
        call,
        Call::Fsync { .. } | Call::FsyncDir { .. } | Call::Sync
    )
}

/// Whether the call begins or commits a transaction.
pub fn is_boundary(call: &Call) -> bool
    ensures { result ≡ is_boundary call.now }
{
    matches!(call, Call::Begin | Call::Commit)
}

/// Whether the call may stand in the setup.
pub fn is_setup_call(call: &Call) -> bool
    ensures { result ≡ is_setup_call call.now }
{
    !matches!(
        call,
        Call::Fsync { .. }
            | Call::FsyncDir { .. }
            | Call::Sync
            | Call::Mark { .. }
            | Call::Begin
            | Call::Commit
    )
}

/// Whether the call may stand in the body.
pub fn is_body_call(call: &Call) -> bool
    ensures { result ≡ is_body_call call.now }
{
    !matches!(call, Call::Mkdir { .. })
}

/// Whether the call may stand where a transaction is open, or where none is.
pub fn suits(inside: bool, call: &Call) -> bool
    ensures { result ≡ suits inside call.now }
{
    match call {
        Call::Begin => !inside,
        Call::Commit => inside,
        Call::Fsync { .. } | Call::FsyncDir { .. } | Call::Sync | Call::Mark { .. } => !inside,
        _ => true,
    }
}

/// Whether a transaction is open behind the call, one being open before it or not.
pub fn is_open_behind(inside: bool, call: &Call) -> bool
    ensures { result ≡ open_behind inside call.now }
{
    match call {
        Call::Begin => true,
        Call::Commit => false,
        _ => inside,
    }
}
