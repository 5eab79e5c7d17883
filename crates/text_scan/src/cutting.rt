ghost use Rattle.std.specs.Prelude.{◌≡◌, ◌-◌, ◌<◌, ◌&&◌, ◌==◌, nat_lt, if◌then◌else◌, [], ◌∷◌, length, slice_index, IfSome, MatchOption};
ghost use Rattle.text_scan.specs.Lines.{lines_of};

/// How long the line is whose line feed stands at `feed`, without its end.
fn without_return(bytes: &[u8], feed: usize) -> usize
    requires { feed < length bytes.now }
    ensures { result ≡ (if nat_lt 0 feed && (slice_index bytes.now (feed - 1) == 13) then feed - 1 else feed) }
{
    if feed > 0 && bytes[feed - 1] == b'\r' {
        return feed - 1;
    }
    feed
}

/// The first line, and the bytes behind its end; `None` where there are no bytes, and so no line. A line
/// feed ends a line, one carriage return directly before it belongs to the line's end, and a last line may
/// lack the line feed. It takes no memory.
pub fn first_line(bytes: &[u8]) -> Option<(&[u8], &[u8])>
    ensures cut { MatchOption result (bytes.now ≡ []) (λ r. lines_of bytes.now ≡ r.0.now ∷ lines_of r.1.now) }
    ensures fewer { IfSome result (λ r. length r.1.now < length bytes.now) }
{
    if bytes.is_empty() {
        return None;
    }
    for (i, byte) in bytes.iter().enumerate() {
        if *byte == b'\n' {
            let text = without_return(bytes, i);
            let (line, _) = bytes.split_at(text);
            let (_, behind) = bytes.split_at(i + 1);
            return Some((line, behind));
        }
    }
    Some(bytes.split_at(bytes.len()))
}
