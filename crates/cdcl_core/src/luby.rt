//! How many conflicts a search goes through before it starts anew.

ghost use Rattle.std.specs.Prelude.{◌≡◌, ◌*◌, ◌≤◌, ◌<◌, ◌^◌, ◌-◌, suc, min, true, false};
ghost use Rattle.cdcl_core.specs.Luby.{luby};

/// The number at this place of Luby's sequence, counted from 0.
fn luby_number(place: u64) -> u64
    ensures number { result ≡ luby place }
{
    let mut place = place;
    // How many numbers there are in a turn. The turn behind it is this one twice, and one number more.
    let mut turn = u64::MAX;
    'turn: while turn > 0 {
        if place >= turn {
            place -= turn;
            if place == turn {
                return turn + 1;
            }
        }
        turn /= 2;
    }
    1
}

/// Where a search stands on its way to the next start: 64 conflicts for each unit of Luby's sequence, that is 64, 64, 128,
/// 64, 64, 128, 256 and so on.
#[derive(Drop)]
pub struct Pace {
    // How many starts were made.
    pub starts: u64,
    // How many conflicts are left before the next one.
    pub left: u128,
}

impl Pace {
    /// At the first number.
    pub fn new() -> Pace
        ensures starts { result.starts ≡ 0 }
        ensures left { result.left ≡ 64 * luby 0 }
    {
        Pace {
            starts: 0,
            left: 64,
        }
    }

    /// Counts a conflict, and tells whether it is time to start anew: exactly where it was the last one that was left. Then
    /// the sequence's next number begins; the 2^64th is the last and comes again and again.
    pub fn tick(&mut self) -> bool
        ensures early { result ≡ false → (1 < self.old.left) × (self.new.starts ≡ self.old.starts) × (self.new.left ≡ self.old.left - 1) }
        ensures due { result ≡ true → (self.old.left ≤ 1) × (self.new.starts ≡ min (suc self.old.starts) (2 ^ 64 - 1)) × (self.new.left ≡ 64 * luby self.new.starts) }
    {
        if self.left > 1 {
            self.left -= 1;
            return false;
        }
        self.starts = self.starts.saturating_add(1);
        self.left = 64 * luby_number(self.starts) as u128;
        true
    }
}
