// Words of a lent table moved down, and words zeroed, in place. Each is shown as the whole table afterwards, or what stands before and behind
// the moved words: so the library's `copy_within` and `fill`, which say this of a slice, are told once for all who call them on a part of a table.
// Asks that the words lie inside the table.
ghost use Rattle.std.specs.Prelude.{◌≡◌, ◌++◌, ◌+◌, ◌-◌, ◌≤◌, pos, length, take, drop, replicate};
ghost use Rattle.std.proofs.Common.{rules};
ghost use Rattle.tables.specs.Runs.{Down};

// The words from..from + count moved down to start at `to`.
pub fn move_down<T: Copy>(t: &mut [T], from: usize, to: usize, count: usize)
    requires { (to ≤ from) × (from + count ≤ length t.old) }
    ensures { Down t.old t.new from to count }
{
    t.copy_within(from..from + count, to);
}

// A word that is copied as it is, and the zero that stands where none is left.
pub trait Word: Copy {
    ghost ZERO: { Self };

    const ZERO: Self;

    ghost copied: { Self.is_infallible ZERO };

    ghost same: { (w : Self) → Self.is_clone ZERO w → w ≡ ZERO };
}

impl Word for u64 {
    ghost ZERO = { 0 };

    const ZERO: u64 = 0;

    ghost copied = { Prim.search rules };

    ghost same = { Prim.search rules };
}

impl Word for i64 {
    ghost ZERO = { pos 0 };

    const ZERO: i64 = 0;

    ghost copied = { Prim.search rules };

    ghost same = { Prim.search rules };
}

// The words from..to zeroed.
#[tactic(auto, using(crate::proofs::InPlace::zeroed))]
pub fn zero<T: Word>(t: &mut [T], from: usize, to: usize)
    requires { (from ≤ to) × (to ≤ length t.old) }
    ensures { t.new ≡ take from t.old ++ (replicate (to - from) T.ZERO ++ drop to t.old) }
{
    t[from..to].fill(T::ZERO);
}
