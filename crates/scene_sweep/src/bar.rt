// The bar under a sweep: 64 columns, each a share of the clocks that were swept.
ghost use Rattle.std.specs.Prelude.{◌≡◌, ◌<◌, ◌≤◌, map};
ghost use Rattle.scene_sweep.specs.Bars.{MarkedOn, Unmarked, column, worse};

use scene_moments::verdict::Mark;

const COLUMNS: u64 = 64;

// The column in which a 64th part of clock k of n lies.
#[tactic(auto, using(crate::proofs::Columns::below))]
fn column(k: u32, part: u64, n: u32) -> usize
    requires { (k < n) × (part < 64) }
    ensures { (result ≡ column k part n) × (result < 64) }
{
    ((COLUMNS * u64::from(k) + part) / u64::from(n)) as usize
}

// The bar of no clock.
pub fn unmarked() -> [Mark; 64]
    ensures { Unmarked result }
{
    [Mark::Right; 64]
}

// Raises columns to a mark. A column keeps a worse one.
fn raise(columns: &mut [Mark], mark: Mark)
    ensures { columns.new ≡ map (worse mark) columns.old }
{
    for column in columns.iter_mut() {
        *column = (*column).max(mark);
    }
}

// Marks the columns of the clocks from `from` to before `to`, of n.
pub fn mark(bar: &mut [Mark; 64], from: u32, to: u32, n: u32, mark: Mark)
    requires { (from < to) × (to ≤ n) }
    ensures { MarkedOn n from to mark bar.old bar.new }
{
    let first = column(from, 0, n);
    let last = column(to - 1, COLUMNS - 1, n);
    raise(&mut bar[first..last + 1], mark);
}
