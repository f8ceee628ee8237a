// The steps of a sheet, played on a board. Both buffers are parameters of their own, as in the board's calls: they are lent, and a
// write changes one of them.
#![tactic(auto)]

pub mod ended;
pub mod inside;

ghost use Rattle.std.specs.Prelude.{◌≡◌, replicate};
ghost use Rattle.vrc6.specs.Boards.{held_by};
ghost use Rattle.vrc6_calls.specs.Lists.{after, next};
ghost use Rattle.scene_board.specs.Played.{calls_of, step_calls};

pub use ended::{Ended, Scene, SceneEnd, Shown};
use scene_steps::Step;
use vrc6::Board;
use vrc6_calls::{Call, step};

// A call, without its answer.
fn call(board: Board, fixed: &[u8], changing: &mut [u8], made: Call) -> Board
    ensures { held_by result fixed.now changing.new
        ≡ next (held_by board fixed.now changing.old) made }
{
    step(board, fixed, changing, made).board
}

// n clocks.
fn clocks(given: Board, fixed: &[u8], changing: &mut [u8], n: u32) -> Board
    ensures { held_by result fixed.now changing.new
        ≡ after (held_by given fixed.now changing.old) (replicate n Call.Clock) }
{
    let mut board = given;
    for _ in 0..n {
        board = call(board, fixed, changing, Call::Clock);
    }
    board
}

// A step.
pub(crate) fn play_step(board: Board, fixed: &[u8], changing: &mut [u8], given: Step) -> Board
    ensures { held_by result fixed.now changing.new
        ≡ after (held_by board fixed.now changing.old) (step_calls given) }
{
    match given {
        Step::Write(addr, val) => call(board, fixed, changing, Call::CpuWrite(addr, val)),
        Step::Clocks(n) => clocks(board, fixed, changing, n),
        Step::Reset => call(board, fixed, changing, Call::SoftReset),
    }
}

// Plays steps one after the other.
pub fn play(given: Board, fixed: &[u8], changing: &mut [u8], steps: &[Step]) -> Board
    ensures { held_by result fixed.now changing.new
        ≡ after (held_by given fixed.now changing.old) (calls_of steps.now) }
{
    let mut board = given;
    for step in steps {
        board = play_step(board, fixed, changing, *step);
    }
    board
}
