// One hour of the board: the host sets what the probes measure and which spans are silent, then each tower works.
ghost use Rattle.std.specs.Prelude.{◌≡◌, Ok};
ghost use Rattle.towers.specs.declared.tower.Tower.TheVariants.{One, Two};
ghost use Rattle.towers.specs.Work.{after_both};
ghost use Rattle.dryer_board.specs.Board.{board_cells, board_shape};
ghost use Rattle.dryer_board.specs.Hour.{with_service, with_hour, found, board_answers, counted_all, ReachesTowers, Silence};

use super::board::BoardBus;
use bus::refusal::Refusal;
use dryer::plant;
use dryer::plant::Readings;
use dryer::tally::{Call, Tally};
use span::spans::Spans;
use towers::work;
use towers::work::BothAnswers;

// What the probes of the two towers measure, and which spans are silent.
#[derive(Clone, Copy, Debug, PartialEq, Eq)]
pub struct Hour {
    pub one: Readings,
    pub two: Readings,
    pub silent: Spans,
}

// Puts the probes and the valves of both towers into service.
pub fn set_up(board: &mut BoardBus<'_>) -> Result<(), Refusal>
    ensures answer { result ≡ Ok tt }
    ensures board { board.new ≡ with_service board.old }
    ensures reach { ReachesTowers board.old board.new }
{
    plant::set_up(&mut board.below.low.low)?;
    plant::set_up(&mut board.below.low.high.below)
}

// Sets both banks and the spans.
fn set_hour(board: &mut BoardBus<'_>, hour: &Hour) -> Result<(), Refusal>
    ensures answer { result ≡ Ok tt }
    ensures board { board.new ≡ with_hour hour.now board.old }
{
    board.set_spans(hour.silent);
    plant::set_readings(&mut board.below.low.low, hour.one)?;
    plant::set_readings(&mut board.below.low.high.below, hour.two)
}

// What the calls of an hour answered.
#[derive(Clone, Copy, Debug, PartialEq, Eq)]
pub struct BoardAnswers {
    pub set: Result<(), Refusal>,
    pub towers: BothAnswers,
}

// The host sets the hour, then the towers work.
pub fn play_hour(
    board: &mut BoardBus<'_>,
    number: u8,
    hour: &Hour,
    tally: &mut Tally,
) -> BoardAnswers
    ensures answer { result ≡ board_answers number (found hour.now board.old) }
    ensures cells { board_cells board.new ≡ after_both number (found hour.now board.old) }
    ensures shape { board_shape board.new ≡ board_shape (with_hour hour.now board.old) }
    ensures tally { tally.new ≡ counted_all result tally.old }
    ensures one { Silence One number hour.now board.old result.towers.one (board_cells board.new) }
    ensures two { Silence Two number hour.now board.old result.towers.two (board_cells board.new) }
{
    let set = set_hour(board, hour);
    tally.count(Call::Set, &set);
    let towers = work::work_both(board, number, tally);
    BoardAnswers { set, towers }
}
