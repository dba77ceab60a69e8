// A cart's moves over a floor, by the bytes of its sheet: one move, and the moves until the cart stands still.
#![tactic(auto)]

ghost use Rattle.std.specs.Prelude.{◌≡◌, IfOk};
ghost use Rattle.refusals.specs.Refusal.{told};
ghost use Rattle.leg_journey.specs.Place.{place_of, arrow_at};
ghost use Rattle.leg_moves.specs.Moving.{still_outcome, byte_at};
ghost use Rattle.leg_moves.specs.Answers.{cart_number, accepted_move, stood, move_from, move_answer, way_from, way_answer};
ghost use Rattle.leg_moves.specs.Promise.{CartNumbered, MoveRefused, WayRefused, MoveTold, WayTold, LegDriven, WayToGoal};
ghost use Rattle.leg_moves.specs.Inner.{outcome_number, place_at, LeadsOn};

mod spot;

use refusals::Refusal;
use spot::Spot;

// What a move is answered with: its number, its outcome, and the place by its sector and cell.
#[repr(C)]
#[derive(Clone, Copy)]
pub struct CartMove {
    pub number: u8,
    pub outcome: u8,
    pub sector: u8,
    pub cell: u8,
}

// What a way is answered with: its number, its outcome, the place where the cart stands still, and after how many moves.
#[repr(C)]
#[derive(Clone, Copy)]
pub struct CartWay {
    pub number: u8,
    pub outcome: u8,
    pub sector: u8,
    pub cell: u8,
    pub moves: u16,
}

// What a cart's move or way comes to.
#[derive(Clone, Copy)]
enum Outcome {
    // It stands still where the byte reads neither as goal nor as in sight.
    Stopped,
    // It moved.
    Moved,
    // It stands still at the goal.
    Arrived,
    // It stands still in sight of the goal.
    InSight,
    // It never stands still.
    Never,
}

impl Outcome {
    // The number that it is answered by.
    fn number(self) -> u8
        ensures { result ≡ outcome_number self }
    {
        match self {
            Outcome::Stopped => 0,
            Outcome::Moved => 1,
            Outcome::Arrived => 2,
            Outcome::InSight => 3,
            Outcome::Never => 4,
        }
    }
}

// The byte of a place.
fn byte_at(sheet: &[u8; 6400], place: Spot) -> u8
    ensures { result ≡ byte_at sheet.now (place_at place) }
{
    sheet[place.index()]
}

// Where a move leads from a place.
fn move_from(sheet: &[u8; 6400], place: Spot) -> Option<Spot>
    ensures { LeadsOn (arrow_at sheet.now (place_at place)) place result }
{
    place.led_by(byte_at(sheet, place))
}

// The outcome of a cart that stands still, by the byte of its place.
fn still_outcome(byte: u8) -> Outcome
    ensures { outcome_number result ≡ still_outcome byte }
{
    if flow_bits::is_goal(byte) {
        return Outcome::Arrived;
    }
    if flow_bits::has_line_of_sight(byte) {
        return Outcome::InSight;
    }
    Outcome::Stopped
}

// The sheet of a call, of a floor's 6,400 bytes, or why the call is refused.
#[tactic(auto, unfolding(crate::specs::Answers::cart_number))]
fn accepted_sheet(sheet: &[u8], sector: u8, cell: u8) -> Result<&[u8; 6400], Refusal>
    ensures number { told result ≡ cart_number sheet.now sector cell }
    ensures sheet { IfOk result (λ s. s.now ≡ sheet.now) }
{
    let Ok(sheet) = <&[u8; 6400]>::try_from(sheet) else {
        return Err(Refusal::Sheet);
    };
    if 63 < sector {
        return Err(Refusal::StepBytes);
    }
    if 99 < cell {
        return Err(Refusal::Goal);
    }
    Ok(sheet)
}

// An accepted move.
fn accepted_move(outcome: Outcome, place: Spot) -> CartMove
    ensures { result ≡ accepted_move (outcome_number outcome) (place_at place) }
{
    CartMove {
        number: 0,
        outcome: outcome.number(),
        sector: place.sector(),
        cell: place.cell(),
    }
}

// What one move comes to: the place where it leads, or that the cart stands still.
fn moved_from(sheet: &[u8; 6400], here: Spot) -> CartMove
    ensures { result ≡ move_from sheet.now (place_at here) }
{
    match move_from(sheet, here) {
        Some(there) => accepted_move(Outcome::Moved, there),
        None => accepted_move(still_outcome(byte_at(sheet, here)), here),
    }
}

// One move: number 2 for a sheet that is not 6,400 bytes, 4 for a sector over 63, 5 for a cell over 99. Nothing that is lent is written.
pub fn next_move(sheet: &[u8], sector: u8, cell: u8) -> CartMove
    ensures answer { result ≡ move_answer sheet.now sector cell }
    ensures numbers { CartNumbered sheet.now sector cell result.number }
    ensures refused { (result.number ≡ 0 → ⊥) → MoveRefused result }
    ensures told { result.number ≡ 0 → MoveTold sheet.now (place_of sector cell) result }
    ensures driven { LegDriven sheet.now }
{
    match accepted_sheet(sheet, sector, cell) {
        Ok(sheet) => moved_from(sheet, Spot::place_of(sector, cell)),
        Err(refusal) => CartMove {
            number: refusal.number(),
            outcome: 0,
            sector: 0,
            cell: 0,
        },
    }
}

// An accepted way.
fn stood_at(outcome: Outcome, moves: u16, place: Spot) -> CartWay
    ensures { result ≡ stood (outcome_number outcome) moves (place_at place) }
{
    CartWay {
        number: 0,
        outcome: outcome.number(),
        sector: place.sector(),
        cell: place.cell(),
        moves,
    }
}

// The moves until the cart stands still. The places on a way that ends are all different, and a floor has 6,400: a cart that still moves after so
// many never stands still.
fn way_from(sheet: &[u8; 6400], here: Spot) -> CartWay
    ensures { result ≡ way_from sheet.now (place_at here) }
{
    let mut at = here;
    for moves in 0..6400 {
        let Some(there) = move_from(sheet, at) else {
            return stood_at(still_outcome(byte_at(sheet, at)), moves, at);
        };
        at = there;
    }
    stood_at(Outcome::Never, 0, here)
}

// The moves of a cart until it stands still, or that it never does; its numbers are those of `next_move`. Nothing that is lent is written.
pub fn way(sheet: &[u8], sector: u8, cell: u8) -> CartWay
    ensures answer { result ≡ way_answer sheet.now sector cell }
    ensures numbers { CartNumbered sheet.now sector cell result.number }
    ensures refused { (result.number ≡ 0 → ⊥) → WayRefused result }
    ensures told { result.number ≡ 0 → WayTold sheet.now (place_of sector cell) result }
    ensures to_goal { result.number ≡ 0 → WayToGoal sheet.now sector cell result }
{
    match accepted_sheet(sheet, sector, cell) {
        Ok(sheet) => way_from(sheet, Spot::place_of(sector, cell)),
        Err(refusal) => CartWay {
            number: refusal.number(),
            outcome: 0,
            sector: 0,
            cell: 0,
            moves: 0,
        },
    }
}
