// Why a call is refused: the lines of the table of numbers, each by a name, and the number that an answer carries to C.
#![tactic(auto)]

ghost use Rattle.std.specs.Prelude.{◌≡◌};
ghost use Rattle.refusals.specs.Refusal.{number_of, told};

// A line of the table of numbers, in the order of its numbers, from 1 to 21.
#[derive(Clone, Copy, Debug, PartialEq, Eq)]
pub enum Refusal {
    // 1: the cost bytes are not 100, or a leg's floor not 6,400.
    CostBytes,
    // 2: the sheet is not 100 bytes, or a floor's not 6,400; or the buffer is not as long as the leg's file.
    Sheet,
    // 3: the step is not 8 bytes; or a list of steps is empty, over 128 bytes, or no multiple of 8.
    StepList,
    // 4: a sector is over 63, a step's mark over 1, or one of its last two bytes not 0.
    StepBytes,
    // 5: a goal, or a cart's cell, is over 99.
    Goal,
    // 6: a window cell is over 99, or a boundary over 3.
    Window,
    // 7: a window cell is off the named edge.
    OffEdge,
    // 8: a window's first cell comes after its last.
    FirstAfterLast,
    // 9: a leg's first step has a window, a later one has none, or a sector is named twice.
    LegOrder,
    // 10: the sector across a boundary is not that of the step before, or is off the floor.
    NotAcross,
    // 11: the field to build lists over 100 corners, or a corner over 99.
    Corners,
    // 12: the previous field is not 100 numbers.
    PreviousLength,
    // 13: a column or row is outside 0 to 9.
    Outside,
    // 14: a leg file's mark, version, count or length is wrong.
    LegFile,
    // 15: a window has no cell that counts.
    NoCountingCell,
    // 16: a goal, or a cell of a window, has cost 255.
    OnWall,
    // 17: the step has a window, and no previous field is lent.
    NoPrevious,
    // 18: the step has no window, low is above high somewhere, or 255 is in only one of the two.
    BoundsInput,
    // 19: there are fewer than 2 windows or more than 8.
    WindowCount,
    // 20: a step has no window, or another sector than the first.
    OtherSector,
    // 21: the place is beyond the leg's last step.
    Place,
}

impl Refusal {
    // Its number in the table.
    pub fn number(self) -> u8
        ensures { result ≡ number_of self }
    {
        match self {
            Refusal::CostBytes => 1,
            Refusal::Sheet => 2,
            Refusal::StepList => 3,
            Refusal::StepBytes => 4,
            Refusal::Goal => 5,
            Refusal::Window => 6,
            Refusal::OffEdge => 7,
            Refusal::FirstAfterLast => 8,
            Refusal::LegOrder => 9,
            Refusal::NotAcross => 10,
            Refusal::Corners => 11,
            Refusal::PreviousLength => 12,
            Refusal::Outside => 13,
            Refusal::LegFile => 14,
            Refusal::NoCountingCell => 15,
            Refusal::OnWall => 16,
            Refusal::NoPrevious => 17,
            Refusal::BoundsInput => 18,
            Refusal::WindowCount => 19,
            Refusal::OtherSector => 20,
            Refusal::Place => 21,
        }
    }
}

// The number that a call answers to C: 0 where it is not refused.
pub fn number(outcome: Result<(), Refusal>) -> u8
    ensures { result ≡ told outcome }
{
    match outcome {
        Ok(()) => 0,
        Err(refusal) => refusal.number(),
    }
}
