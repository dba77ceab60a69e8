// How many moves the arrows of a sheet take to arrive: definitions and theorems, and the record of the call.
#![tactic(auto)]

// What the call answers: its number, and for each cell the number of moves after which its arrows arrive, 255 where they never do.
#[repr(C)]
#[derive(Clone, Copy)]
pub struct Arrivals {
    pub number: u8,
    pub moves: [u8; 100],
}
