// Where the lines of corners end, from a table of all pairs of corner and goal.
#![tactic(auto)]

mod ends;

ghost use Rattle.std.specs.Prelude.{◌<◌};
ghost use Rattle.line_end_table.specs.Ends.{EndsFor};

// The ends of one goal's lines: for each corner the index of the cell that its line ends in, read from the table. A constant table is laid out on the
// stack where it is used. So it is used here alone, once for a field, and is gone from the stack when its hundred ends are answered.
pub fn read_ends(goal: usize) -> [u8; 100]
    requires { goal < 100 }
    ensures { EndsFor goal result }
{
    let mut table = [[0; 100]; 100];
    ends::lay_out(&mut table);
    std::array::from_fn(|corner| table[corner][goal])
}
