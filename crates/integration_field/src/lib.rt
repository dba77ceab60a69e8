// The integration field: 100 cells of 32 bits, the cost in the low 16 and flags above, and the list of its corners.
#![tactic(auto)]

ghost use Rattle.std.specs.Prelude.{◌≡◌};
ghost use Rattle.integration_field.specs.Listed.{zero_field};
ghost use Rattle.integration_field.specs.Answer.{refusal};

// A field's 100 cells, its list of corners, `count` of them in the first places of `los_corners`, and for each cell the position in that
// list of the corner that it belongs to, 255 where it has none.
#[repr(C)]
#[derive(Clone, Copy)]
pub struct IntegrationField {
    pub field: [u32; 100],
    pub los_corners: [usize; 100],
    pub count: usize,
    pub positions: [u8; 100],
}

// What building answers: its number, the built field and how many waves changed a cell.
#[repr(C)]
#[derive(Clone, Copy)]
pub struct BuildAnswer {
    pub number: u8,
    pub field: IntegrationField,
    pub waves: usize,
}

impl IntegrationField {
    // The field of a refused answer.
    pub fn zeros() -> IntegrationField
        ensures { result ≡ zero_field }
    {
        IntegrationField {
            field: [0; 100],
            los_corners: [0; 100],
            count: 0,
            positions: [0; 100],
        }
    }
}

// A refused answer: its number, and every other part zero.
pub fn refused(number: u8) -> BuildAnswer
    ensures { result ≡ refusal number }
{
    BuildAnswer {
        number,
        field: IntegrationField::zeros(),
        waves: 0,
    }
}
