// Building an integration field: waves of offers from its corners, one wave a call.
#![tactic(auto)]

ghost use Rattle.std.specs.Prelude.{◌≡◌, ◌&&◌, ◌≤◌, true, IfOk, eqb, length};
ghost use Rattle.utilities.specs.Compass.{orthogonal};
ghost use Rattle.refusals.specs.Refusal.{told};
ghost use Rattle.fields.specs.Cell.{cell_at, stepped};
ghost use Rattle.fields.specs.CellList.{held};
ghost use Rattle.integration_field.specs.Listed.{list_of, padded, Indexes};
ghost use Rattle.integration_field.specs.Wave.{is_written, relaxed, offered, offered_around, offered_by};
ghost use Rattle.integration_field.specs.Built.{wave_count};
ghost use Rattle.integration_field.specs.Answer.{answer_of, all_cells, Accepted, build_number, build_answer};
ghost use Rattle.integration_field.specs.Promise.{LeastWalks, Counted, EarliestCorners, ListKept, BuildRefused};
ghost use Rattle.integration_walks.specs.Promise.{BuildsStarted};
ghost use Rattle.flow_arrows.specs.Promise.{StartedArrows};
ghost use Rattle.integration_build.specs.Without.{built_without};
ghost use Rattle.integration_build.specs.Wavefront.{Settles, SettlesFrom};
ghost use Rattle.integration_build.specs.Inner.{ChangedCells, RelaxReady, OfferReady, WavesReady, WaveReady};

use fields::{CellList, FieldCell};
use integration_field::{BuildAnswer, IntegrationField};
use refusals::Refusal;
use utilities::CompassDir;

// Whether a sum offered to a cell is written there: neither wall nor in sight, and strictly smaller.
fn is_written(old: u32, sum: u32) -> bool
    ensures { result ≡ is_written old sum }
{
    !integration_bits::is_impassable(old)
        && !integration_bits::is_los(old)
        && sum < integration_bits::low_bits(old)
}

// Whether an offer is the first of this wave that is written to a cell: the cell still held its word from before the wave.
fn is_first(written: bool, old: u32, before: u32) -> bool
    ensures { result ≡ (written && eqb old before) }
{
    written & (old == before)
}

// What a wave works on is handed on part by part: each method of a struct of references would have to promise that they stay the same references.

// Offers a sum to a cell, which takes it if `is_written` says so. The first sum of a wave that a cell takes lists it for the next wave, so that each
// changed cell is listed once.
fn relax(
    cells: &mut [u32; 100],
    before: &[u32; 100],
    next: &mut CellList<100>,
    index: usize,
    sum: u32,
)
    requires { RelaxReady before.now cells.old next.old index sum }
    ensures offers { cells.new ≡ relaxed sum index cells.old }
    ensures changes { ChangedCells before.now cells.new next.new }
{
    let old = cells[index];
    let written = is_written(old, sum);
    // Cell and list are written in either case: with a branch that depends on a cell, sectors on random floors took 19 to 28 % longer. The list has a
    // place left, since a cell with the least value never changes in a wave.
    let new = if written { sum } else { old };
    cells[index] = new;
    let first = is_first(written, old, before[index]);
    next.push_if(first, index as u8);
}

// Offers a cell's value plus the neighbour's cost to the neighbour in one direction, if there is one: the whole sum is compared, not its low 16 bits.
// The step says whether there is a neighbour; its index is worked out from the cell's own.
fn offer_towards(
    cells: &mut [u32; 100],
    costs: &[u8; 100],
    before: &[u32; 100],
    next: &mut CellList<100>,
    value: u32,
    from: usize,
    dir: CompassDir,
)
    requires { OfferReady before.now cells.old next.old value }
    ensures offers { cells.new ≡ offered costs.now value (stepped (cell_at from) dir) cells.old }
    ensures changes { ChangedCells before.now cells.new next.new }
{
    let here = FieldCell::from_index(from);
    let Some(_) = here.get_in_compass_direction(dir) else {
        return;
    };
    let index = fields::index_beside(from, dir);
    let sum = value + u32::from(costs[index]);
    relax(cells, before, next, index, sum);
}

// Offers a cell's value to its four neighbours.
fn offer_around(
    cells: &mut [u32; 100],
    costs: &[u8; 100],
    before: &[u32; 100],
    next: &mut CellList<100>,
    value: u32,
    from: usize,
)
    requires { OfferReady before.now cells.old next.old value }
    ensures offers { cells.new ≡ offered_around costs.now value (cell_at from) orthogonal cells.old }
    ensures changes { ChangedCells before.now cells.new next.new }
{
    for dir in [
        CompassDir::North,
        CompassDir::East,
        CompassDir::South,
        CompassDir::West,
    ] {
        offer_towards(cells, costs, before, next, value, from, dir);
    }
}

// One wave: each cell of the wavefront offers the value that the wave before left in it. The cells that change are listed.
fn offer_wave(
    cells: &mut [u32; 100],
    costs: &[u8; 100],
    before: &[u32; 100],
    wave: &CellList<100>,
    next: &mut CellList<100>,
)
    requires { (Indexes 100 wave.now.cells wave.now.count) × ChangedCells before.now cells.old next.old }
    ensures offers { cells.new ≡ offered_by costs.now before.now (held wave.now) cells.old }
    ensures changes { ChangedCells before.now cells.new next.new }
{
    for &cell in &wave.cells[..wave.count] {
        let from = usize::from(cell);
        let value = integration_bits::low_bits(before[from]);
        offer_around(cells, costs, before, next, value, from);
    }
}

// The waves from a wavefront on, one a call, at most `falling` of them; `waves` were counted before. The wavefront, the list for the cells that it changes
// and the places for the words from before it are lent from above, and the two lists change places in the call for the next wave, which is the last
// thing that a wave does. So a wave takes no memory of its own. Answers how many waves changed a cell, with those counted before.
fn propagate_integrated_wavefront(
    costs: &[u8; 100],
    cells: &mut [u32; 100],
    before: &mut [u32; 100],
    wavefront: &mut CellList<100>,
    next: &mut CellList<100>,
    waves: usize,
    falling: usize,
) -> usize
    requires { WaveReady cells.old wavefront.old next.old waves falling }
    ensures { SettlesFrom costs.now cells.old (held wavefront.old) waves falling cells.new result }
{
    if falling == 0 {
        return waves;
    }
    // No cell offers, so none changes: a field without corners.
    if wavefront.count == 0 {
        return waves;
    }
    *before = *cells;
    next.count = 0;
    offer_wave(cells, costs, before, wavefront, next);
    if next.count == 0 {
        return waves;
    }
    propagate_integrated_wavefront(
        costs,
        cells,
        before,
        next,
        wavefront,
        waves + 1,
        falling - 1,
    )
}

// Runs the waves of building, from the first wavefront on. What they are lent is held here, once for all of them. A limit of 100 waves cuts nothing off:
// every limit from 99 on gives the same answer. Answers how many waves changed a cell.
fn run_waves(costs: &[u8; 100], cells: &mut [u32; 100], wavefront: &mut CellList<100>) -> usize
    requires { WavesReady cells.old wavefront.old }
    ensures { Settles costs.now cells.old (held wavefront.old) 100 cells.new result }
{
    let mut before = [0; 100];
    let mut next = CellList::none();
    propagate_integrated_wavefront(costs, cells, &mut before, wavefront, &mut next, 0, 100)
}

// Whether each of the corners is the index of a cell.
fn corners_inside(corners: &[usize]) -> bool
    ensures { result ≡ all_cells corners.now }
{
    corners.iter().all(|&corner| corner < 100)
}

// Wave 0: the listed corners.
fn corner_wave(corners: &[usize]) -> CellList<100>
    requires { (length corners.now ≤ 100) × (all_cells corners.now ≡ true) }
    ensures { result ≡ record { cells = padded corners.now; count = length corners.now } }
{
    let mut wave = CellList::none();
    for &corner in corners {
        wave.push(corner as u8);
    }
    wave
}

// Builds the cells of a field whose corners are cells of the sector, in the field, and puts 0 in the places beyond its corners. Answers how many waves
// changed a cell.
fn build_cells(costs: &[u8; 100], field: &mut IntegrationField) -> usize
    requires { Accepted costs.now field.old }
    ensures built { field.new ≡ built_without costs.now field.old }
    ensures waves { result ≡ wave_count costs.now field.old }
{
    let count = field.count;
    let mut wavefront = corner_wave(&field.los_corners[..count]);
    field.los_corners[count..].fill(0);
    run_waves(costs, &mut field.field, &mut wavefront)
}

// Builds a field whose corners are cells of the sector, but for its positions, which stay as they were given: for callers that answer no field.
pub fn build_without_positions(costs: &[u8; 100], given: IntegrationField) -> IntegrationField
    requires { Accepted costs.now given }
    ensures { result ≡ built_without costs.now given }
{
    let mut field = given;
    build_cells(costs, &mut field);
    field
}

// Builds a field whose corners are cells of the sector, with its positions: for callers that answer the field. It is built inside the record that is
// answered, so that it lies on the stack once.
pub fn build_with_positions(costs: &[u8; 100], given: IntegrationField) -> BuildAnswer
    requires { Accepted costs.now given }
    ensures { result ≡ answer_of 0 costs.now given }
{
    let mut answer = BuildAnswer {
        number: 0,
        field: given,
        waves: 0,
    };
    answer.waves = build_cells(costs, &mut answer.field);
    answer.field.positions = integration_positions::corner_positions(
        costs,
        &given.field,
        &answer.field.field,
        &answer.field.los_corners,
        answer.field.count,
    );
    answer
}

// The cost bytes as an array, if a field given by hand can be built on them, or why not.
fn buildable<'a>(costs: &'a [u8], field: &IntegrationField) -> Result<&'a [u8; 100], Refusal>
    ensures number { told result ≡ build_number costs.now field.now }
    ensures accepted { IfOk result (λ held. (held.now ≡ costs.now) × Accepted costs.now field.now) }
{
    let Ok(held) = <&[u8; 100]>::try_from(costs) else {
        return Err(Refusal::CostBytes);
    };
    let count = field.count;
    if count <= 100 && corners_inside(&field.los_corners[..count]) {
        return Ok(held);
    }
    Err(Refusal::Corners)
}

// Builds a field given by hand on 100 cost bytes, or answers why not: 1 or 11.
pub fn build(costs: &[u8], field: IntegrationField) -> BuildAnswer
    ensures answer { result ≡ build_answer costs.now field }
    ensures least { result.number ≡ 0 → LeastWalks costs.now field.field (list_of field) result.field.field }
    ensures counted { result.number ≡ 0 → Counted costs.now field.field (list_of field) result.field.field result.waves }
    ensures positions { result.number ≡ 0 → EarliestCorners costs.now field.field (list_of field) result.field.field result.field.positions }
    ensures started { BuildsStarted costs.now field result }
    ensures arrows { StartedArrows costs.now field result.field.field }
    ensures list { result.number ≡ 0 → ListKept field result.field }
    ensures refused { (result.number ≡ 0 → ⊥) → BuildRefused result }
{
    match buildable(costs, &field) {
        Ok(costs) => build_with_positions(costs, field),
        Err(refusal) => integration_field::refused(refusal.number()),
    }
}
