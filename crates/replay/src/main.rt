// Compares our calls with recorded answers, a file for each section: prints how many records agree and a sum of all
// their bytes, or the first record that differs. The answers are the published Rust's; a file that has another judge has
// its name behind a dot: the Rust altered in two rules, the table of refusals, or the model.
#![tactic(auto)]

mod carts;
mod files;
mod floors;
mod flow;
mod integration;
mod legs;
mod lines;
mod refused;
mod seeds;
mod windows;

use std::fs::OpenOptions;
use std::io;
use std::io::Read;
use std::rt::Files;

// How many records agree, and a sum of the bytes that were read.
#[derive(Clone, Copy)]
struct Tally {
    agreed: u64,
    sum: u64,
}

// What comes of the records of a file: all agree, or the next one behind those that agree differs.
#[derive(Clone, Copy)]
enum Compared {
    Agree(Tally),
    Differ(Tally),
}

// The kinds of records, by the calls that they are of.
#[derive(Clone, Copy)]
enum Section {
    Line,
    LineEnd,
    Readers,
    Init,
    Build,
    FlowNew,
    FlowBuild,
    Sector,
    Leg,
    Refusals,
    LegFileWrite,
    LegFileRead,
    Practice,
    PracticeText,
    Bounds,
    WindowCosts,
    WindowTour,
    Arrivals,
    SectorWithoutSight,
    LegWithoutSight,
    Cart,
    LegField,
    LegFieldWithoutSight,
}

impl Section {
    // How long a record is.
    fn record_length(self) -> usize {
        match self {
            Section::Line => 16,
            Section::LineEnd => 8,
            Section::Readers => 8,
            Section::Init => 710,
            Section::Build => 1304,
            Section::FlowNew => 910,
            Section::FlowBuild => 601,
            Section::Sector => 1212,
            Section::Leg => 3330,
            Section::Refusals => 160,
            Section::LegFileWrite => 314,
            Section::LegFileRead => 154,
            Section::Practice => 105,
            Section::PracticeText => 223,
            Section::Bounds => 1115,
            Section::WindowCosts => 496,
            Section::WindowTour => 263,
            Section::Arrivals => 203,
            Section::SectorWithoutSight => 1212,
            Section::LegWithoutSight => 3330,
            Section::Cart => 7171,
            Section::LegField => 2344,
            Section::LegFieldWithoutSight => 2344,
        }
    }

    // Whether the calls answer what a record says.
    fn agrees(self, record: &[u8]) -> bool {
        match self {
            Section::Line => lines::line_agrees(record),
            Section::LineEnd => lines::line_end_agrees(record),
            Section::Readers => flow::readers_agree(record),
            Section::Init => integration::init_agrees(record),
            Section::Build => integration::build_agrees(record),
            Section::FlowNew => flow::new_agrees(record),
            Section::FlowBuild => flow::build_agrees(record),
            Section::Sector => integration::sector_agrees(record, true),
            Section::Leg => legs::leg_agrees(record, true),
            Section::Refusals => refused::refusal_agrees(record),
            Section::LegFileWrite => files::write_agrees(record),
            Section::LegFileRead => files::read_agrees(record),
            Section::Practice => seeds::floor_agrees(record),
            Section::PracticeText => seeds::text_agrees(record),
            Section::Bounds => floors::bounds_agree(record),
            Section::WindowCosts => windows::costs_agree(record),
            Section::WindowTour => windows::tour_agrees(record),
            Section::Arrivals => flow::arrivals_agree(record),
            Section::SectorWithoutSight => integration::sector_agrees(record, false),
            Section::LegWithoutSight => legs::leg_agrees(record, false),
            Section::Cart => carts::carts_agree(record),
            Section::LegField => legs::field_agrees(record, true),
            Section::LegFieldWithoutSight => legs::field_agrees(record, false),
        }
    }
}

// Reads until the record is full or the file ends, and returns how many bytes it put at the record's start. It goes on by what each read gives, so it
// counts by hand.
fn read_full<R: Read>(file: &mut R, record: &mut [u8]) -> io::Result<usize> {
    let mut done = 0;
    while done < record.len() {
        let read = file.read(&mut record[done..])?;
        if read == 0 {
            break;
        }
        done += read;
    }
    Ok(done)
}

// Compares record after record. No file has a million, and a proved loop has to end.
fn compare<R: Read>(section: Section, file: &mut R, record: &mut [u8]) -> io::Result<Compared> {
    let mut sum: u64 = 0;
    for agreed in 0..1000000 {
        let read = read_full(file, record)?;
        if read == 0 {
            return Ok(Compared::Agree(Tally { agreed, sum }));
        }
        if read != record.len() {
            return Ok(Compared::Differ(Tally { agreed, sum }));
        }
        sum = replay_records::summed(sum, record);
        if !section.agrees(record) {
            return Ok(Compared::Differ(Tally { agreed, sum }));
        }
    }
    Ok(Compared::Differ(Tally {
        agreed: 1000000,
        sum,
    }))
}

fn print_compared(rt: &impl Print, name: &str, compared: Compared) -> io::Result<()> {
    match compared {
        Compared::Agree(Tally { agreed, sum }) => {
            println!(rt; "{name}: records that agree: {agreed}, sum of the bytes: {sum}")
        }
        Compared::Differ(Tally { agreed, sum }) => println!(rt;
            "{name}: records that agree before one that differs: {agreed}, sum of the bytes: {sum}"
        ),
    }
}

// Replays a file of a section's records. The runtime itself opens the file: by `fs::open` the proof would rest on every C function of
// std's files.
fn replay(rt: &HostRuntime, section: Section, name: &str) -> io::Result<()> {
    let mut longest = [0u8; 7171];
    let mut file = rt.open_file(OpenOptions::new().read(true), name)?;
    let record = replay_records::front(&mut longest, section.record_length());
    let compared = compare(section, &mut file, record)?;
    print_compared(rt, name, compared)
}

// The files, in the order in which they are replayed: each with the section that its records belong to.
const FILES: [(Section, &str); 39] = [
    (Section::Line, "line"),
    (Section::LineEnd, "line_end.altered"),
    (Section::Readers, "readers"),
    (Section::Init, "init.altered"),
    (Section::Init, "init.table"),
    (Section::Build, "build"),
    (Section::FlowNew, "flow_new"),
    (Section::FlowBuild, "flow_build.altered"),
    (Section::Sector, "sector.altered"),
    (Section::Sector, "sector.table"),
    (Section::Leg, "leg.altered"),
    (Section::Leg, "leg.model"),
    (Section::Leg, "leg.table"),
    (Section::SectorWithoutSight, "sector_without_sight.altered"),
    (Section::SectorWithoutSight, "sector_without_sight.table"),
    (Section::LegWithoutSight, "leg_without_sight.altered"),
    (Section::LegWithoutSight, "leg_without_sight.model"),
    (Section::LegWithoutSight, "leg_without_sight.table"),
    (Section::Refusals, "refusals.table"),
    (Section::LegFileWrite, "leg_file_write.model"),
    (Section::LegFileRead, "leg_file_read.model"),
    (Section::Practice, "practice.model"),
    (Section::PracticeText, "practice_text.model"),
    (Section::Bounds, "bounds.model"),
    (Section::Bounds, "bounds.table"),
    (Section::WindowCosts, "window_costs.model"),
    (Section::WindowCosts, "window_costs.table"),
    (Section::WindowTour, "window_tour.model"),
    (Section::WindowTour, "window_tour.table"),
    (Section::Arrivals, "arrivals.model"),
    (Section::Arrivals, "arrivals.table"),
    (Section::Cart, "cart.model"),
    (Section::Cart, "cart.table"),
    (Section::LegField, "leg_field.altered"),
    (Section::LegField, "leg_field.model"),
    (Section::LegField, "leg_field.table"),
    (
        Section::LegFieldWithoutSight,
        "leg_field_without_sight.altered",
    ),
    (
        Section::LegFieldWithoutSight,
        "leg_field_without_sight.model",
    ),
    (
        Section::LegFieldWithoutSight,
        "leg_field_without_sight.table",
    ),
];

fn main(rt: HostRuntime) -> io::Result<()> {
    for (section, name) in FILES {
        replay(&rt, section, name)?;
    }
    Ok(())
}
