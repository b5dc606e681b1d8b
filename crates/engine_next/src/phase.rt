// What the machine awaits. In its memory a phase is a number.
ghost use Rattle.std.specs.Prelude.{◌≡◌};
ghost use Rattle.engine_next.specs.Phases.{part_number, phase_number, phase_of, stage_number};

use pages::journal::Part;
use pages::side::Side;
use pages::waking::Stage;

// A person joins.
#[derive(Clone, Copy, Debug, PartialEq, Eq)]
pub enum Join {
    // The root page.
    Root,
    // A page of people, for their names.
    Names,
    // The page that the new person is put on.
    People,
}

#[derive(Clone, Copy, Debug, PartialEq, Eq)]
pub enum Phase {
    Idle,
    Waking(Stage),
    Committing(Part),
    Joining(Join),
    // What the command shows.
    Telling,
}

// Numbers that name nothing are taken for idle.
impl From<u64> for Phase {
    ghost from_gives = { λ number phase. phase ≡ phase_of number };

    #[tactic(auto, unfolding(crate::specs::Phases::phase_of))]
    fn from(number: u64) -> Phase {
        match number {
            1 => Phase::Waking(Stage::Header(Side::First)),
            2 => Phase::Waking(Stage::Header(Side::Second)),
            3 => Phase::Waking(Stage::Mending),
            4 => Phase::Waking(Stage::Wiping),
            5 => Phase::Waking(Stage::Marking),
            6 => Phase::Waking(Stage::Asking),
            7 => Phase::Waking(Stage::Copying),
            8 => Phase::Waking(Stage::Heading),
            9 => Phase::Waking(Stage::Slot(Side::First)),
            10 => Phase::Waking(Stage::Home(Side::First)),
            11 => Phase::Waking(Stage::Slot(Side::Second)),
            12 => Phase::Waking(Stage::Home(Side::Second)),
            13 => Phase::Committing(Part::Area),
            14 => Phase::Committing(Part::Slot(Side::First)),
            15 => Phase::Committing(Part::Slot(Side::Second)),
            16 => Phase::Committing(Part::Head(Side::First)),
            17 => Phase::Committing(Part::Head(Side::Second)),
            18 => Phase::Committing(Part::Home(Side::First)),
            19 => Phase::Committing(Part::Home(Side::Second)),
            20 => Phase::Joining(Join::Root),
            21 => Phase::Joining(Join::Names),
            22 => Phase::Joining(Join::People),
            23 => Phase::Telling,
            _ => Phase::Idle,
        }
    }
}

impl From<Phase> for u64 {
    ghost from_gives = { λ phase number. number ≡ phase_number phase };

    fn from(phase: Phase) -> u64 {
        match phase {
            Phase::Idle => 0,
            Phase::Waking(stage) => stage_number(stage),
            Phase::Committing(part) => part_number(part),
            Phase::Joining(Join::Root) => 20,
            Phase::Joining(Join::Names) => 21,
            Phase::Joining(Join::People) => 22,
            Phase::Telling => 23,
        }
    }
}

// Stage and Part are another crate's, so no From for them can stand here.
fn stage_number(stage: Stage) -> u64
    ensures { result ≡ stage_number stage }
{
    match stage {
        Stage::Header(side) => 1 + u64::from(side),
        Stage::Mending => 3,
        Stage::Wiping => 4,
        Stage::Marking => 5,
        Stage::Asking => 6,
        Stage::Copying => 7,
        Stage::Heading => 8,
        Stage::Slot(side) => 9 + 2 * u64::from(side),
        Stage::Home(side) => 10 + 2 * u64::from(side),
    }
}

fn part_number(part: Part) -> u64
    ensures { result ≡ part_number part }
{
    match part {
        Part::Area => 13,
        Part::Slot(side) => 14 + u64::from(side),
        Part::Head(side) => 16 + u64::from(side),
        Part::Home(side) => 18 + u64::from(side),
    }
}
