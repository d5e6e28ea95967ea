// Rotation and mirror by orientation.
ghost use Rattle.std.specs.Prelude.{◌≡◌, ◌≤◌};
ghost use Rattle.properties.specs.Orientation.{turns_of};

use crate::Turns;

// For the orientations 1 to 8: by a rule of the project a table.
const TURNS: [Turns; 8] = [
    Turns {
        angle: None,
        axis: None,
    },
    Turns {
        angle: None,
        axis: Some(1),
    },
    Turns {
        angle: Some(2),
        axis: None,
    },
    Turns {
        angle: None,
        axis: Some(0),
    },
    Turns {
        angle: Some(1),
        axis: Some(0),
    },
    Turns {
        angle: Some(3),
        axis: None,
    },
    Turns {
        angle: Some(1),
        axis: Some(1),
    },
    Turns {
        angle: Some(1),
        axis: None,
    },
];

// The row of an orientation.
#[tactic(auto, using(crate::proofs::Laws::row), unfolding(crate::specs::Orientation::turns_of, crate::specs::Orientation::turn_table))]
pub fn turns_of(orientation: u8) -> Turns
    requires { (1 ≤ orientation) × (orientation ≤ 8) }
    ensures { result ≡ turns_of orientation }
{
    TURNS[usize::from(orientation - 1)]
}
