// A point's distance from the mark: the only root that a run takes, counted where it is taken.
ghost use Rattle.std.specs.Prelude.{◌≡◌, ◌≤◌};
ghost use Rattle.newton.specs.Run.{measured};

use crate::Measured;
use patch::Jet;
use vector3::{Vector3, distance};

// After so many roots.
pub(crate) fn measure(mark: Vector3, jet: Jet, roots: u64) -> Measured
    requires { roots ≤ 32 }
    ensures { result ≡ measured mark jet roots }
{
    Measured {
        distance: distance(jet.point, mark),
        roots: roots + 1,
    }
}
