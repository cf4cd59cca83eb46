// A shape from plain numbers, as a file or a caller gives them.
ghost use Rattle.std.specs.Prelude.{◌≡◌};
ghost use Rattle.domain.specs.Flags.{shape_of};

use crate::{Counts, Shape, Window};

pub fn shape_of(du: usize, dv: usize, nu: usize, nv: usize, flags: u64, window: Window) -> Shape
    ensures { result ≡ shape_of du dv nu nv flags window }
{
    Shape {
        u: Counts {
            degree: du,
            controls: nu,
            periodic: flags % 2 == 1,
        },
        v: Counts {
            degree: dv,
            controls: nv,
            periodic: flags / 2 % 2 == 1,
        },
        window,
    }
}
