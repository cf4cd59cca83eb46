// A mark on a plane.
ghost use Rattle.std.specs.Prelude.{◌≡◌};
ghost use Rattle.inverter.specs.Plane.{sound_plane, local_of, placed_on};

use crate::Components;
use vector3::{Vector3, dot, finite_vector, sub};

// An origin and two axes, taken as they are lent.
#[derive(Clone, Copy)]
pub struct Frame {
    pub origin: Vector3,
    pub x: Vector3,
    pub y: Vector3,
}

// Check 7.
fn sound_plane(frame: Frame, mark: Vector3) -> bool
    ensures { result ≡ sound_plane frame mark }
{
    finite_vector(frame.origin)
        & finite_vector(frame.x)
        & finite_vector(frame.y)
        & finite_vector(mark)
}

fn local(frame: Frame, mark: Vector3) -> Components
    ensures { result ≡ local_of frame mark }
{
    let d = sub(mark, frame.origin);
    Components::Along(dot(d, frame.x), dot(d, frame.y))
}

// The coordinates of a mark in a plane's frame, for one unit. Where a number of the answer is a NaN, its payload is free; nothing else is.
pub fn invert_plane(frame: Frame, mark: Vector3, budget: u64) -> Components
    ensures { result ≡ placed_on frame mark budget }
{
    if !sound_plane(frame, mark) {
        return Components::Refusal(7, 0);
    }
    if budget == 0 {
        return Components::Refusal(8, 0);
    }
    local(frame, mark)
}
