// Vectors of space. Sums go from the left: the order decides how they round.
#![tactic(auto)]

ghost use Rattle.std.specs.Prelude.{◌≡◌};
ghost use Rattle.vector3.specs.Vector3 as Vectors;

use float64::{is_finite, root};

#[derive(Clone, Copy)]
pub struct Vector3 {
    pub x: f64,
    pub y: f64,
    pub z: f64,
}

#[tactic(auto, unfolding(crate::specs::Vector3::sub))]
pub fn sub(a: Vector3, b: Vector3) -> Vector3
    ensures { result ≡ Vectors.sub a b }
{
    Vector3 {
        x: a.x - b.x,
        y: a.y - b.y,
        z: a.z - b.z,
    }
}

#[tactic(auto, unfolding(crate::specs::Vector3::dot))]
pub fn dot(a: Vector3, b: Vector3) -> f64
    ensures { result ≡ Vectors.dot a b }
{
    a.x * b.x + a.y * b.y + a.z * b.z
}

#[tactic(auto, unfolding(crate::specs::Vector3::norm))]
pub fn norm(a: Vector3) -> f64
    ensures { result ≡ Vectors.norm a }
{
    root(dot(a, a))
}

#[tactic(auto, unfolding(crate::specs::Vector3::distance))]
pub fn distance(a: Vector3, b: Vector3) -> f64
    ensures { result ≡ Vectors.distance a b }
{
    norm(sub(a, b))
}

#[tactic(auto, unfolding(crate::specs::Vector3::finite_vector))]
pub fn finite_vector(a: Vector3) -> bool
    ensures { result ≡ Vectors.finite_vector a }
{
    is_finite(a.x) & is_finite(a.y) & is_finite(a.z)
}
