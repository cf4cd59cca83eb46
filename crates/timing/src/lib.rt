// The port's kernels, for bench/ to time. A caller has made the checks already, as the source's constructors do: nothing here makes them again.
#![tactic(auto)]

ghost use Rattle.std.specs.Prelude.{◌≡◌};
ghost use Rattle.float64.specs.Functions.{root, rem_euclid};
ghost use Rattle.spline.specs.Knots.{axis, refusal_of_knots};
ghost use Rattle.spline.specs.declared.parameter.KnotSide.TheVariants.{Right};
ghost use Rattle.basis.specs.Basis.{basis_at};
ghost use Rattle.domain.specs.declared.Window.TheVariants.{Whole};
ghost use Rattle.domain.specs.Flags.{shape_of};
ghost use Rattle.surface.specs.Surface.{refusal_of_surface, evaluate_by};
ghost use Rattle.surface.specs.Lent.{surface_of, at_entry};
ghost use Rattle.timing.specs.Digest.{of_sample, of_jet};

use domain::Window;
use patch::Evaluated;
use spline::KnotSide;

pub fn time_root(x: f64) -> f64
    ensures { result ≡ root x }
{
    float64::root(x)
}

pub fn time_rem_euclid(x: f64, y: f64) -> f64
    ensures { result ≡ rem_euclid x y }
{
    float64::rem_euclid(x, y)
}

pub fn time_basis(knots: &[f64], degree: usize, controls: usize, u: f64) -> f64
    requires { refusal_of_knots (axis degree controls knots.now) ≡ 0 }
    ensures { result ≡ of_sample (basis_at (axis degree controls knots.now) Right u) }
{
    let b = basis::basis_on_side(knots, degree, controls, u, KnotSide::Right);
    if !b.found {
        return 0.0f64 / 0.0f64;
    }
    b.values[0] + b.firsts[0] + b.seconds[0]
}

// No axis is periodic, and the window is the whole domain.
pub fn time_evaluate(
    pu: usize,
    pv: usize,
    nu: usize,
    nv: usize,
    ku: &[f64],
    kv: &[f64],
    controls: &[f64],
    weights: &[f64],
    scale: f64,
    u: f64,
    v: f64,
) -> f64
    requires { refusal_of_surface (surface_of (shape_of pu pv nu nv 0 Whole) ku kv controls weights) ≡ 0 }
    ensures { result ≡ of_jet (evaluate_by (at_entry (shape_of pu pv nu nv 0 Whole) ku kv controls weights) scale u v) }
{
    let shape = domain::shape_of(pu, pv, nu, nv, 0, Window::Whole);
    let jet = surface::surface_jet(shape, ku, kv, controls, weights, scale, u, v);
    let Evaluated::Found(j) = jet else {
        return 0.0f64 / 0.0f64;
    };
    j.point.x + j.u.y + j.v.z
}
