// The static library that bench/ links: `timing` under its own names.
#![tactic(auto)]

ghost use Rattle.std.specs.Prelude.{◌≡◌};
ghost use Rattle.float64.specs.Functions.{root, rem_euclid};
ghost use Rattle.spline.specs.Knots.{axis, refusal_of_knots};
ghost use Rattle.spline.specs.declared.parameter.KnotSide.TheVariants.{Right};
ghost use Rattle.basis.specs.Basis.{basis_at};
ghost use Rattle.domain.specs.declared.Window.TheVariants.{Whole};
ghost use Rattle.domain.specs.Flags.{shape_of};
ghost use Rattle.surface.specs.Surface.{refusal_of_surface, evaluate_by};
ghost use Rattle.surface.specs.Lent.{surface_of, at_entry};
ghost use Rattle.timing.specs.Digest.{of_sample, of_jet};

#[unsafe(no_mangle)]
pub extern "C" fn time_root(x: f64) -> f64
    ensures { result ≡ root x }
{
    timing::time_root(x)
}

#[unsafe(no_mangle)]
pub extern "C" fn time_rem_euclid(x: f64, y: f64) -> f64
    ensures { result ≡ rem_euclid x y }
{
    timing::time_rem_euclid(x, y)
}

#[unsafe(no_mangle)]
pub extern "C" fn time_basis(knots: &[f64], degree: usize, controls: usize, u: f64) -> f64
    requires { refusal_of_knots (axis degree controls knots.now) ≡ 0 }
    ensures { result ≡ of_sample (basis_at (axis degree controls knots.now) Right u) }
{
    timing::time_basis(knots, degree, controls, u)
}

// No axis is periodic, and the window is the whole domain.
#[unsafe(no_mangle)]
pub extern "C" fn time_evaluate(
    pu: usize,
    pv: usize,
    nu: usize,
    nv: usize,
    ku: &[f64],
    kv: &[f64],
    controls: &[f64],
    weights: &[f64],
    scale: f64,
    u: f64,
    v: f64,
) -> f64
    requires { refusal_of_surface (surface_of (shape_of pu pv nu nv 0 Whole) ku kv controls weights) ≡ 0 }
    ensures { result ≡ of_jet (evaluate_by (at_entry (shape_of pu pv nu nv 0 Whole) ku kv controls weights) scale u v) }
{
    timing::time_evaluate(pu, pv, nu, nv, ku, kv, controls, weights, scale, u, v)
}
