// The sums over a patch: its controls, combined by their weights and by the functions of the two axes.
#![tactic(auto)]

ghost use Rattle.std.specs.Prelude.{◌≡◌, false, ◌+◌, ◌*◌, ◌≤◌, ◌<◌, length, get_or};
ghost use Rattle.std.specs.Float.Ieee.{is_nan};
ghost use Rattle.std.specs.Float.{nan};
ghost use Rattle.float64.specs.Operators.{◌⊘◌};
ghost use Rattle.float64.specs.Functions.{max};
ghost use Rattle.patch.specs.Patch.{add_control, three_of};
ghost use Rattle.net.specs.Sums.{turns, rows_of, columns_of, control_at, share_at, share_in, heaviest};
ghost use Rattle.net.specs.Net.{Patch, Holds, WeighedNet, Put, three_at, number_at, term, sums_by, sum_by};

use domain::Shape;
use float64::larger;
use patch::{Derivatives, Sum, Sums, add_control, empty_sum, empty_sums, more};
use vector3::Vector3;

// The weights of `count` controls from `at` on, each divided by `scale`, put into the net from `from` on. The largest of them and w.
fn scale_along(
    weights: &[f64],
    scale: f64,
    at: usize,
    count: usize,
    w: f64,
    net: &mut [f64; 289],
    from: usize,
) -> f64
    requires { (at + count ≤ length weights.now) × (from + count ≤ 289) × (length net.old ≡ 289) × (is_nan w ≡ false) }
    ensures value { (result ≡ turns (λ j w. max w (share_at weights.now scale (at + j))) count w) × (is_nan result ≡ false) }
    ensures put { Put (λ j. share_at weights.now scale (at + j)) from count net.old net.new }
{
    let mut most = w;
    for j in 0..count {
        let scaled = weights[at + j] / scale;
        net[from + j] = scaled;
        most = larger(most, scaled);
    }
    most
}

// The same of a patch, a row after the other.
fn scale_over(
    shape: Shape,
    weights: &[f64],
    scale: f64,
    row: usize,
    column: usize,
    net: &mut [f64; 289],
) -> f64
    requires { (length weights.now ≡ shape.u.controls * shape.v.controls) × Patch shape row column × (length net.old ≡ 289) }
    ensures { (result ≡ heaviest shape row column weights.now scale) × Holds (rows_of shape) (columns_of shape) (share_in shape row column weights.now scale) net.new }
{
    let along_u = shape.u;
    let along_v = shape.v;
    let columns = along_v.degree + 1;
    let stride = along_v.controls;
    let mut most = 0.0;
    for i in 0..along_u.degree + 1 {
        let at = (row + i) * stride + column;
        most = scale_along(weights, scale, at, columns, most, net, i * columns);
    }
    most
}

// The first `count` numbers of the net divided by `most`.
fn divide(net: &mut [f64; 289], count: usize, most: f64)
    requires { (count ≤ 289) × (length net.old ≡ 289) }
    ensures { Put (λ q. get_or net.old q nan ⊘ most) 0 count net.old net.new }
{
    for i in 0..count {
        net[i] = net[i] / most;
    }
}

// The weights of the patch that starts at a row and a column, as they count there: divided by the largest of all, and then by the largest of the patch. What the net holds beyond the numbers of the patch is left open.
pub fn weigh(
    shape: Shape,
    weights: &[f64],
    scale: f64,
    row: usize,
    column: usize,
    net: &mut [f64; 289],
)
    requires { (length weights.now ≡ shape.u.controls * shape.v.controls) × Patch shape row column × (length net.old ≡ 289) }
    ensures { WeighedNet shape weights.now scale row column net.new }
{
    let u = shape.u;
    let v = shape.v;
    let most = scale_over(shape, weights, scale, row, column, net);
    divide(net, (u.degree + 1) * (v.degree + 1), most);
}

fn control(controls: &[f64], i: usize) -> Vector3
    requires { 3 * i + 2 < length controls.now }
    ensures { result ≡ control_at controls.now i }
{
    Vector3 {
        x: controls[3 * i],
        y: controls[3 * i + 1],
        z: controls[3 * i + 2],
    }
}

// The sums with the controls of a row added, `count` from `at` on, whose weights stand in the net from `from` on. The function of u there has the derivatives a.
fn sums_along(
    controls: &[f64],
    net: &[f64; 289],
    from: usize,
    a: Derivatives,
    v: &[[f64; 18]; 3],
    at: usize,
    count: usize,
    start: Sums,
) -> Sums
    requires { (count ≤ 17) × (from + count ≤ 289) × (3 * (at + count) ≤ length controls.now) }
    ensures { result ≡ turns (λ j t. add_control (three_of a) (three_at v.now j) (get_or net.now (from + j) nan) (control_at controls.now (at + j)) t) count start }
{
    let mut sums = start;
    for j in 0..count {
        let b = Derivatives {
            value: v[0][j],
            first: v[1][j],
            second: v[2][j],
        };
        sums = add_control(a, b, net[from + j], control(controls, at + j), sums);
    }
    sums
}

// The sums over the patch that starts at a row and a column.
pub fn sums_over(
    shape: Shape,
    controls: &[f64],
    net: &[f64; 289],
    u: &[[f64; 18]; 3],
    row: usize,
    v: &[[f64; 18]; 3],
    column: usize,
) -> Sums
    requires { (length controls.now ≡ 3 * (shape.u.controls * shape.v.controls)) × Patch shape row column }
    ensures { result ≡ sums_by shape controls.now row column net.now u.now v.now }
{
    let along_u = shape.u;
    let along_v = shape.v;
    let columns = along_v.degree + 1;
    let stride = along_v.controls;
    let mut sums = empty_sums();
    for i in 0..along_u.degree + 1 {
        let a = Derivatives {
            value: u[0][i],
            first: u[1][i],
            second: u[2][i],
        };
        let at = (row + i) * stride + column;
        sums = sums_along(controls, net, i * columns, a, v, at, columns, sums);
    }
    sums
}

// One sum alone, of a row, by one number of each function: a is that of u.
fn sum_along(
    controls: &[f64],
    net: &[f64; 289],
    from: usize,
    a: f64,
    v: &[f64; 18],
    at: usize,
    count: usize,
    start: Sum,
) -> Sum
    requires { (count ≤ 17) × (from + count ≤ 289) × (3 * (at + count) ≤ length controls.now) }
    ensures { result ≡ turns (λ j t. term a (number_at v.now j) (get_or net.now (from + j) nan) (control_at controls.now (at + j)) t) count start }
{
    let mut sum = start;
    for j in 0..count {
        sum = more(a * v[j] * net[from + j], control(controls, at + j), sum);
    }
    sum
}

// The same of the patch that starts at a row and a column.
pub fn sum_over(
    shape: Shape,
    controls: &[f64],
    net: &[f64; 289],
    u: &[f64; 18],
    row: usize,
    v: &[f64; 18],
    column: usize,
) -> Sum
    requires { (length controls.now ≡ 3 * (shape.u.controls * shape.v.controls)) × Patch shape row column }
    ensures { result ≡ sum_by shape controls.now row column net.now u.now v.now }
{
    let along_u = shape.u;
    let along_v = shape.v;
    let columns = along_v.degree + 1;
    let stride = along_v.controls;
    let mut sum = empty_sum();
    for i in 0..along_u.degree + 1 {
        let at = (row + i) * stride + column;
        sum = sum_along(controls, net, i * columns, u[i], v, at, columns, sum);
    }
    sum
}
