// The job file: where its records stand, and its numbers as floats.
#![tactic(auto)]

ghost use Rattle.std.specs.Prelude.{◌≡◌, true, cond, [], ◌∷◌, ◌++◌, ◌+◌, ◌*◌, ◌^◌, ◌≤◌, ◌<◌, length, drop, get_or};
ghost use Rattle.domain.specs.declared.Window.TheVariants.{Whole};
ghost use Rattle.job_format.specs.Format.{most_bytes, header_size, window_size, mark_size, malformed, read, mark, counts, knots, controls, mark_records, after_surface, after_header, parse};
ghost use Rattle.job_format.specs.Offsets.{Small, Laid, told, size_of, after, float_at, floats_at, window_at, surface_at, mark_at, marks_at};

use domain::{Counts, Shape, Window, shape_of};
use vector3::Vector3;
use words::{pair_at, wide};

pub const MOST_BYTES: usize = 32_768;

// What stands before the surface's numbers.
pub const HEADER_SIZE: usize = 9;

const WINDOW_SIZE: usize = 32;

pub const TERMS_SIZE: usize = 18;

pub const MARK_SIZE: usize = 26;

#[derive(Clone, Copy)]
pub enum Layout {
    Malformed,
    // The surface's shape, and how many marks there are.
    WellFormed(Shape, usize),
}

// The shape, its window whole as yet, and whether a window follows the weights.
#[derive(Clone, Copy)]
struct Header {
    shape: Shape,
    windowed: bool,
}

#[tactic(auto, using(crate::specs::FormatLaws::too_long), unfolding(crate::specs::Offsets::told))]
pub fn layout_of(bytes: &[u8]) -> Layout
    ensures bytes_value { parse bytes.now ≡ told result bytes.now }
    ensures laid { Laid (length bytes.now) result }
{
    if MOST_BYTES < bytes.len() {
        return Layout::Malformed;
    }
    if bytes.len() < HEADER_SIZE {
        return Layout::Malformed;
    }
    if !is_mark(bytes, 0, b'S', b'F') {
        return Layout::Malformed;
    }
    if 7 < bytes[8] {
        return Layout::Malformed;
    }
    after_header(bytes, header_of(bytes))
}

// The floats from index `at` on, into the front of the numbers.
pub fn decode(bytes: &[u8], at: usize, count: usize, numbers: &mut [f64])
    requires { (at + 8 * count ≤ length bytes.now) × (count ≤ length numbers.old) }
    ensures { numbers.new ≡ floats_at count bytes.now at ++ drop count numbers.old }
{
    for i in 0..count {
        numbers[i] = number_at(bytes, at + 8 * i);
    }
}

pub fn number_at(bytes: &[u8], at: usize) -> f64
    requires { at + 8 ≤ length bytes.now }
    ensures { result ≡ float_at bytes.now at }
{
    words::float(words::word_at(bytes, at))
}

// The mark whose record starts at index `at`.
pub fn mark_at(bytes: &[u8], at: usize) -> Vector3
    requires { at + mark_size ≤ length bytes.now }
    ensures { result ≡ mark_at bytes.now at }
{
    Vector3 {
        x: number_at(bytes, at + 2),
        y: number_at(bytes, at + 10),
        z: number_at(bytes, at + 18),
    }
}

// Of one axis.
pub fn knots(n: Counts) -> usize
    requires { n.controls + n.degree < 2 ^ 20 }
    ensures { (result ≡ knots n) × (result ≤ 2 ^ 20) }
{
    n.controls + n.degree + 1
}

pub fn controls(shape: Shape) -> usize
    requires { (shape.u.controls < 65536) × (shape.v.controls < 65536) }
    ensures { (result ≡ controls shape) × (result < 2 ^ 32) }
{
    let nu = shape.u.controls;
    let nv = shape.v.controls;
    nu * nv
}

// In bytes.
pub fn size_of(window: Window) -> usize
    ensures { (result ≡ size_of window) × (result ≤ window_size) }
{
    match window {
        Window::Whole => 0,
        Window::Within(_, _, _, _) => WINDOW_SIZE,
    }
}

// Where the surface ends.
fn surface_end(shape: Shape) -> usize
    requires { Small shape }
    ensures { (result ≡ after shape) × (result < 2 ^ 40) }
{
    let u = shape.u;
    let v = shape.v;
    let window = shape.window;
    HEADER_SIZE + 8 * (knots(u) + knots(v) + 4 * controls(shape)) + size_of(window)
}

// The window whose numbers start at index `at`.
fn window_at(bytes: &[u8], at: usize) -> Window
    requires { at + window_size ≤ length bytes.now }
    ensures { result ≡ window_at true bytes.now at }
{
    Window::Within(
        number_at(bytes, at),
        number_at(bytes, at + 8),
        number_at(bytes, at + 16),
        number_at(bytes, at + 24),
    )
}

fn after_header(bytes: &[u8], header: Header) -> Layout
    requires { (header_size ≤ length bytes.now) × (length bytes.now ≤ most_bytes) × Small header.shape × (header.shape.window ≡ Whole) }
    ensures bytes_value { after_header header (drop header_size bytes.now) ≡ told result bytes.now }
    ensures laid { Laid (length bytes.now) result }
{
    let shape = header.shape;
    if !header.windowed {
        return after_surface(bytes, shape);
    }
    let at = surface_end(shape);
    if bytes.len() < at + WINDOW_SIZE {
        return Layout::Malformed;
    }
    let u = shape.u;
    let v = shape.v;
    let window = window_at(bytes, at);
    after_surface(bytes, Shape { u, v, window })
}

fn after_surface(bytes: &[u8], shape: Shape) -> Layout
    requires { (header_size ≤ length bytes.now) × (length bytes.now ≤ most_bytes) × Small shape }
    ensures bytes_value { after_surface (surface_at shape bytes.now) (drop (after shape) bytes.now) ≡ told result bytes.now }
    ensures laid { Laid (length bytes.now) result }
{
    let at = surface_end(shape);
    if bytes.len() < at + TERMS_SIZE {
        return Layout::Malformed;
    }
    if !is_mark(bytes, at, b'T', b'L') {
        return Layout::Malformed;
    }
    let left = bytes.len() - (at + TERMS_SIZE);
    if left % MARK_SIZE != 0 {
        return Layout::Malformed;
    }
    let marks = left / MARK_SIZE;
    if !all_marks(bytes, at + TERMS_SIZE, marks) {
        return Layout::Malformed;
    }
    Layout::WellFormed(shape, marks)
}

fn header_of(bytes: &[u8]) -> Header
    requires { (header_size ≤ length bytes.now) × (get_or bytes.now 8 0 ≤ 7) }
    ensures { (counts (drop 2 bytes.now) ≡ read result (drop header_size bytes.now)) × Small result.shape × (result.shape.window ≡ Whole) }
{
    let flags = wide(bytes[8]);
    let shape = shape_of(
        wide(bytes[2]) as usize,
        wide(bytes[3]) as usize,
        pair_at(bytes, 4) as usize,
        pair_at(bytes, 6) as usize,
        flags,
        Window::Whole,
    );
    Header {
        shape,
        windowed: flags / 4 % 2 == 1,
    }
}

// Whether `marks` records of a mark follow each other from index `at` on.
fn all_marks(bytes: &[u8], at: usize, marks: usize) -> bool
    requires { at + mark_size * marks ≤ length bytes.now }
    ensures { mark_records marks (drop at bytes.now) ≡ cond result (read (marks_at marks bytes.now at) (drop (at + mark_size * marks) bytes.now)) malformed }
{
    for i in 0..marks {
        if !is_mark(bytes, at + MARK_SIZE * i, b'M', b'K') {
            return false;
        }
    }
    true
}

fn is_mark(bytes: &[u8], at: usize, first: u8, second: u8) -> bool
    requires { at + 2 ≤ length bytes.now }
    ensures { mark (first ∷ second ∷ []) (drop at bytes.now) ≡ cond result (read tt (drop (at + 2) bytes.now)) malformed }
{
    (bytes[at] == first) & (bytes[at + 1] == second)
}
