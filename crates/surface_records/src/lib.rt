// The part of a record that says which surface is lent.
#![tactic(auto)]

ghost use Rattle.std.specs.Prelude.{◌≡◌, length};
ghost use Rattle.cursor.specs.Cursors.{Within};
ghost use Rattle.surface_records.specs.Surfaces.{Inside, window_by, surface_at};

use cursor::{Cursor, Part};
use domain::{Shape, Window, shape_of};
use words::float;

// The shape, and where in the record the numbers stand that are lent with it, and the window's. The record goes on where the window ends.
#[derive(Clone, Copy)]
pub struct Lent {
    pub shape: Shape,
    pub ku: Part,
    pub kv: Part,
    pub controls: Part,
    pub weights: Part,
    pub window: Part,
}

// Four numbers are a window, and none or another count is the whole domain.
fn window_by(words: &[u64], part: Part) -> Window
    requires { Within (length words.now) part }
    ensures { result ≡ window_by words.now part }
{
    let from = part.from;
    if part.to - from != 4 {
        return Window::Whole;
    }
    Window::Within(
        float(words[from]),
        float(words[from + 1]),
        float(words[from + 2]),
        float(words[from + 3]),
    )
}

// Both degrees, both counts of controls, the flags; then five lists of numbers, the last of them the window.
pub fn lent_surface(c: Cursor, words: &[u64]) -> Lent
    ensures value { result ≡ surface_at words.now c }
    ensures inside { Inside (length words.now) result }
{
    let du = c.word(words);
    let c = du.next;
    let dv = c.word(words);
    let c = dv.next;
    let nu = c.word(words);
    let c = nu.next;
    let nv = c.word(words);
    let c = nv.next;
    let flags = c.word(words);
    let c = flags.next;
    let ku = c.numbers(words);
    let c = ku.next;
    let kv = c.numbers(words);
    let c = kv.next;
    let controls = c.numbers(words);
    let c = controls.next;
    let weights = c.numbers(words);
    let c = weights.next;
    let window = c.numbers(words);
    let shape = shape_of(
        du.value as usize,
        dv.value as usize,
        nu.value as usize,
        nv.value as usize,
        flags.value,
        window_by(words, window),
    );
    Lent {
        shape,
        ku,
        kv,
        controls,
        weights,
        window,
    }
}
