// What a caller of the library lends: how its numbers are read, and whether they fit.
#![tactic(auto)]

ghost use Rattle.std.specs.Prelude.{◌≡◌};
ghost use Rattle.lent.specs.Lent.{window_from, hint_of, period_of, terms_of, sound_flags, sound_window, sound_surface, sound_options, roomy, roomy_row, roomy_edges, fits_quote, fits_jet, fits_inversion, fits_row, fits_derivative, fits_edges, fits_job};

use chart::{Period, Terms};
use domain::Window;
use inversion::Hint;
use job::MOST_PRINTED;

pub fn window_from(window: &[f64]) -> Window
    ensures { result ≡ window_from window.now }
{
    if window.len() != 4 {
        return Window::Whole;
    }
    Window::Within(window[0], window[1], window[2], window[3])
}

fn hint_of(hint: &[f64]) -> Hint
    ensures { result ≡ hint_of hint.now }
{
    if hint.len() != 2 {
        return Hint::Nothing;
    }
    Hint::At(hint[0], hint[1])
}

fn period_of(period: &[f64]) -> Period
    ensures { result ≡ period_of period.now }
{
    if period.len() != 1 {
        return Period::Free;
    }
    Period::Every(period[0])
}

pub fn terms_of(hint: &[f64], tolerance: f64, pu: &[f64], pv: &[f64]) -> Terms
    ensures { result ≡ terms_of hint.now tolerance pu.now pv.now }
{
    Terms {
        hint: hint_of(hint),
        tolerance,
        u: period_of(pu),
        v: period_of(pv),
    }
}

fn sound_flags(flags: u64) -> bool
    ensures { result ≡ sound_flags flags }
{
    flags <= 3
}

fn sound_window(window: usize) -> bool
    ensures { result ≡ sound_window window }
{
    (window == 0) | (window == 4)
}

fn sound_surface(flags: u64, window: usize) -> bool
    ensures { result ≡ sound_surface flags window }
{
    sound_flags(flags) & sound_window(window)
}

fn sound_options(hint: usize, pu: usize, pv: usize) -> bool
    ensures { result ≡ sound_options hint pu pv }
{
    ((hint == 0) | (hint == 2)) & (pu <= 1) & (pv <= 1)
}

pub fn roomy(budget: usize, pair: usize) -> bool
    ensures { result ≡ roomy budget pair }
{
    (1 <= budget) & (2 <= pair)
}

fn roomy_row(budget: usize, index: usize) -> bool
    ensures { result ≡ roomy_row budget index }
{
    (1 <= budget) & (1 <= index)
}

fn roomy_edges(collapsed: usize, edges: usize) -> bool
    ensures { result ≡ roomy_edges collapsed edges }
{
    (4 <= collapsed) & (20 <= edges)
}

pub fn fits_quote(flags: u64, window: usize, hinted: u64, quote: usize) -> bool
    ensures { result ≡ fits_quote flags window hinted quote }
{
    sound_surface(flags, window) & (hinted <= 1) & (2 <= quote)
}

pub fn fits_jet(flags: u64, window: usize, jet: usize) -> bool
    ensures { result ≡ fits_jet flags window jet }
{
    sound_surface(flags, window) & (9 <= jet)
}

pub fn fits_inversion(
    flags: u64,
    window: usize,
    hint: usize,
    pu: usize,
    pv: usize,
    budget: usize,
    pair: usize,
    ended: usize,
) -> bool
    ensures { result ≡ fits_inversion flags window hint pu pv budget pair ended }
{
    sound_surface(flags, window) & sound_options(hint, pu, pv) & roomy(budget, pair) & (2 <= ended)
}

pub fn fits_row(
    flags: u64,
    window: usize,
    hint: usize,
    pu: usize,
    pv: usize,
    budget: usize,
    index: usize,
) -> bool
    ensures { result ≡ fits_row flags window hint pu pv budget index }
{
    sound_surface(flags, window) & sound_options(hint, pu, pv) & roomy_row(budget, index)
}

pub fn fits_derivative(flags: u64, window: usize, budget: usize, pair: usize) -> bool
    ensures { result ≡ fits_derivative flags window budget pair }
{
    sound_surface(flags, window) & roomy(budget, pair)
}

pub fn fits_edges(flags: u64, window: usize, collapsed: usize, edges: usize) -> bool
    ensures { result ≡ fits_edges flags window collapsed edges }
{
    sound_surface(flags, window) & roomy_edges(collapsed, edges)
}

pub fn fits_job(printout: usize, written: usize) -> bool
    ensures { result ≡ fits_job printout written }
{
    (MOST_PRINTED <= printout) & (1 <= written)
}
