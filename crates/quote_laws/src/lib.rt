// What a quote promises of the grid, of an inversion's price and of a row's units (specs/). There is no code here.
#![tactic(auto)]
