// The calls, as a record's first word names them: document 01's, then Rust's own methods of f64.
pub const WEIGHTS: u64 = 1;

pub const KNOTS: u64 = 2;

pub const SNAP: u64 = 3;

pub const SPAN: u64 = 4;

pub const BASIS: u64 = 5;

pub const WRAP: u64 = 6;

pub const EVALUATE: u64 = 7;

pub const NEAREST: u64 = 8;

pub const INVERT: u64 = 9;

pub const PLANE: u64 = 10;

pub const DERIVATIVE: u64 = 11;

pub const NURBS_SINGULAR: u64 = 12;

pub const ROW: u64 = 13;

pub const JOB: u64 = 14;

pub const IS_FINITE: u64 = 15;

pub const ABS: u64 = 16;

pub const MAX: u64 = 17;

pub const CLAMP: u64 = 18;

pub const ROOT: u64 = 19;

pub const ROUND: u64 = 20;

pub const REM_EUCLID: u64 = 21;
