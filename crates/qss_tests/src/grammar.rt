//! The text fragments of generated models. `$` and a letter denote a random text of that letter.
//! The first text of a letter contains no discrete variable.

use crate::sources::Sort;

// Start values.
const STARTS: &[&str] = &["64", "-64", "1", "10", "-33", "0", "1/3", "50"];

// Numbers.
const NUMBERS: &[&str] = &["1", "2", "5", "16", "20", "1/4", "0.7", "100"];

// Factors.
const FACTORS: &[&str] = &["1", "2", "1/2", "1/4", "3/8", "1/16", "0.1", "1/3"];

// Coefficients of a state in its own equation.
const RATES: &[&str] = &["-8", "-4", "-2", "-1", "-1", "-3/4", "-1/2", "-5", "-3"];

// Constant terms of an equation.
const DRIVES: &[&str] = &["", "", " + $n", " - $n", " + $n"];

// Start values of discrete variables.
const VALUES: &[&str] = &["0", "1", "2", "1/2", "-1", "3"];

// Quanta.
const QUANTA: &[&str] = &["1", "2", "4", "16"];

// Further terms of an equation.
const TERMS: &[&str] = &[
    "",
    "",
    " + $f*$x",
    " - $f*$x",
    " + $f*$x",
    " - $f*$x",
    " + $f*$d",
    " + $d*$x",
    " - $f*$d*$x",
];

// Settings.
const SETTINGS: &[&str] = &[
    "QSS_CoefBits = 8, QSS_TickBits = 10, QSS_LevelBits = 0, QSS_Quantum = $q",
    "QSS_CoefBits = 8, QSS_TickBits = 4, QSS_LevelBits = 2, QSS_Quantum = $q/4",
    "QSS_CoefBits = 12, QSS_TickBits = 8, QSS_LevelBits = 6, QSS_Quantum = $q/16",
    "QSS_CoefBits = 4, QSS_TickBits = 6, QSS_LevelBits = 4, QSS_Quantum = $q/8",
    "QSS_CoefBits = 24, QSS_TickBits = 10, QSS_LevelBits = 16, QSS_Quantum = $q/1024",
    "QSS_CoefBits = 2, QSS_TickBits = 0, QSS_LevelBits = 0, QSS_Quantum = $q",
    "QSS_CoefBits = 2, QSS_TickBits = 20, QSS_LevelBits = 2, QSS_Quantum = $q/4",
    "QSS_CoefBits = 4, QSS_TickBits = 16, QSS_LevelBits = 0, QSS_Quantum = $q",
    "QSS_CoefBits = 0, QSS_TickBits = 20, QSS_LevelBits = 0, QSS_Quantum = $q",
    "QSS_CoefBits = 32, QSS_TickBits = 12, QSS_LevelBits = 8, QSS_Quantum = $q",
];

// Coefficients of states that grow or almost rest.
const GROWING_RATES: &[&str] = &["1", "1/2", "0", "1/1000", "-1/1000", "2", "-1/4"];

// Coefficients of slow states.
const SLOW_RATES: &[&str] = &["-1/64", "-1/32", "-1/100", "-1/8", "-1/16"];

// Terms of closely coupled states.
const CLOSE_TERMS: &[&str] = &[
    "", " + 4*$x", " - 8*$x", " + 2*$x", " - $x", " + $d*$x", " + 3*$x",
];

// Large start values.
const LARGE_STARTS: &[&str] = &[
    "1024",
    "65536",
    "-1e6",
    "16777216",
    "268435456",
    "-1e9",
    "3e9",
    "17179869184",
    "1e11",
    "274877906944",
    "-1e12",
    "3e12",
    "6e12",
];

// Settings with many bits.
const LARGE_SETTINGS: &[&str] = &[
    "QSS_CoefBits = 12, QSS_TickBits = 10, QSS_LevelBits = 0, QSS_Quantum = $q",
    "QSS_CoefBits = 16, QSS_TickBits = 12, QSS_LevelBits = 2, QSS_Quantum = $q/4",
    "QSS_CoefBits = 24, QSS_TickBits = 20, QSS_LevelBits = 4, QSS_Quantum = $q/16",
    "QSS_CoefBits = 8, QSS_TickBits = 8, QSS_LevelBits = 0, QSS_Quantum = $q*65536",
];

/// The names of the states.
pub(crate) const STATES: &[&str] = &[
    "x1", "x2", "x3", "x4", "x5", "x6", "x7", "x8", "x9", "x10", "x11", "x12", "x13", "x14", "x15",
    "x16",
];

/// The names of the discrete variables.
pub(crate) const DISCRETES: &[&str] = &["d1", "d2"];

/// The numbers of states of a model.
pub(crate) const COUNTS: &[usize] = &[1, 1, 2, 2, 2, 3, 3, 4, 4, 5, 6, 8, 11, 16];

/// The letter that replaces a letter in models of a kind.
pub(crate) fn letter_in(sort: Sort, letter: u8) -> u8 {
    match (sort, letter) {
        (Sort::Close, b't') => b'T',
        (Sort::Growing, b'r') => b'R',
        (Sort::Slow, b'r') => b'L',
        (Sort::Large | Sort::Free, b's') => b'S',
        (Sort::Large | Sort::Free, b'g') => b'G',
        (Sort::Free, b'b') => b'B',
        _ => letter,
    }
}

/// The texts of a letter.
pub(crate) fn texts_of(letter: u8) -> &'static [&'static str] {
    match letter {
        b's' => STARTS,
        b'n' => NUMBERS,
        b'f' => FACTORS,
        b'r' => RATES,
        b'b' => DRIVES,
        b'v' => VALUES,
        b'q' => QUANTA,
        b't' => TERMS,
        b'g' => SETTINGS,
        b'T' => CLOSE_TERMS,
        b'R' => GROWING_RATES,
        b'L' => SLOW_RATES,
        b'S' => LARGE_STARTS,
        b'G' => LARGE_SETTINGS,
        _ => &[""],
    }
}
