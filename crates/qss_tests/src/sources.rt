//! Linear models generated from seeds.

use crate::chance::Chance;
use crate::grammar::{COUNTS, DISCRETES, STATES, letter_in, texts_of};
use std::alloc::Global;

// An upper bound for the bytes and placeholders of a model.
const LONGEST: usize = 1 << 16;

/// The kind of a model: usual, closely coupled, growing, slow, with large numbers, or with large
/// numbers and no constant terms.
#[derive(Clone, Copy, Drop)]
pub(crate) enum Sort {
    Usual,
    Close,
    Growing,
    Slow,
    Large,
    Free,
}

// A model while it is generated: the names of its variables, its kind, and its bytes so far.
#[derive(Drop)]
struct Draft {
    alloc: Global,
    chance: Chance,
    states: &'static [&'static str],
    discretes: &'static [&'static str],
    sort: Sort,
    bytes: Vec<u8>,
}

impl Draft {
    // A random text of a letter. In a model without discrete variables, the text contains none.
    fn text_of(&mut self, letter: u8) -> &'static str {
        let texts = match letter {
            b'x' => self.states,
            b'd' => self.discretes,
            _ => texts_of(letter_in(self.sort, letter)),
        };
        let text = texts
            .get(self.chance.below(texts.len()))
            .copied()
            .unwrap_or("");
        if self.discretes.is_empty() && text.contains("$d") {
            texts.first().copied().unwrap_or("")
        } else {
            text
        }
    }

    // Writes a text, with a random text for each placeholder.
    fn write(&mut self, text: &str) -> Option<()> {
        let mut left = Vec::new(self.alloc);
        push_reversed(&mut left, text)?;
        for _ in 0..LONGEST {
            let Some(byte) = left.pop() else {
                return Some(());
            };
            if byte == b'$' {
                let text = self.text_of(left.pop()?);
                push_reversed(&mut left, text)?;
            } else {
                self.bytes.push(byte).ok()?;
            }
        }
        None
    }

    // Writes the declarations.
    fn declare(&mut self) -> Option<()> {
        for state in self.states {
            self.write("Real ")?;
            self.write(state)?;
            self.write("(start = $s); ")?;
        }
        for discrete in self.discretes {
            self.write("discrete Real ")?;
            self.write(discrete)?;
            self.write("(start = $v); ")?;
        }
        Some(())
    }

    // Writes an equation for each state.
    fn define(&mut self) -> Option<()> {
        for state in self.states {
            self.write("der(")?;
            self.write(state)?;
            self.write(") = $r*")?;
            self.write(state)?;
            self.write("$b$t$t; ")?;
        }
        Some(())
    }
}

// The kinds. The usual one occurs three times.
const SORTS: [Sort; 8] = [
    Sort::Usual,
    Sort::Usual,
    Sort::Usual,
    Sort::Close,
    Sort::Growing,
    Sort::Slow,
    Sort::Large,
    Sort::Free,
];

/// The model of a seed: 1 to 16 states, at most two discrete variables, no clauses. `None` if an
/// allocation fails.
pub(crate) fn source_of(alloc: Global, seed: u64) -> Option<Vec<u8>> {
    let mut chance = Chance::new(seed);
    let count = COUNTS.get(chance.below(COUNTS.len())).copied()?;
    let states = STATES.get(..count)?;
    let discretes = DISCRETES.get(..chance.below(3))?;
    let sort = SORTS.as_slice().get(chance.below(8)).copied()?;
    let mut draft = Draft {
        alloc,
        chance,
        states,
        discretes,
        sort,
        bytes: Vec::new(alloc),
    };
    draft.write("model m ")?;
    draft.declare()?;
    draft.write("equation ")?;
    draft.define()?;
    draft.write("annotation(experiment(StopTime = 1, $g)); end m;")?;
    Some(draft.bytes)
}

// Appends the bytes of a text in reverse order.
fn push_reversed(bytes: &mut Vec<u8>, text: &str) -> Option<()> {
    for byte in text.as_bytes().iter().rev() {
        bytes.push(*byte).ok()?;
    }
    Some(())
}
