//! Tests of formulas over letters: their forms, choices and automata, annotations of environments, and failing loops.
#![tactic(auto)]

#[cfg(test)]
mod automata;
#[cfg(test)]
mod choices;
#[cfg(test)]
mod environments;
#[cfg(test)]
mod failing;
#[cfg(test)]
mod letters;
