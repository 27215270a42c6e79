//! Worked rows of texts: what each spells, and what is refused in it.
#![tactic(auto)]

#[cfg(test)]
mod answers;
#[cfg(test)]
mod atoms;
#[cfg(test)]
mod limits;
#[cfg(test)]
mod lists;
#[cfg(test)]
mod texts;
