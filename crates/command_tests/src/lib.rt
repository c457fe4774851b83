//! Tests of the commands that say one text: `check`, `map`, `places`, `answer`, `repair` and `large`, and of words that are none. There is nothing else here.
#![tactic(auto)]

#[cfg(test)]
mod answers;
#[cfg(test)]
mod circles;
#[cfg(test)]
mod classes;
#[cfg(test)]
mod example;
#[cfg(test)]
mod large_world;
#[cfg(test)]
mod limits;
#[cfg(test)]
mod map_texts;
#[cfg(test)]
mod maps;
#[cfg(test)]
mod places;
#[cfg(test)]
mod repairs;
#[cfg(test)]
mod usage;
#[cfg(test)]
mod verdicts;
