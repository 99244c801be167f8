// Examples of the layers below the program, run as tests. They stand apart so that no large crate is proved twice.
#![tactic(auto)]

#[cfg(test)]
mod engines;
#[cfg(test)]
mod flats;
#[cfg(test)]
mod node_words;
