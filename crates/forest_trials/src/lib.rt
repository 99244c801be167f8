// Examples of the three banks over one machine, run as tests. They stand apart so that no large crate is proved twice.
#![tactic(auto)]

#[cfg(test)]
mod fixeds;
#[cfg(test)]
mod growings;
#[cfg(test)]
mod mixed;
#[cfg(test)]
mod turns;
