// Tests of the libraries together.

#![tactic(auto)]

#[cfg(test)]
mod compared;
#[cfg(test)]
mod drawn;
#[cfg(test)]
mod explained;
#[cfg(test)]
mod mapped;
#[cfg(test)]
mod stored;
#[cfg(test)]
mod typed;
