//! The examples of docs/USING.md, as tests.
#![tactic(auto)]

#[cfg(test)]
mod documents;
#[cfg(test)]
mod json;
#[cfg(test)]
mod meanings;
