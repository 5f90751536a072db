//! Tests of the crates on rules: on ids, types, constants, decorations and global variables, on the instructions of
//! functions, and on the whole module; and of the walk through a function.
#![tactic(auto)]

#[cfg(test)]
mod arithmetic;
#[cfg(test)]
mod body_rules;
#[cfg(test)]
mod calls;
#[cfg(test)]
mod composites;
#[cfg(test)]
mod composites_memory;
#[cfg(test)]
mod decorations;
#[cfg(test)]
mod entries;
#[cfg(test)]
mod exits;
#[cfg(test)]
mod folding;
#[cfg(test)]
mod ids;
#[cfg(test)]
mod modules;
#[cfg(test)]
mod repeats;
#[cfg(test)]
mod signatures;
#[cfg(test)]
mod types;
#[cfg(test)]
mod typing;
#[cfg(test)]
mod usage;
#[cfg(test)]
mod values;
#[cfg(test)]
mod walking;
