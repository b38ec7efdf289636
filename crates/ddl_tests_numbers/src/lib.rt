//! Tests of numbers, bits and sets: `ddl_arith`, `ddl_base`, `ddl_bits`, `ddl_class` and `ddl_types`.
#![tactic(auto)]

#[cfg(test)]
mod arith;
#[cfg(test)]
mod base;
#[cfg(test)]
mod bits;
#[cfg(test)]
mod class;
#[cfg(test)]
mod types;
