//! Tests of types: `ddl_unify`, `ddl_conditions`, `ddl_schemes`, `ddl_rules` and `ddl_typed`.
#![tactic(auto)]

#[cfg(test)]
mod conditions;
#[cfg(test)]
mod rules;
#[cfg(test)]
mod schemes;
#[cfg(test)]
mod typed;
#[cfg(test)]
mod types;
#[cfg(test)]
mod unify;
