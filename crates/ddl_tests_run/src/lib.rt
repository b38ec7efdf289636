//! Tests of what runs: `ddl_outside`, `ddl_names`, `ddl_groups`, `ddl_modules`, `ddl_front`, `ddl_simple` and `ddl_top`.
#![tactic(auto)]

#[cfg(test)]
mod front;
#[cfg(test)]
mod groups;
#[cfg(test)]
mod modules;
#[cfg(test)]
mod names;
#[cfg(test)]
mod outside;
#[cfg(test)]
mod simple;
#[cfg(test)]
mod top;
