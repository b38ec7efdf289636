//! Tests of texts: `ddl_token`, `ddl_tree`, `ddl_lex`, `ddl_reader`, `ddl_report`, `ddl_show`, `ddl_source` and `ddl_syntax`.
#![tactic(auto)]

#[cfg(test)]
mod forms;
#[cfg(test)]
mod lex;
#[cfg(test)]
mod reader;
#[cfg(test)]
mod report;
#[cfg(test)]
mod show;
#[cfg(test)]
mod source;
#[cfg(test)]
mod syntax;
#[cfg(test)]
mod token;
#[cfg(test)]
mod tree;
